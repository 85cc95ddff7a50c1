//! The laws by which the passes that load an image are joined.
//!
//! Each pass answers for itself: the least place at which it found a fault, or none. Here stands what the answers say of the bytes: which cause is
//! the first, and that bytes without a fault are accepted; that resolving forwarders changes no test and no graph; and that a heap with the settled
//! words and its room behind them stands for the graph and the room of the bytes. So the loader proves no more than what each pass left.
#![tactic(auto)]

mod laws;

pub use laws::{
    accepted_has_none, accepted_is_closed, any_is_least, cause_once, file_has_causes,
    file_has_names, file_is_named, heap_stands, least_is_first, loaded_is_whole, next_row,
    none_is_accepted, none_is_loadable, none_is_lost, nothing_before, resolved_has_causes,
    resolved_is_same, rows_count,
};
