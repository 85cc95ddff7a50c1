//! The laws of compaction: what the planned moves of a full collection do to a whole heap.
//!
//! A full collection marks what lives, and then moves the marked objects of each space together: old space around pinned objects, eden and past
//! space to their fronts. The compactor says this of words: each object has gone to its planned start, with its references under the new starts, and
//! the rows of the three spaces are cut anew. Here it is said of the heap, once, for any words and any places that are so: the heap is whole, it
//! stands for the graph of what was marked, up to names, its room is that behind a full collection, and nothing but marked objects is left, so no
//! forwarder. Before it, that marks and references agree gives what the compactor asks of the words.
//!
//! The rule is that of moved places: a place is no part of what an object is. So nothing here asks where objects go, but that no two go to one place and
//! each stays in its space; that these are the planned places is a promise of the compactor, which stands in the same definition.
#![tactic(auto)]

mod laws;

pub use laws::{
    compacted_has_room, compacted_is_swept, compacted_is_whole, compacted_stands, compacted_starts,
    tight_can_move,
};
