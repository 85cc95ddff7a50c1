//! Weak objects and ephemerons: how many slots of an object are strong, and the single steps of a collection that are theirs.
//!
//! A weak object keeps alive what its first slots name, as many as its class says. An ephemeron keeps alive what its slots name if its key, slot 0, is an
//! immediate or is kept alive by something else. Where the key of an ephemeron dies the ephemeron fires: it becomes an object of named slots and waits among
//! the mourners. Both are Spur's, as the class comment of its memory manager has them.
#![tactic(auto)]

mod firing;
mod nil;
mod strong;

pub use firing::{fire, mourn};
pub use nil::nil_weak;
pub use strong::{EPHEMERON_FORMAT, WEAK_FORMAT, is_keyed, strong_count};
