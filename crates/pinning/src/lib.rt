//! Pinned objects, and readonly ones.
//!
//! A pinned object stands in old space and does not move. Pinning an object of new space copies it to old space and leaves a forwarder, as Spur's
//! `pinObject:` does: whoever named it names the copy from then on. A readonly object refuses stores, exchanges and forwarding; the flag is Spur's
//! immutable bit.
//!
//! The layers above rest on the three calls: each answers the first refusal of its row, in the row's order, and then changes nothing; else the heap stands
//! for the graph and the room that the object graph machine has next, up to names where an object was copied.
#![tactic(auto)]

mod flags;
mod pins;

pub use flags::{set_readonly, unpin};
pub use pins::pin;
