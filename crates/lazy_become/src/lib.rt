//! Exchange and forwarding of objects, lazily.
//!
//! Two names change contents, or one gives way to another, and no reference is rewritten for it: a place becomes a forwarder, and who follows a word finds what
//! stands there now. That is the lazy become of Miranda and Béra (ISMM 2015); Spur's `become:` does the same, and its scan of all objects is not made here.
//! Objects that fit each other's places change contents where they stand. Of others both contents are copied into one piece of words, and both places forward
//! to the copies; that one piece serves both is this project's rule.
//!
//! The layers above rest on the two calls: each answers the first refusal of its row, in the row's order, and then changes nothing; else the heap stands for
//! the graph and the room that the object graph machine has next, up to names where contents were copied. The clauses `words` say which words were written.
#![tactic(auto)]

mod exchanging;
mod forwarding;
mod refusals;

pub use exchanging::exchange;
pub use forwarding::forward;
