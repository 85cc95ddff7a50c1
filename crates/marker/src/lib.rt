//! Marking: the objects that are live are found from the roots, with a stack of starts.
#![tactic(auto)]

mod drain;
mod follow;
mod inner;
mod keys;
mod look;
mod marking;
mod nils;
mod roots;
mod rounds;
mod scan;

pub use marking::mark;
pub use rounds::finish;
