//! The law that names are free in the object graph machine.
//!
//! The machine gives each object a name, and a name says nothing but which object is meant: what a line is answered is the same in two states that
//! differ in names alone, and so are the states after it, up to names. A step of a run may rename every object behind its answer; a run is therefore
//! a run under fixed names with the same answers, whose last state differs in names alone. The layer above rests on these two laws: what it proves of
//! exact answers under fixed names it has of every run. A fresh object has the next name of its state, which nothing may speak of before: so the laws
//! are of states that speak only of names that have nodes, as the state of every image and of every heap does. A full collection, a scavenge and a mourning
//! lead from such a state to such a state. Names and their rule are the machine's own, which this project states.
#![tactic(auto)]

mod laws;

pub use laws::{answers_alike, collections_keep_names, runs_under_fixed_names};
