//! Compaction in place, by a plan.
//!
//! After a marking, the objects that live are moved together, and what is between them is free again. A range is compacted within itself: a finger goes
//! up from its front, and each object goes to the finger, in the order in which the objects stand, except that a pinned one stays where it is and the finger
//! passes it where the gap before it takes no more. So where each object goes is known before one moves: it is its planned place, a function of the
//! list of the marked objects (`Planned` of `spur_graph`). [`compact`] takes each object of three ranges there, for any room that it is given.
//!
//! The room is a table of entries, each a start and a word, which is all that a compaction keeps beside the heap. A **pass** plans as many moves as the
//! table has entries, and makes them:
//!
//! 1. the first field of each object that is to move goes into the table, and 8 times its target takes its place (`swap`);
//! 2. each reference to one of these objects, in the slots of all objects and outside, is rewritten to what it finds there (`readdress`): from the first
//!    entry's start up to the last one's an object moves unless it is pinned, so that no reference is searched for;
//! 3. the first fields go back, and the objects slide down, lowest first;
//! 4. the map of starts is told.
//!
//! With an entry for each object that moves there is one pass; with fewer there are more, each of which reads all slots of all objects that live. A leading
//! run of objects that stay where they are takes no entry. The contracts of a pass say what the plan still has to do (`IsPlan`), where objects have gone
//! (`MovedBy` of `heap_laws`), and that they are the next moves of the planned ones (`IsPass`); passes compose, and after the last one nothing is left.
//!
//! Before it, [`sweep`] removes the starts of what is not marked, so that the passes meet objects that live and nothing else; after it each gap of old space
//! is one free chunk ([`fill_gaps`]), and new space is cut into its objects up to the ends that are answered.
//!
//! Spur's planning compactor goes so too (the class SpurPlanningCompactor); it keeps the first fields in what room it finds in the heap.
#![tactic(auto)]

mod gaps;
mod heap;
mod laws;
mod parts;
mod passes;
mod plan;
mod roots;
mod slides;
mod slots;
mod sweeps;
mod table;
#[cfg(test)]
mod tests;

pub use heap::compact;
pub use laws::{packed_stay, row_is_ready};
