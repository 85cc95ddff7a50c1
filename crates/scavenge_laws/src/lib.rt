//! The laws of scavenging: what the copies, the rounds and the sweep of a scavenge do to a heap's graph.
//!
//! A scavenge leaves a part of new space, eden and past space: whatever lives there is copied out, and a forwarder stays until the end. Here this is
//! said of stores, cell by cell, for any test of the space that is being left; where copies go, and in which order, nobody asks.
//!
//! The names of the graph are the starts of the objects as they were when the scavenge began, and they never change: that each object has the name of
//! the place where it stood is an equation of whole graphs, which each step keeps, while the naming of places goes on with the copies. So what is
//! live is said once, over fixed names, and only a round of ephemerons changes the graph. What is to do and what is held back are predicates, since a
//! scavenger has them as ranges, as the rest of a table, or as marks. Of a heap in the middle of a scavenge no more is said than this: it is sound, it
//! stands for the graph, whatever stands outside or is led to from there is live, and forwarders and objects there name nothing inside unless they
//! are to do or held back.
//!
//! Further roots are the old names: what old space has or reaches. A page of the class table is an object whose slots are all strong; the hidden roots
//! name nothing inside, and the free lists object, whose words are no values, is looked at by nobody. At the end the heap stands for a collection of
//! the graph of before. The order of scanning is Cheney's, and ephemerons are those of Hayes; forwarders and the remembered set are Spur's.
#![tactic(auto)]

mod laws;

pub use laws::{
    clearing_keeps_graph, copy_keeps_graph, end_begins, firing_keeps_graph, forwarder_keeps_graph,
    live_stand_outside, noted_are_all, roots_keep_graph, round_is_made, scavenge_begins,
    scavenge_collects, slots_keep_graph, stuck_fire,
};
