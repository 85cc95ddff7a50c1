//! The words of a heap.
//!
//! A [`Region`] is all the memory of a heap: one run of 64-bit words, which contracts see as their
//! list. Everything that the layers above keep in it, as headers, slots, free chunks and bridges,
//! is words at indices. Spur's memory manager too reads and writes its one address space in 64-bit
//! units; indices of words stand here in place of its byte addresses.
//!
//! The layers above rest on one rule: **a write changes the words that it names and no other
//! word**. [`Region::put`] says so of one word, a window and each typed view of a run, and
//! [`Region::slide`] of the run to which words move down. So a caller that writes through them in
//! turn knows each word of the region afterwards, without a proof of its own.
#![tactic(auto)]

mod region;
mod slide;
#[cfg(test)]
mod tests;
mod views;

pub use region::{NoMemory, Region};
pub use slide::slide_run;
pub use views::{BridgeMut, FreeMut, HeadMut, Pair, SlotsMut};
