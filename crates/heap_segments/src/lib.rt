//! The segments of a heap: where each lies in the file and in the address space of the image, and which word has which address.
//!
//! An image of 64-bit Spur, format 68021, has its heap in segments. Each ends in a bridge of two words: the first has the
//! gap to the next segment's address in the form of an overflow word, the second the size of that segment, or 0 in the last one.
//! So addresses have gaps, while the words of the heap, the bridges left out, are counted through all segments.
//!
//! The layers above rest on this: an address is turned into the word that has it, and into none where it lies in a bridge or
//! a gap, or is no multiple of 8; and no two addresses have the same word. The segments rise, so both directions are found by
//! bisection, and a heap of many segments is loaded and saved as fast as one. The map takes its memory once.
#![tactic(auto)]

mod bridge;
mod entry;
mod laws;
mod map;
#[cfg(test)]
mod tests;

pub use bridge::{Next, SegmentFault, after};
pub use laws::is_one_to_one;
pub use map::AddressMap;
