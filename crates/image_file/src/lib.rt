//! An image file: what stands at its front, its chain of segments, and the words of its heap.
//!
//! An image of 64-bit Spur, format 68021, is a header of 128 bytes and a heap in segments, each of which ends in a bridge of two
//! words that tells of the next one. Nothing in a file is believed before it is checked: the front is refused by its first cause,
//! with what is told of it, and a file that is shorter than the heap that its header promises is found out before memory is taken
//! for that heap. The layer above rests on this: where a front is read, its map is the chain of segments of the file, and the words that are read
//! are those of the objects of its segments, one after another, with the bridges left out.
//!
//! The words go through a piece of 64 KiB straight into the region, so there is no second copy of the heap.
#![tactic(auto)]

mod chain;
mod error;
mod front;
mod header;
mod length;
mod pieces;
#[cfg(test)]
mod tests;
mod words;

pub use error::LoadError;
pub use front::{Front, read_front};
pub use words::read_words;
