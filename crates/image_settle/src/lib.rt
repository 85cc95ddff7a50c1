//! The words of an image become those of a heap, where each slot has a value that is to have one.
//!
//! In a file a reference is an address; in a heap it is 8 times the index of a header. Spur too swizzles the references of an
//! image when it loads one. The words are turned in place, in two walks over the chunks: the first clears what collections
//! leave in headers and follows each slot to the object that it leads to, and the second turns the words of the forwarders, which
//! have to be addresses until all slots are followed. No memory is taken, and each word is written at most once.
//!
//! A slot is followed once: the first walk tests it too, and ends at the first pointer slot of an ordinary object that has no value. Contexts, of
//! format 3, are exempt, since the slots behind their stack pointer hold what was left there: what is no value becomes nil.
//!
//! The layers above rest on this: the walk answers with the least such slot, and with none exactly where each has a value; then what stands at each
//! start is the settled cell of what stood there, by which a heap has the graph of its file.
#![tactic(auto)]

mod object;
mod room;
#[cfg(test)]
mod tests;
mod walk;
mod word;

pub use room::put_room;
pub use walk::settle;
pub use word::settled_word;
