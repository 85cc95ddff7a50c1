//! Words that are values in themselves: what kind of value a word is, and the words of the values that need no object.
//!
//! A slot of an object is a word of 64 bits. Its low three bits are a tag: 000 for the address of an object, 001 for a
//! SmallInteger, 010 for a Character, 100 for a SmallFloat. The other four tags are unused. A SmallInteger's number is the upper
//! 61 bits, signed. A Character's code is the bits above the tag, at most 2^30 - 1. A SmallFloat is kept as its whole word.
//!
//! The layers above rest on this: [`kind`] tells which value of the object graph a word is, and a word that [`small_int`],
//! [`character`] or [`float_bits`] makes is of that kind and has the value that it was made of.
//!
//! The tags are those of Spur's 64-bit memory, as the class comment of its memory manager has them.
#![tactic(auto)]

#[cfg(test)]
mod tests;
mod word_kind;
mod words;

pub use word_kind::{Kind, Range};
pub use words::{char_of, character, float_bits, int_of, is_immediate_word, kind, small_int};
