//! The header word of a chunk, and what the first words of a chunk say of the rest.
//!
//! The heap is words of 64 bits, cut without gaps into chunks: objects, forwarders and free chunks.
//! A chunk is a header word and its slots, and where it has 255 slots or more an overflow word with
//! their number stands before the header. The header has the class index in place of a reference to
//! the class, so that one word holds it with the identity hash, the format and the flags of the
//! collectors; three class indices stand for no class, and mark free chunks, the bridges between
//! segments, and forwarders. The format says which slots are pointers and how the others are cut
//! into units, and it counts the units that the last word has too many.
//!
//! The layers above rest on two things. A field that is set reads as the value, and each field
//! apart from it reads as before ([`Field`], [`Header`]). And [`read_head`] gives the sizes of the
//! chunk at the front of some words, or its first fault, so that a chunk it accepts lies whole
//! within them.
//!
//! What a row of chunks is stands here too, since a chunk is known from its first word: when chunks
//! cut a range of words, where each starts, and which words are its slots. A head that is read is
//! that of the chunk of such a row.
//!
//! The layout is that of Spur's 64-bit memory, as the class comment of its memory manager and the
//! image format have it; forwarders are those of "A Partial Read Barrier for Efficient Support of
//! Live Object-Oriented Programming" (ISMM 2015).
#![tactic(auto)]

mod field;
mod format;
mod head;
mod head_words;
mod header;
#[cfg(test)]
mod tests;

pub use field::{
    ClassField, CountField, Field, FormatField, GreyField, HashField, MarkedField, PinnedField,
    ReadOnlyField, RememberedField,
};
pub use format::{
    ARRAY_FORMAT, FIRST_COMPILED_METHOD_FORMAT, Format, INDEXABLE_POINTERS_FORMAT,
    SIXTY_FOUR_BIT_INDEXABLE_FORMAT,
};
pub use head::{Head, HeadError, LiteralsField, OverflowSlotsField, SMALL_INTEGER_TAG, read_head};
pub use head_words::{LONGEST_SHORT, free_header, overflow_word};
pub use header::{BRIDGE_CLASS, FORWARDER_CLASS, FREE_CLASS, Header, OVERFLOW_COUNT};
