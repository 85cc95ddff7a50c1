//! The chunks of a heap, one after another.
//!
//! The heap is cut without gaps into chunks: objects, forwarders and free chunks. So a range of it
//! can be walked from its front, as Spur enumerates its spaces, by the sizes in the headers; a walk
//! passes forwarders like objects, which are those of "A Partial Read Barrier for Efficient Support
//! of Live Object-Oriented Programming" (ISMM 2015).
//!
//! Two functions take the step. [`next_chunk`] reads words of which nothing is known: where the
//! range is cut into chunks it answers the first of them or the first fault of its head, so that a
//! walk without a fault meets these chunks and ends exactly at the end of the range. [`span_of`]
//! trusts the first word, and tells where the chunk starts and ends; beside it [`slots_of`] and
//! [`pointers_of`] read, from the start of a chunk that stands there, how many slots it has and how
//! many of them are pointers, and [`lead_of`] and [`words_of`] where its words are. [`Saved`] is an
//! entry of a table of such starts.
//!
//! A [`StartMap`] keeps the starts of the chunks as a set, one bit for each word of the region, and
//! [`mark_starts`] enters those of a whole row, all but the free chunks. Spur has no such map,
//! since its calls trust the references that they are handed. Here the layers above test with it
//! whether a reference names the header of a chunk at all, before they read one there.
#![tactic(auto)]

mod chunk;
mod marking;
mod reading;
mod saved;
mod starts;
#[cfg(test)]
mod tests;

pub use chunk::{Chunk, ChunkKind, next_chunk};
pub use marking::mark_starts;
pub use reading::{Span, lead_of, pointers_of, slots_of, span_of, words_of};
pub use saved::Saved;
pub use starts::StartMap;
