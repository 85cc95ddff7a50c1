//! The handle table: the words that the handles of the 16 mutators have.
//!
//! A handle is known by its mutator and its name, and is bound to a word, which is an oop: an immediate, or a reference
//! to an object. All side tables are made when a session starts, so the table takes its memory once, for the most handles
//! that a session holds. From then on no call takes memory, and none goes through the table.
//!
//! The handles lie densely, the words apart from the names, so that whoever visits the roots passes the words that are
//! bound and no others. A handle is found by the hash of its mutator and name, by open addressing: its slot is the first
//! that was free from its home slot on, and has its index. Where a handle goes, the handles behind it move up, so no slot
//! is ever marked as deleted, and a search ends at the first free slot. There are so many slots behind the last home slot
//! that no search has to go on at the first.
//!
//! The layer above sees a finite map from mutator and name to word.
#![tactic(auto)]

mod index;
mod table;
#[cfg(test)]
mod tests;

pub use index::MOST_HANDLES;
pub use table::{HandleTable, NoMemory, TableFull};
