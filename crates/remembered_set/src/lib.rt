//! The remembered table: the starts of the objects of old space that may name new space.
//!
//! A generation scavenger does not look through old space. Whoever writes a word that names new space into an object of old space enters that object here,
//! and a scavenge takes what the table has for roots (SpurGenerationScavenger's remembered set). Beside it the header of such an object has the remembered
//! bit, so that a writer asks the header, which it reads anyway, whether the object stands here: that each agrees with the other is the affair of whoever
//! has both, and so no call of an object's writer searches the table.
//!
//! The layer above sees **a list of distinct starts**, and how many it has room for. An entry has four bytes. The table takes its memory once: no call but
//! [`Remembered::new`] takes any.
//!
//! A walk that drops entries goes by index: where an entry goes by [`Remembered::swap_remove`] the last one takes its place, in constant time, and the walk
//! looks at the same index once more. [`Remembered::remove`] and [`Remembered::contains`] search.
#![tactic(auto)]

mod table;
#[cfg(test)]
mod tests;

pub use table::Remembered;
