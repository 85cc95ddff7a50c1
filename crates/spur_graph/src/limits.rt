// The limits of a heap.

/// The most words that the region of a heap may have, a choice of this project.
pub const MOST_WORDS: usize = 1 << 27;

/// How large the parts of a heap are. No number exceeds 2^27.
#[derive(Clone, Copy, Debug, PartialEq, Eq)]
pub struct Limits {
    /// Words of eden, where objects are made.
    pub eden: usize,
    /// Words of each of the two survivor spaces.
    pub survivor: usize,
    /// Words of the free chunk behind the loaded objects: 0, or at least 2.
    pub room: usize,
    /// Entries of the table that keeps first fields aside during a compaction, at least 1.
    pub saved: usize,
}
