/// An entry of the table that keeps first fields aside during a compaction: the start of an object
/// that moves, and its first field or its target.
#[derive(Clone, Copy)]
pub struct Saved {
    /// The index of its header word.
    pub start: usize,
    /// The word behind the header, or 8 times the start that the object is to have.
    pub first: u64,
}
