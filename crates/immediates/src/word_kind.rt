// The kinds of words, and the error of values that have no word.

/// What a word stands for.
#[derive(Clone, Copy, Debug, PartialEq, Eq)]
pub enum Kind {
    /// The address of an object.
    Reference,
    /// A SmallInteger, -2^60 to 2^60 - 1.
    Int,
    /// A Character, by its code, below 2^30.
    Char,
    /// A SmallFloat, as its whole word.
    Float,
    /// No value: an unused tag, or a Character whose code is 2^30 or more.
    Bad,
}

/// A number, a code or a word that is no value of the kind asked for.
#[derive(Clone, Copy, Debug, PartialEq, Eq)]
pub struct Range;
