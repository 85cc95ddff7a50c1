ghost use Rattle.std.specs.Prelude.{◌≡◌, ◌+◌, ◌^◌, ◌<◌, ◌≤◌};
ghost use Rattle.object_header.specs.Field.{field_of, with_field, SetsField};

/// The `LEN` bits of a word from bit `LO` up, bit 0 being the lowest.
pub struct Field<const LO: u32, const LEN: u32>;

impl<const LO: u32, const LEN: u32> Field<LO, LEN> {
    /// The number in the field.
    pub fn get(word: u64) -> u64
        requires within { LO + LEN ≤ 64 }
        requires starts { LO < 64 }
        requires short { LEN < 64 }
        ensures value { result ≡ field_of LO LEN word }
        ensures bound { result < 2 ^ LEN }
    {
        (word >> LO) & ((1 << LEN) - 1)
    }

    /// The word with `value` in the field. Each field that shares no bit with this one reads as
    /// before.
    pub fn set(word: u64, value: u64) -> u64
        requires within { LO + LEN ≤ 64 }
        requires starts { LO < 64 }
        requires short { LEN < 64 }
        requires fits { value < 2 ^ LEN }
        ensures value { result ≡ with_field LO LEN word value }
        ensures sets { SetsField LO LEN word value result }
    {
        word - (Self::get(word) << LO) + (value << LO)
    }
}

/// The slot count of a header word, or [`OVERFLOW_COUNT`](crate::OVERFLOW_COUNT).
pub type CountField = Field<56, 8>;

/// Whether a collection has marked the chunk.
pub type MarkedField = Field<55, 1>;

/// The identity hash, 0 while none was drawn.
pub type HashField = Field<32, 22>;

/// Whether a collection has found the object and has yet to look at its slots.
pub type GreyField = Field<31, 1>;

/// Whether the object is not to move.
pub type PinnedField = Field<30, 1>;

/// Whether an object of old space stands in the table of those that refer to new space.
pub type RememberedField = Field<29, 1>;

/// The format, see [`Format`](crate::Format).
pub type FormatField = Field<24, 5>;

/// Whether the object is immutable.
pub type ReadOnlyField = Field<23, 1>;

/// The class index.
pub type ClassField = Field<0, 22>;
