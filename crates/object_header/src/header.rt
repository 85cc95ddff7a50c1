ghost use Rattle.std.specs.Prelude.{◌≡◌, ◌^◌, ◌<◌};
ghost use Rattle.object_header.specs.Field.{with_field};
ghost use Rattle.object_header.specs.Fields.{fields_of};

use crate::field::{
    ClassField, CountField, FormatField, GreyField, HashField, MarkedField, PinnedField,
    ReadOnlyField, RememberedField,
};

/// The slot count of a header behind an overflow word, and the top byte of an overflow word: one
/// byte tells both from a header that has its own slot count, which is at most 254.
pub const OVERFLOW_COUNT: u64 = 255;

/// The class index of a free chunk.
pub const FREE_CLASS: u64 = 0;

/// The class index of a bridge, which ends a segment and is no chunk of the heap.
pub const BRIDGE_CLASS: u64 = 3;

/// The class index of a forwarder, whose first slot is what it stands for.
pub const FORWARDER_CLASS: u64 = 8;

/// The header word of a chunk. Bits 22 and 54 are in none of its fields, and every setter leaves
/// them as they were.
#[derive(Clone, Copy, Debug, PartialEq, Eq)]
pub struct Header(pub u64);

impl Header {
    /// The slot count, [`OVERFLOW_COUNT`] if an overflow word before the header has it.
    pub fn count(self) -> u64
        ensures value { result ≡ (fields_of self.0).count }
        ensures bound { result < 2 ^ 8 }
    {
        CountField::get(self.0)
    }

    /// The header with `value` for its slot count.
    pub fn set_count(self, value: u64) -> Header
        requires { value < 2 ^ 8 }
        ensures word { result.0 ≡ with_field 56 8 self.0 value }
        ensures fields { fields_of result.0 ≡ record (fields_of self.0) { count = value } }
    {
        Header(CountField::set(self.0, value))
    }

    /// 1 while a collection has the chunk marked, else 0.
    pub fn marked(self) -> u64
        ensures value { result ≡ (fields_of self.0).marked }
        ensures bound { result < 2 ^ 1 }
    {
        MarkedField::get(self.0)
    }

    /// The header with `value` for its mark.
    pub fn set_marked(self, value: u64) -> Header
        requires { value < 2 ^ 1 }
        ensures word { result.0 ≡ with_field 55 1 self.0 value }
        ensures fields { fields_of result.0 ≡ record (fields_of self.0) { marked = value } }
    {
        Header(MarkedField::set(self.0, value))
    }

    /// The identity hash, 0 while none was drawn.
    pub fn hash(self) -> u64
        ensures value { result ≡ (fields_of self.0).hash }
        ensures bound { result < 2 ^ 22 }
    {
        HashField::get(self.0)
    }

    /// The header with `value` for its identity hash.
    pub fn set_hash(self, value: u64) -> Header
        requires { value < 2 ^ 22 }
        ensures word { result.0 ≡ with_field 32 22 self.0 value }
        ensures fields { fields_of result.0 ≡ record (fields_of self.0) { hash = value } }
    {
        Header(HashField::set(self.0, value))
    }

    /// 1 while a collection has found the object and not yet looked at its slots, else 0.
    pub fn grey(self) -> u64
        ensures value { result ≡ (fields_of self.0).grey }
        ensures bound { result < 2 ^ 1 }
    {
        GreyField::get(self.0)
    }

    /// The header with `value` for its grey bit.
    pub fn set_grey(self, value: u64) -> Header
        requires { value < 2 ^ 1 }
        ensures word { result.0 ≡ with_field 31 1 self.0 value }
        ensures fields { fields_of result.0 ≡ record (fields_of self.0) { grey = value } }
    {
        Header(GreyField::set(self.0, value))
    }

    /// 1 if the object is pinned, so that it is not to move, else 0.
    pub fn pinned(self) -> u64
        ensures value { result ≡ (fields_of self.0).pinned }
        ensures bound { result < 2 ^ 1 }
    {
        PinnedField::get(self.0)
    }

    /// The header with `value` for its pinned bit.
    pub fn set_pinned(self, value: u64) -> Header
        requires { value < 2 ^ 1 }
        ensures word { result.0 ≡ with_field 30 1 self.0 value }
        ensures fields { fields_of result.0 ≡ record (fields_of self.0) { pinned = value } }
    {
        Header(PinnedField::set(self.0, value))
    }

    /// 1 if the object of old space is in the table of those that refer to new space, else 0.
    pub fn remembered(self) -> u64
        ensures value { result ≡ (fields_of self.0).remembered }
        ensures bound { result < 2 ^ 1 }
    {
        RememberedField::get(self.0)
    }

    /// The header with `value` for its remembered bit.
    pub fn set_remembered(self, value: u64) -> Header
        requires { value < 2 ^ 1 }
        ensures word { result.0 ≡ with_field 29 1 self.0 value }
        ensures fields { fields_of result.0 ≡ record (fields_of self.0) { remembered = value } }
    {
        Header(RememberedField::set(self.0, value))
    }

    /// The format, 0 to 31. That of a free chunk or a forwarder says nothing.
    pub fn format(self) -> u64
        ensures value { result ≡ (fields_of self.0).format }
        ensures bound { result < 2 ^ 5 }
    {
        FormatField::get(self.0)
    }

    /// The header with `value` for its format.
    pub fn set_format(self, value: u64) -> Header
        requires { value < 2 ^ 5 }
        ensures word { result.0 ≡ with_field 24 5 self.0 value }
        ensures fields { fields_of result.0 ≡ record (fields_of self.0) { format = value } }
    {
        Header(FormatField::set(self.0, value))
    }

    /// 1 if the object is immutable, else 0.
    pub fn readonly(self) -> u64
        ensures value { result ≡ (fields_of self.0).readonly }
        ensures bound { result < 2 ^ 1 }
    {
        ReadOnlyField::get(self.0)
    }

    /// The header with `value` for its immutable bit.
    pub fn set_readonly(self, value: u64) -> Header
        requires { value < 2 ^ 1 }
        ensures word { result.0 ≡ with_field 23 1 self.0 value }
        ensures fields { fields_of result.0 ≡ record (fields_of self.0) { readonly = value } }
    {
        Header(ReadOnlyField::set(self.0, value))
    }

    /// The class index: the place of the class in the class table, or one of [`FREE_CLASS`],
    /// [`BRIDGE_CLASS`] and [`FORWARDER_CLASS`].
    pub fn class(self) -> u64
        ensures value { result ≡ (fields_of self.0).class }
        ensures bound { result < 2 ^ 22 }
    {
        ClassField::get(self.0)
    }

    /// The header with `value` for its class index.
    pub fn set_class(self, value: u64) -> Header
        requires { value < 2 ^ 22 }
        ensures word { result.0 ≡ with_field 0 22 self.0 value }
        ensures fields { fields_of result.0 ≡ record (fields_of self.0) { class = value } }
    {
        Header(ClassField::set(self.0, value))
    }
}
