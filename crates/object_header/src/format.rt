ghost use Rattle.std.specs.Prelude.{◌≡◌, ◌^◌, ◌<◌};
ghost use Rattle.object_header.specs.Formats.{is_method, unit_bytes_of, unused_of, slot_need_of, pointer_slots_of};

use std::marker::Model;

/// The format of an object whose slots are all indexable pointers, as those of an array.
pub const ARRAY_FORMAT: u64 = 2;

/// The format of an object that has named slots and indexable pointers behind them, as a context.
pub const INDEXABLE_POINTERS_FORMAT: u64 = 3;

/// The format of an object of 64-bit units, the first that has units and no pointers.
pub const SIXTY_FOUR_BIT_INDEXABLE_FORMAT: u64 = 9;

/// The first format of compiled methods, which have pointers and units: the literals, and the bytes
/// behind them.
pub const FIRST_COMPILED_METHOD_FORMAT: u64 = 24;

/// The format of an object, 0 to 31: which of its slots are pointers, and the size of the units in
/// the others. From 10 up it also counts the units of the last word that are not used, since the
/// slot count is in whole words.
#[derive(Clone, Copy, Debug, PartialEq, Eq)]
pub struct Format(u8);

impl Model for Format {
    ghost use Rattle.std.specs.Prelude.{ℕ, ◌<◌};

    ghost Value = { ℕ };

    ghost view = { λ f. f.0 };

    ghost invariant = { λ f. f.0 < 32 };

    ghost inverse = { λ n. record { 0 = n } };
}

// A row has the slots that are pointers, the bytes of a unit, the unused units, and the slots that
// an object needs. Of a method the literals are pointers, with the word before them that tells
// their number.
macro_rules! for_format {
    ($format:expr, $row:ident) => {
        match $format {
            0 => $row!(slots, 0, 0, 0),
            1 => $row!(slots, 0, 0, 0),
            2 => $row!(slots, 0, 0, 0),
            3 => $row!(slots, 0, 0, 0),
            4 => $row!(slots, 0, 0, 0),
            5 => $row!(slots, 0, 0, 0),
            6 => $row!(none, 0, 0, 0),
            7 => $row!(none, 0, 0, 0),
            8 => $row!(none, 0, 0, 0),
            9 => $row!(none, 8, 0, 0),
            10 => $row!(none, 4, 0, 0),
            11 => $row!(none, 4, 1, 1),
            12 => $row!(none, 2, 0, 0),
            13 => $row!(none, 2, 1, 1),
            14 => $row!(none, 2, 2, 1),
            15 => $row!(none, 2, 3, 1),
            16 => $row!(none, 1, 0, 0),
            17 => $row!(none, 1, 1, 1),
            18 => $row!(none, 1, 2, 1),
            19 => $row!(none, 1, 3, 1),
            20 => $row!(none, 1, 4, 1),
            21 => $row!(none, 1, 5, 1),
            22 => $row!(none, 1, 6, 1),
            23 => $row!(none, 1, 7, 1),
            24 => $row!(literals, 1, 0, 1),
            25 => $row!(literals, 1, 1, 2),
            26 => $row!(literals, 1, 2, 2),
            27 => $row!(literals, 1, 3, 2),
            28 => $row!(literals, 1, 4, 2),
            29 => $row!(literals, 1, 5, 2),
            30 => $row!(literals, 1, 6, 2),
            31 => $row!(literals, 1, 7, 2),
            _ => unreachable!(),
        }
    };
}

macro_rules! unit_bytes {
    ($pointers:ident, $unit:literal, $unused:literal, $need:literal) => {
        $unit
    };
}

macro_rules! unused {
    ($pointers:ident, $unit:literal, $unused:literal, $need:literal) => {
        $unused
    };
}

macro_rules! slot_need {
    ($pointers:ident, $unit:literal, $unused:literal, $need:literal) => {
        $need
    };
}

impl Format {
    /// The format of that number.
    pub fn new(format: u8) -> Format
        requires { format < 32 }
        ensures { result ≡ format }
    {
        Format(format)
    }

    /// Whether it is the format of a compiled method.
    pub fn is_method(self) -> bool
        ensures { result ≡ is_method self }
    {
        self.0 as u64 >= FIRST_COMPILED_METHOD_FORMAT
    }

    /// The bytes of a unit, 0 where the format has no units.
    pub fn unit_bytes(self) -> usize
        ensures { result ≡ unit_bytes_of self }
    {
        for_format!(self.0, unit_bytes)
    }

    /// How many units at the end of the last slot are not used.
    pub fn unused(self) -> usize
        ensures { result ≡ unused_of self }
    {
        for_format!(self.0, unused)
    }

    /// The least number of slots that an object of this format can have: room for the unused units
    /// and, in a method, for slot 0. It is 0 for the formats 6 to 8, which no object has.
    pub fn slot_need(self) -> usize
        ensures { result ≡ slot_need_of self }
    {
        for_format!(self.0, slot_need)
    }

    /// How many of `slots` slots are pointers. The number of literals counts for methods alone. It
    /// is 0 for the formats 6 to 8, which no object has.
    pub fn pointer_slots(self, slots: usize, literals: usize) -> usize
        requires { literals < 2 ^ 15 }
        ensures { result ≡ pointer_slots_of self slots literals }
    {
        macro_rules! pointers {
            (slots, $unit:literal, $unused:literal, $need:literal) => {
                slots
            };
            (none, $unit:literal, $unused:literal, $need:literal) => {
                0
            };
            (literals, $unit:literal, $unused:literal, $need:literal) => {
                literals + 1
            };
        }
        for_format!(self.0, pointers)
    }
}
