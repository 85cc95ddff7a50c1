// The head words that a chunk is written with.
ghost use Rattle.std.specs.Prelude.{◌≡◌, ◌+◌, ◌*◌, ◌^◌, ◌<◌};
ghost use Rattle.object_header.specs.Field.{field_of};
ghost use Rattle.object_header.specs.Fields.{fields_of, free_fields, free_header};
ghost use Rattle.object_header.specs.Head.{count_of, class_of, overflow_slots_of};

use crate::format::SIXTY_FOUR_BIT_INDEXABLE_FORMAT;
use crate::header::{FREE_CLASS, Header, OVERFLOW_COUNT};

/// The words of the longest free chunk whose header has the slot count itself.
pub const LONGEST_SHORT: usize = 255;

/// The header of a free chunk with this slot count. Its format is that of 64-bit units, for which no
/// reader asks; all else in it is 0.
#[tactic(auto, unfolding(crate::specs::Fields::free_header))]
pub fn free_header(count: u64) -> Header
    requires { count < 2 ^ 8 }
    ensures word { result.0 ≡ free_header count }
    ensures fields { fields_of result.0 ≡ free_fields count }
    ensures count { count_of result.0 ≡ count }
    ensures class { class_of result.0 ≡ FREE_CLASS }
    ensures low { field_of 22 1 result.0 ≡ 0 }
    ensures high { field_of 54 1 result.0 ≡ 0 }
{
    Header(0)
        .set_count(count)
        .set_format(SIXTY_FOUR_BIT_INDEXABLE_FORMAT)
        .set_class(FREE_CLASS)
}

/// The overflow word of a chunk of so many slots: their number, below [`OVERFLOW_COUNT`] in the top
/// byte.
pub fn overflow_word(slots: u64) -> u64
    requires { slots < 2 ^ 56 }
    ensures word { result ≡ OVERFLOW_COUNT * 2 ^ 56 + slots }
    ensures count { count_of result ≡ OVERFLOW_COUNT }
    ensures slots { overflow_slots_of result ≡ slots }
{
    (OVERFLOW_COUNT << 56) + slots
}
