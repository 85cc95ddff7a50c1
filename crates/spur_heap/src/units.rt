// A unit in a word.
ghost use Rattle.std.specs.Prelude.{◌≡◌, ◌≤◌, ◌<◌, ◌+◌, ◌-◌, ◌*◌, ◌^◌};
ghost use Rattle.object_header.specs.Field.{field_of, with_field};
ghost use Rattle.spur_heap.specs.Sizes.{IsSize};

/// The low bits of a word that a unit of so many bytes has, each 1.
fn unit_mask(bytes: usize) -> u64
    requires size { IsSize bytes }
    ensures { result ≡ 2 ^ (8 * bytes) - 1 }
{
    u64::MAX >> (64 - 8 * bytes)
}

/// The unit of `bytes` bytes from bit `lo` up.
pub(crate) fn unit_of(word: u64, lo: usize, bytes: usize) -> u64
    requires size { IsSize bytes }
    requires place { lo + 8 * bytes ≤ 64 }
    ensures { result ≡ field_of lo (8 * bytes) word }
{
    (word >> lo) & unit_mask(bytes)
}

/// The word with `value` in the unit of `bytes` bytes from bit `lo` up.
pub(crate) fn with_unit(word: u64, lo: usize, bytes: usize, value: u64) -> u64
    requires size { IsSize bytes }
    requires place { lo + 8 * bytes ≤ 64 }
    requires fits { value < 2 ^ (8 * bytes) }
    ensures { result ≡ with_field lo (8 * bytes) word value }
{
    word - (unit_of(word, lo, bytes) << lo) + (value << lo)
}
