// The head words of one free chunk.
ghost use Rattle.std.specs.Prelude.{◌≡◌, ◌+◌, ◌^◌, ◌<◌, ◌≤◌, ℕ, length, slice_index};
ghost use Rattle.free_lists.specs.Runs.{IsFree};

use object_header::{
    Header, LONGEST_SHORT, OVERFLOW_COUNT, OverflowSlotsField, free_header, overflow_word,
};
use spur_words::Region;

/// Writes the head of a free chunk of `words` words. Its slots stay as they are.
pub(crate) fn write_free(region: &mut Region, at: usize, words: usize)
    requires big { 2 ≤ words }
    requires inside { at + words ≤ length region.old }
    requires small { length region.old ≤ 2 ^ 27 }
    ensures free { IsFree region.new at words }
    ensures same_length { length region.new ≡ length region.old }
    ensures below { (k : ℕ) → k < at → slice_index region.new k ≡ slice_index region.old k }
    ensures above { (k : ℕ) → at + words ≤ k → slice_index region.new k ≡ slice_index region.old k }
{
    if words <= LONGEST_SHORT {
        region.put(at, free_header(words as u64 - 1).0);
    } else {
        region.put(at, overflow_word(words as u64 - 2));
        region.put(at + 1, free_header(OVERFLOW_COUNT).0);
    }
}

/// The size of the free chunk at the place `at`, in words.
pub(crate) fn size_at(region: &Region, at: usize) -> usize
    requires { at < length region.now }
    ensures { (size : ℕ) → IsFree region.now at size → result ≡ size }
{
    let first = region.get(at);
    let count = Header(first).count();
    if count == OVERFLOW_COUNT {
        OverflowSlotsField::get(first) as usize + 2
    } else {
        count as usize + 1
    }
}
