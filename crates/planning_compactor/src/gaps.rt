// The gaps of a range become free chunks.
ghost use Rattle.std.specs.Prelude.{◌≡◌, ◌+◌, ◌-◌, ◌^◌, ◌<◌, ◌≤◌, ◌⊎◌, ℕ, length, slice_index, false};
ghost use Rattle.heap_walk.specs.Starts.{has_start, covered};
ghost use Rattle.planning_compactor.specs.Spans.{Gap};
ghost use Rattle.planning_compactor.specs.Planning.{AreLaid};
ghost use Rattle.free_lists.specs.Runs.{IsFree};
ghost use Rattle.planning_compactor.specs.Filled.{IsFilled, AreTwice, IsCut};

use crate::plan::next_before;
use heap_walk::{StartMap, lead_of, words_of};
use object_header::{LONGEST_SHORT, OVERFLOW_COUNT, free_header, overflow_word};

/// Writes the head of a free chunk of `size` words. Its slots stay as they are.
fn write_free(words: &mut [u64], at: usize, size: usize)
    requires big { 2 ≤ size }
    requires inside { at + size ≤ length words.old }
    requires small { size < 2 ^ 56 }
    ensures same_words { length words.new ≡ length words.old }
    ensures free { IsFree words.new at size }
    ensures others { (j : ℕ) → (j < at) ⊎ (at + size ≤ j) → slice_index words.new j ≡ slice_index words.old j }
{
    if size <= LONGEST_SHORT {
        words[at] = free_header(size as u64 - 1).0;
    } else {
        words[at] = overflow_word(size as u64 - 2);
        words[at + 1] = free_header(OVERFLOW_COUNT).0;
    }
}

/// Makes the words from `at` to `to`, if there are some, one free chunk.
fn fill(words: &mut [u64], at: usize, to: usize)
    requires gap { Gap at to }
    requires inside { to ≤ length words.old }
    requires small { to < 2 ^ 56 }
    ensures same_words { length words.new ≡ length words.old }
    ensures free { at < to → IsFree words.new at (to - at) }
    ensures others { (j : ℕ) → (j < at) ⊎ (to ≤ j) → slice_index words.new j ≡ slice_index words.old j }
{
    if at < to {
        write_free(words, at, to - at);
    }
}

/// Makes each gap of a range one free chunk: the words between two objects, and between one and an end of the range. No word of an object changes, and none
/// outside of the range.
///
/// One walk over the starts of the range.
pub fn fill_gaps(words: &mut [u64], starts: &StartMap, low: usize, end: usize)
    requires covers { covered starts.now ≡ length words.old }
    requires within { end ≤ length words.old }
    requires small { end < 2 ^ 56 }
    requires laid { AreLaid (has_start starts.now) words.old low end }
    requires twice { AreTwice (has_start starts.now) words.old }
    ensures filled { IsFilled (has_start starts.now) words.old words.new low end end }
    ensures cut { IsCut (has_start starts.now) words.new low end }
{
    let mut at = low;
    let mut from = low;
    'objects: while let Some(start) = next_before(starts, from, end) {
        let place = start - lead_of(words, start);
        let next = place + words_of(words, start);
        fill(words, at, place);
        at = next;
        from = start + 1;
    }
    fill(words, at, end);
}
