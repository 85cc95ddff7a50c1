// The words of an object that is made, and what the tables then have of it.
ghost use Rattle.std.specs.Prelude.{◌≡◌, ◌+◌, ◌^◌, ◌<◌, ◌≤◌, length, replicate, slice_index, true, if◌then◌else◌};
ghost use Rattle.heap_walk.specs.Starts.{covered};
ghost use Rattle.object_header.specs.Head.{count_of, overflow_slots_of};
ghost use Rattle.object_header.specs.declared.header.TheConstants.{OVERFLOW_COUNT};
ghost use Rattle.spur_words.specs.Lending.{with_run};
ghost use Rattle.spur_graph.specs.Room.{fresh_words, is_long};
ghost use Rattle.spur_heap.specs.Fresh.{IsFreshHeader, IsFreshRun, PutsObject, SameOutside, fill_word, fresh_start};
ghost use Rattle.spur_heap.specs.Words.{AreSound};
ghost use Rattle.spur_heap.specs.Parts.{view_of};

use crate::heap::HeapParts;
use crate::places::first_word;
use object_header::{Header, OVERFLOW_COUNT, overflow_word};
use spur_words::Region;

/// The most slots that a header counts itself. An object that has more has an overflow word before its header.
const MOST_SHORT_SLOTS: usize = 254;

/// The words of an object of so many slots that is made: its header and its slots, of which it has room for one at least, and an overflow word where the
/// header can't count them.
pub fn fresh_words(slots: usize) -> usize
    requires few { slots ≤ 2 ^ 28 }
    ensures { result ≡ fresh_words slots }
{
    if slots > MOST_SHORT_SLOTS {
        2 + slots
    } else {
        1 + slots.max(1)
    }
}

/// The header word of an object that has no hash and no flag.
fn fresh_header(count: u64, class: u32, format: u8) -> u64
    requires count { count < 2 ^ 8 }
    requires class { class < 2 ^ 22 }
    requires format { format < 2 ^ 5 }
    ensures { IsFreshHeader result count class format }
{
    Header(0)
        .set_count(count)
        .set_format(format as u64)
        .set_class(class as u64)
        .0
}

/// Writes the head of an object at the run of words from `at` on, and answers its start.
fn write_head(region: &mut Region, at: usize, class: u32, format: u8, slots: usize) -> usize
    requires few { slots ≤ 2 ^ 28 }
    requires class { class < 2 ^ 22 }
    requires format { format < 2 ^ 5 }
    requires inside { at + fresh_words slots ≤ length region.old }
    ensures start { result ≡ fresh_start at slots }
    ensures overflow { is_long slots ≡ true → (count_of (slice_index region.new at) ≡ OVERFLOW_COUNT) × (overflow_slots_of (slice_index region.new at) ≡ slots) }
    ensures header { IsFreshHeader (slice_index region.new result) (if is_long slots then OVERFLOW_COUNT else slots) class format }
    ensures same_length { length region.new ≡ length region.old }
    ensures others { SameOutside region.old region.new at (fresh_words slots) }
{
    // the length tells that no sum of places wraps
    let _end = region.len();
    if slots > MOST_SHORT_SLOTS {
        region.put(at, overflow_word(slots as u64));
        region.put(at + 1, fresh_header(OVERFLOW_COUNT, class, format));
        at + 1
    } else {
        region.put(at, fresh_header(slots as u64, class, format));
        at
    }
}

/// Writes this word `count` times from the index `at` on.
fn fill(region: &mut Region, at: usize, count: usize, word: u64)
    requires inside { at + count ≤ length region.old }
    ensures { region.new ≡ with_run region.old at (replicate count word) }
{
    region.window_mut(at, count).fill(word);
}

/// Writes an object at the run of words from `at` on, with this word in each slot, and answers its start. The word that an object of no slots has behind
/// its header is 0.
fn write_object(
    region: &mut Region,
    at: usize,
    class: u32,
    format: u8,
    slots: usize,
    word: u64,
) -> usize
    requires few { slots ≤ 2 ^ 28 }
    requires class { class < 2 ^ 22 }
    requires format { format < 2 ^ 5 }
    requires inside { at + fresh_words slots ≤ length region.old }
    ensures start { result ≡ fresh_start at slots }
    ensures run { IsFreshRun region.new at class format slots word }
    ensures same_length { length region.new ≡ length region.old }
    ensures others { SameOutside region.old region.new at (fresh_words slots) }
{
    // the length tells that no sum of places wraps
    let _end = region.len();
    let start = write_head(region, at, class, format, slots);
    region.put(start + 1, 0);
    fill(region, start + 1, slots, word);
    start
}

/// The first format whose slots are no pointers.
const FIRST_RAW_FORMAT: u8 = 6;

/// The word in each slot of a fresh object of a format: nil's where the slots are pointers, else 0.
pub fn fill_word(parts: &HeapParts, format: u8) -> u64
    requires sound { AreSound (view_of parts.now) }
    ensures { result ≡ fill_word (view_of parts.now) format }
{
    if format < FIRST_RAW_FORMAT {
        first_word(parts, 0)
    } else {
        0
    }
}

/// Writes an object at the run of words from `at` on, with this word in each slot, enters its start in the map, and counts it. Answers the start.
pub fn put_object(
    parts: &mut HeapParts,
    at: usize,
    class: u32,
    format: u8,
    slots: usize,
    word: u64,
) -> usize
    requires few { slots ≤ 2 ^ 28 }
    requires class { class < 2 ^ 22 }
    requires format { format < 2 ^ 5 }
    requires inside { at + fresh_words slots ≤ length parts.old.region }
    requires covers { covered parts.old.starts ≡ length parts.old.region }
    requires count { parts.old.objects ≤ 2 ^ 27 }
    ensures { PutsObject parts.old parts.new at class format slots word result }
{
    let start = write_object(&mut parts.region, at, class, format, slots, word);
    parts.starts.set(start);
    parts.objects += 1;
    start
}
