// Objects that move down.
ghost use Rattle.std.specs.Prelude.{◌≡◌, ◌≢◌, ◌+◌, ◌-◌, ◌/◌, ◌<◌, ◌≤◌, ℕ, length, slice_index, true, false};
ghost use Rattle.object_header.specs.Chunks.{StandsAt, slots_at};
ghost use Rattle.heap_walk.specs.Starts.{has_start, covered};
ghost use Rattle.planning_compactor.specs.Entries.{entry, start_of};
ghost use Rattle.heap_walk.specs.Shapes.{lead_at, place_at, words_at};
ghost use Rattle.planning_compactor.specs.Slid.{target_of, CanSlide, Slid};

use heap_walk::{Saved, StartMap, lead_of, words_of};
use spur_words::slide_run;

/// Moves the words of the object at `start` down, so that it starts at `target`.
fn slide_object(words: &mut [u64], start: usize, target: usize)
    requires stands { StandsAt words.old start }
    requires room { lead_at words.old start ≤ target }
    requires down { target ≤ start }
    ensures same_len { length words.new ≡ length words.old }
    ensures moved { (i : ℕ) → i < words_at words.old start
        → slice_index words.new (target - lead_at words.old start + i) ≡ slice_index words.old (place_at words.old start + i) }
    ensures below { (j : ℕ) → j < target - lead_at words.old start → slice_index words.new j ≡ slice_index words.old j }
    ensures above { (j : ℕ) → target - lead_at words.old start + words_at words.old start ≤ j
        → slice_index words.new j ≡ slice_index words.old j }
{
    let lead = lead_of(words, start);
    let size = words_of(words, start);
    slide_run(words, start - lead, target - lead, size);
}

/// Moves the words of the objects of the table, each to where its entry says. They are in order, so that none is written over before it has moved.
pub(crate) fn slide_all(words: &mut [u64], table: &[Saved])
    requires { CanSlide table.now words.old }
    ensures { Slid table.now words.old words.new (length table.now) }
{
    'objects: for i in 0..table.len() {
        slide_object(words, table[i].start, (table[i].first / 8) as usize);
    }
}

/// Removes the starts of the table's objects.
pub(crate) fn unset_starts(starts: &mut StartMap, table: &[Saved])
    requires { (k : ℕ) → k < length table.now → start_of table.now k < covered starts.old }
    ensures removed { (k : ℕ) → k < length table.now → has_start starts.new (start_of table.now k) ≡ false }
    ensures others { (s : ℕ) → ((k : ℕ) → k < length table.now → start_of table.now k ≢ s)
        → has_start starts.new s ≡ has_start starts.old s }
    ensures covers { covered starts.new ≡ covered starts.old }
{
    'objects: for i in 0..table.len() {
        starts.unset(table[i].start);
    }
}

/// Adds the starts to which the table's objects go.
pub(crate) fn set_targets(starts: &mut StartMap, table: &[Saved])
    requires { (k : ℕ) → k < length table.now → target_of table.now k < covered starts.old }
    ensures added { (k : ℕ) → k < length table.now → has_start starts.new (target_of table.now k) ≡ true }
    ensures others { (s : ℕ) → ((k : ℕ) → k < length table.now → target_of table.now k ≢ s)
        → has_start starts.new s ≡ has_start starts.old s }
    ensures covers { covered starts.new ≡ covered starts.old }
{
    'objects: for i in 0..table.len() {
        starts.set((table[i].first / 8) as usize);
    }
}
