// Whole ranges, by as many passes as the table needs.
ghost use Rattle.std.specs.Prelude.{◌≡◌, ◌+◌, ◌^◌, ◌<◌, ◌≤◌, ℕ, length};
ghost use Rattle.heap_walk.specs.Starts.{has_start, covered};
ghost use Rattle.planning_compactor.specs.Planning.{AreLaid};
ghost use Rattle.planning_compactor.specs.Objects.{AreObjects};
ghost use Rattle.planning_compactor.specs.Roots.{roots_of, AreRoots, RootsMovedBy};
ghost use Rattle.object_header.specs.Chunks.{row};
ghost use Rattle.compaction_laws.specs.Compacting.{IsFull, free_count, pinned_count};
ghost use Rattle.planning_compactor.specs.Filled.{AreTwice, IsCut, IsPacked, IsMobile, IsLastEnd};
ghost use Rattle.planning_compactor.specs.Compacted.{IsCompactedWithin, AreCompacted};

use crate::gaps::fill_gaps;
use crate::passes::pass;
use crate::plan::{Plan, next_before};
use heap_walk::{Saved, StartMap, lead_of, words_of};

/// A range of words that is compacted within itself.
#[derive(Clone, Copy)]
pub struct Part {
    /// The index of its first word.
    pub low: usize,
    /// The index behind its last word.
    pub end: usize,
}

/// The ranges of a heap that are compacted, one behind the other.
#[derive(Clone, Copy)]
pub struct Parts {
    /// The words of old space, perhaps without some chunks at its front that stay.
    pub old_space: Part,
    /// The words of eden that are used.
    pub eden: Part,
    /// The words of past space that are used.
    pub past_space: Part,
}

/// Where the words of new space that are used end after a compaction.
#[derive(Clone, Copy)]
pub struct YoungEnds {
    /// The index behind the last word of eden that is used.
    pub eden: usize,
    /// The index behind the last word of past space that is used.
    pub past_space: usize,
}

/// Where the objects of a range end: the end of the last one, or the front of the range if there is none.
fn last_end(words: &[u64], starts: &StartMap, part: Part) -> usize
    requires covers { covered starts.now ≡ length words.now }
    requires within { part.end ≤ length words.now }
    requires laid { AreLaid (has_start starts.now) words.now part.low part.end }
    ensures { IsLastEnd (has_start starts.now) words.now part.low part.end result }
{
    let mut last = part.low;
    let mut from = part.low;
    'objects: while let Some(start) = next_before(starts, from, part.end) {
        last = start - lead_of(words, start) + words_of(words, start);
        from = start + 1;
    }
    last
}

/// Compacts a range within itself, by as many passes as the table needs.
fn compact_part(
    words: &mut [u64],
    handles: &mut [u64],
    special: &mut u64,
    mourners: &mut [u32],
    starts: &mut StartMap,
    table: &mut [Saved],
    part: Part,
)
    requires covers { covered starts.old ≡ length words.old }
    requires small { length words.old ≤ 2 ^ 27 }
    requires within { part.end ≤ length words.old }
    requires some { 0 < length table.old }
    requires laid { AreLaid (has_start starts.old) words.old part.low part.end }
    requires objects { AreObjects (has_start starts.old) words.old }
    requires roots { AreRoots (has_start starts.old) (roots_of handles.old special.old mourners.old) }
    ensures covers { covered starts.new ≡ covered starts.old }
    ensures same_table { length table.new ≡ length table.old }
    ensures laid { AreLaid (has_start starts.new) words.new part.low part.end }
    ensures objects { AreObjects (has_start starts.new) words.new }
    ensures compacted { (p : ℕ → ℕ)
        × IsCompactedWithin p (has_start starts.old) (has_start starts.new) words.old words.new part.low part.end
        × RootsMovedBy p (roots_of handles.old special.old mourners.old) (roots_of handles.new special.new mourners.new) }
    ensures roots { AreRoots (has_start starts.new) (roots_of handles.new special.new mourners.new) }
{
    let mut plan = Plan {
        low: part.low,
        end: part.end,
        next: part.low,
        pin: part.low,
        finger: part.low,
    };
    'passes: loop {
        let count = pass(words, handles, special, mourners, starts, &mut plan, table);
        if count < table.len() {
            return;
        }
    }
}

/// Compacts three ranges, one behind the other, each within itself.
fn compact_parts(
    words: &mut [u64],
    handles: &mut [u64],
    special: &mut u64,
    mourners: &mut [u32],
    starts: &mut StartMap,
    table: &mut [Saved],
    parts: Parts,
)
    requires covers { covered starts.old ≡ length words.old }
    requires small { length words.old ≤ 2 ^ 27 }
    requires order { (parts.old_space.end ≤ parts.eden.low) × (parts.eden.end ≤ parts.past_space.low) × (parts.past_space.end ≤ length words.old) }
    requires some { 0 < length table.old }
    requires old_space { AreLaid (has_start starts.old) words.old parts.old_space.low parts.old_space.end }
    requires eden { AreLaid (has_start starts.old) words.old parts.eden.low parts.eden.end }
    requires past_space { AreLaid (has_start starts.old) words.old parts.past_space.low parts.past_space.end }
    requires objects { AreObjects (has_start starts.old) words.old }
    requires roots { AreRoots (has_start starts.old) (roots_of handles.old special.old mourners.old) }
    ensures covers { covered starts.new ≡ covered starts.old }
    ensures same_table { length table.new ≡ length table.old }
    ensures old_space { AreLaid (has_start starts.new) words.new parts.old_space.low parts.old_space.end
        × IsPacked (has_start starts.new) words.new parts.old_space.low parts.old_space.end }
    ensures eden { AreLaid (has_start starts.new) words.new parts.eden.low parts.eden.end
        × IsPacked (has_start starts.new) words.new parts.eden.low parts.eden.end }
    ensures past_space { AreLaid (has_start starts.new) words.new parts.past_space.low parts.past_space.end
        × IsPacked (has_start starts.new) words.new parts.past_space.low parts.past_space.end }
    ensures objects { AreObjects (has_start starts.new) words.new }
    ensures compacted { (p : ℕ → ℕ)
        × AreCompacted p (has_start starts.old) (has_start starts.new) words.old words.new parts
        × RootsMovedBy p (roots_of handles.old special.old mourners.old) (roots_of handles.new special.new mourners.new) }
{
    compact_part(
        words,
        handles,
        special,
        mourners,
        starts,
        table,
        parts.old_space,
    );
    compact_part(words, handles, special, mourners, starts, table, parts.eden);
    compact_part(
        words,
        handles,
        special,
        mourners,
        starts,
        table,
        parts.past_space,
    );
}

/// Compacts three ranges, one behind the other, each within itself, and makes each gap of the first one free chunk. References and roots name the
/// objects at their new starts, whichever range they stand in, and so does the map of starts.
///
/// Any table of at least one entry serves. A table of fewer entries than there are objects to move takes more passes, each of which rewrites all references.
pub(crate) fn compact_words(
    words: &mut [u64],
    handles: &mut [u64],
    special: &mut u64,
    mourners: &mut [u32],
    starts: &mut StartMap,
    table: &mut [Saved],
    parts: Parts,
) -> YoungEnds
    requires covers { covered starts.old ≡ length words.old }
    requires small { length words.old ≤ 2 ^ 27 }
    requires order { (parts.old_space.end ≤ parts.eden.low) × (parts.eden.end ≤ parts.past_space.low) × (parts.past_space.end ≤ length words.old) }
    requires some { 0 < length table.old }
    requires old_space { AreLaid (has_start starts.old) words.old parts.old_space.low parts.old_space.end }
    requires eden { AreLaid (has_start starts.old) words.old parts.eden.low parts.eden.end }
    requires past_space { AreLaid (has_start starts.old) words.old parts.past_space.low parts.past_space.end }
    requires mobile { IsMobile (has_start starts.old) words.old parts.eden.low parts.eden.end
        × IsMobile (has_start starts.old) words.old parts.past_space.low parts.past_space.end }
    requires objects { AreObjects (has_start starts.old) words.old }
    requires twice { AreTwice (has_start starts.old) words.old }
    requires roots { AreRoots (has_start starts.old) (roots_of handles.old special.old mourners.old) }
    ensures covers { covered starts.new ≡ covered starts.old }
    ensures same_table { length table.new ≡ length table.old }
    ensures laid { AreLaid (has_start starts.new) words.new parts.old_space.low parts.old_space.end }
    ensures cut { IsCut (has_start starts.new) words.new parts.old_space.low parts.old_space.end }
    ensures few { free_count (has_start starts.new) (row words.new parts.old_space.low parts.old_space.end)
        ≤ pinned_count (has_start starts.new) words.new (row words.new parts.old_space.low parts.old_space.end) + 1 }
    ensures order { (parts.eden.low ≤ result.eden) × (parts.past_space.low ≤ result.past_space) }
    ensures eden { IsFull (has_start starts.new) words.new parts.eden.low parts.eden.end result.eden }
    ensures past_space { IsFull (has_start starts.new) words.new parts.past_space.low parts.past_space.end result.past_space }
    ensures compacted { (p : ℕ → ℕ)
        × AreCompacted p (has_start starts.old) (has_start starts.new) words.old words.new parts
        × RootsMovedBy p (roots_of handles.old special.old mourners.old) (roots_of handles.new special.new mourners.new) }
{
    let _end = words.len();
    compact_parts(words, handles, special, mourners, starts, table, parts);
    fill_gaps(words, starts, parts.old_space.low, parts.old_space.end);
    let eden = last_end(words, starts, parts.eden);
    let past_space = last_end(words, starts, parts.past_space);
    YoungEnds { eden, past_space }
}
