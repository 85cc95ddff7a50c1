// A heap, compacted in place.
ghost use Rattle.std.specs.Prelude.{◌≡◌, ◌≢◌, ◌+◌, ◌^◌, ◌<◌, ◌≤◌, ℕ, length};
ghost use Rattle.heap_walk.specs.Starts.{has_start, covered};
ghost use Rattle.std.specs.List.{filter};
ghost use Rattle.spur_graph.specs.Cells.{first};
ghost use Rattle.spur_graph.specs.Ordinary.{ordinary_starts};
ghost use Rattle.spur_graph.specs.Heaps.{IsWhole, Marked, is_marked, store_of};
ghost use Rattle.spur_heap.specs.Words.{AreSound};
ghost use Rattle.remembered_set.specs.Starts.{Table};
ghost use Rattle.spur_heap.specs.Parts.{view_of, ArePartsOfHeap, HasMap, HasRemembered};
ghost use Rattle.spur_heap.specs.Tables.{HasPlaces};
ghost use Rattle.compaction_laws.specs.Compacting.{IsTight, Compacts, is_mapped};
ghost use Rattle.planning_compactor.specs.Ranges.{ranges_in, roots_in, CanCompact, CompactsRanges};
ghost use Rattle.planning_compactor.specs.Heaps.{IsCompactedHeap};

use crate::parts::{Part, Parts, YoungEnds, compact_words};
use crate::sweeps::sweep;
use spur_graph::{FREE_LISTS, HIDDEN_ROOTS, HIDDEN_ROOTS_SLOTS};
use spur_heap::{Heap, HeapParts, first_start, remember_anew};

/// The ranges that are compacted: old space behind the hidden roots, and what is used of eden and of past space.
fn ranges_of(parts: &HeapParts) -> Parts
    requires sound { AreSound (view_of parts.now) }
    ensures { result ≡ ranges_in (view_of parts.now) }
{
    let roots = first_start(parts, HIDDEN_ROOTS);
    Parts {
        old_space: Part {
            low: roots + 1 + HIDDEN_ROOTS_SLOTS,
            end: parts.old_end,
        },
        eden: Part {
            low: parts.eden_at,
            end: parts.eden_at + parts.eden_used,
        },
        past_space: Part {
            low: parts.past_at,
            end: parts.past_at + parts.past_used,
        },
    }
}

/// Compacts the ranges.
fn compact_ranges(parts: &mut HeapParts, ranges: Parts) -> YoungEnds
    requires covers { covered parts.old.starts ≡ length parts.old.region }
    requires few { length parts.old.region ≤ 2 ^ 27 }
    requires taken { parts.old.mourned ≤ length parts.old.mourners.items }
    requires some_saved { 0 < length parts.old.saved.items }
    requires can { CanCompact (has_start parts.old.starts) parts.old.region (roots_in parts.old) ranges }
    ensures { CompactsRanges parts.old parts.new ranges result }
{
    let words = parts.region.len();
    compact_words(
        parts.region.window_mut(0, words),
        parts.handles.words_mut(),
        &mut parts.special,
        parts.mourners.slice_mut(parts.mourned..),
        &mut parts.starts,
        parts.saved.as_mut_slice(),
        ranges,
    )
}

/// Leaves the starts of marked objects in the map, but for that of the free lists object, whose words are no references. Only they are counted then.
fn sweep_parts(parts: &mut HeapParts, lists: usize)
    requires heap { ArePartsOfHeap parts.old }
    requires tight { IsTight (view_of parts.old) }
    requires lists { lists ≡ first (store_of (view_of parts.old)) 3 }
    ensures starts { (s : ℕ) → has_start parts.new.starts s ≡ is_mapped (view_of parts.old) s }
    ensures covers { covered parts.new.starts ≡ covered parts.old.starts }
    ensures count { parts.new.objects ≡ length (filter (is_marked parts.old.region) (ordinary_starts (store_of (view_of parts.old)))) }
    ensures rest { parts.new ≡ record parts.old { starts = parts.new.starts; objects = parts.new.objects } }
{
    let lost = sweep(parts.region.as_slice(), &mut parts.starts);
    parts.objects -= lost;
    parts.starts.unset(lists);
}

/// Compacts the spaces of a heap, each within itself. The table of remembered starts is to be made anew then.
fn compact_objects(parts: &mut HeapParts)
    requires heap { ArePartsOfHeap parts.old }
    requires tight { IsTight (view_of parts.old) }
    ensures whole { IsWhole (view_of parts.new) }
    ensures map { HasMap parts.new }
    ensures places { HasPlaces (length parts.new.region) parts.new.remembered.capacity }
    ensures heap { (table : Table) → HasRemembered (record parts.new { remembered = table }) → ArePartsOfHeap (record parts.new { remembered = table }) }
    ensures compacts { (p : ℕ → ℕ) × Compacts p (view_of parts.old) (view_of parts.new) }
{
    let ranges = ranges_of(parts);
    let lists = first_start(parts, FREE_LISTS);
    sweep_parts(parts, lists);
    // Each of these is the word of a handle.
    let _held = parts.handles.words();
    let ends = compact_ranges(parts, ranges);
    parts.eden_used = ends.eden - parts.eden_at;
    parts.past_used = ends.past_space - parts.past_at;
    parts.starts.set(lists);
    parts.free.rebuild(&mut parts.region, 0, parts.old_end);
    parts.forwarders = false;
}

/// Compacts the spaces of a heap, and makes the table of remembered starts anew, since what it names has moved or is gone.
fn compact_spaces(parts: &mut HeapParts)
    requires heap { ArePartsOfHeap parts.old }
    requires tight { IsTight (view_of parts.old) }
    ensures heap { ArePartsOfHeap parts.new }
    ensures compacts { (p : ℕ → ℕ) × Compacts p (view_of parts.old) (view_of parts.new) }
{
    compact_objects(parts);
    remember_anew(parts);
}

/// Compacts old space, eden and past space of a heap, each within itself: each marked object goes to its planned place, whatever is not marked is gone, and
/// each gap of old space is one free chunk. What names an object names it at its place.
///
/// Internal objects, nil, false and true have to be marked, and so has whatever a slot of a marked object or something from outside names, without a
/// forwarder on the way.
///
/// It takes no memory. Any number of entries for first fields serves; all references are rewritten once for each so many objects that move.
pub fn compact(heap: &mut Heap)
    requires phase { heap.old.phase ≡ Marked }
    requires tight { IsTight heap.old }
    ensures { IsCompactedHeap heap.old heap.new }
{
    compact_spaces(&mut heap.parts);
}
