// The class table, in pages that the hidden roots name.
ghost use Rattle.std.specs.Prelude.{◌≡◌, ◌<◌, if◌then◌else◌, true};
ghost use Rattle.spur_graph.specs.Cells.{first};
ghost use Rattle.spur_graph.specs.Ordinary.{roots_slots, root_slot, has_page, entry};
ghost use Rattle.spur_graph.specs.Heaps.{store_of};
ghost use Rattle.heap_cells.specs.Settled.{settled_word, word_of};
ghost use Rattle.spur_heap.specs.Words.{AreSound, is_good};
ghost use Rattle.spur_heap.specs.Parts.{view_of};
ghost use Rattle.spur_heap.specs.Views.{class_word};

use crate::chains::follow_word;
use crate::heap::HeapParts;
use crate::places::{first_start, first_word};
use spur_graph::{HIDDEN_ROOTS, PAGE_ENTRIES, PAGE_PLACES};

/// Slot `i` of the hidden roots.
pub fn root_word(parts: &HeapParts, i: usize) -> u64
    requires sound { AreSound (view_of parts.now) }
    requires inside { i < roots_slots }
    ensures { result ≡ root_slot (store_of (view_of parts.now)) i }
{
    parts.region.get(first_start(parts, HIDDEN_ROOTS) + 1 + i)
}

/// The word of the class of an index, followed; that of nil where the class table has no page there. Slot `index / 1024` of the hidden roots names the
/// page, and 4,096 slots do, so that from 2^22 on there is none.
pub fn class_word(parts: &HeapParts, index: usize) -> u64
    requires sound { AreSound (view_of parts.now) }
    ensures class { class_word (view_of parts.now) index result }
    ensures good { is_good (view_of parts.now) result ≡ true }
{
    let nil = first_word(parts, 0);
    let place = index / PAGE_ENTRIES;
    if place >= PAGE_PLACES {
        return nil;
    }
    let page = root_word(parts, place);
    if page == nil {
        return nil;
    }
    let entry = parts
        .region
        .get((page / 8) as usize + 1 + index % PAGE_ENTRIES);
    follow_word(parts, entry)
}
