// Which objects are ordinary, and which are the heap's own.
ghost use Rattle.std.specs.Prelude.{◌≡◌, ◌≢◌, ◌&&◌, ◌<◌, length, not, nat_eq, false, true};
ghost use Rattle.spur_graph.specs.Cells.{any_below, first};
ghost use Rattle.spur_graph.specs.Ordinary.{is_ordinary, page_places, tells};
ghost use Rattle.spur_graph.specs.Heaps.{store_of};
ghost use Rattle.spur_heap.specs.MarkBits.{IsObject, StartsAt, marks};
ghost use Rattle.spur_heap.specs.Parts.{view_of};
ghost use Rattle.spur_heap.specs.Views.{node_in, store};
ghost use Rattle.spur_heap.specs.Words.{AreSound, body_in, is_object};

use heap_walk::slots_of;
use object_header::Header;
use spur_graph::{FREE_LISTS, HIDDEN_ROOTS, PAGE_ENTRIES, PAGE_PLACES};
use spur_heap::{Heap, HeapParts, first_start};

/// The format of a page of the class table.
const PAGE_FORMAT: u64 = 2;

/// The format of an object, which may be one of the heap's own.
fn format_of(heap: &Heap, start: usize) -> u64
    requires there { IsObject heap.now start }
    ensures { result ≡ (body_in heap.now start).format }
{
    Header(heap.parts.region.get(start)).format()
}

/// Whether an object of this format starts there. It may be one of the heap's own.
pub fn has_format(heap: &Heap, start: usize, format: u64) -> bool
    requires there { StartsAt heap.now start }
    ensures no { result ≡ false → marks heap.now start ≡ true → (node_in heap.now start).format ≢ format }
{
    if heap.is_forwarder(start) {
        return false;
    }
    format_of(heap, start) == format
}

/// Whether an object is an ordinary one: neither the free lists object, nor the hidden roots, nor a page of the class table.
pub fn is_ordinary(heap: &Heap, start: usize) -> bool
    requires there { IsObject heap.now start }
    ensures { result ≡ is_ordinary (store heap.now) start }
{
    let parts = &heap.parts;
    if start == first_start(parts, FREE_LISTS) {
        return false;
    }
    if start == first_start(parts, HIDDEN_ROOTS) {
        return false;
    }
    !is_page(parts, start)
}

/// Whether an object is a page of the class table. Only one of a page's size is looked up.
fn is_page(parts: &HeapParts, start: usize) -> bool
    requires sound { AreSound (view_of parts.now) }
    requires there { is_object (view_of parts.now) start ≡ true }
    ensures { result ≡ (not (nat_eq start (first (store_of (view_of parts.now)) 0)) && any_below (λ i. tells (store_of (view_of parts.now)) i start) page_places) }
{
    let words = parts.region.as_slice();
    if Header(words[start]).format() != PAGE_FORMAT {
        return false;
    }
    if slots_of(words, start) != PAGE_ENTRIES {
        return false;
    }
    start != first_start(parts, 0) && is_in_roots(parts, start)
}

/// Whether one of the first 4,096 slots of the hidden roots names what starts there. Those that name no page name nil.
fn is_in_roots(parts: &HeapParts, start: usize) -> bool
    requires sound { AreSound (view_of parts.now) }
    requires inside { start < length parts.now.region }
    ensures { result ≡ any_below (λ i. tells (store_of (view_of parts.now)) i start) page_places }
{
    // the length tells that no sum of places wraps
    let _end = parts.region.len();
    let roots = first_start(parts, HIDDEN_ROOTS);
    'places: for i in 0..PAGE_PLACES {
        if parts.region.get(roots + 1 + i) == 8 * start as u64 {
            return true;
        }
    }
    false
}
