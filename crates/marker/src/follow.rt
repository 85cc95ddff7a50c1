// Whatever is marked, and each root, is followed: its words name no forwarder then.
ghost use Rattle.std.specs.Prelude.{◌≡◌, ◌<◌, ◌≤◌, ◌+◌, ◌%◌, ℕ, length, true};
ghost use Rattle.spur_graph.specs.Ordinary.{class_limit, page_entries, page_places};
ghost use Rattle.spur_heap.specs.Following.{Follows};
ghost use Rattle.spur_heap.specs.MarkBits.{StartsAt, marks};
ghost use Rattle.spur_heap.specs.Views.{IsOrdinary};
ghost use Rattle.marker.specs.Followed.{AreFollowed, FollowsBelow, FollowsPage, FollowsPages, HasFollowedSlots};

use crate::inner::is_ordinary;
use spur_graph::{PAGE_ENTRIES, PAGE_PLACES};
use spur_heap::Heap;

/// Follows the pointer slots of an object.
fn follow_slots(heap: &mut Heap, start: usize)
    requires there { IsOrdinary heap.old start }
    ensures follows { Follows heap.old heap.new }
    ensures slots { HasFollowedSlots heap.new start }
{
    'slots: for i in 0..heap.pointer_count(start) {
        heap.follow_pointer(start, i);
    }
}

/// Follows the pointer slots of what starts there, if that is a marked ordinary object.
fn follow_marked(heap: &mut Heap, start: usize)
    requires there { StartsAt heap.old start }
    ensures follows { Follows heap.old heap.new }
    ensures slots { marks heap.old start ≡ true → HasFollowedSlots heap.new start }
{
    if heap.is_forwarder(start) || !heap.is_marked(start) {
        return;
    }
    if is_ordinary(heap, start) {
        follow_slots(heap, start);
    }
}

/// Follows the pointer slots of all marked ordinary objects.
fn follow_objects(heap: &mut Heap)
    ensures follows { (i : ℕ) → FollowsBelow i heap.old heap.new }
{
    let mut at = 0;
    'starts: while let Some(start) = heap.next_start(at) {
        heap.whole();
        follow_marked(heap, start);
        at = start + 1;
    }
}

/// Follows the entries of the page of the class table whose first index is this one, if there is the page.
fn follow_page(heap: &mut Heap, first: u32)
    requires first { first % page_entries ≡ 0 }
    requires below { first + page_entries ≤ class_limit }
    ensures follows { FollowsPage first page_entries heap.old heap.new }
{
    if !heap.has_page(first) {
        return;
    }
    'entries: for i in 0..PAGE_ENTRIES {
        heap.follow_entry(first + i as u32);
    }
}

/// Follows the entries of the class table.
fn follow_classes(heap: &mut Heap)
    ensures follows { FollowsPages page_places heap.old heap.new }
{
    'pages: for page in 0..PAGE_PLACES {
        follow_page(heap, (PAGE_ENTRIES * page) as u32);
    }
}

/// Follows each word of a marked object and of the roots.
pub fn follow_all(heap: &mut Heap)
    ensures follows { Follows heap.old heap.new }
    ensures all { AreFollowed heap.new }
{
    follow_objects(heap);
    follow_classes(heap);
    heap.follow_special();
    heap.follow_handles();
    heap.follow_mourners();
}
