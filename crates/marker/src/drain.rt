// What stands on the stack is passed, until all that stands there waits.
ghost use Rattle.std.specs.Prelude.{◌≡◌, ◌≤◌, ◌<◌, ◌+◌, ◌/◌, ◌∷◌, ◌++◌, ℕ, [], length, true, false};
ghost use Rattle.std.specs.List.{swap};
ghost use Rattle.spur_graph.specs.Heaps.{Marked};
ghost use Rattle.spur_heap.specs.Views.{IsOrdinary};
ghost use Rattle.marker.specs.Marks.{silent_of};
ghost use Rattle.marker.specs.Waiting.{EndsReady, waits};
ghost use Rattle.marker.specs.Visits.{HasRoom, HasRoomForOne, IsStackOf, NamesCounted, Visits, Works, unmarked};

use crate::keys::waits;
use crate::scan::scan;
use spur_heap::Heap;
use weak_ephemeron::strong_count;

/// Whether an object is the excepted one.
fn is_excepted(except: Option<usize>, start: usize) -> bool
    ensures { result ≡ silent_of except start }
{
    match except {
        None => false,
        Some(name) => start == name,
    }
}

/// Marks what an object has in the slots that count, all of an ephemeron and the strong ones of any other.
fn pass(heap: &mut Heap, start: usize)
    requires there { IsOrdinary heap.old start }
    requires phase { heap.old.phase ≡ Marked }
    requires room { HasRoom heap.old }
    ensures visits { Visits (NamesCounted heap.old start) heap.old heap.new }
{
    let count = strong_count(heap, start);
    scan(heap, start, count);
}

/// Puts an object on the mark stack as the last of those that wait, of which there are so many. What stood there is the last of all then.
/// Answers how many wait then.
fn set_aside(heap: &mut Heap, waiting: usize, start: usize) -> usize
    requires there { IsOrdinary heap.old start }
    requires within { waiting ≤ length heap.old.stack }
    requires room { length heap.old.stack < length heap.old.words / 2 }
    ensures count { result ≡ waiting + 1 }
    ensures swapped { heap.new ≡ record heap.old { stack = swap (heap.old.stack ++ start ∷ []) waiting (length heap.old.stack) } }
{
    // tells that the start is one of a word, and that no sum wraps
    heap.whole();
    let last = heap.stack_len();
    heap.push_mark(start);
    heap.swap_marks(waiting, last);
    waiting + 1
}

/// Passes an object that was taken from the mark stack, or sets it aside if it waits. Nothing is passed of the excepted object. Answers how many wait then.
fn advance(heap: &mut Heap, except: Option<usize>, waiting: usize, start: usize) -> usize
    requires there { IsOrdinary heap.old start }
    requires phase { heap.old.phase ≡ Marked }
    requires room { HasRoomForOne heap.old }
    requires within { waiting ≤ length heap.old.stack }
    ensures excepted { silent_of except start ≡ true → (result ≡ waiting) × (heap.new ≡ heap.old) }
    ensures aside { silent_of except start ≡ false → waits heap.old start ≡ true → (result ≡ waiting + 1) × (heap.new ≡ record heap.old { stack = swap (heap.old.stack ++ start ∷ []) waiting (length heap.old.stack) }) }
    ensures passed { silent_of except start ≡ false → waits heap.old start ≡ false → (result ≡ waiting) × Visits (NamesCounted heap.old start) heap.old heap.new }
{
    if is_excepted(except, start) {
        return waiting;
    }
    if waits(heap, start) {
        return set_aside(heap, waiting, start);
    }
    pass(heap, start);
    waiting
}

/// Passes whatever stands on the mark stack behind the first starts, which wait, and sets aside what waits among it: all that stands there then.
pub fn drain(heap: &mut Heap, except: Option<usize>, waiting: usize)
    requires phase { heap.old.phase ≡ Marked }
    requires room { HasRoom heap.old }
    requires stack { IsStackOf heap.old }
    requires within { waiting ≤ length heap.old.stack }
    ensures works { Works except heap.old heap.new }
    ensures kept { waiting ≤ length heap.new.stack }
    ensures less { EndsReady waiting heap.old → unmarked heap.new + length heap.new.stack < unmarked heap.old + length heap.old.stack }
{
    let mut aside = waiting;
    'starts: while let Some(start) = heap.pop_mark(aside) {
        aside = advance(heap, except, aside, start);
    }
}
