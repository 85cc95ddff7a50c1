// Ephemerons that wait are looked at again: those whose keys are marked by now are passed.
ghost use Rattle.std.specs.Prelude.{◌≡◌, ◌≤◌, ◌<◌, ◌+◌, ℕ, length, slice_index, false, true};
ghost use Rattle.std.specs.List.{Contains};
ghost use Rattle.spur_graph.specs.Heaps.{heap_graph, Marked};
ghost use Rattle.spur_graph.specs.Live as live;
ghost use Rattle.spur_heap.specs.MarkBits.{marks};
ghost use Rattle.marker.specs.Marks.{silent_of};
ghost use Rattle.marker.specs.Waiting.{Progress, waits};
ghost use Rattle.marker.specs.Visits.{HasRoom, IsStackOf, Works, unmarked};

use crate::drain::drain;
use crate::keys::waits;
use spur_heap::Heap;

/// Passes start `i` of the mark stack, and what is found by it, if it does not wait any more. Answers whether it was passed.
fn look_at(heap: &mut Heap, except: Option<usize>, i: usize) -> bool
    requires phase { heap.old.phase ≡ Marked }
    requires room { HasRoom heap.old }
    requires stack { IsStackOf heap.old }
    requires within { i < length heap.old.stack }
    ensures works { Works except heap.old heap.new }
    ensures kept { i ≤ length heap.new.stack }
    ensures waits { result ≡ false → (waits heap.old (slice_index heap.old.stack i) ≡ true) × (heap.new ≡ heap.old) }
    ensures less { result ≡ true → unmarked heap.new + length heap.new.stack < unmarked heap.old + length heap.old.stack }
{
    let start = heap.stack_item(i);
    if waits(heap, start) {
        return false;
    }
    let last = heap.stack_len() - 1;
    heap.swap_marks(i, last);
    drain(heap, except, last);
    true
}

/// Looks at each ephemeron that waits, the latest first: where keys are found one by the other, they are mostly found against the order in which the
/// ephemerons were met. Answers whether one was passed.
fn look(heap: &mut Heap, except: Option<usize>) -> bool
    requires phase { heap.old.phase ≡ Marked }
    requires room { HasRoom heap.old }
    requires stack { IsStackOf heap.old }
    ensures works { Works except heap.old heap.new }
    ensures wait { result ≡ false → (t : ℕ) → Contains heap.new.stack t → waits heap.new t ≡ true }
    ensures less { result ≡ true → unmarked heap.new + length heap.new.stack < unmarked heap.old + length heap.old.stack }
{
    let mut found = false;
    let mut i = heap.stack_len();
    'starts: while i > 0 {
        i -= 1;
        let passed = look_at(heap, except, i);
        found = found || passed;
    }
    found
}

/// Marks whatever else is live, once the roots are marked. The ephemerons whose keys are not marked then, and whose values count, are left on the stack.
pub fn complete(heap: &mut Heap, except: Option<usize>)
    requires phase { heap.old.phase ≡ Marked }
    requires room { HasRoom heap.old }
    requires stack { IsStackOf heap.old }
    ensures works { Works except heap.old heap.new }
    ensures all { Progress (heap_graph heap.old) (silent_of except) (marks heap.old) heap.old.stack → (a : ℕ) → live.Reached (heap_graph heap.old) live.none (silent_of except) a → marks heap.new a ≡ true }
{
    drain(heap, except, 0);
    'rounds: loop {
        if !look(heap, except) {
            return;
        }
    }
}
