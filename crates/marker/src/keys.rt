// Ephemerons wait while their keys are not marked.
ghost use Rattle.std.specs.Prelude.{◌≡◌, true};
ghost use Rattle.spur_graph.specs.Live as live;
ghost use Rattle.spur_graph.specs.Rounds.{names_dead};
ghost use Rattle.spur_heap.specs.MarkBits.{marks};
ghost use Rattle.spur_heap.specs.Views.{IsOrdinary, node_in};
ghost use Rattle.weak_ephemeron.specs.Steps.{slot_value};
ghost use Rattle.marker.specs.Waiting.{waits};

use spur_heap::Heap;
use weak_ephemeron::is_keyed;

/// Whether the key of an ephemeron is an object that is not marked.
fn has_dead_key(heap: &Heap, start: usize) -> bool
    requires there { IsOrdinary heap.now start }
    requires keyed { live.is_keyed (node_in heap.now start) ≡ true }
    ensures { result ≡ names_dead (marks heap.now) (slot_value heap.now start 0) }
{
    match heap.object(heap.pointer(start, 0)) {
        Ok(key) => !heap.is_marked(key),
        Err(_) => false,
    }
}

/// Whether an object is an ephemeron whose key is an object that is not marked.
pub fn waits(heap: &Heap, start: usize) -> bool
    requires there { IsOrdinary heap.now start }
    ensures { result ≡ waits heap.now start }
{
    is_keyed(heap, start) && has_dead_key(heap, start)
}
