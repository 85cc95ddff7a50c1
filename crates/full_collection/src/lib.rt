//! A full collection, in place.
//!
//! What lives is marked from the roots, ephemerons whose keys died fire in rounds, weak slots of dead objects become nil, and what is marked is moved
//! together, each space within itself. The layer above rests on one clause: the heap then stands for the graph of a collection with no further roots. Spur does
//! so in `globalGarbageCollect`, in the same four steps.
#![tactic(auto)]

ghost use Rattle.std.specs.Prelude.{◌≡◌};
ghost use Rattle.spur_graph.specs.Heaps.{Whole};
ghost use Rattle.full_collection.specs.Collected.{CollectsHeap, GoesAsPlanned};

use marker::{finish, mark};
use planning_compactor::compact;
use spur_graph::Counts;
use spur_heap::Heap;

/// Collects what is dead in all spaces, and counts the weak slots that became nil and the ephemerons that fired. What lives, and each internal object, goes
/// to its planned place within its space; nothing else is left there, and no forwarder. No memory is taken.
pub fn collect(heap: &mut Heap) -> Counts
    requires phase { heap.old.phase ≡ Whole }
    ensures collects { CollectsHeap heap.old result.nilled result.fired heap.new }
    ensures placed { GoesAsPlanned heap.old heap.new }
{
    mark(heap, None);
    heap.whole();
    let counts = finish(heap);
    heap.whole();
    compact(heap);
    heap.clear_marks();
    heap.whole();
    counts
}
