// Ephemerons that fire, and mourners that are taken away.
ghost use Rattle.std.specs.Prelude.{◌≡◌, ◌≢◌, [], false, IfSome, IfNone};
ghost use Rattle.spur_graph.specs.Heaps.{heap_graph};
ghost use Rattle.spur_heap.specs.Mourning.{TakesMourner};
ghost use Rattle.spur_heap.specs.Views.{IsOrdinary, node_in};
ghost use Rattle.weak_ephemeron.specs.Steps.{FiresOne};

use spur_heap::Heap;

/// Fires an ephemeron: it becomes an object of named slots and waits behind all mourners, as the first of a group or in the last one.
pub fn fire(heap: &mut Heap, start: usize, first: bool)
    requires there { IsOrdinary heap.old start }
    requires ephemeron { (node_in heap.old start).format ≡ 5 }
    requires some { first ≡ false → heap.old.mourners ≢ [] }
    ensures fires { FiresOne start first heap.old heap.new }
{
    // tells that no ephemeron mourns
    heap.whole();
    heap.retire_ephemeron(start);
    heap.add_mourner(start, first);
}

/// Takes a mourner of the earliest group away, and answers its word, followed; None where there is no mourner.
pub fn mourn(heap: &mut Heap) -> Option<u64>
    ensures none { IfNone result (((heap_graph heap.old).mourners ≡ []) × (heap.new ≡ heap.old)) }
    ensures taken { IfSome result (TakesMourner heap.old heap.new) }
{
    heap.take_mourner()
}
