// How many of an object's slots are strong.
ghost use Rattle.std.specs.Prelude.{◌≡◌, ◌<◌, length, min, Some};
ghost use Rattle.std.specs.FinMap.{get};
ghost use Rattle.spur_graph.specs.Heaps.{heap_graph, heap_value};
ghost use Rattle.spur_graph.specs.Live as live;
ghost use Rattle.spur_graph.specs.Ordinary.{class_limit};
ghost use Rattle.spur_heap.specs.Views.{IsGood, IsOrdinary, node_in};

use spur_heap::Heap;

/// The format of a weak object.
pub const WEAK_FORMAT: u64 = 4;

/// The format of an ephemeron.
pub const EPHEMERON_FORMAT: u64 = 5;

/// The slot of a class that tells of its instances. The low 16 bits of a SmallInteger there are the number of their fixed slots.
const INSTANCE_SLOT: usize = 2;

/// Whether an object is an ephemeron with a key, which is its slot 0.
pub fn is_keyed(heap: &Heap, start: usize) -> bool
    requires there { IsOrdinary heap.now start }
    ensures { result ≡ live.is_keyed (node_in heap.now start) }
{
    heap.header(start).format() == EPHEMERON_FORMAT && heap.pointer_count(start) > 0
}

/// How many of the first slots of an object are strong: of a weak object as many as its class says, at most all, and of every other object all. The slots
/// of an ephemeron with a key count on a condition.
pub fn strong_count(heap: &Heap, start: usize) -> usize
    requires there { IsOrdinary heap.now start }
    ensures { result ≡ min (live.strong_count (heap_graph heap.now) (node_in heap.now start)) (length (node_in heap.now start).pointers) }
{
    let count = heap.pointer_count(start);
    let header = heap.header(start);
    if header.format() != WEAK_FORMAT {
        return count;
    }
    fixed_slots_at(heap, header.class() as u32).min(count)
}

/// The number of fixed slots of the instances of a class index, 0 where the class table has no entry there.
fn fixed_slots_at(heap: &Heap, index: u32) -> usize
    requires below { index < class_limit }
    ensures { result ≡ live.fixed_of (heap_graph heap.now) (get (heap_graph heap.now).classes index) }
{
    heap.whole();
    if heap.is_unentered(index) {
        return 0;
    }
    fixed_slots(heap, heap.class_at(index))
}

/// The number of fixed slots that a class tells of its instances, 0 where it tells none.
fn fixed_slots(heap: &Heap, class: u64) -> usize
    requires good { IsGood heap.now class }
    ensures { result ≡ live.fixed_of (heap_graph heap.now) (Some (heap_value heap.now class)) }
{
    let Ok(start) = heap.object(class) else {
        return 0;
    };
    if heap.pointer_count(start) <= INSTANCE_SLOT {
        return 0;
    }
    let slot = heap.pointer(start, INSTANCE_SLOT);
    if slot % 8 != 1 {
        return 0;
    }
    (slot / 8 % 65536) as usize
}
