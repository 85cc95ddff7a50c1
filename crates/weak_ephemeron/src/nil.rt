// Weak slots become nil where what they name is dead.
ghost use Rattle.std.specs.Prelude.{◌≡◌, ◌<◌, if◌then◌else◌, length};
ghost use Rattle.std.specs.List.{count_by};
ghost use Rattle.spur_graph.specs.Heaps.{heap_graph, Marked};
ghost use Rattle.spur_graph.specs.Live as live;
ghost use Rattle.spur_graph.specs.Rounds.{names_dead};
ghost use Rattle.spur_heap.specs.MarkBits.{marks};
ghost use Rattle.spur_heap.specs.Views.{IsOrdinary, node_in};
ghost use Rattle.weak_ephemeron.specs.Steps.{NilsOne, NilsSlot, slot_value};

use crate::strong::{WEAK_FORMAT, strong_count};
use spur_heap::Heap;

/// Whether a pointer slot of an object names an object that is not marked.
fn names_unmarked(heap: &Heap, start: usize, i: usize) -> bool
    requires there { IsOrdinary heap.now start }
    requires within { i < length (node_in heap.now start).pointers }
    ensures { result ≡ names_dead (marks heap.now) (slot_value heap.now start i) }
{
    match heap.object(heap.pointer(start, i)) {
        Ok(named) => !heap.is_marked(named),
        Err(_) => false,
    }
}

/// Gives a pointer slot of an object that names an object without a mark the word of nil, and answers 1 where it did, else 0.
fn nil_slot(heap: &mut Heap, start: usize, i: usize) -> u64
    requires there { IsOrdinary heap.old start }
    requires weak { (node_in heap.old start).format ≡ 4 }
    requires within { i < length (node_in heap.old start).pointers }
    requires marked { heap.old.phase ≡ Marked }
    ensures nils { NilsSlot start i heap.old heap.new }
    ensures count { result ≡ (if names_dead (marks heap.old) (slot_value heap.old start i) then 1 else 0) }
    ensures idle { result ≡ 0 → heap.new ≡ heap.old }
{
    if !names_unmarked(heap, start, i) {
        return 0;
    }
    // tells that nil is an object
    heap.whole();
    let nil = heap.nil();
    heap.put_pointer(start, i, nil);
    1
}

/// Gives each weak slot of an object that names an object without a mark the word of nil, and counts these slots. Only a weak object has weak slots.
pub fn nil_weak(heap: &mut Heap, start: usize) -> u64
    requires there { IsOrdinary heap.old start }
    requires marked { heap.old.phase ≡ Marked }
    ensures nils { NilsOne start heap.old heap.new }
    ensures count { result ≡ count_by (names_dead (marks heap.old)) (live.weak_values (heap_graph heap.old) (node_in heap.old start)) }
    ensures idle { result ≡ 0 → heap.new ≡ heap.old }
{
    if heap.header(start).format() != WEAK_FORMAT {
        return 0;
    }
    nil_slots(heap, start)
}

/// Does so for a weak object.
fn nil_slots(heap: &mut Heap, start: usize) -> u64
    requires there { IsOrdinary heap.old start }
    requires weak { (node_in heap.old start).format ≡ 4 }
    requires marked { heap.old.phase ≡ Marked }
    ensures nils { NilsOne start heap.old heap.new }
    ensures count { result ≡ count_by (names_dead (marks heap.old)) (live.weak_values (heap_graph heap.old) (node_in heap.old start)) }
    ensures idle { result ≡ 0 → heap.new ≡ heap.old }
{
    let strong = strong_count(heap, start);
    let count = heap.pointer_count(start);
    let mut nilled = 0;
    'slots: for i in strong..count {
        nilled += nil_slot(heap, start, i);
    }
    nilled
}
