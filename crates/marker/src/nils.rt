// Weak slots that name dead objects become nil.
ghost use Rattle.std.specs.Prelude.{◌≡◌, length, false, true};
ghost use Rattle.std.specs.List.{count_by};
ghost use Rattle.spur_graph.specs.Heaps.{heap_graph, Marked};
ghost use Rattle.spur_graph.specs.Live.{weak_values};
ghost use Rattle.spur_graph.specs.Rounds.{names_dead, nils};
ghost use Rattle.spur_heap.specs.MarkBits.{StartsAt, marks};
ghost use Rattle.spur_heap.specs.Views.{node_in};
ghost use Rattle.weak_ephemeron.specs.Steps.{NilsOne};
ghost use Rattle.marker.specs.Firing.{NilsBelow};

use crate::inner::{has_format, is_ordinary};
use spur_heap::Heap;
use weak_ephemeron::{WEAK_FORMAT, nil_weak};

/// Whether a marked ordinary object starts there.
pub fn is_live(heap: &Heap, start: usize) -> bool
    requires there { StartsAt heap.now start }
    ensures { result ≡ marks heap.now start }
{
    if heap.is_forwarder(start) || !heap.is_marked(start) {
        return false;
    }
    is_ordinary(heap, start)
}

/// Gives the weak slots of what starts there that name dead objects the word of nil, and counts them, if it is a marked ordinary object.
fn nil_at(heap: &mut Heap, start: usize) -> u64
    requires there { StartsAt heap.old start }
    requires phase { heap.old.phase ≡ Marked }
    ensures skips { marks heap.old start ≡ false → (heap.new ≡ heap.old) × (result ≡ 0) }
    ensures nils { marks heap.old start ≡ true → NilsOne start heap.old heap.new }
    ensures count { marks heap.old start ≡ true → result ≡ count_by (names_dead (marks heap.old)) (weak_values (heap_graph heap.old) (node_in heap.old start)) }
    ensures idle { result ≡ 0 → heap.new ≡ heap.old }
{
    if !has_format(heap, start, WEAK_FORMAT) {
        return 0;
    }
    if !is_live(heap, start) {
        return 0;
    }
    nil_weak(heap, start)
}

/// Gives the weak slots of all marked objects that name dead objects the word of nil, and counts them.
pub fn nil_all(heap: &mut Heap) -> u64
    requires phase { heap.old.phase ≡ Marked }
    ensures nils { NilsBelow (length heap.old.words) heap.old heap.new }
    ensures count { result ≡ nils (marks heap.old) (heap_graph heap.old) }
    ensures idle { result ≡ 0 → heap.new ≡ heap.old }
{
    let mut nilled = 0;
    let mut at = 0;
    'starts: while let Some(start) = heap.next_start(at) {
        heap.whole();
        nilled += nil_at(heap, start);
        at = start + 1;
    }
    heap.whole();
    nilled
}
