// Contents that change places, and contents that are copied.
ghost use Rattle.std.specs.Prelude.{◌≡◌, ◌<◌, ◌^◌, ℕ, slice_index};
ghost use Rattle.spur_graph.specs.Graph.{with_node};
ghost use Rattle.spur_graph.specs.Become.{exchange};
ghost use Rattle.spur_graph.specs.Heaps.{chunks_of, heap_graph, heap_room, heap_value};
ghost use Rattle.spur_heap.specs.Views.{IsGood, IsOrdinary, node_in};
ghost use Rattle.spur_heap.specs.Outside.{IsOutside};
ghost use Rattle.spur_heap.specs.Exchanging.{CanExchange, CanTake};

use crate::heap::Heap;
use crate::remembering::note_with;
use crate::swapping::exchange_contents;
use crate::taking::{copy_run, header_taking};
use heap_walk::slots_of;

impl Heap {
    /// Two objects change contents where they stand: class index, format, flags and slots. Each keeps its hash, and the remembered bit stays with the place; it is
    /// set where a place of old space names new space then. Words of the two objects are written, and no other.
    pub fn exchange_in_place(&mut self, a: usize, b: usize)
        requires first { IsOrdinary self.old a }
        requires second { IsOrdinary self.old b }
        requires can { CanExchange self.old a b }
        ensures graph { heap_graph self.new ≡ exchange (heap_graph self.old) a b }
        ensures room { heap_room self.new ≡ heap_room self.old }
        ensures values { (w : ℕ) → heap_value self.new w ≡ heap_value self.old w }
        ensures goods { (w : ℕ) → IsGood self.old w → IsGood self.new w }
        ensures ordinary { (s : ℕ) → IsOrdinary self.old s → IsOrdinary self.new s }
        ensures others { (j : ℕ) → IsOutside self.old a j → IsOutside self.old b j → slice_index self.new.words j ≡ slice_index self.old.words j }
        ensures rest { self.new ≡ record self.old { words = self.new.words } }
    {
        note_with(&mut self.parts, a, b);
        note_with(&mut self.parts, b, a);
        exchange_contents(&mut self.parts, a, b);
    }

    /// Gives an object the contents of another that has as many slots: class index, format, flags and slots, and this hash. It stays remembered where it was, and it is
    /// remembered where it stands in old space and names new space then. Words of the object are written, and no other.
    pub fn copy_contents(&mut self, from: usize, to: usize, hash: u32)
        requires source { IsOrdinary self.old from }
        requires target { IsOrdinary self.old to }
        requires can { CanTake self.old from to }
        requires fits { hash < 2 ^ 22 }
        ensures graph { heap_graph self.new ≡ with_node (heap_graph self.old) to (record (node_in self.old from) { hash = hash }) }
        ensures room { heap_room self.new ≡ heap_room self.old }
        ensures values { (w : ℕ) → heap_value self.new w ≡ heap_value self.old w }
        ensures goods { (w : ℕ) → IsGood self.old w → IsGood self.new w }
        ensures ordinary { (s : ℕ) → IsOrdinary self.old s → IsOrdinary self.new s }
        ensures others { (j : ℕ) → IsOutside self.old to j → slice_index self.new.words j ≡ slice_index self.old.words j }
        ensures chunks { chunks_of self.new ≡ chunks_of self.old }
        ensures rest { self.new ≡ record self.old { words = self.new.words } }
    {
        let parts = &mut self.parts;
        note_with(parts, to, from);
        let header = header_taking(parts, from, to, hash as u64);
        // the length tells that no sum of places wraps
        let _end = parts.region.len();
        let slots = slots_of(parts.region.as_slice(), to);
        copy_run(&mut parts.region, from + 1, to + 1, slots);
        parts.region.put(to, header.0);
    }
}
