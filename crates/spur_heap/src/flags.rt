// The two flags of an object.
ghost use Rattle.std.specs.Prelude.{◌≡◌, ◌<◌, ℕ, slice_index, true};
ghost use Rattle.spur_graph.specs.Graph.{with_node};
ghost use Rattle.spur_graph.specs.Heaps.{heap_value, heap_graph, heap_room};
ghost use Rattle.spur_heap.specs.Views.{IsOrdinary, IsGood, node_in, WritesWord};
ghost use Rattle.spur_heap.specs.Flags.{flag_bit, with_pinned, with_readonly};

use crate::heap::Heap;

/// A flag as a bit.
pub(crate) fn bit(on: bool) -> u64
    ensures { result ≡ flag_bit on }
{
    if on { 1 } else { 0 }
}

impl Heap {
    /// Sets the pinned flag of an object, or clears it. Only an object of old space is pinned. Its header word is written, and no other.
    pub fn set_pinned(&mut self, start: usize, on: bool)
        requires there { IsOrdinary self.old start }
        requires old { on ≡ true → start < self.old.spaces.old_end }
        ensures written { WritesWord self.old self.new start (with_pinned (slice_index self.old.words start) on) }
        ensures graph { heap_graph self.new ≡ with_node (heap_graph self.old) start (record (node_in self.old start) { pinned = on }) }
        ensures room { heap_room self.new ≡ heap_room self.old }
        ensures values { (w : ℕ) → heap_value self.new w ≡ heap_value self.old w }
        ensures goods { (w : ℕ) → IsGood self.old w → IsGood self.new w }
        ensures ordinary { (s : ℕ) → IsOrdinary self.old s → IsOrdinary self.new s }
    {
        let header = self.header(start).set_pinned(bit(on));
        self.put_header(start, header);
    }

    /// Sets the readonly flag of an object, or clears it. Its header word is written, and no other.
    pub fn set_readonly(&mut self, start: usize, on: bool)
        requires there { IsOrdinary self.old start }
        ensures written { WritesWord self.old self.new start (with_readonly (slice_index self.old.words start) on) }
        ensures graph { heap_graph self.new ≡ with_node (heap_graph self.old) start (record (node_in self.old start) { readonly = on }) }
        ensures room { heap_room self.new ≡ heap_room self.old }
        ensures values { (w : ℕ) → heap_value self.new w ≡ heap_value self.old w }
        ensures goods { (w : ℕ) → IsGood self.old w → IsGood self.new w }
        ensures ordinary { (s : ℕ) → IsOrdinary self.old s → IsOrdinary self.new s }
    {
        let header = self.header(start).set_readonly(bit(on));
        self.put_header(start, header);
    }
}
