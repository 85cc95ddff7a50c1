// Identity hashes.
ghost use Rattle.std.specs.Prelude.{◌≡◌, ◌<◌, ◌^◌, ℕ, slice_index, false};
ghost use Rattle.object_header.specs.Field.{with_field};
ghost use Rattle.spur_graph.specs.Graph.{with_node};
ghost use Rattle.spur_graph.specs.Hashes.{drawn, next_state};
ghost use Rattle.spur_graph.specs.Instances.{has_entered};
ghost use Rattle.spur_graph.specs.Heaps.{heap_graph, heap_room, heap_value};
ghost use Rattle.spur_heap.specs.Views.{IsOrdinary, IsGood, node_in, WritesWord};

use crate::heap::Heap;

impl Heap {
    /// Gives an object that is no entered class this identity hash. Its header word is written, and no other.
    pub fn put_hash(&mut self, start: usize, hash: u32)
        requires there { IsOrdinary self.old start }
        requires unentered { has_entered (heap_graph self.old) start ≡ false }
        requires fits { hash < 2 ^ 22 }
        ensures written { WritesWord self.old self.new start (with_field 32 22 (slice_index self.old.words start) hash) }
        ensures graph { heap_graph self.new ≡ with_node (heap_graph self.old) start (record (node_in self.old start) { hash = hash }) }
        ensures room { heap_room self.new ≡ heap_room self.old }
        ensures values { (w : ℕ) → heap_value self.new w ≡ heap_value self.old w }
        ensures goods { (w : ℕ) → IsGood self.old w → IsGood self.new w }
        ensures ordinary { (s : ℕ) → IsOrdinary self.old s → IsOrdinary self.new s }
    {
        let header = self.header(start).set_hash(hash as u64);
        self.put_header(start, header);
    }

    /// Draws an identity hash, which is not 0: the high 22 bits of the next state, and 1 where these are 0. Only the state changes.
    ///
    /// The generator is this project's own; Spur draws hashes from a state that it keeps in the image's header too.
    pub fn draw_hash(&mut self) -> u32
        ensures drawn { result ≡ drawn self.old.hash }
        ensures fits { result < 2 ^ 22 }
        ensures state { self.new ≡ record self.old { hash = next_state self.old.hash } }
    {
        let state = self
            .parts
            .hash
            .wrapping_mul(1_664_525)
            .wrapping_add(1_013_904_223);
        self.parts.hash = state;
        if state / 1024 == 0 { 1 } else { state / 1024 }
    }
}
