// Headers that are written with another hash, other flags or another format.
ghost use Rattle.std.specs.Prelude.{◌≡◌, ℕ};
ghost use Rattle.spur_graph.specs.Graph.{with_node};
ghost use Rattle.spur_graph.specs.Ordinary.{is_good_word, is_ordinary};
ghost use Rattle.spur_graph.specs.Heaps.{heap_value, heap_graph, heap_room};
ghost use Rattle.spur_heap.specs.Heading.{CanHead, headed};
ghost use Rattle.spur_heap.specs.Views.{IsOrdinary, WritesWord, store};

use crate::heap::Heap;
use object_header::Header;

impl Heap {
    /// Writes the header of an object, with another hash, other flags or another format, and no other word.
    pub(crate) fn put_header(&mut self, start: usize, header: Header)
        requires there { IsOrdinary self.old start }
        requires can { CanHead self.old start header.0 }
        ensures written { WritesWord self.old self.new start header.0 }
        ensures graph { heap_graph self.new ≡ with_node (heap_graph self.old) start (headed self.old start header.0) }
        ensures room { heap_room self.new ≡ heap_room self.old }
        ensures values { (w : ℕ) → heap_value self.new w ≡ heap_value self.old w }
        ensures goods { (w : ℕ) → is_good_word (store self.new) w ≡ is_good_word (store self.old) w }
        ensures ordinary { (s : ℕ) → is_ordinary (store self.new) s ≡ is_ordinary (store self.old) s }
    {
        self.parts.region.put(start, header.0);
    }
}
