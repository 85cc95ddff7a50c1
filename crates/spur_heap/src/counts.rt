// What is counted of a heap. Nothing here walks the heap or its free chunks.
ghost use Rattle.std.specs.Prelude.{◌≡◌, length};
ghost use Rattle.spur_graph.specs.Graph.{waiting};
ghost use Rattle.std.specs.List.{sum};
ghost use Rattle.std.specs.FinMap as map;
ghost use Rattle.spur_graph.specs.FreeSizes.{largest};
ghost use Rattle.spur_graph.specs.Heaps.{heap_graph, heap_room};

use crate::heap::Heap;

impl Heap {
    /// How many ordinary objects there are, in all spaces together. The number is kept.
    pub fn chunk_count(&self) -> u64
        ensures { result ≡ map.len (heap_graph self.now).nodes }
    {
        let parts = &self.parts;
        parts.objects as u64
    }

    /// How many objects wait among the mourners, of all groups together. The number is kept.
    pub fn mourner_count(&self) -> usize
        ensures { result ≡ length (waiting (heap_graph self.now)) }
    {
        let parts = &self.parts;
        parts.mourners.as_slice().len() - parts.mourned
    }

    /// The words of all free chunks of old space together. The number is kept.
    pub fn free_words(&self) -> usize
        ensures { result ≡ sum (heap_room self.now).free }
    {
        let parts = &self.parts;
        parts.free.total(&parts.region)
    }

    /// The words of the largest free chunk of old space, 0 where there is none: a walk down the tree of the large ones.
    pub fn largest_free(&self) -> usize
        ensures { result ≡ largest (heap_room self.now).free }
    {
        let parts = &self.parts;
        parts.free.largest(&parts.region)
    }

    /// The words left in eden.
    pub fn eden_left(&self) -> usize
        ensures { result ≡ (heap_room self.now).eden_left }
    {
        let parts = &self.parts;
        parts.limits.eden - parts.eden_used
    }

    /// The words used in past space.
    pub fn past_used(&self) -> usize
        ensures { result ≡ (heap_room self.now).past_used }
    {
        let parts = &self.parts;
        parts.past_used
    }
}
