// How an object stands in the heap: what the refusals of commands ask.
ghost use Rattle.std.specs.Prelude.{◌≡◌, ◌*◌, ◌<◌};
ghost use Rattle.std.specs.FinMap.{get};
ghost use Rattle.spur_graph.specs.declared.answer.Value.TheVariants.{Ref};
ghost use Rattle.spur_graph.specs.Instances.{has_entered, is_entry};
ghost use Rattle.spur_graph.specs.Ordinary.{class_limit};
ghost use Rattle.spur_graph.specs.Refusals.{is_classed, is_special, waits};
ghost use Rattle.spur_graph.specs.Heaps.{heap_graph, heap_value};
ghost use Rattle.spur_heap.specs.Views.{IsGood, IsOrdinary, node_in};

use crate::heap::Heap;
use crate::mourners::{NAMED_SLOTS_FORMAT, mourns};

impl Heap {
    /// The word that refers to an object.
    pub fn word_of(&self, start: usize) -> u64
        requires there { IsOrdinary self.now start }
        ensures word { result ≡ 8 * start }
        ensures good { IsGood self.now result }
        ensures value { heap_value self.now result ≡ Ref start }
    {
        self.whole();
        8 * start as u64
    }

    /// Whether an object is nil, false or true.
    pub fn is_special(&self, start: usize) -> bool
        requires there { IsOrdinary self.now start }
        ensures { result ≡ is_special (heap_graph self.now) start }
    {
        let word = self.word_of(start);
        word == self.nil() || word == self.no() || word == self.yes()
    }

    /// Whether the class table has an object at an index.
    fn has_at(&self, index: u32, start: usize) -> bool
        requires there { IsOrdinary self.now start }
        requires below { index < class_limit }
        ensures { result ≡ is_entry start (get (heap_graph self.now).classes index) }
    {
        if self.is_unentered(index) {
            return false;
        }
        self.whole();
        self.class_at(index) == self.word_of(start)
    }

    /// Whether an object is an entered class: it has a hash, and the class table has it at that index.
    pub fn is_entered(&self, start: usize) -> bool
        requires there { IsOrdinary self.now start }
        ensures { result ≡ has_entered (heap_graph self.now) start }
    {
        let hash = self.header(start).hash() as u32;
        hash != 0 && self.has_at(hash, start)
    }

    /// Whether an object stands in the class table. An entry names an object whose hash is its index, so that one look tells.
    pub fn is_classed(&self, start: usize) -> bool
        requires there { IsOrdinary self.now start }
        ensures { result ≡ is_classed (heap_graph self.now) start }
    {
        self.whole();
        self.is_entered(start)
    }

    /// Whether an object is pinned.
    pub fn is_pinned(&self, start: usize) -> bool
        requires there { IsOrdinary self.now start }
        ensures { result ≡ (node_in self.now start).pinned }
    {
        self.header(start).pinned() == 1
    }

    /// Whether an object is readonly.
    pub fn is_readonly(&self, start: usize) -> bool
        requires there { IsOrdinary self.now start }
        ensures { result ≡ (node_in self.now start).readonly }
    {
        self.header(start).readonly() == 1
    }

    /// Whether an object waits among the mourners. Of an object of format 1 it costs a walk along the mourners and the forwarders to which they lead, of
    /// any other a look at its header: whatever waits has that format.
    pub fn is_mourner(&self, start: usize) -> bool
        requires there { IsOrdinary self.now start }
        ensures { result ≡ waits (heap_graph self.now) start }
    {
        let parts = &self.parts;
        if self.header(start).format() != NAMED_SLOTS_FORMAT {
            return false;
        }
        mourns(parts, start)
    }
}
