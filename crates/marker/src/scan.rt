// Slots are passed, and the objects that they name are marked.
ghost use Rattle.std.specs.Prelude.{◌≡◌, ◌≤◌, ◌<◌, length};
ghost use Rattle.spur_graph.specs.declared.answer.Value.TheVariants.{Ref};
ghost use Rattle.spur_graph.specs.Heaps.{heap_value, Marked};
ghost use Rattle.spur_heap.specs.Views.{IsGood, IsOrdinary, node_in};
ghost use Rattle.marker.specs.Visits.{HasRoom, NamesBelow, Visits};

use spur_heap::Heap;

/// Marks the object that starts there, and puts it on the stack, if it is not marked.
pub fn reach(heap: &mut Heap, start: usize)
    requires there { IsOrdinary heap.old start }
    requires phase { heap.old.phase ≡ Marked }
    requires room { HasRoom heap.old }
    ensures visits { Visits (λ t. t ≡ start) heap.old heap.new }
{
    heap.whole();
    if heap.is_marked(start) {
        return;
    }
    heap.set_mark(start);
    heap.push_mark(start);
}

/// Marks the object to which a word leads.
pub fn visit(heap: &mut Heap, word: u64)
    requires good { IsGood heap.old word }
    requires phase { heap.old.phase ≡ Marked }
    requires room { HasRoom heap.old }
    ensures visits { Visits (λ t. heap_value heap.old word ≡ Ref t) heap.old heap.new }
{
    if let Ok(start) = heap.object(word) {
        reach(heap, start);
    }
}

/// Marks the objects to which the first slots of an object lead.
pub fn scan(heap: &mut Heap, start: usize, count: usize)
    requires there { IsOrdinary heap.old start }
    requires within { count ≤ length (node_in heap.old start).pointers }
    requires phase { heap.old.phase ≡ Marked }
    requires room { HasRoom heap.old }
    ensures visits { Visits (NamesBelow heap.old start count) heap.old heap.new }
{
    'slots: for i in 0..count {
        let word = heap.pointer(start, i);
        visit(heap, word);
    }
}
