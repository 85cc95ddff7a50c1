// The pinned flag cleared, and the readonly flag.
ghost use Rattle.std.specs.Prelude.{◌≡◌, IfOk, OnErr, false};
ghost use Rattle.std.specs.Result.{result_err};
ghost use Rattle.spur_graph.specs.declared.answer.Refusal.TheVariants as r;
ghost use Rattle.spur_graph.specs.Value.{is_immediate, name_of};
ghost use Rattle.spur_graph.specs.Graph.{node, with_node};
ghost use Rattle.spur_graph.specs.Refusals.{test};
ghost use Rattle.spur_graph.specs.Heaps.{heap_graph, heap_room, heap_value};
ghost use Rattle.spur_heap.specs.Views.{IsGood};

use spur_graph::Refusal;
use spur_heap::Heap;

/// Clears the pinned flag of the object that a word leads to, so that a collection may move it. [`Refusal::Immediate`] where the word leads to no object.
pub fn unpin(heap: &mut Heap, object: u64) -> Result<(), Refusal>
    requires good { IsGood heap.old object }
    ensures refusal { test (is_immediate (heap_value heap.old object)) r.Immediate ≡ result_err result }
    ensures graph { IfOk result (λ _. heap_graph heap.new ≡ with_node (heap_graph heap.old) (name_of (heap_value heap.old object)) (record (node (heap_graph heap.old) (name_of (heap_value heap.old object))) { pinned = false })) }
    ensures room { heap_room heap.new ≡ heap_room heap.old }
    ensures same { OnErr result (heap.new ≡ heap.old) }
    ensures tables { heap.new ≡ record heap.old { words = heap.new.words } }
{
    let start = heap.object(object)?;
    heap.set_pinned(start, false);
    Ok(())
}

/// Sets the readonly flag of the object that a word leads to, or clears it. [`Refusal::Immediate`] where the word leads to no object.
pub fn set_readonly(heap: &mut Heap, object: u64, on: bool) -> Result<(), Refusal>
    requires good { IsGood heap.old object }
    ensures refusal { test (is_immediate (heap_value heap.old object)) r.Immediate ≡ result_err result }
    ensures graph { IfOk result (λ _. heap_graph heap.new ≡ with_node (heap_graph heap.old) (name_of (heap_value heap.old object)) (record (node (heap_graph heap.old) (name_of (heap_value heap.old object))) { readonly = on })) }
    ensures room { heap_room heap.new ≡ heap_room heap.old }
    ensures same { OnErr result (heap.new ≡ heap.old) }
    ensures tables { heap.new ≡ record heap.old { words = heap.new.words } }
{
    let start = heap.object(object)?;
    heap.set_readonly(start, on);
    Ok(())
}
