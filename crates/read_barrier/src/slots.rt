// The pointer slots of objects.
ghost use Rattle.std.specs.Prelude.{◌≡◌, ◌<◌, ◌+◌, ℕ, length, slice_index, slice_index_or, slice_set, IfOk, OnErr};
ghost use Rattle.std.specs.Result.{result_err};
ghost use Rattle.spur_graph.specs.declared.answer.Value.TheVariants.{Ref};
ghost use Rattle.spur_graph.specs.Value.{name_of};
ghost use Rattle.spur_graph.specs.Graph.{node_at, with_node};
ghost use Rattle.spur_graph.specs.Refusals.{first, raw_read, raw_write, index_in};
ghost use Rattle.spur_graph.specs.Heaps.{heap_graph, heap_room, heap_value};
ghost use Rattle.spur_heap.specs.Views.{IsGood, IsOrdinary, node_in};
ghost use Rattle.spur_heap.specs.Remembering.{stored};
ghost use Rattle.read_barrier.specs.Rows.{fetch_row, store_row};

use crate::objects::{format, refuse_readonly};
use object_header::{FIRST_COMPILED_METHOD_FORMAT, SIXTY_FOUR_BIT_INDEXABLE_FORMAT};
use spur_graph::Refusal;
use spur_heap::Heap;

/// Refuses an object that has units and no pointer slots.
fn refuse_raw(heap: &Heap, start: usize) -> Result<(), Refusal>
    requires there { IsOrdinary heap.now start }
    ensures { raw_read (node_in heap.now start) ≡ result_err result }
{
    let format = format(heap, start);
    if SIXTY_FOUR_BIT_INDEXABLE_FORMAT <= format && format < FIRST_COMPILED_METHOD_FORMAT {
        return Err(Refusal::Raw);
    }
    Ok(())
}

/// Refuses to write slot 0 of a method, which counts its literals, and whatever has no pointer slots.
fn refuse_unwritable(heap: &Heap, start: usize, i: u128) -> Result<(), Refusal>
    requires there { IsOrdinary heap.now start }
    ensures { raw_write (node_in heap.now start) i ≡ result_err result }
{
    refuse_raw(heap, start)?;
    if i == 0 && format(heap, start) >= FIRST_COMPILED_METHOD_FORMAT {
        return Err(Refusal::Raw);
    }
    Ok(())
}

/// The index of a pointer slot of an object.
fn slot_index(heap: &Heap, start: usize, i: u128) -> Result<usize, Refusal>
    requires there { IsOrdinary heap.now start }
    ensures refusal { index_in (node_in heap.now start).pointers i ≡ result_err result }
    ensures index { IfOk result (λ at. (at ≡ i) × (at < length (node_in heap.now start).pointers)) }
{
    if i >= heap.pointer_count(start) as u128 {
        return Err(Refusal::Index);
    }
    Ok(i as usize)
}

/// The word of pointer slot `i` of the object that a word leads to, as it stands in the slot: it may name a forwarder, and nothing of it is tested. The
/// object's own word is followed, a step for each forwarder on the way.
///
/// [`Refusal::Immediate`] where the word leads to no object, [`Refusal::Raw`] where the object has units and no pointer slots, [`Refusal::Index`] past the
/// last slot.
pub fn fetch(heap: &Heap, object: u64, i: u128) -> Result<u64, Refusal>
    requires good { IsGood heap.now object }
    ensures refusal { first (fetch_row (heap_graph heap.now) (heap_value heap.now object) i) ≡ result_err result }
    ensures value { IfOk result (λ word. heap_value heap.now word ≡ slice_index_or (node_at (heap_graph heap.now) (heap_value heap.now object)).pointers i (Ref (heap_graph heap.now).nil)) }
    ensures good { IfOk result (IsGood heap.now) }
    ensures word { IfOk result (λ word. word ≡ slice_index heap.now.words (name_of (heap_value heap.now object) + 1 + i)) }
{
    let start = heap.object(object)?;
    refuse_raw(heap, start)?;
    let at = slot_index(heap, start, i)?;
    Ok(heap.pointer(start, at))
}

/// Writes a word into pointer slot `i` of the object that another leads to, and where that object stands in old space and the word names new space, the
/// object's remembered bit; nothing else. The word is written as it is, and may name a forwarder. The object's own word is followed, a step for each
/// forwarder on the way.
///
/// [`Refusal::Immediate`] where the object's word leads to no object, [`Refusal::Raw`] where the object has units and no pointer slots and for slot 0 of a
/// method, which counts its literals, [`Refusal::Index`] past the last slot, [`Refusal::ReadOnly`] where the object is readonly.
pub fn store(heap: &mut Heap, object: u64, i: u128, value: u64) -> Result<(), Refusal>
    requires good { IsGood heap.old object × IsGood heap.old value }
    ensures refusal { first (store_row (heap_graph heap.old) (heap_value heap.old object) i) ≡ result_err result }
    ensures graph { IfOk result (λ _. let node = node_at (heap_graph heap.old) (heap_value heap.old object) in heap_graph heap.new ≡ with_node (heap_graph heap.old) (name_of (heap_value heap.old object)) (record node { pointers = slice_set node.pointers i (heap_value heap.old value) })) }
    ensures room { heap_room heap.new ≡ heap_room heap.old }
    ensures values { (w : ℕ) → heap_value heap.new w ≡ heap_value heap.old w }
    ensures goods { (w : ℕ) → IsGood heap.old w → IsGood heap.new w }
    ensures written { IfOk result (λ _. heap.new ≡ stored heap.old (name_of (heap_value heap.old object)) i value) }
    ensures same { OnErr result (heap.new ≡ heap.old) }
    ensures tables { heap.new ≡ record heap.old { words = heap.new.words } }
{
    let start = heap.object(object)?;
    refuse_unwritable(heap, start, i)?;
    let at = slot_index(heap, start, i)?;
    refuse_readonly(heap, start)?;
    heap.put_pointer(start, at, value);
    Ok(())
}
