// The units of objects.
ghost use Rattle.std.specs.Prelude.{◌≡◌, ◌<◌, ◌*◌, ◌^◌, ℕ, length, slice_index, slice_set, IfOk, OnErr};
ghost use Rattle.std.specs.Result.{result_err};
ghost use Rattle.object_header.specs.Formats.{unit_bytes_of};
ghost use Rattle.spur_graph.specs.Value.{name_of};
ghost use Rattle.spur_graph.specs.Graph.{node_at, with_node};
ghost use Rattle.spur_graph.specs.Refusals.{first, raw_unit, index_in, unit_range};
ghost use Rattle.spur_graph.specs.Heaps.{heap_graph, heap_room, heap_value};
ghost use Rattle.spur_heap.specs.Words.{unit_place, unit_word};
ghost use Rattle.spur_heap.specs.Views.{IsGood, IsOrdinary, WritesWord, node_in};
ghost use Rattle.read_barrier.specs.Rows.{unit_row, store_unit_row};

use crate::objects::{format, refuse_readonly};
use object_header::SIXTY_FOUR_BIT_INDEXABLE_FORMAT;
use spur_graph::Refusal;
use spur_heap::Heap;

/// Refuses an object that has no units.
fn refuse_unitless(heap: &Heap, start: usize) -> Result<(), Refusal>
    requires there { IsOrdinary heap.now start }
    ensures { raw_unit (node_in heap.now start) ≡ result_err result }
{
    if format(heap, start) < SIXTY_FOUR_BIT_INDEXABLE_FORMAT {
        return Err(Refusal::Raw);
    }
    Ok(())
}

/// The index of a unit of an object.
fn unit_index(heap: &Heap, start: usize, i: u128) -> Result<usize, Refusal>
    requires there { IsOrdinary heap.now start }
    ensures refusal { index_in (node_in heap.now start).units i ≡ result_err result }
    ensures index { IfOk result (λ at. (at ≡ i) × (at < length (node_in heap.now start).units)) }
{
    if i >= heap.unit_count(start) as u128 {
        return Err(Refusal::Index);
    }
    Ok(i as usize)
}

/// A number as a unit of an object, if it is in range.
fn unit_value(heap: &Heap, start: usize, n: u128) -> Result<u64, Refusal>
    requires there { IsOrdinary heap.now start }
    ensures refusal { unit_range (node_in heap.now start) n ≡ result_err result }
    ensures value { IfOk result (λ value. (value ≡ n) × (value < 2 ^ (8 * unit_bytes_of (node_in heap.now start).format))) }
{
    if n >= 1 << (8 * heap.unit_bytes(start)) {
        return Err(Refusal::Range);
    }
    Ok(n as u64)
}

/// Unit `i` of the object that a word leads to: a number of as many bytes as a unit of its format has. The word is followed, a step for each forwarder on
/// the way.
///
/// [`Refusal::Immediate`] where the word leads to no object, [`Refusal::Raw`] where the object has no units, [`Refusal::Index`] past the last unit.
pub fn fetch_unit(heap: &Heap, object: u64, i: u128) -> Result<u64, Refusal>
    requires good { IsGood heap.now object }
    ensures refusal { first (unit_row (heap_graph heap.now) (heap_value heap.now object) i) ≡ result_err result }
    ensures value { IfOk result (λ unit. unit ≡ slice_index (node_at (heap_graph heap.now) (heap_value heap.now object)).units i) }
{
    let start = heap.object(object)?;
    refuse_unitless(heap, start)?;
    let at = unit_index(heap, start, i)?;
    Ok(heap.unit(start, at))
}

/// Writes `n` into unit `i` of the object that a word leads to, and no other bit. The word is followed, a step for each forwarder on the way.
///
/// [`Refusal::Immediate`] where the word leads to no object, [`Refusal::Raw`] where the object has no units, [`Refusal::Index`] past the last unit,
/// [`Refusal::Range`] where `n` has more bits than a unit of the object, [`Refusal::ReadOnly`] where the object is readonly.
pub fn store_unit(heap: &mut Heap, object: u64, i: u128, n: u128) -> Result<(), Refusal>
    requires good { IsGood heap.old object }
    ensures refusal { first (store_unit_row (heap_graph heap.old) (heap_value heap.old object) i n) ≡ result_err result }
    ensures graph { IfOk result (λ _. let node = node_at (heap_graph heap.old) (heap_value heap.old object) in heap_graph heap.new ≡ with_node (heap_graph heap.old) (name_of (heap_value heap.old object)) (record node { units = slice_set node.units i n })) }
    ensures room { heap_room heap.new ≡ heap_room heap.old }
    ensures values { (w : ℕ) → heap_value heap.new w ≡ heap_value heap.old w }
    ensures goods { (w : ℕ) → IsGood heap.old w → IsGood heap.new w }
    ensures written { IfOk result (λ _. let start = name_of (heap_value heap.old object) in WritesWord heap.old heap.new (unit_place heap.old start i) (unit_word heap.old start i n)) }
    ensures same { OnErr result (heap.new ≡ heap.old) }
    ensures tables { heap.new ≡ record heap.old { words = heap.new.words } }
{
    let start = heap.object(object)?;
    refuse_unitless(heap, start)?;
    let at = unit_index(heap, start, i)?;
    let unit = unit_value(heap, start, n)?;
    refuse_readonly(heap, start)?;
    heap.put_unit(start, at, unit);
    Ok(())
}
