// Slots and units of the objects of handles.
ghost use Rattle.std.specs.Prelude.{◌≡◌, IfOk, OnErr};
ghost use Rattle.std.specs.Result.{result_err};
ghost use Rattle.spur_graph.specs.Form.{Fetch, Store, Unit, SetUnit};
ghost use Rattle.replay.specs.Commands.{FirstRefusal, ObeysExactly, Keeps};

use crate::handles::{bind, held, room_for};
use spur_graph::{Answer, HandleName, Refusal};
use spur_heap::Heap;

/// Binds a handle to a pointer slot of the object of another.
pub(crate) fn fetch(
    heap: &mut Heap,
    mutator: u8,
    h: &HandleName,
    o: &HandleName,
    i: u128,
) -> Result<Answer, Refusal>
    ensures refusal { FirstRefusal heap.old mutator (Fetch h.now.bytes o.now.bytes i) (result_err result) }
    ensures done { IfOk result (λ answer. ObeysExactly heap.old mutator (Fetch h.now.bytes o.now.bytes i) answer heap.new) }
    ensures same { OnErr result (heap.new ≡ heap.old) }
    ensures keeps { Keeps heap.old heap.new }
{
    let word = held(heap, mutator, o)?;
    room_for(heap, mutator, h)?;
    let slot = read_barrier::fetch(heap, word, i)?;
    bind(heap, mutator, h, slot);
    Ok(Answer::Done)
}

/// Writes a pointer slot of the object of a handle.
pub(crate) fn store(
    heap: &mut Heap,
    mutator: u8,
    o: &HandleName,
    i: u128,
    v: &HandleName,
) -> Result<Answer, Refusal>
    ensures refusal { FirstRefusal heap.old mutator (Store o.now.bytes i v.now.bytes) (result_err result) }
    ensures done { IfOk result (λ answer. ObeysExactly heap.old mutator (Store o.now.bytes i v.now.bytes) answer heap.new) }
    ensures same { OnErr result (heap.new ≡ heap.old) }
    ensures keeps { Keeps heap.old heap.new }
{
    let word = held(heap, mutator, o)?;
    let value = held(heap, mutator, v)?;
    read_barrier::store(heap, word, i, value)?;
    Ok(Answer::Done)
}

/// Reads a unit of the object of a handle.
pub(crate) fn unit(heap: &Heap, mutator: u8, o: &HandleName, i: u128) -> Result<Answer, Refusal>
    ensures refusal { FirstRefusal heap.now mutator (Unit o.now.bytes i) (result_err result) }
    ensures done { IfOk result (λ answer. ObeysExactly heap.now mutator (Unit o.now.bytes i) answer heap.now) }
{
    let word = held(heap, mutator, o)?;
    let unit = read_barrier::fetch_unit(heap, word, i)?;
    Ok(Answer::Number(unit))
}

/// Writes a unit of the object of a handle.
pub(crate) fn set_unit(
    heap: &mut Heap,
    mutator: u8,
    o: &HandleName,
    i: u128,
    n: u128,
) -> Result<Answer, Refusal>
    ensures refusal { FirstRefusal heap.old mutator (SetUnit o.now.bytes i n) (result_err result) }
    ensures done { IfOk result (λ answer. ObeysExactly heap.old mutator (SetUnit o.now.bytes i n) answer heap.new) }
    ensures same { OnErr result (heap.new ≡ heap.old) }
    ensures keeps { Keeps heap.old heap.new }
{
    let word = held(heap, mutator, o)?;
    read_barrier::store_unit(heap, word, i, n)?;
    Ok(Answer::Done)
}
