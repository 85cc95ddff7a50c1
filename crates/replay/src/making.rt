// Objects that are made, classes that are entered, hashes, and what is counted.
ghost use Rattle.std.specs.Prelude.{◌≡◌, IfOk, OnErr};
ghost use Rattle.std.specs.Result.{result_err};
ghost use Rattle.spur_graph.specs.Form as forms;
ghost use Rattle.replay.specs.Commands.{FirstRefusal, Obeys, ObeysExactly, Keeps, asked};

use crate::handles::{bind, held, room_for};
use class_table::{enter, identity_hash, instantiate};
use spur_graph::{Answer, HandleName, Refusal, Stat};
use spur_heap::{Heap, Space};

/// Makes an instance of the class of a handle, of this size, and binds another to it.
pub(crate) fn make(
    heap: &mut Heap,
    mutator: u8,
    space: Space,
    h: &HandleName,
    c: &HandleName,
    n: u128,
) -> Result<Answer, Refusal>
    ensures refusal { FirstRefusal heap.old mutator (asked space h.now.bytes c.now.bytes n) (result_err result) }
    ensures done { IfOk result (λ answer. Obeys heap.old mutator (asked space h.now.bytes c.now.bytes n) answer heap.new) }
    ensures same { OnErr result (heap.new ≡ heap.old) }
    ensures keeps { Keeps heap.old heap.new }
{
    heap.whole();
    let class = held(heap, mutator, c)?;
    room_for(heap, mutator, h)?;
    let object = instantiate(heap, space, class, n)?;
    heap.whole();
    bind(heap, mutator, h, object);
    Ok(Answer::Done)
}

/// Enters the class of a handle in the class table, and answers its index.
pub(crate) fn enter_class(heap: &mut Heap, mutator: u8, c: &HandleName) -> Result<Answer, Refusal>
    ensures refusal { FirstRefusal heap.old mutator (forms.Enter c.now.bytes) (result_err result) }
    ensures done { IfOk result (λ answer. ObeysExactly heap.old mutator (forms.Enter c.now.bytes) answer heap.new) }
    ensures same { OnErr result (heap.new ≡ heap.old) }
    ensures keeps { Keeps heap.old heap.new }
{
    let class = held(heap, mutator, c)?;
    let index = enter(heap, class)?;
    Ok(Answer::Number(index as u64))
}

/// The identity hash of the object of a handle, drawn if it had none.
pub(crate) fn hash(heap: &mut Heap, mutator: u8, o: &HandleName) -> Result<Answer, Refusal>
    ensures refusal { FirstRefusal heap.old mutator (forms.Hash o.now.bytes) (result_err result) }
    ensures done { IfOk result (λ answer. ObeysExactly heap.old mutator (forms.Hash o.now.bytes) answer heap.new) }
    ensures same { OnErr result (heap.new ≡ heap.old) }
    ensures keeps { Keeps heap.old heap.new }
{
    let object = held(heap, mutator, o)?;
    let hash = identity_hash(heap, object)?;
    Ok(Answer::Number(hash as u64))
}

/// What is counted of a heap. No walk over the heap or its free chunks is made for it.
pub(crate) fn stat(heap: &Heap, mutator: u8) -> Answer
    ensures done { ObeysExactly heap.now mutator forms.Stat result heap.now }
{
    Answer::Stat(Stat {
        nodes: heap.chunk_count(),
        handles: heap.handle_count() as u64,
        mourners: heap.mourner_count() as u64,
        free: heap.free_words() as u64,
        largest: heap.largest_free() as u64,
        eden: heap.eden_left() as u64,
        past: heap.past_used() as u64,
    })
}
