// Objects that are exchanged, that give way to others, that are pinned, and that are readonly.
ghost use Rattle.std.specs.Prelude.{◌≡◌, IfOk, OnErr};
ghost use Rattle.std.specs.Result.{result_err};
ghost use Rattle.spur_graph.specs.Form as forms;
ghost use Rattle.replay.specs.Commands.{FirstRefusal, Obeys, ObeysExactly, Keeps, flag_asked};
ghost use Rattle.replay.specs.Writes.{Writes};

use crate::handles::held;
use lazy_become::{exchange, forward};
use pinning::{pin, set_readonly, unpin};
use spur_graph::{Answer, HandleName, Refusal};
use spur_heap::Heap;

/// Exchanges the objects of two handles.
pub(crate) fn exchange_objects(
    heap: &mut Heap,
    mutator: u8,
    a: &HandleName,
    b: &HandleName,
) -> Result<Answer, Refusal>
    ensures refusal { FirstRefusal heap.old mutator (forms.Become a.now.bytes b.now.bytes) (result_err result) }
    ensures done { IfOk result (λ answer. Obeys heap.old mutator (forms.Become a.now.bytes b.now.bytes) answer heap.new) }
    ensures words { Writes heap.old heap.new mutator (forms.Become a.now.bytes b.now.bytes) }
    ensures same { OnErr result (heap.new ≡ heap.old) }
    ensures keeps { Keeps heap.old heap.new }
{
    let first = held(heap, mutator, a)?;
    let second = held(heap, mutator, b)?;
    exchange(heap, first, second)?;
    Ok(Answer::Done)
}

/// Makes the object of a handle give way to that of another, with its identity hash or without.
pub(crate) fn forward_object(
    heap: &mut Heap,
    mutator: u8,
    a: &HandleName,
    b: &HandleName,
    copy_hash: bool,
) -> Result<Answer, Refusal>
    ensures refusal { FirstRefusal heap.old mutator (forms.Forward a.now.bytes b.now.bytes copy_hash) (result_err result) }
    ensures done { IfOk result (λ answer. ObeysExactly heap.old mutator (forms.Forward a.now.bytes b.now.bytes copy_hash) answer heap.new) }
    ensures words { Writes heap.old heap.new mutator (forms.Forward a.now.bytes b.now.bytes copy_hash) }
    ensures same { OnErr result (heap.new ≡ heap.old) }
    ensures keeps { Keeps heap.old heap.new }
{
    let from = held(heap, mutator, a)?;
    let to = held(heap, mutator, b)?;
    forward(heap, from, to, copy_hash)?;
    Ok(Answer::Done)
}

/// Pins the object of a handle.
pub(crate) fn pin_object(heap: &mut Heap, mutator: u8, o: &HandleName) -> Result<Answer, Refusal>
    ensures refusal { FirstRefusal heap.old mutator (forms.Pin o.now.bytes) (result_err result) }
    ensures done { IfOk result (λ answer. Obeys heap.old mutator (forms.Pin o.now.bytes) answer heap.new) }
    ensures same { OnErr result (heap.new ≡ heap.old) }
    ensures keeps { Keeps heap.old heap.new }
{
    let object = held(heap, mutator, o)?;
    pin(heap, object)?;
    Ok(Answer::Done)
}

/// Lets the object of a handle move again.
pub(crate) fn unpin_object(heap: &mut Heap, mutator: u8, o: &HandleName) -> Result<Answer, Refusal>
    ensures refusal { FirstRefusal heap.old mutator (forms.Unpin o.now.bytes) (result_err result) }
    ensures done { IfOk result (λ answer. ObeysExactly heap.old mutator (forms.Unpin o.now.bytes) answer heap.new) }
    ensures same { OnErr result (heap.new ≡ heap.old) }
    ensures keeps { Keeps heap.old heap.new }
{
    let object = held(heap, mutator, o)?;
    unpin(heap, object)?;
    Ok(Answer::Done)
}

/// Makes the object of a handle readonly, or writable.
pub(crate) fn protect(
    heap: &mut Heap,
    mutator: u8,
    o: &HandleName,
    on: bool,
) -> Result<Answer, Refusal>
    ensures refusal { FirstRefusal heap.old mutator (flag_asked on o.now.bytes) (result_err result) }
    ensures done { IfOk result (λ answer. ObeysExactly heap.old mutator (flag_asked on o.now.bytes) answer heap.new) }
    ensures same { OnErr result (heap.new ≡ heap.old) }
    ensures keeps { Keeps heap.old heap.new }
{
    let object = held(heap, mutator, o)?;
    set_readonly(heap, object, on)?;
    Ok(Answer::Done)
}
