// Values: handles are bound to those that are at hand, and asked for theirs.
ghost use Rattle.std.specs.Prelude.{◌≡◌, IfOk, OnErr};
ghost use Rattle.std.specs.Result.{result_err};
ghost use Rattle.spur_graph.specs.declared.answer.Answer.TheVariants.{Done};
ghost use Rattle.spur_graph.specs.Graph.{bind};
ghost use Rattle.spur_graph.specs.Form.{Copy, Class, Kind, Size, Same};
ghost use Rattle.spur_graph.specs.Refusals.{handles, first};
ghost use Rattle.spur_heap.specs.Views.{IsGood};
ghost use Rattle.replay.specs.Commands.{FirstRefusal, ObeysExactly, Becomes, Keeps, value_row};
ghost use Rattle.replay.specs.Sessions.{graph_of, value_in};

use crate::handles::{bind, held, room_for};
use immediates::Range;
use spur_graph::{Answer, HandleName, Refusal};
use spur_heap::Heap;

/// Binds a handle to a word that is at hand.
pub(crate) fn bind_word(
    heap: &mut Heap,
    mutator: u8,
    h: &HandleName,
    word: u64,
) -> Result<Answer, Refusal>
    requires good { IsGood heap.old word }
    ensures refusal { handles (graph_of heap.old) mutator h.now.bytes ≡ result_err result }
    ensures bound { IfOk result (λ answer. (answer ≡ Done) × (Becomes heap.old heap.new (bind (graph_of heap.old) mutator h.now.bytes (value_in heap.old word)))) }
    ensures same { OnErr result (heap.new ≡ heap.old) }
    ensures keeps { Keeps heap.old heap.new }
{
    room_for(heap, mutator, h)?;
    bind(heap, mutator, h, word);
    Ok(Answer::Done)
}

/// Binds a handle to the word of a value, if it has one.
pub(crate) fn bind_value(
    heap: &mut Heap,
    mutator: u8,
    h: &HandleName,
    value: Result<u64, Range>,
) -> Result<Answer, Refusal>
    requires good { IfOk value (IsGood heap.old) }
    ensures refusal { first (value_row (graph_of heap.old) mutator h.now.bytes value) ≡ result_err result }
    ensures bound { IfOk result (λ answer. (answer ≡ Done) × IfOk value (λ word. Becomes heap.old heap.new (bind (graph_of heap.old) mutator h.now.bytes (value_in heap.old word)))) }
    ensures same { OnErr result (heap.new ≡ heap.old) }
    ensures keeps { Keeps heap.old heap.new }
{
    room_for(heap, mutator, h)?;
    match value {
        Ok(word) => {
            bind(heap, mutator, h, word);
            Ok(Answer::Done)
        }
        Err(Range) => Err(Refusal::Range),
    }
}

/// Binds a handle to the value of another.
pub(crate) fn copy(
    heap: &mut Heap,
    mutator: u8,
    h: &HandleName,
    o: &HandleName,
) -> Result<Answer, Refusal>
    ensures refusal { FirstRefusal heap.old mutator (Copy h.now.bytes o.now.bytes) (result_err result) }
    ensures done { IfOk result (λ answer. ObeysExactly heap.old mutator (Copy h.now.bytes o.now.bytes) answer heap.new) }
    ensures same { OnErr result (heap.new ≡ heap.old) }
    ensures keeps { Keeps heap.old heap.new }
{
    let word = held(heap, mutator, o)?;
    bind_word(heap, mutator, h, word)
}

/// Binds a handle to the class of the value of another.
pub(crate) fn bind_class(
    heap: &mut Heap,
    mutator: u8,
    h: &HandleName,
    o: &HandleName,
) -> Result<Answer, Refusal>
    ensures refusal { FirstRefusal heap.old mutator (Class h.now.bytes o.now.bytes) (result_err result) }
    ensures done { IfOk result (λ answer. ObeysExactly heap.old mutator (Class h.now.bytes o.now.bytes) answer heap.new) }
    ensures same { OnErr result (heap.new ≡ heap.old) }
    ensures keeps { Keeps heap.old heap.new }
{
    let word = held(heap, mutator, o)?;
    let class = read_barrier::class_of(heap, word);
    bind_word(heap, mutator, h, class)
}

/// What is shown of the value of a handle.
pub(crate) fn kind(heap: &Heap, mutator: u8, o: &HandleName) -> Result<Answer, Refusal>
    ensures refusal { FirstRefusal heap.now mutator (Kind o.now.bytes) (result_err result) }
    ensures done { IfOk result (λ answer. ObeysExactly heap.now mutator (Kind o.now.bytes) answer heap.now) }
{
    let word = held(heap, mutator, o)?;
    Ok(Answer::Shown(read_barrier::shown(heap, word)))
}

/// How many pointer slots and units the object of a handle has.
pub(crate) fn size(heap: &Heap, mutator: u8, o: &HandleName) -> Result<Answer, Refusal>
    ensures refusal { FirstRefusal heap.now mutator (Size o.now.bytes) (result_err result) }
    ensures done { IfOk result (λ answer. ObeysExactly heap.now mutator (Size o.now.bytes) answer heap.now) }
{
    let word = held(heap, mutator, o)?;
    let (pointers, units) = read_barrier::size(heap, word)?;
    Ok(Answer::Size { pointers, units })
}

/// Whether two handles have one value.
pub(crate) fn same(
    heap: &Heap,
    mutator: u8,
    a: &HandleName,
    b: &HandleName,
) -> Result<Answer, Refusal>
    ensures refusal { FirstRefusal heap.now mutator (Same a.now.bytes b.now.bytes) (result_err result) }
    ensures done { IfOk result (λ answer. ObeysExactly heap.now mutator (Same a.now.bytes b.now.bytes) answer heap.now) }
{
    let first = held(heap, mutator, a)?;
    let second = held(heap, mutator, b)?;
    Ok(Answer::Truth(read_barrier::same(heap, first, second)))
}
