// Two objects that change contents.
ghost use Rattle.std.specs.Prelude.{◌≡◌, IfOk, OnErr};
ghost use Rattle.std.specs.Result.{result_err};
ghost use Rattle.spur_graph.specs.Value.{name_of};
ghost use Rattle.spur_graph.specs.Refusals.{first, no_piece};
ghost use Rattle.spur_graph.specs.Heaps.{heap_graph, heap_room, heap_value};
ghost use Rattle.spur_heap.specs.Views.{IsGood, IsOrdinary};
ghost use Rattle.lazy_become.specs.Rows.{CanMoveOut, exchange_row};
ghost use Rattle.lazy_become.specs.Copying.{CopiesBoth};
ghost use Rattle.lazy_become.specs.Writes.{Exchanges, ExchangeWrites, KeepsTables};

use crate::refusals::may_exchange;
use spur_graph::Refusal;
use spur_heap::Heap;

/// Copies the contents of two objects into one piece of words that is made anew, each with the hash of the other, and answers where the copies start, that
/// of `b` first. [`Refusal::Full`] where no space serves the piece.
fn copy_both(heap: &mut Heap, a: usize, b: usize) -> Result<(usize, usize), Refusal>
    requires first { IsOrdinary heap.old a }
    requires second { IsOrdinary heap.old b }
    requires can { CanMoveOut heap.old a b }
    ensures refusal { no_piece (heap_room heap.old) a b ≡ result_err result }
    ensures copied { IfOk result (λ copies. CopiesBoth heap.old heap.new a b copies.0 copies.1) }
    ensures same { OnErr result (heap.new ≡ heap.old) }
{
    let first_hash = heap.header(a).hash() as u32;
    let second_hash = heap.header(b).hash() as u32;
    heap.whole();
    match heap.make_pair(heap.slot_count(b), heap.slot_count(a)) {
        Ok((first, second)) => {
            heap.whole();
            heap.copy_contents(b, first, first_hash);
            heap.whole();
            heap.copy_contents(a, second, second_hash);
            Ok((first, second))
        }
        Err(full) => Err(Refusal::Full(full)),
    }
}

/// Two objects whose places do not fit each other's contents change contents: both are copied into one piece of words, each with the hash of the name that
/// takes it, and both places forward to the copies. [`Refusal::Full`] where no space serves the piece.
fn exchange_out_of_place(heap: &mut Heap, a: usize, b: usize) -> Result<(), Refusal>
    requires first { IsOrdinary heap.old a }
    requires second { IsOrdinary heap.old b }
    requires can { CanMoveOut heap.old a b }
    ensures refusal { no_piece (heap_room heap.old) a b ≡ result_err result }
    ensures exchanged { IfOk result (λ _. Exchanges heap.old heap.new a b) }
    ensures words { IfOk result (λ _. ExchangeWrites heap.old heap.new a b) }
    ensures same { OnErr result (heap.new ≡ heap.old) }
    ensures tables { KeepsTables heap.old heap.new }
{
    heap.whole();
    let (first, second) = copy_both(heap, a, b)?;
    heap.forward_to(a, first);
    heap.forward_to(b, second);
    heap.whole();
    Ok(())
}

/// Exchanges the objects that two words lead to: whatever names the one names the other from then on, but that each name keeps its identity hash. Where both lead
/// to one object nothing changes.
///
/// Objects of as many words, both with an overflow word or both without, change contents where they stand, and words of these two alone are written. Else both
/// contents are copied into one piece of words, made anew, and both places become forwarders: words of the two objects, of the piece and of free chunks are written.
/// No other reference is changed.
///
/// [`Refusal::Immediate`] where either word leads to no object; then, of either, [`Refusal::Special`], [`Refusal::Pinned`], [`Refusal::ReadOnly`] and
/// [`Refusal::Mourning`]; [`Refusal::Full`], in words, where no space serves the piece.
pub fn exchange(heap: &mut Heap, a: u64, b: u64) -> Result<(), Refusal>
    requires first { IsGood heap.old a }
    requires second { IsGood heap.old b }
    ensures refusal { first (exchange_row (heap_graph heap.old) (heap_room heap.old) (heap_value heap.old a) (heap_value heap.old b)) ≡ result_err result }
    ensures exchanged { IfOk result (λ _. Exchanges heap.old heap.new (name_of (heap_value heap.old a)) (name_of (heap_value heap.old b))) }
    ensures words { IfOk result (λ _. ExchangeWrites heap.old heap.new (name_of (heap_value heap.old a)) (name_of (heap_value heap.old b))) }
    ensures same { OnErr result (heap.new ≡ heap.old) }
    ensures tables { KeepsTables heap.old heap.new }
{
    let first = heap.object(a)?;
    let second = heap.object(b)?;
    may_exchange(heap, first, second)?;
    heap.whole();
    if first == second {
        return Ok(());
    }
    if heap.stays_in_place(first, second) {
        heap.exchange_in_place(first, second);
        heap.whole();
        return Ok(());
    }
    exchange_out_of_place(heap, first, second)
}
