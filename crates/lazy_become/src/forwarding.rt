// Objects that give way to others.
ghost use Rattle.std.specs.Prelude.{◌≡◌, ◌≢◌, ℕ, IfOk, OnErr, false, slice_index};
ghost use Rattle.std.specs.Result.{result_err};
ghost use Rattle.spur_graph.specs.Value.{name_of};
ghost use Rattle.spur_graph.specs.Become.{forwarded, hand_hash, room_forwarded};
ghost use Rattle.spur_graph.specs.Instances.{has_entered};
ghost use Rattle.spur_graph.specs.Refusals.{first};
ghost use Rattle.spur_graph.specs.Heaps.{heap_graph, heap_room, heap_value};
ghost use Rattle.spur_heap.specs.Views.{IsGood, IsOrdinary};
ghost use Rattle.lazy_become.specs.Rows.{forward_row};
ghost use Rattle.lazy_become.specs.Writes.{ForwardWrites};

use crate::refusals::may_forward;
use spur_graph::Refusal;
use spur_heap::Heap;

/// Gives an object the identity hash of another, if that has one.
fn hand_hash(heap: &mut Heap, from: usize, to: usize)
    requires source { IsOrdinary heap.old from }
    requires target { IsOrdinary heap.old to }
    requires unentered { has_entered (heap_graph heap.old) to ≡ false }
    ensures graph { heap_graph heap.new ≡ hand_hash (heap_graph heap.old) from to }
    ensures room { heap_room heap.new ≡ heap_room heap.old }
    ensures ordinary { (s : ℕ) → IsOrdinary heap.old s → IsOrdinary heap.new s }
    ensures others { (j : ℕ) → j ≢ to → slice_index heap.new.words j ≡ slice_index heap.old.words j }
    ensures tables { heap.new ≡ record heap.old { words = heap.new.words } }
{
    let hash = heap.header(from).hash() as u32;
    if hash != 0 {
        heap.put_hash(to, hash);
    }
}

/// Makes the object that `a` leads to give way to the one that `b` leads to: its place becomes a forwarder, and whatever names it names the other from then on.
/// With `copy_hash` the other gets its identity hash, if it has one. Where both lead to one object nothing changes.
///
/// [`Refusal::Immediate`] where either word leads to no object; then, of `a`, [`Refusal::Special`], [`Refusal::Pinned`], [`Refusal::ReadOnly`],
/// [`Refusal::Mourning`] and [`Refusal::Classed`], of which the first and the last are asked of `b` too where the hash is handed on.
///
/// The header word of the one object is written and the word behind it, and with `copy_hash` the header word of the other; no other word. A chain in slots grows
/// by a step; following it costs a step for each forwarder.
pub fn forward(heap: &mut Heap, a: u64, b: u64, copy_hash: bool) -> Result<(), Refusal>
    requires first { IsGood heap.old a }
    requires second { IsGood heap.old b }
    ensures refusal { first (forward_row (heap_graph heap.old) (heap_value heap.old a) (heap_value heap.old b) copy_hash) ≡ result_err result }
    ensures graph { IfOk result (λ _. heap_graph heap.new ≡ forwarded (heap_graph heap.old) (name_of (heap_value heap.old a)) (name_of (heap_value heap.old b)) copy_hash) }
    ensures room { IfOk result (λ _. heap_room heap.new ≡ room_forwarded (heap_room heap.old) (name_of (heap_value heap.old a)) (name_of (heap_value heap.old b))) }
    ensures words { IfOk result (λ _. ForwardWrites heap.old heap.new (name_of (heap_value heap.old a)) (name_of (heap_value heap.old b)) copy_hash) }
    ensures same { OnErr result (heap.new ≡ heap.old) }
    ensures tables { heap.new ≡ record heap.old { words = heap.new.words } }
{
    let from = heap.object(a)?;
    let to = heap.object(b)?;
    may_forward(heap, from, to, copy_hash)?;
    if from == to {
        return Ok(());
    }
    heap.whole();
    if copy_hash {
        hand_hash(heap, from, to);
    }
    heap.forward_to(from, to);
    Ok(())
}
