// Objects that are pinned.
ghost use Rattle.std.specs.Prelude.{◌≡◌, IfOk, OnErr, false};
ghost use Rattle.std.specs.Result.{result_err};
ghost use Rattle.spur_graph.specs.Value.{name_of};
ghost use Rattle.spur_graph.specs.Refusals.{first, no_old_words};
ghost use Rattle.spur_graph.specs.Room.{is_old, spot_at};
ghost use Rattle.spur_graph.specs.Heaps.{heap_graph, heap_room, heap_value};
ghost use Rattle.spur_heap.specs.Views.{IsGood, IsOrdinary};
ghost use Rattle.pinning.specs.Pins.{CopiesToOld, Pins, pin_row};

use spur_graph::Refusal;
use spur_heap::{BLANK_CLASS, BLANK_FORMAT, Heap, Space};

/// Makes a copy of an object of new space in old space, and answers where it starts. Nothing names the copy yet. [`Refusal::Full`] where old space has no
/// room for it.
fn copy_to_old(heap: &mut Heap, start: usize) -> Result<usize, Refusal>
    requires there { IsOrdinary heap.old start }
    requires young { is_old (spot_at (heap_room heap.old) start).space ≡ false }
    ensures refusal { no_old_words (heap_room heap.old) start ≡ result_err result }
    ensures copied { IfOk result (CopiesToOld heap.old heap.new start) }
    ensures same { OnErr result (heap.new ≡ heap.old) }
{
    let slots = heap.slot_count(start);
    let hash = heap.header(start).hash() as u32;
    heap.whole();
    match heap.allocate(Space::Old, BLANK_CLASS, BLANK_FORMAT, slots) {
        Ok(copy) => {
            heap.whole();
            heap.copy_contents(start, copy, hash);
            Ok(copy)
        }
        Err(full) => Err(Refusal::Full(full)),
    }
}

/// Pins the object that a word leads to: it stands in old space from then on and does not move. An object of new space is copied to old space, takes as many
/// words there, and its old place forwards to the copy.
///
/// [`Refusal::Immediate`] where the word leads to no object, [`Refusal::Full`] where old space has no room for the copy.
pub fn pin(heap: &mut Heap, object: u64) -> Result<(), Refusal>
    requires good { IsGood heap.old object }
    ensures refusal { first (pin_row (heap_room heap.old) (heap_value heap.old object)) ≡ result_err result }
    ensures pinned { IfOk result (λ _. Pins heap.old heap.new (name_of (heap_value heap.old object))) }
    ensures same { OnErr result (heap.new ≡ heap.old) }
    ensures tables { heap.new ≡ record heap.old { words = heap.new.words } }
{
    let start = heap.object(object)?;
    if heap.is_old(start) {
        heap.set_pinned(start, true);
        heap.whole();
        return Ok(());
    }
    heap.whole();
    let copy = copy_to_old(heap, start)?;
    heap.set_pinned(copy, true);
    heap.forward_to(start, copy);
    heap.whole();
    Ok(())
}
