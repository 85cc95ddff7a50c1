// Full collections, and mourners that are taken away.
ghost use Rattle.std.specs.Prelude.{◌≡◌, IfOk, OnErr};
ghost use Rattle.std.specs.Result.{result_err};
ghost use Rattle.spur_graph.specs.Form as forms;
ghost use Rattle.spur_graph.specs.Heaps.{Whole};
ghost use Rattle.replay.specs.Commands.{FirstRefusal, Obeys, ObeysExactly, Keeps};

use crate::handles::{bind, room_for};
use full_collection::collect;
use spur_graph::{Answer, HandleName, Refusal};
use spur_heap::Heap;
use weak_ephemeron::mourn;

/// Collects what is dead, in all spaces.
pub(crate) fn collect_dead(heap: &mut Heap, mutator: u8) -> Answer
    requires whole { heap.old.phase ≡ Whole }
    ensures done { Obeys heap.old mutator forms.Gc result heap.new }
    ensures keeps { Keeps heap.old heap.new }
{
    let counts = collect(heap);
    Answer::Counts {
        nilled: counts.nilled,
        fired: counts.fired,
    }
}

/// Takes a mourner of the earliest group away, and binds a handle to it.
pub(crate) fn mourn_one(heap: &mut Heap, mutator: u8, h: &HandleName) -> Result<Answer, Refusal>
    ensures refusal { FirstRefusal heap.old mutator (forms.Mourn h.now.bytes) (result_err result) }
    ensures done { IfOk result (λ answer. ObeysExactly heap.old mutator (forms.Mourn h.now.bytes) answer heap.new) }
    ensures same { OnErr result (heap.new ≡ heap.old) }
    ensures keeps { Keeps heap.old heap.new }
{
    room_for(heap, mutator, h)?;
    let word = mourn(heap).ok_or(Refusal::NoMourner)?;
    bind(heap, mutator, h, word);
    Ok(Answer::Done)
}
