// The handles of a heap.
ghost use Rattle.std.specs.Prelude.{◌≡◌, [], ◌∷◌, Some, None, IfOk, OnOk, OnErr};
ghost use Rattle.std.specs.Result.{result_err};
ghost use Rattle.spur_graph.specs.Graph.{held, bind, unbind};
ghost use Rattle.spur_graph.specs.Refusals.{unknown, handles};
ghost use Rattle.spur_heap.specs.Views.{IsGood};
ghost use Rattle.replay.specs.Sessions.{graph_of, value_in};
ghost use Rattle.replay.specs.Commands.{Becomes, Keeps};

use handle_table::MOST_HANDLES;
use spur_graph::{HandleName, Refusal};
use spur_heap::Heap;

/// The word of a handle.
pub(crate) fn held(heap: &Heap, mutator: u8, name: &HandleName) -> Result<u64, Refusal>
    ensures refusal { unknown (graph_of heap.now) mutator (name.now.bytes ∷ []) ≡ result_err result }
    ensures value { IfOk result (λ word. held (graph_of heap.now) mutator name.now.bytes ≡ Some (value_in heap.now word)) }
    ensures good { IfOk result (IsGood heap.now) }
{
    heap.handle(mutator, name).ok_or(Refusal::Unknown)
}

/// Refuses to bind a handle that is not held where no more can be.
pub(crate) fn room_for(heap: &Heap, mutator: u8, name: &HandleName) -> Result<(), Refusal>
    ensures { handles (graph_of heap.now) mutator name.now.bytes ≡ result_err result }
{
    if heap.handle_count() >= MOST_HANDLES && heap.handle(mutator, name).is_none() {
        return Err(Refusal::Handles);
    }
    Ok(())
}

/// Binds a handle to a word.
pub(crate) fn bind(heap: &mut Heap, mutator: u8, name: &HandleName, word: u64)
    requires good { IsGood heap.old word }
    requires room { handles (graph_of heap.old) mutator name.now.bytes ≡ None }
    ensures bound { Becomes heap.old heap.new (bind (graph_of heap.old) mutator name.now.bytes (value_in heap.old word)) }
    ensures keeps { Keeps heap.old heap.new }
{
    let _bound = heap.bind(mutator, *name, word);
}

/// Binds a handle no longer.
pub(crate) fn unbind(heap: &mut Heap, mutator: u8, name: &HandleName) -> Result<(), Refusal>
    ensures refusal { unknown (graph_of heap.old) mutator (name.now.bytes ∷ []) ≡ result_err result }
    ensures unbound { OnOk result (Becomes heap.old heap.new (unbind (graph_of heap.old) mutator name.now.bytes)) }
    ensures same { OnErr result (heap.new ≡ heap.old) }
    ensures keeps { Keeps heap.old heap.new }
{
    if heap.unbind(mutator, name) {
        Ok(())
    } else {
        Err(Refusal::Unknown)
    }
}
