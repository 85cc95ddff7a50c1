// What is asked of the object that a call works on.
ghost use Rattle.std.specs.Prelude.{◌≡◌};
ghost use Rattle.std.specs.Result.{result_err};
ghost use Rattle.spur_graph.specs.declared.answer.Refusal.TheVariants as refusals;
ghost use Rattle.spur_graph.specs.Refusals.{test};
ghost use Rattle.spur_heap.specs.Views.{IsOrdinary, node_in};

use spur_graph::Refusal;
use spur_heap::Heap;

/// The format of an object.
pub(crate) fn format(heap: &Heap, start: usize) -> u64
    requires there { IsOrdinary heap.now start }
    ensures { result ≡ (node_in heap.now start).format }
{
    heap.header(start).format()
}

/// Refuses to change a readonly object.
pub(crate) fn refuse_readonly(heap: &Heap, start: usize) -> Result<(), Refusal>
    requires there { IsOrdinary heap.now start }
    ensures { test (node_in heap.now start).readonly refusals.ReadOnly ≡ result_err result }
{
    if heap.header(start).readonly() == 1 {
        return Err(Refusal::ReadOnly);
    }
    Ok(())
}
