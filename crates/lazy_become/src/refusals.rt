// What refuses an exchange or a forwarding.
ghost use Rattle.std.specs.Prelude.{◌≡◌};
ghost use Rattle.std.specs.Result.{result_err};
ghost use Rattle.spur_graph.specs.Refusals.{first};
ghost use Rattle.spur_graph.specs.Heaps.{heap_graph};
ghost use Rattle.spur_heap.specs.Views.{IsOrdinary};
ghost use Rattle.lazy_become.specs.Rows.{held_row, standing_row};

use spur_graph::Refusal;
use spur_heap::Heap;

/// Refuses to exchange two objects of which one is nil, false or true, is pinned, is readonly, or waits among the mourners.
pub(crate) fn may_exchange(heap: &Heap, a: usize, b: usize) -> Result<(), Refusal>
    requires first { IsOrdinary heap.now a }
    requires second { IsOrdinary heap.now b }
    ensures { first (held_row (heap_graph heap.now) a b) ≡ result_err result }
{
    if heap.is_special(a) || heap.is_special(b) {
        return Err(Refusal::Special);
    }
    if heap.is_pinned(a) || heap.is_pinned(b) {
        return Err(Refusal::Pinned);
    }
    if heap.is_readonly(a) || heap.is_readonly(b) {
        return Err(Refusal::ReadOnly);
    }
    if heap.is_mourner(a) || heap.is_mourner(b) {
        return Err(Refusal::Mourning);
    }
    Ok(())
}

/// Refuses to forward an object that is nil, false or true, is pinned, is readonly, waits among the mourners or stands in the class table; where its hash is
/// handed on, the other may be none of nil, false and true, and may not stand in the class table.
pub(crate) fn may_forward(heap: &Heap, a: usize, b: usize, copy_hash: bool) -> Result<(), Refusal>
    requires first { IsOrdinary heap.now a }
    requires second { IsOrdinary heap.now b }
    ensures { first (standing_row (heap_graph heap.now) a b copy_hash) ≡ result_err result }
{
    if heap.is_special(a) || copy_hash && heap.is_special(b) {
        return Err(Refusal::Special);
    }
    if heap.is_pinned(a) {
        return Err(Refusal::Pinned);
    }
    if heap.is_readonly(a) {
        return Err(Refusal::ReadOnly);
    }
    if heap.is_mourner(a) {
        return Err(Refusal::Mourning);
    }
    if heap.is_classed(a) || copy_hash && heap.is_classed(b) {
        return Err(Refusal::Classed);
    }
    Ok(())
}
