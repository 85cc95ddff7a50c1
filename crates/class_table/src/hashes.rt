// Identity hashes.
ghost use Rattle.std.specs.Prelude.{◌≡◌, IfOk, OnErr};
ghost use Rattle.std.specs.Result.{result_err};
ghost use Rattle.spur_graph.specs.declared.answer.Refusal.TheVariants as r;
ghost use Rattle.spur_graph.specs.Value.{is_immediate, name_of};
ghost use Rattle.spur_graph.specs.Refusals.{test};
ghost use Rattle.spur_graph.specs.Hashes.{hash_now, hashed};
ghost use Rattle.spur_graph.specs.Heaps.{heap_graph, heap_room, heap_value};
ghost use Rattle.spur_heap.specs.Views.{IsGood};
ghost use Rattle.class_table.specs.Instantiating.{KeepsTables};

use spur_graph::Refusal;
use spur_heap::Heap;

/// The identity hash of the object that a word leads to, drawn and kept if it had none. [`Refusal::Immediate`] where the word leads to no object.
pub fn identity_hash(heap: &mut Heap, object: u64) -> Result<u32, Refusal>
    requires good { IsGood heap.old object }
    ensures refusal { test (is_immediate (heap_value heap.old object)) r.Immediate ≡ result_err result }
    ensures hash { IfOk result (λ hash. hash ≡ hash_now (heap_graph heap.old) (name_of (heap_value heap.old object))) }
    ensures graph { IfOk result (λ _. heap_graph heap.new ≡ hashed (heap_graph heap.old) (name_of (heap_value heap.old object))) }
    ensures room { heap_room heap.new ≡ heap_room heap.old }
    ensures same { OnErr result (heap.new ≡ heap.old) }
    ensures tables { KeepsTables heap.old heap.new }
{
    let start = heap.object(object)?;
    let hash = heap.header(start).hash();
    if hash != 0 {
        return Ok(hash as u32);
    }
    let drawn = heap.draw_hash();
    heap.put_hash(start, drawn);
    Ok(drawn)
}
