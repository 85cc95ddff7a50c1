// Entered classes.
ghost use Rattle.std.specs.Prelude.{◌≡◌, ◌<◌, ◌≤◌, Some, None, IfSome, IfNone, IfOk, OnErr, true, false};
ghost use Rattle.std.specs.FinMap.{get};
ghost use Rattle.std.specs.Result.{result_err};
ghost use Rattle.spur_graph.specs.Value.{name_of};
ghost use Rattle.spur_graph.specs.Refusals.{first, no_page};
ghost use Rattle.spur_graph.specs.Hashes.{free_index, first_entered, entered};
ghost use Rattle.spur_graph.specs.Instances.{has_entered};
ghost use Rattle.spur_graph.specs.Ordinary.{class_limit, is_no_index};
ghost use Rattle.spur_graph.specs.Does.{room_entered};
ghost use Rattle.spur_graph.specs.Heaps.{heap_graph, heap_room, heap_value};
ghost use Rattle.spur_heap.specs.Views.{IsGood, IsOrdinary, node_in};
ghost use Rattle.class_table.specs.Rows.{enter_row};
ghost use Rattle.class_table.specs.Instantiating.{KeepsTables};
ghost use Rattle.class_table.specs.Paging.{HasPlace};

use spur_graph::Refusal;
use spur_heap::Heap;

/// The first index at which a class is entered; those below are Spur's own.
const FIRST_ENTERED: u32 = 1024;

/// Class indices are below this.
const CLASS_LIMIT: u32 = 1 << 22;

/// The class index of the instances of an entered class: its hash.
pub(crate) fn index_of(heap: &Heap, class: usize) -> u32
    requires there { IsOrdinary heap.now class }
    requires entered { has_entered (heap_graph heap.now) class ≡ true }
    ensures hash { result ≡ (node_in heap.now class).hash }
    ensures below { result < class_limit }
    ensures known { is_no_index result ≡ false }
{
    heap.whole();
    heap.header(class).hash() as u32
}

/// The least index from 1,024 on that has no entry.
fn free_index(heap: &Heap) -> Option<u32>
    ensures some { IfSome result (λ index. (index ≡ free_index (heap_graph heap.now)) × (first_entered ≤ index) × (index < class_limit)) }
    ensures unentered { IfSome result (λ index. get (heap_graph heap.now).classes index ≡ None) }
    ensures none { IfNone result (free_index (heap_graph heap.now) ≡ class_limit) }
{
    'indices: for index in FIRST_ENTERED..CLASS_LIMIT {
        if heap.is_unentered(index) {
            return Some(index);
        }
    }
    None
}

/// Makes the page of an index in old space where there is none. [`Refusal::Full`] where old space has no room for it.
fn place_for(heap: &mut Heap, index: u32) -> Result<(), Refusal>
    requires below { index < class_limit }
    ensures refusal { no_page (heap_room heap.old) index ≡ result_err result }
    ensures place { IfOk result (λ _. HasPlace heap.old heap.new index) }
    ensures same { OnErr result (heap.new ≡ heap.old) }
{
    if heap.has_page(index) {
        return Ok(());
    }
    match heap.make_page(index) {
        Ok(()) => Ok(()),
        Err(full) => Err(Refusal::Full(full)),
    }
}

/// Enters the object that a word leads to in the class table, and answers the index, which is its identity hash then: the least from 1,024 on that has no
/// entry, found by a walk over the entries before it. A page of 1,026 words is made in old space where the index has none.
///
/// [`Refusal::Immediate`] where the word leads to no object, [`Refusal::Special`] for nil, false and true, [`Refusal::Hashed`] where it has a hash already,
/// [`Refusal::Table`] where no index is free, [`Refusal::Full`] where old space has no room for the page.
pub fn enter(heap: &mut Heap, object: u64) -> Result<u32, Refusal>
    requires good { IsGood heap.old object }
    ensures refusal { first (enter_row (heap_graph heap.old) (heap_room heap.old) (heap_value heap.old object)) ≡ result_err result }
    ensures index { IfOk result (λ index. index ≡ free_index (heap_graph heap.old)) }
    ensures graph { IfOk result (λ _. heap_graph heap.new ≡ entered (heap_graph heap.old) (name_of (heap_value heap.old object)) (free_index (heap_graph heap.old))) }
    ensures room { IfOk result (λ _. room_entered (heap_room heap.old) (free_index (heap_graph heap.old)) ≡ Some (heap_room heap.new)) }
    ensures same { OnErr result (heap.new ≡ heap.old) }
    ensures tables { KeepsTables heap.old heap.new }
{
    let start = heap.object(object)?;
    if heap.is_special(start) {
        return Err(Refusal::Special);
    }
    if heap.header(start).hash() != 0 {
        return Err(Refusal::Hashed);
    }
    let Some(index) = free_index(heap) else {
        return Err(Refusal::Table);
    };
    place_for(heap, index)?;
    heap.put_hash(start, index);
    heap.put_entry(index, start);
    Ok(index)
}
