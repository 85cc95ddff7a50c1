// Instances of classes.
ghost use Rattle.std.specs.Prelude.{◌≡◌, IfOk, OnErr};
ghost use Rattle.std.specs.Option.{option_map};
ghost use Rattle.std.specs.Result.{result_err};
ghost use Rattle.spur_graph.specs.Value.{int_of};
ghost use Rattle.spur_graph.specs.Refusals.{first, no_class};
ghost use Rattle.spur_graph.specs.Instances.{layout_of};
ghost use Rattle.spur_graph.specs.Heaps.{heap_graph, heap_room, heap_value};
ghost use Rattle.spur_heap.specs.Views.{IsGood, IsOrdinary, node_in};
ghost use Rattle.spur_heap.specs.Allocating.{source_of};
ghost use Rattle.class_table.specs.Rows.{instance_row};
ghost use Rattle.class_table.specs.Instantiating.{Instantiates, KeepsTables};
ghost use Rattle.class_table.specs.Layouts.{HasLayout};

use crate::classes::index_of;
use crate::layout::Layout;
use immediates::{Kind, kind};
use spur_graph::Refusal;
use spur_heap::{Heap, Space};

/// Which slot of a class tells the layout of its instances.
const LAYOUT: usize = 2;

/// Slot 2 of a class as a layout, where it is there and a SmallInteger.
fn layout_of(heap: &Heap, class: usize) -> Option<Layout>
    requires there { IsOrdinary heap.now class }
    ensures { option_map (λ l. int_of l.0) result ≡ layout_of (node_in heap.now class) }
{
    if heap.pointer_count(class) <= LAYOUT {
        return None;
    }
    let word = heap.pointer(class, LAYOUT);
    match kind(word) {
        Kind::Int => Some(Layout(word)),
        _ => None,
    }
}

/// The layout of the instances of a class. [`Refusal::Class`] where it is not entered, or its slot 2 tells none.
fn instance_layout(heap: &Heap, class: usize) -> Result<Layout, Refusal>
    requires there { IsOrdinary heap.now class }
    ensures refusal { no_class (heap_graph heap.now) class ≡ result_err result }
    ensures layout { IfOk result (HasLayout (heap_graph heap.now) class) }
{
    if !heap.is_entered(class) {
        return Err(Refusal::Class);
    }
    match layout_of(heap, class) {
        Some(layout) if layout.has_instances() => Ok(layout),
        _ => Err(Refusal::Class),
    }
}

/// Makes an instance of the class that a word leads to, and answers the word that refers to it. `n` is the size: how many slots there are besides the fixed
/// ones, or how many units. Its pointer slots name nil, and its units are 0.
///
/// [`Refusal::Immediate`] where the word leads to no object; [`Refusal::Class`] where the class is not entered or its slot 2 tells no layout of instances;
/// [`Refusal::Size`] where `n` exceeds 134,217,728, or is not 0 and the instances have no size; [`Refusal::Full`] where no space that is asked has room.
pub fn instantiate(heap: &mut Heap, space: Space, class: u64, n: u128) -> Result<u64, Refusal>
    requires good { IsGood heap.old class }
    ensures refusal { first (instance_row (heap_graph heap.old) (heap_room heap.old) (heap_value heap.old class) n (source_of space)) ≡ result_err result }
    ensures made { IfOk result (Instantiates heap.old heap.new (source_of space) (heap_value heap.old class) n) }
    ensures same { OnErr result (heap.new ≡ heap.old) }
    ensures tables { KeepsTables heap.old heap.new }
{
    let class = heap.object(class)?;
    let layout = instance_layout(heap, class)?;
    if !layout.has_size(n) {
        return Err(Refusal::Size);
    }
    let n = n as usize;
    let index = index_of(heap, class);
    match heap.allocate(space, index, layout.format_for(n), layout.slots_for(n)) {
        Ok(start) => Ok(heap.word_of(start)),
        Err(full) => Err(Refusal::Full(full)),
    }
}
