// What is told of the value of a word.
ghost use Rattle.std.specs.Prelude.{◌≡◌, ◌<◌, ◌/◌, ◌^◌, length, true, IfOk};
ghost use Rattle.std.specs.Result.{result_err};
ghost use Rattle.spur_graph.specs.declared.answer.Value.TheVariants.{Ref};
ghost use Rattle.spur_graph.specs.declared.answer.Refusal.TheVariants as refusals;
ghost use Rattle.spur_graph.specs.Value.{is_immediate, same_value};
ghost use Rattle.spur_graph.specs.Graph.{node_at};
ghost use Rattle.spur_graph.specs.Refusals.{test};
ghost use Rattle.spur_graph.specs.Shows.{shown};
ghost use Rattle.spur_graph.specs.Classes.{class_index, class_value};
ghost use Rattle.spur_graph.specs.Ordinary.{is_good_reference};
ghost use Rattle.spur_graph.specs.Heaps.{heap_graph, heap_value};
ghost use Rattle.spur_heap.specs.Views.{IsGood, IsOrdinary, store};

use immediates::{Kind, char_of, int_of, kind};
use spur_graph::{Refusal, Shown};
use spur_heap::Heap;

/// Bytes of a word.
const WORD_BYTES: u64 = 8;

/// The start that the word of an object itself names.
fn named_start(word: u64) -> usize
    ensures { result ≡ word / 8 }
{
    (word / WORD_BYTES) as usize
}

/// The start of the object to which a reference leads.
fn start(heap: &Heap, reference: u64) -> usize
    requires reference { is_good_reference (store heap.now) reference ≡ true }
    ensures there { IsOrdinary heap.now result }
    ensures value { heap_value heap.now reference ≡ Ref result }
{
    named_start(heap.follow(reference))
}

/// What is shown of an object.
fn shown_object(heap: &Heap, start: usize) -> Shown
    requires there { IsOrdinary heap.now start }
    ensures { result ≡ shown (heap_graph heap.now) (Ref start) }
{
    if start == named_start(heap.nil()) {
        Shown::Nil
    } else if start == named_start(heap.no()) {
        Shown::No
    } else if start == named_start(heap.yes()) {
        Shown::Yes
    } else {
        let header = heap.header(start);
        Shown::Object {
            class: header.class() as u32,
            format: header.format() as u8,
        }
    }
}

/// The class index of the value of a word: that of an immediate is its tag.
fn class_index(heap: &Heap, word: u64) -> u32
    requires good { IsGood heap.now word }
    ensures class { result ≡ class_index (heap_graph heap.now) (heap_value heap.now word) }
    ensures index { result < 2 ^ 22 }
{
    match kind(word) {
        Kind::Int => 1,
        Kind::Char => 2,
        Kind::Float => 4,
        // a good word is no bad one
        Kind::Reference | Kind::Bad => heap.header(start(heap, word)).class() as u32,
    }
}

/// Whether two words have one value. Both are followed, a step for each forwarder on the way.
pub fn same(heap: &Heap, a: u64, b: u64) -> bool
    requires good { IsGood heap.now a × IsGood heap.now b }
    ensures { result ≡ same_value (heap_value heap.now a) (heap_value heap.now b) }
{
    heap.follow(a) == heap.follow(b)
}

/// The word of the class of the value of a word, followed; that of nil where the class table has no class at its index. The class index of an immediate is
/// its tag. The word is followed, a step for each forwarder on the way, and so is the class table's entry.
pub fn class_of(heap: &Heap, word: u64) -> u64
    requires good { IsGood heap.now word }
    ensures class { heap_value heap.now result ≡ class_value (heap_graph heap.now) (heap_value heap.now word) }
    ensures good { IsGood heap.now result }
{
    heap.whole();
    heap.class_at(class_index(heap, word))
}

/// What is shown of the value of a word: the number, code or word of an immediate, whether it is nil, false or true, and of another object its class index
/// and format. The word is followed, a step for each forwarder on the way.
pub fn shown(heap: &Heap, word: u64) -> Shown
    requires good { IsGood heap.now word }
    ensures { result ≡ shown (heap_graph heap.now) (heap_value heap.now word) }
{
    match kind(word) {
        Kind::Int => Shown::Int(int_of(word)),
        Kind::Char => Shown::Char(char_of(word)),
        Kind::Float => Shown::Float(word),
        // a good word is no bad one
        Kind::Reference | Kind::Bad => shown_object(heap, start(heap, word)),
    }
}

/// How many pointer slots the object that a word leads to has, and how many units. The word is followed, a step for each forwarder on the way.
/// [`Refusal::Immediate`] where the word leads to no object.
pub fn size(heap: &Heap, object: u64) -> Result<(u64, u64), Refusal>
    requires good { IsGood heap.now object }
    ensures refusal { test (is_immediate (heap_value heap.now object)) refusals.Immediate ≡ result_err result }
    ensures size { IfOk result (λ size. let node = node_at (heap_graph heap.now) (heap_value heap.now object) in (size.0 ≡ length node.pointers) × (size.1 ≡ length node.units)) }
{
    let start = heap.object(object)?;
    Ok((
        heap.pointer_count(start) as u64,
        heap.unit_count(start) as u64,
    ))
}
