// The roots: what is live though nothing live may name it.
ghost use Rattle.std.specs.Prelude.{◌≡◌, ◌≤◌, ◌<◌, ◌+◌, ◌*◌, ℕ, length, slice_index, IfSome, IfNone, true, false};
ghost use Rattle.spur_graph.specs.Heaps.{heap_graph, waiting_in, Marked};
ghost use Rattle.spur_graph.specs.Live as live;
ghost use Rattle.spur_graph.specs.Ordinary.{class_limit, page_entries, page_places};
ghost use Rattle.spur_heap.specs.MarkBits.{marks};
ghost use Rattle.spur_heap.specs.Views.{IsGood};
ghost use Rattle.marker.specs.Roots.{IsHeld, LeadsToUnmarked, MarkedOf, NamedByEntry, NamedByHandle, NamedByMourner, NamedByPage, NamedByWord, NamedIn};
ghost use Rattle.marker.specs.Visits.{Among, HasRoom, Visits};

use crate::scan::visit;
use spur_graph::{PAGE_ENTRIES, PAGE_PLACES};
use spur_heap::Heap;

/// Marks the objects to which words lead.
fn visit_all(heap: &mut Heap, words: &[u64])
    requires good { (i : ℕ) → i < length words.now → IsGood heap.old (slice_index words.now i) }
    requires phase { heap.old.phase ≡ Marked }
    requires room { HasRoom heap.old }
    ensures visits { Visits (NamedIn heap.old words.now) heap.old heap.new }
{
    'words: for i in 0..words.len() {
        visit(heap, words[i]);
    }
}

/// Whether a word leads to an object that is not marked.
fn leads_to_unmarked(heap: &Heap, word: u64) -> bool
    requires good { IsGood heap.now word }
    ensures yes { result ≡ true → LeadsToUnmarked heap.now word }
    ensures no { result ≡ false → (t : ℕ) → NamedByWord heap.now word t → marks heap.now t ≡ true }
{
    match heap.object(word) {
        Ok(start) => !heap.is_marked(start),
        Err(_) => false,
    }
}

/// The word of a handle whose object is not marked, if there is one.
fn unmarked_handle(heap: &Heap) -> Option<u64>
    ensures held { IfSome result (IsHeld heap.now) }
    ensures good { IfSome result (IsGood heap.now) }
    ensures unmarked { IfSome result (LeadsToUnmarked heap.now) }
    ensures none { IfNone result ((t : ℕ) → NamedByHandle heap.now t → marks heap.now t ≡ true) }
{
    let words = heap.handle_words();
    'handles: for i in 0..words.len() {
        let word = words[i];
        if leads_to_unmarked(heap, word) {
            return Some(word);
        }
    }
    None
}

/// Marks the object that the handle of this index names, if there is one.
fn visit_handle(heap: &mut Heap, i: usize)
    requires phase { heap.old.phase ≡ Marked }
    requires room { HasRoom heap.old }
    ensures visits { Visits (MarkedOf (NamedByHandle heap.old) heap.new) heap.old heap.new }
{
    let words = heap.handle_words();
    if i >= words.len() {
        return;
    }
    let word = words[i];
    visit(heap, word);
}

/// Marks the objects that handles name, index by index. No contract tells that handles keep their indices meanwhile.
fn visit_handles_by_index(heap: &mut Heap)
    requires phase { heap.old.phase ≡ Marked }
    requires room { HasRoom heap.old }
    ensures visits { Visits (MarkedOf (NamedByHandle heap.old) heap.new) heap.old heap.new }
{
    'handles: for i in 0..heap.handle_count() {
        visit_handle(heap, i);
    }
}

/// Marks the objects that handles name.
fn visit_handles(heap: &mut Heap)
    requires phase { heap.old.phase ≡ Marked }
    requires room { HasRoom heap.old }
    ensures visits { Visits (NamedByHandle heap.old) heap.old heap.new }
{
    visit_handles_by_index(heap);
    'handles: while let Some(word) = unmarked_handle(heap) {
        heap.whole();
        visit(heap, word);
    }
}

/// Marks the mourners.
fn visit_mourners(heap: &mut Heap)
    requires phase { heap.old.phase ≡ Marked }
    requires room { HasRoom heap.old }
    ensures visits { Visits (Among (NamedByMourner heap.old) (length (waiting_in heap.old.mourners))) heap.old heap.new }
{
    'mourners: for i in 0..heap.mourner_count() {
        let word = heap.mourner(i);
        visit(heap, word);
    }
}

/// Marks the classes of a page of the class table whose first index is this one, if there is the page.
fn visit_page(heap: &mut Heap, first: u32)
    requires below { first + page_entries ≤ class_limit }
    requires phase { heap.old.phase ≡ Marked }
    requires room { HasRoom heap.old }
    ensures visits { Visits (Among (NamedByEntry heap.old first) page_entries) heap.old heap.new }
{
    if !heap.has_page(first) {
        return;
    }
    'entries: for i in 0..PAGE_ENTRIES {
        let word = heap.class_at(first + i as u32);
        visit(heap, word);
    }
}

/// Marks the classes of the class table.
fn visit_classes(heap: &mut Heap)
    requires phase { heap.old.phase ≡ Marked }
    requires room { HasRoom heap.old }
    ensures visits { Visits (Among (NamedByPage heap.old) page_places) heap.old heap.new }
{
    'pages: for page in 0..PAGE_PLACES {
        visit_page(heap, (PAGE_ENTRIES * page) as u32);
    }
}

/// Marks the roots: nil, false, true, the special objects array, and what handles, mourners and the class table name.
pub fn visit_roots(heap: &mut Heap)
    requires phase { heap.old.phase ≡ Marked }
    requires room { HasRoom heap.old }
    ensures visits { Visits (live.IsRoot (heap_graph heap.old)) heap.old heap.new }
{
    heap.whole();
    let special = heap.special();
    let words = [heap.nil(), heap.no(), heap.yes(), special];
    visit_all(heap, &words);
    visit_handles(heap);
    visit_mourners(heap);
    visit_classes(heap);
}
