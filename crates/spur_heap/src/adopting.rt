// The tables of a heap, made from its words.
ghost use Rattle.std.specs.Prelude.{◌≡◌, ◌≢◌, ◌<◌, ◌≤◌, ◌+◌, ◌/◌, ◌^◌, ◌||◌, ℕ, length, slice_index, false};
ghost use Rattle.object_header.specs.Chunks.{Cuts, row, starts_in};
ghost use Rattle.heap_walk.specs.Starts.{has_start, covered};
ghost use Rattle.spur_graph.specs.Cells.{any_below};
ghost use Rattle.spur_graph.specs.Ordinary.{is_internal, page_places, roots_slots};
ghost use Rattle.spur_graph.specs.Heaps.{IsWhole, store_of};
ghost use Rattle.spur_heap.specs.Words.{AreSound};
ghost use Rattle.spur_heap.specs.Parts.{view_of, HasTables, HasRemembered, ArePartsOfHeap};
ghost use Rattle.spur_heap.specs.Counting.{names_page, root_names, one_new, count_new, has_entered};
ghost use Rattle.spur_heap.specs.Views.{Adopts};

use crate::heap::HeapParts;
use crate::places::{first_start, first_word};
use heap_walk::{StartMap, span_of};
use object_header::{FORWARDER_CLASS, FREE_CLASS, Header};
use spur_graph::{FREE_LISTS, HIDDEN_ROOTS, PAGE_PLACES};
use spur_words::Region;

/// Enters the start that a word names, unless it is the word of nil.
fn mark_page(starts: &mut StartMap, word: u64, nil: u64)
    requires inside { word ≢ nil → word / 8 < covered starts.old }
    ensures marks { (s : ℕ) → has_start starts.new s ≡ (has_start starts.old s || names_page nil s word) }
    ensures covers { covered starts.new ≡ covered starts.old }
{
    if word != nil {
        starts.set((word / 8) as usize);
    }
}

/// Enters the pages of the class table, which the hidden roots at `roots` name, into a map that has no start.
fn mark_pages(region: &Region, roots: usize, nil: u64, starts: &mut StartMap)
    requires inside { roots + roots_slots < length region.now }
    requires pages { (i : ℕ) → i < page_places → slice_index region.now (roots + 1 + i) ≢ nil → slice_index region.now (roots + 1 + i) / 8 < covered starts.old }
    requires empty { (s : ℕ) → has_start starts.old s ≡ false }
    ensures marks { (s : ℕ) → has_start starts.new s ≡ any_below (root_names region.now roots nil s) page_places }
    ensures covers { covered starts.new ≡ covered starts.old }
{
    let _end = region.len();
    'places: for i in 0..PAGE_PLACES {
        mark_page(starts, region.get(roots + 1 + i), nil);
    }
}

/// Enters the internal objects into the map of starts, which has none yet.
fn mark_internal(parts: &mut HeapParts)
    requires sound { AreSound (view_of parts.old) }
    requires covers { covered parts.old.starts ≡ length parts.old.region }
    requires empty { (s : ℕ) → has_start parts.old.starts s ≡ false }
    ensures marks { (s : ℕ) → has_start parts.new.starts s ≡ is_internal (store_of (view_of parts.old)) s }
    ensures covers { covered parts.new.starts ≡ length parts.old.region }
    ensures rest { parts.new ≡ record parts.old { starts = parts.new.starts } }
{
    let lists = first_start(parts, FREE_LISTS);
    let roots = first_start(parts, HIDDEN_ROOTS);
    let nil = first_word(parts, 0);
    mark_pages(&parts.region, roots, nil, &mut parts.starts);
    parts.starts.set(lists);
    parts.starts.set(roots);
}

/// Enters the start of a chunk with this header, unless the chunk is free, and answers 1 where it is that of an object that was not there, else 0.
fn enter(starts: &mut StartMap, start: usize, header: Header) -> usize
    requires inside { start < covered starts.old }
    ensures counts { result ≡ one_new starts.old start header.0 }
    ensures marks { (s : ℕ) → has_start starts.new s ≡ has_entered starts.old start header.0 s }
    ensures covers { covered starts.new ≡ covered starts.old }
{
    let class = header.class();
    if class == FREE_CLASS {
        return 0;
    }
    let was = starts.has(start);
    starts.set(start);
    if class == FORWARDER_CLASS || was {
        0
    } else {
        1
    }
}

/// Enters the starts of the objects and forwarders among the words up to `end`, which are cut into chunks, and answers how many objects were not there.
fn enter_chunks(region: &Region, end: usize, starts: &mut StartMap) -> usize
    requires small { length region.now ≤ 2 ^ 27 }
    requires row { Cuts region.now 0 end (row region.now 0 end) }
    requires within { end ≤ length region.now }
    requires covers { covered starts.old ≡ length region.now }
    ensures counts { result ≡ count_new region.now starts.old (row region.now 0 end) }
    ensures marks { (s : ℕ) → has_start starts.new s ≡ (has_start starts.old s || starts_in region.now (row region.now 0 end) s) }
    ensures covers { covered starts.new ≡ length region.now }
{
    let mut at = 0;
    let mut objects = 0;
    'chunks: while at < end {
        let chunk = span_of(at, region.get(at));
        objects += enter(starts, chunk.start, Header(region.get(chunk.start)));
        at = chunk.end;
    }
    objects
}

/// Makes the tables of a heap that has nothing in new space: the starts, the number of ordinary objects, and the free lists. The words of free chunks
/// change, and no other.
///
/// The internal objects are entered first, so that the one walk over the chunks counts what is not there yet.
pub fn make_tables(parts: &mut HeapParts)
    requires whole { IsWhole (view_of parts.old) }
    requires no_eden { parts.old.eden_used ≡ 0 }
    requires no_past { parts.old.past_used ≡ 0 }
    requires covers { covered parts.old.starts ≡ length parts.old.region }
    requires empty { (s : ℕ) → has_start parts.old.starts s ≡ false }
    requires tables { HasTables parts.old }
    requires remembered { HasRemembered parts.old }
    ensures heap { ArePartsOfHeap parts.new }
    ensures adopts { Adopts (view_of parts.old) (view_of parts.new) }
{
    let _end = parts.region.len();
    mark_internal(parts);
    parts.objects = enter_chunks(&parts.region, parts.old_end, &mut parts.starts);
    parts.free.rebuild(&mut parts.region, 0, parts.old_end);
}
