// The mark bits of the headers, and the mark stack.
ghost use Rattle.std.specs.Prelude.{◌≡◌, ◌≢◌, ◌≤◌, ◌<◌, ◌/◌, ◌++◌, ◌∷◌, [], ℕ, length, nat_eq, slice_index, true, false, IfSome, IfNone};
ghost use Rattle.std.specs.List.{Contains, swap};
ghost use Rattle.object_header.specs.Chunks.{Chunk};
ghost use Rattle.spur_graph.specs.Cells.{first};
ghost use Rattle.spur_graph.specs.Ordinary.{is_internal, page_places};
ghost use Rattle.spur_graph.specs.Heaps.{chunks_of, heap_graph, heap_room, is_marked, Whole, Marked};
ghost use Rattle.spur_heap.specs.Views.{store};
ghost use Rattle.spur_heap.specs.MarkBits.{IsObject, IsNoHeaderOf, MarksThose, StartsAt, is_page_of, without_mark, marked, begun};

use crate::classes::root_word;
use crate::clearing::clear_rows;
use crate::heap::{Heap, Phase};
use crate::places::{first_start, first_word};
use object_header::{FORWARDER_CLASS, Header};
use spur_graph::{FREE_LISTS, HIDDEN_ROOTS, PAGE_PLACES};

impl Heap {
    /// From now on objects may be marked; none is so far, and the mark stack is empty.
    pub fn begin_marking(&mut self)
        requires phase { self.old.phase ≡ Whole }
        ensures begun { self.new ≡ begun self.old }
        ensures none { (s : ℕ) → IsObject self.new s → is_marked self.new.words s ≡ false }
    {
        self.parts.marks.clear();
        self.parts.phase = Phase::Marked;
    }

    /// Whether the object that starts there is marked.
    pub fn is_marked(&self, start: usize) -> bool
        requires there { IsObject self.now start }
        ensures { result ≡ is_marked self.now.words start }
    {
        Header(self.parts.region.get(start)).marked() == 1
    }

    /// The first start of an object or a forwarder at the word `from` or behind it, if there is one.
    pub fn next_start(&self, from: usize) -> Option<usize>
        ensures found { IfSome result (λ s. (from ≤ s) × StartsAt self.now s) }
        ensures first { IfSome result (λ s. (k : ℕ) → from ≤ k → k < s → StartsAt self.now k → ⊥) }
        ensures none { IfNone result ((k : ℕ) → from ≤ k → StartsAt self.now k → ⊥) }
    {
        self.parts.starts.next(from)
    }

    /// Whether a forwarder starts there, and no object.
    pub fn is_forwarder(&self, start: usize) -> bool
        requires there { StartsAt self.now start }
        ensures yes { result ≡ true → IsObject self.now start → ⊥ }
        ensures no { result ≡ false → IsObject self.now start }
    {
        Header(self.parts.region.get(start)).class() == FORWARDER_CLASS
    }

    /// Marks the object that starts there: one bit of its header is set, and no cell of the heap is another.
    pub fn set_mark(&mut self, start: usize)
        requires there { IsObject self.old start }
        requires phase { self.old.phase ≡ Marked }
        ensures written { self.new ≡ marked self.old start }
        ensures store { store self.new ≡ store self.old }
        ensures graph { heap_graph self.new ≡ heap_graph self.old }
        ensures room { heap_room self.new ≡ heap_room self.old }
        ensures here { is_marked self.new.words start ≡ true }
        ensures others { (s : ℕ) → s ≢ start → is_marked self.new.words s ≡ is_marked self.old.words s }
    {
        let header = Header(self.parts.region.get(start));
        self.parts.region.put(start, header.set_marked(1).0);
    }

    /// Puts a start on the mark stack, which has a place for it. It takes no memory.
    pub fn push_mark(&mut self, start: usize)
        requires room { length self.old.stack < length self.old.words / 2 }
        requires small { start < length self.old.words }
        ensures { self.new ≡ record self.old { stack = self.old.stack ++ start ∷ [] } }
    {
        // the length tells that a start fits 32 bits
        let _end = self.parts.region.len();
        self.parts.marks.push_reserved(start as u32);
    }

    /// Takes the start that was put on the mark stack last, if it stands behind the first `kept`.
    pub fn pop_mark(&mut self, kept: usize) -> Option<usize>
        ensures some { IfSome result (λ s. (kept ≤ length self.new.stack) × (self.old.stack ≡ self.new.stack ++ s ∷ []) × (self.new ≡ record self.old { stack = self.new.stack })) }
        ensures none { IfNone result ((length self.old.stack ≤ kept) × (self.new ≡ self.old)) }
    {
        if self.parts.marks.len() <= kept {
            return None;
        }
        let start = self.parts.marks.pop()?;
        Some(start as usize)
    }

    /// How many starts stand on the mark stack.
    pub fn stack_len(&self) -> usize
        ensures { result ≡ length self.now.stack }
    {
        let parts = &self.parts;
        parts.marks.len()
    }

    /// Start `i` of the mark stack, where the latest is the last.
    pub fn stack_item(&self, i: usize) -> usize
        requires within { i < length self.now.stack }
        ensures { result ≡ slice_index self.now.stack i }
    {
        let starts = self.parts.marks.as_slice();
        starts[i] as usize
    }

    /// Exchanges two starts of the mark stack.
    pub fn swap_marks(&mut self, i: usize, j: usize)
        requires first { i < length self.old.stack }
        requires second { j < length self.old.stack }
        ensures { self.new ≡ record self.old { stack = swap self.old.stack i j } }
    {
        self.parts.marks.swap(i, j);
    }

    /// Empties the mark stack.
    pub fn clear_stack(&mut self)
        ensures { self.new ≡ record self.old { stack = [] } }
    {
        self.parts.marks.clear();
    }

    /// Marks one of the first five chunks of old space.
    fn mark_first(&mut self, k: usize)
        requires five { k < 5 }
        requires phase { self.old.phase ≡ Marked }
        ensures { MarksThose (λ s. nat_eq s (first (store self.old) k)) self.old self.new }
    {
        let start = first_start(&self.parts, k);
        self.set_mark(start);
    }

    /// Marks the page of this place of the hidden roots, if there is one.
    fn mark_page(&mut self, place: usize)
        requires within { place < page_places }
        requires phase { self.old.phase ≡ Marked }
        ensures { MarksThose (is_page_of (store self.old) place) self.old self.new }
    {
        let parts = &self.parts;
        let word = root_word(parts, place);
        if word != first_word(parts, 0) {
            self.set_mark((word / 8) as usize);
        }
    }

    /// Marks the internal objects: the free lists object, the hidden roots and the pages of the class table. No other mark changes.
    pub fn mark_internal(&mut self)
        requires phase { self.old.phase ≡ Marked }
        ensures rest { self.new ≡ record self.old { words = self.new.words } }
        ensures store { store self.new ≡ store self.old }
        ensures graph { heap_graph self.new ≡ heap_graph self.old }
        ensures room { heap_room self.new ≡ heap_room self.old }
        ensures inner { (s : ℕ) → is_internal (store self.old) s ≡ true → is_marked self.new.words s ≡ true }
        ensures others { (s : ℕ) → is_internal (store self.old) s ≡ false → is_marked self.new.words s ≡ is_marked self.old.words s }
    {
        self.mark_first(FREE_LISTS);
        self.mark_first(HIDDEN_ROOTS);
        'places: for place in 0..PAGE_PLACES {
            self.mark_page(place);
        }
    }

    /// Clears the mark bits of all headers: from now on no object is marked, and the heap stands for what it stood for. The mark stack stays.
    pub fn clear_marks(&mut self)
        requires phase { self.old.phase ≡ Marked }
        ensures rest { self.new ≡ record self.old { words = self.new.words; phase = Whole } }
        ensures store { store self.new ≡ store self.old }
        ensures graph { heap_graph self.new ≡ heap_graph self.old }
        ensures room { heap_room self.new ≡ heap_room self.old }
        ensures headers { (c : Chunk) → Contains (chunks_of self.old) c → slice_index self.new.words c.start ≡ without_mark (slice_index self.old.words c.start) }
        ensures others { (j : ℕ) → IsNoHeaderOf (chunks_of self.old) j → slice_index self.new.words j ≡ slice_index self.old.words j }
    {
        clear_rows(&mut self.parts);
        self.parts.phase = Phase::Whole;
    }
}
