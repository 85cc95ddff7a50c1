// Entries of the class table, and its pages.
ghost use Rattle.std.specs.Prelude.{◌≡◌, ◌<◌, ◌/◌, ℕ, None, IfOk, IfErr, OnErr};
ghost use Rattle.std.specs.Option.{is_none};
ghost use Rattle.std.specs.FinMap as map;
ghost use Rattle.std.specs.FinSet as sets;
ghost use Rattle.spur_graph.specs.declared.answer.Value.TheVariants.{Ref};
ghost use Rattle.spur_graph.specs.Room.{page_words};
ghost use Rattle.spur_graph.specs.Serve.{OldAlone, serve, full_of};
ghost use Rattle.spur_graph.specs.Ordinary.{page_entries, class_limit};
ghost use Rattle.spur_graph.specs.Heaps.{heap_graph, heap_room, heap_value};
ghost use Rattle.spur_heap.specs.Views.{IsOrdinary, IsGood};
ghost use Rattle.spur_heap.specs.Entering.{HasNoPage, MakesPage, CanEnter, CanTurn, TurnsIntoPage};

use crate::allocation::Space;
use crate::classes::{class_word, root_word};
use crate::heap::Heap;
use crate::places::{first_start, first_word};
use crate::remembering::remember_for;
use spur_graph::{Full, HIDDEN_ROOTS, PAGE_ENTRIES};

/// The class index of a page of the class table, which is an array.
const PAGE_CLASS: u32 = 16;

/// The format of a page: an object whose slots are all pointers, and whose class says nothing of their number.
const PAGE_FORMAT: u8 = 2;

impl Heap {
    /// Whether the class table has no entry at an index: there is no page, or the entry leads to nil.
    pub fn is_unentered(&self, index: u32) -> bool
        ensures { result ≡ is_none (map.get (heap_graph self.now).classes index) }
    {
        let parts = &self.parts;
        class_word(parts, index as usize) == first_word(parts, 0)
    }

    /// Whether the class table has a page for an index: one page has 1,024 entries.
    pub fn has_page(&self, index: u32) -> bool
        requires below { index < class_limit }
        ensures { result ≡ sets.contains (heap_room self.now).pages (index / page_entries) }
    {
        let parts = &self.parts;
        root_word(parts, index as usize / PAGE_ENTRIES) != first_word(parts, 0)
    }

    /// Makes the page of the class table for an index, with no entry: 1,026 words of old space, an array of class index 16 as Spur's are. Where old space
    /// has no room for it the error is [`Full`], in words, and the heap stays as it was.
    pub fn make_page(&mut self, index: u32) -> Result<(), Full>
        requires below { index < class_limit }
        requires absent { HasNoPage self.old index }
        ensures made { IfOk result (λ _. MakesPage self.old self.new index) }
        ensures unserved { IfErr result (λ _. serve OldAlone (heap_room self.old) page_words ≡ None) }
        ensures full { IfErr result (λ full. full ≡ full_of OldAlone (heap_room self.old) page_words) }
        ensures same { OnErr result (self.new ≡ self.old) }
    {
        // tells that the graph is closed, so that nothing names what is made now
        self.whole();
        let start = self.allocate(Space::Old, PAGE_CLASS, PAGE_FORMAT, PAGE_ENTRIES)?;
        self.turn_into_page(index as usize / PAGE_ENTRIES, start);
        Ok(())
    }

    /// Makes an object that nothing names the page of this place of the hidden roots. From then on it is none of the ordinary objects.
    fn turn_into_page(&mut self, place: usize, start: usize)
        requires can { CanTurn self.old place start }
        ensures { TurnsIntoPage self.old self.new place start }
    {
        // the length tells that no sum of places wraps
        let _end = self.parts.region.len();
        let roots = first_start(&self.parts, HIDDEN_ROOTS);
        self.parts.region.put(roots + 1 + place, 8 * start as u64);
        self.parts.objects -= 1;
    }

    /// Enters an object in the class table at the index that is its hash. The entry is written, and where the page has to be remembered for it its header.
    pub fn put_entry(&mut self, index: u32, start: usize)
        requires can { CanEnter self.old index start }
        ensures rest { self.new ≡ record self.old { words = self.new.words } }
        ensures graph { heap_graph self.new ≡ record (heap_graph self.old) { classes = map.insert (heap_graph self.old).classes index (Ref start) } }
        ensures room { heap_room self.new ≡ heap_room self.old }
        ensures values { (w : ℕ) → heap_value self.new w ≡ heap_value self.old w }
        ensures goods { (w : ℕ) → IsGood self.old w → IsGood self.new w }
        ensures ordinary { (s : ℕ) → IsOrdinary self.old s → IsOrdinary self.new s }
    {
        // the length tells that no sum of places wraps
        let _end = self.parts.region.len();
        let index = index as usize;
        let page = (root_word(&self.parts, index / PAGE_ENTRIES) / 8) as usize;
        let word = 8 * start as u64;
        remember_for(&mut self.parts, page, word);
        self.parts.region.put(page + 1 + index % PAGE_ENTRIES, word);
    }
}
