// The heap, its tables, and what is found in it from outside.
ghost use Rattle.std.specs.Prelude.{◌≡◌, ◌≤◌, ◌<◌, ◌↔◌, ◌^◌, ℕ, IsTrue, IsSome, IfSome, IfNone, OnOk, OnErr, IfErr, IsErr, None, length, true, false};
ghost use Rattle.std.specs.FinMap as map;
ghost use Rattle.heap_walk.specs.Starts.{has_start, covered};
ghost use Rattle.spur_graph.specs.declared.answer.Refusal.TheVariants as refusals;
ghost use Rattle.spur_graph.specs.Refusals.{most_handles};
ghost use Rattle.spur_graph.specs.Cells.{first};
ghost use Rattle.spur_graph.specs.Graph.{IsClosed};
ghost use Rattle.spur_graph.specs.Heaps.{heap_graph, heap_value, IsWhole};
ghost use Rattle.heap_cells.specs.Settled.{word_of};
ghost use Rattle.spur_heap.specs.Tables.{HasEmptyTables, IsUnbound};
ghost use Rattle.spur_heap.specs.Views.{Adopts, AreClear, IsGood, adopted, class_word, follows, store};

use crate::adopting::make_tables;
use crate::bare::Bare;
use crate::chains::follow_word;
use crate::classes::class_word;
use crate::places::first_word;
use free_lists::FreeLists;
use handle_table::HandleTable;
use heap_walk::{Saved, StartMap};
use remembered_set::Remembered;
use spur_graph::{HandleName, Limits, Refusal, words_fit};
use spur_words::Region;
use std::marker::Model;

/// The parts of a heap. A place is the index of a word of the region, and a size is a number of words.
#[derive(Drop)]
pub struct HeapParts {
    /// All words: old space, eden and the two survivor spaces, one behind another. A reference is 8 times the place of a header.
    pub region: Region,
    /// Where old space ends. It begins at word 0.
    pub old_end: usize,
    /// Where eden begins, at the end of old space or behind it.
    pub eden_at: usize,
    /// Where eden ends and the first survivor space begins.
    pub first_at: usize,
    /// Where the first survivor space ends and the second begins.
    pub second_at: usize,
    /// Where past space begins: the one of the two survivor spaces that has objects.
    pub past_at: usize,
    /// How many of the first words of eden are used.
    pub eden_used: usize,
    /// How many of the first words of past space are used.
    pub past_used: usize,
    /// The starts of the objects and forwarders of all spaces.
    pub starts: StartMap,
    /// The free chunks of old space.
    pub free: FreeLists,
    /// How many ordinary objects there are, in all spaces.
    pub objects: usize,
    /// The starts whose headers have the remembered bit. There is a place for each object that the region can hold.
    pub remembered: Remembered,
    /// The starts of the mourners, group after group; 2^31 is added where one begins a group. There is a place for each object that the region can hold.
    pub mourners: Vec<u32>,
    /// How many of the first entries of `mourners` were taken away.
    pub mourned: usize,
    /// The mark stack: starts of marked objects whose slots were not passed yet, the latest last, with a place for each object that the region can hold.
    pub marks: Vec<u32>,
    /// The table that keeps first fields aside during a compaction, of as many entries as the limits say.
    pub saved: Vec<Saved>,
    /// The words of handles, by mutator and name.
    pub handles: HandleTable,
    /// The state from which identity hashes are drawn.
    pub hash: u32,
    /// The word of the special objects array.
    pub special: u64,
    /// The 128 bytes of the image's header.
    pub carried: [u8; 128],
    /// How large the spaces and tables were asked to be.
    pub limits: Limits,
    /// Whether objects may be marked.
    pub phase: Phase,
    /// Whether an object has become a forwarder since the heap was made. No contract sees it.
    pub forwarders: bool,
}

/// Whether headers may have their mark bits.
#[derive(Clone, Copy)]
pub enum Phase {
    /// No header has its mark bit.
    Whole,
    /// Any header may have its mark bit, as between a marking and the compaction that follows.
    Marked,
}

/// A heap that stands for an object graph.
#[derive(Drop)]
pub struct Heap {
    pub parts: HeapParts,
}

impl Model for Heap {
    ghost use Rattle.spur_graph.specs.Heaps.{View};
    ghost use Rattle.spur_heap.specs.Parts.{view_of, ArePartsOfHeap};
    ghost use Rattle.spur_heap.specs.Parts.{view_code};

    ghost Value = { View };

    ghost coded = { view_code };

    ghost view = { λ h. view_of h.parts };

    ghost invariant = { λ h. ArePartsOfHeap h.parts };
}

impl Heap {
    /// The heap of places that are filled: from now on its words stand for a graph. Nothing stands in new space, and no handle is bound.
    pub fn adopt(bare: Bare, special: u64, hash: u32, carried: [u8; 128]) -> Heap
        requires covers { covered bare.starts ≡ length bare.region }
        requires unmarked { (s : ℕ) → has_start bare.starts s ≡ false }
        requires unbound { IsUnbound bare }
        requires tables { HasEmptyTables bare }
        requires whole { IsWhole (adopted bare special hash carried) }
        requires clear { AreClear (adopted bare special hash carried) }
        ensures { Adopts (adopted bare special hash carried) result }
    {
        let Bare {
            region,
            old_end,
            starts,
            remembered,
            mourners,
            marks,
            saved,
            handles,
            limits,
        } = bare;
        let first_at = old_end + limits.eden;
        let mut parts = HeapParts {
            region,
            old_end,
            eden_at: old_end,
            first_at,
            second_at: first_at + limits.survivor,
            past_at: first_at,
            eden_used: 0,
            past_used: 0,
            starts,
            free: FreeLists::new(),
            objects: 0,
            remembered,
            mourners,
            mourned: 0,
            marks,
            saved,
            handles,
            hash,
            special,
            carried,
            limits,
            phase: Phase::Whole,
            forwarders: false,
        };
        make_tables(&mut parts);
        Heap { parts }
    }

    /// Every heap is whole, and its graph is closed.
    pub fn whole(&self)
        ensures whole { IsWhole self.now }
        ensures closed { IsClosed (heap_graph self.now) }
    {
        let parts = &self.parts;
        words_fit(parts.region.as_slice());
        parts.handles.held_fit();
    }

    /// The word of nil.
    pub fn nil(&self) -> u64
        ensures word { result ≡ word_of (first (store self.now) 0) }
        ensures good { IsGood self.now result }
    {
        first_word(&self.parts, 0)
    }

    /// The word of false.
    pub fn no(&self) -> u64
        ensures word { result ≡ word_of (first (store self.now) 1) }
        ensures good { IsGood self.now result }
    {
        first_word(&self.parts, 1)
    }

    /// The word of true.
    pub fn yes(&self) -> u64
        ensures word { result ≡ word_of (first (store self.now) 2) }
        ensures good { IsGood self.now result }
    {
        first_word(&self.parts, 2)
    }

    /// The word of the special objects array.
    pub fn special(&self) -> u64
        ensures word { result ≡ self.now.special }
        ensures good { IsGood self.now result }
    {
        let parts = &self.parts;
        parts.special
    }

    /// A word, followed: an immediate stays, a reference is that of the object to which its forwarders lead.
    pub fn follow(&self, word: u64) -> u64
        requires good { IsGood self.now word }
        ensures followed { follows self.now word result }
        ensures value { heap_value self.now result ≡ heap_value self.now word }
        ensures good { IsGood self.now result }
    {
        follow_word(&self.parts, word)
    }

    /// The word of the class of an index, followed: that of nil where the class table has no entry there, as at each index from 2^22 on.
    pub fn class_at(&self, index: u32) -> u64
        ensures class { class_word self.now index result }
        ensures good { IsGood self.now result }
    {
        class_word(&self.parts, index as usize)
    }

    /// The word of a handle of this mutator, if it is held.
    pub fn handle(&self, mutator: u8, name: &HandleName) -> Option<u64>
        ensures word { result ≡ map.get self.now.handles (mutator, name.now.bytes) }
        ensures good { IfSome result (IsGood self.now) }
    {
        self.parts.handles.get(mutator, name)
    }

    /// How many handles are held, of all mutators together.
    pub fn handle_count(&self) -> usize
        ensures count { result ≡ map.len self.now.handles }
        ensures most { result ≤ most_handles }
    {
        self.parts.handles.len()
    }

    /// Binds a handle of this mutator, anew or again. [`Refusal::Handles`] where it is new and 65,536 are held; then the heap stays as it was.
    pub fn bind(&mut self, mutator: u8, name: HandleName, word: u64) -> Result<(), Refusal>
        requires good { IsGood self.old word }
        ensures bound { OnOk result (self.new ≡ record self.old { handles = map.insert self.old.handles (mutator, name.bytes) word }) }
        ensures full { IsErr result ↔ ((map.get self.old.handles (mutator, name.bytes) ≡ None) × (map.len self.old.handles ≡ most_handles)) }
        ensures fault { IfErr result (λ why. why ≡ refusals.Handles) }
        ensures same { OnErr result (self.new ≡ self.old) }
    {
        match self.parts.handles.bind(mutator, name, word) {
            Ok(()) => Ok(()),
            Err(_) => Err(Refusal::Handles),
        }
    }

    /// Binds a handle of this mutator no longer, and tells whether it was held.
    pub fn unbind(&mut self, mutator: u8, name: &HandleName) -> bool
        ensures held { IsTrue result ↔ IsSome (map.get self.old.handles (mutator, name.now.bytes)) }
        ensures unbound { self.new ≡ record self.old { handles = map.remove self.old.handles (mutator, name.now.bytes) } }
    {
        self.parts.handles.unbind(mutator, name)
    }
}
