// The table of handles and their words.
ghost use Rattle.std.specs.Prelude.{◌≡◌, ◌<◌, ◌≤◌, ◌^◌, ◌↔◌, ℕ, IsTrue, IsSome, IsErr, IfOk, OnOk, OnErr, Some, None, length, slice_index, slice_set};
ghost use Rattle.std.specs.FinMap as map;
ghost use Rattle.spur_graph.specs.Graph.{Handle};
ghost use Rattle.std.specs.Borrow.{sem};
ghost use Rattle.handle_table.specs.Handles.{held};
ghost use Rattle.handle_table.specs.Lending.{LendsWords};

use crate::index::{Entered, Index, MOST_HANDLES};
use spur_graph::{HandleName, words_fit};
use std::alloc::Global;
use std::marker::Model;

/// There was no memory for the table.
#[derive(Clone, Copy, Debug, PartialEq, Eq)]
pub struct NoMemory;

/// The handle is new, and 65,536 are held.
#[derive(Clone, Copy, Debug, PartialEq, Eq)]
pub struct TableFull;

/// The handles of all mutators, at most 65,536, each with its word. A contract sees the handles by index, each the mutator and the bytes of the name, and
/// the words by index; `held` is the finite map that they make.
#[derive(Drop)]
pub struct HandleTable {
    index: Index,
    // The word of a handle stands at its index.
    words: Vec<u64>,
}

impl Model for HandleTable {
    ghost use Rattle.std.specs.Prelude.{◌≡◌, ◌≤◌, length, vec_capacity};
    ghost use Rattle.handle_table.specs.declared.index.TheConstants.{MOST_HANDLES};
    ghost use Rattle.handle_table.specs.Handles.{Bindings, bindings_code};

    ghost Value = { Bindings };

    ghost coded = { bindings_code };

    ghost view = { λ t. record { handles = t.index; words = t.words.items } };

    ghost invariant = { λ t. (length t.words.items ≡ length t.index) × (MOST_HANDLES ≤ vec_capacity t.words) };
}

impl HandleTable {
    /// A table of no handles, with room for 65,536. [`NoMemory`] where that is not to be had.
    pub fn new(alloc: Global) -> Result<HandleTable, NoMemory>
        ensures { IfOk result (λ table. held table ≡ map.empty) }
    {
        let Ok(index) = Index::new(alloc) else {
            return Err(NoMemory);
        };
        let Ok(words) = Vec::with_capacity(alloc, MOST_HANDLES) else {
            return Err(NoMemory);
        };
        Ok(HandleTable { index, words })
    }

    /// How many handles are held, of all mutators together.
    pub fn len(&self) -> usize
        ensures len { result ≡ map.len (held self.now) }
        ensures words { result ≡ length self.now.words }
        ensures most { result ≤ MOST_HANDLES }
    {
        self.index.len()
    }

    /// Whether no handle is held.
    pub fn is_empty(&self) -> bool
        ensures { IsTrue result ↔ (held self.now ≡ map.empty) }
    {
        self.len() == 0
    }

    /// Each word that is held has 64 bits.
    pub fn held_fit(&self)
        ensures { (handle : Handle) (word : ℕ) → map.get (held self.now) handle ≡ Some word → word < 2 ^ 64 }
    {
        words_fit(self.words.as_slice());
    }

    /// The word of a handle of this mutator, if it is held.
    pub fn get(&self, mutator: u8, name: &HandleName) -> Option<u64>
        ensures { result ≡ map.get (held self.now) (mutator, name.now.bytes) }
    {
        let at = self.index.find(mutator, name)?;
        Some(self.words[at])
    }

    /// The words that are held, by index.
    pub fn words(&self) -> &[u64]
        ensures words { result.now ≡ self.now.words }
        // Each is the word of a handle.
        ensures each { (i : ℕ) → i < length result.now → (handle : Handle) × (map.get (held self.now) handle ≡ Some (slice_index result.now i)) }
        // The word of each handle is one of them.
        ensures all { (handle : Handle) (word : ℕ) → map.get (held self.now) handle ≡ Some word → (i : ℕ) × (i < length result.now) × (slice_index result.now i ≡ word) }
    {
        let _count = self.index.len();
        self.words.as_slice()
    }

    /// Binds the handle at an index anew. The handles keep their indices.
    pub fn put_word(&mut self, i: usize, word: u64)
        requires within { i < length self.old.words }
        ensures { self.new ≡ record self.old { words = slice_set self.old.words i word } }
    {
        self.words[i] = word;
    }

    /// The words that are held, by index, to be written. The handles keep their indices.
    pub fn words_mut(&mut self) -> &mut [u64]
        ensures* writes_back { sem 𝓛 (LendsWords self.entry result) }
        ensures value { result.now ≡ self.old.words }
    {
        self.words.as_mut_slice()
    }

    /// Binds a handle of this mutator, anew or again. [`TableFull`] where it is new and 65,536 are held; then the table stays as it was.
    pub fn bind(&mut self, mutator: u8, name: HandleName, word: u64) -> Result<(), TableFull>
        ensures bound { OnOk result (held self.new ≡ map.insert (held self.old) (mutator, name.bytes) word) }
        ensures full { IsErr result ↔ ((map.get (held self.old) (mutator, name.bytes) ≡ None) × (map.len (held self.old) ≡ MOST_HANDLES)) }
        ensures same { OnErr result (self.new ≡ self.old) }
    {
        match self.index.enter(mutator, name) {
            Entered::Before(at) => self.words[at] = word,
            Entered::Last => self.words.push_reserved(word),
            Entered::Full => return Err(TableFull),
        }
        Ok(())
    }

    /// Binds a handle of this mutator no longer, and tells whether it was held.
    pub fn unbind(&mut self, mutator: u8, name: &HandleName) -> bool
        ensures held { IsTrue result ↔ IsSome (map.get (held self.old) (mutator, name.now.bytes)) }
        ensures unbound { held self.new ≡ map.remove (held self.old) (mutator, name.now.bytes) }
    {
        let Some(at) = self.index.leave(mutator, name) else {
            return false;
        };
        self.words.swap_remove(at);
        true
    }
}
