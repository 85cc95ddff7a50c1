// Words that name a forwarder, followed where they stand.
ghost use Rattle.std.specs.Prelude.{◌≡◌, ◌<◌, ℕ, Some, length, slice_index};
ghost use Rattle.std.specs.FinMap as map;
ghost use Rattle.spur_graph.specs.Graph.{Handle};
ghost use Rattle.spur_graph.specs.Ordinary.{class_limit};
ghost use Rattle.spur_heap.specs.Entering.{HasPage};
ghost use Rattle.spur_heap.specs.Views.{IsOrdinary, IsGood, node_in};
ghost use Rattle.spur_heap.specs.Words.{AreSound};
ghost use Rattle.spur_heap.specs.Parts.{view_of};
ghost use Rattle.spur_heap.specs.Following.{Follows, IsFollowed, IsFollowedSlot, IsFollowedEntry, IsFollowedHandle, IsFollowedMourner, HasGoodWords, followed_held};

use crate::chains::follow_word;
use crate::classes::root_word;
use crate::heap::{Heap, HeapParts};
use crate::mourners::follow_entries;
use crate::remembering::remember_for;
use spur_graph::PAGE_ENTRIES;

impl Heap {
    /// Follows a pointer slot of an object: where its word names a forwarder, that of the object to which it leads is written, and else nothing is.
    pub fn follow_pointer(&mut self, start: usize, i: usize)
        requires there { IsOrdinary self.old start }
        requires within { i < length (node_in self.old start).pointers }
        ensures follows { Follows self.old self.new }
        ensures followed { IsFollowedSlot self.new start i }
    {
        self.whole();
        let word = self.pointer(start, i);
        let to = self.follow(word);
        if to != word {
            self.put_pointer(start, i, to);
        }
    }

    /// Follows the entry of the class table at an index for which there is a page, in the same way.
    pub fn follow_entry(&mut self, index: u32)
        requires below { index < class_limit }
        requires page { HasPage self.old index }
        ensures follows { Follows self.old self.new }
        ensures followed { IsFollowedEntry self.new index }
    {
        let index = index as usize;
        let page = (root_word(&self.parts, index / PAGE_ENTRIES) / 8) as usize;
        let word = self.parts.region.get(page + 1 + index % PAGE_ENTRIES);
        let to = follow_word(&self.parts, word);
        if to != word {
            remember_for(&mut self.parts, page, to);
            self.parts.region.put(page + 1 + index % PAGE_ENTRIES, to);
        }
    }

    /// Follows the word of the special objects array.
    pub fn follow_special(&mut self)
        ensures follows { Follows self.old self.new }
        ensures followed { IsFollowed self.new self.new.special }
    {
        self.parts.special = follow_word(&self.parts, self.parts.special);
    }

    /// Follows the words of all handles, each of which is held as before.
    pub fn follow_handles(&mut self)
        ensures follows { Follows self.old self.new }
        ensures followed { (handle : Handle) → IsFollowedHandle self.new handle }
    {
        // tells that each word is that of a handle
        let _words = self.parts.handles.words();
        follow_held(&mut self.parts);
    }

    /// Follows the starts of the mourners, each of which stays where it is in its group.
    pub fn follow_mourners(&mut self)
        ensures follows { Follows self.old self.new }
        ensures followed { (k : ℕ) → IsFollowedMourner self.new k }
    {
        follow_entries(&mut self.parts);
    }

    /// The words of all handles, by index.
    pub fn handle_words(&self) -> &[u64]
        // Each is the word of a handle.
        ensures each { (i : ℕ) → i < length result.now → (handle : Handle) × (map.get self.now.handles handle ≡ Some (slice_index result.now i)) }
        // The word of each handle is one of them.
        ensures all { (handle : Handle) (word : ℕ) → map.get self.now.handles handle ≡ Some word → (i : ℕ) × (i < length result.now) × (slice_index result.now i ≡ word) }
        ensures good { (i : ℕ) → i < length result.now → IsGood self.now (slice_index result.now i) }
    {
        self.parts.handles.words()
    }
}

/// Follows the word of each handle, by index.
fn follow_held(parts: &mut HeapParts)
    requires sound { AreSound (view_of parts.old) }
    requires good { HasGoodWords (view_of parts.old) parts.old.handles.words }
    ensures { parts.new ≡ record parts.old { handles = followed_held (view_of parts.old) parts.old.handles } }
{
    'handles: for i in 0..parts.handles.len() {
        let word = follow_word(parts, parts.handles.words()[i]);
        parts.handles.put_word(i, word);
    }
}
