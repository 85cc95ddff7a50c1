// Objects that are made.
ghost use Rattle.std.specs.Prelude.{◌≡◌, ◌≤◌, ◌^◌, None, IfOk, IfErr, OnErr, IfNone, MatchOption, if◌then◌else◌};
ghost use Rattle.spur_graph.specs.Room.{fresh_words};
ghost use Rattle.spur_graph.specs.Serve.{Anywhere, OldAlone, asks_eden, serve, full_of};
ghost use Rattle.spur_graph.specs.Heaps.{heap_room};
ghost use Rattle.spur_heap.specs.Allocating.{CanMake, Makes, source_of};

use crate::heap::Heap;
use crate::making::{fill_word, fresh_words, put_object};
use spur_graph::Full;

/// The class index of an object that is made to be filled, that of arrays.
pub const BLANK_CLASS: u32 = 16;

/// The format of an object that is made to be filled: its slots are 64-bit units, each 0, so that it names nothing.
pub const BLANK_FORMAT: u8 = 9;

/// Where words are asked for.
#[derive(Clone, Copy)]
pub enum Space {
    /// In eden, and where that has too few words left in old space.
    Any,
    /// In old space alone.
    Old,
}

impl Heap {
    /// Makes an object of `slots` slots, and answers its start: the index of its header word. Its pointer slots name nil and its units are 0; it has no
    /// hash and no flag. It takes 1 word and its slots, of which it has room for one at least, and with more than 254 slots an overflow word besides.
    ///
    /// Eden serves where it is asked and has as many words left, at the end of its used words. Else old space serves: the smallest free chunk that has
    /// just these words, or two and more besides, at its low end. Where neither serves the error is [`Full`], with the need in words, the words of the
    /// largest free chunk and the words left in eden (0 where old space alone was asked), and the heap stays as it was.
    ///
    /// Spur allocates in eden first too (SpurMemoryManager's `allocateSlots:format:classIndex:`); the choice of the free chunk is this project's rule.
    pub fn allocate(
        &mut self,
        space: Space,
        class: u32,
        format: u8,
        slots: usize,
    ) -> Result<usize, Full>
        requires can { CanMake class format slots }
        ensures made { IfOk result (Makes self.old self.new (source_of space) class format slots) }
        ensures unserved { IfErr result (λ _. serve (source_of space) (heap_room self.old) (fresh_words slots) ≡ None) }
        ensures full { IfErr result (λ full. full ≡ full_of (source_of space) (heap_room self.old) (fresh_words slots)) }
        ensures same { OnErr result (self.new ≡ self.old) }
    {
        match self.make(space, class, format, slots) {
            Some(start) => Ok(start),
            None => Err(self.full(space, slots)),
        }
    }

    /// Makes an object where it is asked for. `None` where no space serves, and then nothing is changed.
    fn make(&mut self, space: Space, class: u32, format: u8, slots: usize) -> Option<usize>
        requires can { CanMake class format slots }
        ensures made { MatchOption result (serve (source_of space) (heap_room self.old) (fresh_words slots) ≡ None) (Makes self.old self.new (source_of space) class format slots) }
        ensures same { IfNone result (self.new ≡ self.old) }
    {
        match space {
            Space::Any => self.make_anywhere(class, format, slots),
            Space::Old => self.make_old(class, format, slots),
        }
    }

    /// Makes an object in eden, or where that has too few words left in old space.
    fn make_anywhere(&mut self, class: u32, format: u8, slots: usize) -> Option<usize>
        requires can { CanMake class format slots }
        ensures made { MatchOption result (serve Anywhere (heap_room self.old) (fresh_words slots) ≡ None) (Makes self.old self.new Anywhere class format slots) }
        ensures same { IfNone result (self.new ≡ self.old) }
    {
        if self.eden_left() < fresh_words(slots) {
            self.make_old(class, format, slots)
        } else {
            Some(self.make_young(class, format, slots))
        }
    }

    /// Makes an object behind the used words of eden, which has the words left.
    fn make_young(&mut self, class: u32, format: u8, slots: usize) -> usize
        requires can { CanMake class format slots }
        requires left { fresh_words slots ≤ (heap_room self.old).eden_left }
        ensures { Makes self.old self.new Anywhere class format slots result }
    {
        let word = fill_word(&self.parts, format);
        let at = self.parts.eden_at + self.parts.eden_used;
        self.parts.eden_used += fresh_words(slots);
        put_object(&mut self.parts, at, class, format, slots, word)
    }

    /// Makes an object at the low end of the smallest free chunk of old space that serves.
    fn make_old(&mut self, class: u32, format: u8, slots: usize) -> Option<usize>
        requires can { CanMake class format slots }
        ensures made { MatchOption result (serve OldAlone (heap_room self.old) (fresh_words slots) ≡ None) (Makes self.old self.new OldAlone class format slots) }
        ensures same { IfNone result (self.new ≡ self.old) }
    {
        let word = fill_word(&self.parts, format);
        let at = self
            .parts
            .free
            .take(&mut self.parts.region, fresh_words(slots))?;
        Some(put_object(&mut self.parts, at, class, format, slots, word))
    }

    /// The words left in eden where it is asked, else 0.
    fn eden_asked(&self, space: Space) -> usize
        ensures { result ≡ (if asks_eden (source_of space) then (heap_room self.now).eden_left else 0) }
    {
        match space {
            Space::Any => self.eden_left(),
            Space::Old => 0,
        }
    }

    /// What is told where no space has the words of an object.
    #[tactic(auto, unfolding(spur_graph::specs::Serve::full_of))]
    fn full(&self, space: Space, slots: usize) -> Full
        requires few { slots ≤ 2 ^ 28 }
        ensures { result ≡ full_of (source_of space) (heap_room self.now) (fresh_words slots) }
    {
        Full {
            need: fresh_words(slots) as u64,
            largest: self.largest_free() as u64,
            eden: self.eden_asked(space) as u64,
        }
    }
}
