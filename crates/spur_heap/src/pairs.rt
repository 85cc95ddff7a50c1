// Two objects that are made side by side.
ghost use Rattle.std.specs.Prelude.{◌≡◌, ◌≤◌, ◌<◌, ◌+◌, ◌^◌, length, None, IfOk, IfErr, OnErr, IfNone, MatchOption};
ghost use Rattle.heap_walk.specs.Starts.{covered};
ghost use Rattle.spur_graph.specs.Room.{fresh_words};
ghost use Rattle.spur_graph.specs.Serve.{Anywhere, serve, full_of};
ghost use Rattle.spur_graph.specs.Heaps.{heap_room};
ghost use Rattle.spur_heap.specs.Pairing.{MakesPair, PutsPair};

use crate::allocation::{BLANK_CLASS, BLANK_FORMAT};
use crate::heap::{Heap, HeapParts};
use crate::making::{fresh_words, put_object};
use spur_graph::Full;

impl Heap {
    /// Makes two objects of `first` and `second` slots, side by side in one piece of words, to be filled: their slots are 64-bit units, each 0. Eden serves the
    /// piece where it has as many words left, else the smallest free chunk of old space that fits. Where neither does the error is [`Full`], with the need of both
    /// in words, and the heap stays as it was.
    pub fn make_pair(&mut self, first: usize, second: usize) -> Result<(usize, usize), Full>
        requires few_first { first ≤ 2 ^ 27 }
        requires few_second { second ≤ 2 ^ 27 }
        ensures made { IfOk result (λ pair. MakesPair self.old self.new first second pair.0 pair.1) }
        ensures unserved { IfErr result (λ _. serve Anywhere (heap_room self.old) (fresh_words first + fresh_words second) ≡ None) }
        ensures full { IfErr result (λ full. full ≡ full_of Anywhere (heap_room self.old) (fresh_words first + fresh_words second)) }
        ensures same { OnErr result (self.new ≡ self.old) }
    {
        match self.make_pair_anywhere(first, second) {
            Some(pair) => Ok(pair),
            None => Err(self.full_pair(first, second)),
        }
    }

    /// Makes two objects in eden, or where that has too few words left in old space. `None` where no space serves, and then nothing is changed.
    fn make_pair_anywhere(&mut self, first: usize, second: usize) -> Option<(usize, usize)>
        requires few_first { first ≤ 2 ^ 27 }
        requires few_second { second ≤ 2 ^ 27 }
        ensures made { MatchOption result (serve Anywhere (heap_room self.old) (fresh_words first + fresh_words second) ≡ None) (λ pair. MakesPair self.old self.new first second pair.0 pair.1) }
        ensures same { IfNone result (self.new ≡ self.old) }
    {
        if self.eden_left() < pair_words(first, second) {
            self.make_old_pair(first, second)
        } else {
            Some(self.make_young_pair(first, second))
        }
    }

    /// Makes two objects behind the used words of eden, which has the words left.
    fn make_young_pair(&mut self, first: usize, second: usize) -> (usize, usize)
        requires few_first { first ≤ 2 ^ 27 }
        requires few_second { second ≤ 2 ^ 27 }
        requires left { fresh_words first + fresh_words second ≤ (heap_room self.old).eden_left }
        ensures { MakesPair self.old self.new first second result.0 result.1 }
    {
        let at = self.parts.eden_at + self.parts.eden_used;
        self.parts.eden_used += pair_words(first, second);
        put_pair(&mut self.parts, at, first, second)
    }

    /// Makes two objects at the low end of the smallest free chunk of old space that serves, where eden has too few words left.
    fn make_old_pair(&mut self, first: usize, second: usize) -> Option<(usize, usize)>
        requires few_first { first ≤ 2 ^ 27 }
        requires few_second { second ≤ 2 ^ 27 }
        requires none_left { (heap_room self.old).eden_left < fresh_words first + fresh_words second }
        ensures made { MatchOption result (serve Anywhere (heap_room self.old) (fresh_words first + fresh_words second) ≡ None) (λ pair. MakesPair self.old self.new first second pair.0 pair.1) }
        ensures same { IfNone result (self.new ≡ self.old) }
    {
        let need = pair_words(first, second);
        let at = self.parts.free.take(&mut self.parts.region, need)?;
        Some(put_pair(&mut self.parts, at, first, second))
    }

    /// What is told where no space has the words of two objects.
    #[tactic(auto, unfolding(spur_graph::specs::Serve::full_of))]
    fn full_pair(&self, first: usize, second: usize) -> Full
        requires few_first { first ≤ 2 ^ 27 }
        requires few_second { second ≤ 2 ^ 27 }
        ensures { result ≡ full_of Anywhere (heap_room self.now) (fresh_words first + fresh_words second) }
    {
        Full {
            need: pair_words(first, second) as u64,
            largest: self.largest_free() as u64,
            eden: self.eden_left() as u64,
        }
    }
}

/// The words of two objects of so many slots that are made side by side.
fn pair_words(first: usize, second: usize) -> usize
    requires few_first { first ≤ 2 ^ 27 }
    requires few_second { second ≤ 2 ^ 27 }
    ensures { result ≡ fresh_words first + fresh_words second }
{
    fresh_words(first) + fresh_words(second)
}

/// Writes two objects to be filled at the run of words from `at` on, the second behind the first, and enters both in the tables. Answers their starts.
fn put_pair(parts: &mut HeapParts, at: usize, first: usize, second: usize) -> (usize, usize)
    requires few_first { first ≤ 2 ^ 27 }
    requires few_second { second ≤ 2 ^ 27 }
    requires inside { at + (fresh_words first + fresh_words second) ≤ length parts.old.region }
    requires covers { covered parts.old.starts ≡ length parts.old.region }
    requires count { parts.old.objects < 2 ^ 27 }
    ensures { PutsPair parts.old parts.new at first second result.0 result.1 }
{
    // the length tells that no sum of places wraps
    let _end = parts.region.len();
    let start = put_object(parts, at, BLANK_CLASS, BLANK_FORMAT, first, 0);
    let behind = at + fresh_words(first);
    let other = put_object(parts, behind, BLANK_CLASS, BLANK_FORMAT, second, 0);
    (start, other)
}
