// The places of new space.
ghost use Rattle.std.specs.Prelude.{◌≡◌, ◌≤◌, ◌<◌, ◌+◌, ◌↔◌, IsNone, IfNone, IfSome};
ghost use Rattle.new_space.specs.Young.{AreRuns, Fits, unused, eden_left, future_left, flipped, used_of, cut};

use std::marker::Model;

/// A part of new space in which objects stand between two scavenges.
#[derive(Clone, Copy, Debug, PartialEq, Eq)]
pub enum Part {
    /// Where objects are made.
    Eden,
    /// The survivor space that has what outlived the last scavenge.
    Past,
}

/// Eden and the two survivor spaces. A place is the index of a word, and a size is a number of words. What is used of a space are its first words.
#[derive(Drop)]
pub struct NewSpace {
    eden: usize,
    eden_words: usize,
    first: usize,
    second: usize,
    survivor_words: usize,
    past: usize,
    future: usize,
    eden_used: usize,
    past_used: usize,
    future_used: usize,
}

impl Model for NewSpace {
    ghost use Rattle.new_space.specs.Young.{Young, Fits, young_code};

    ghost Value = { Young };

    ghost coded = { young_code };

    ghost view = { λ s. record {
      eden_at = s.eden;
      eden_words = s.eden_words;
      first_at = s.first;
      second_at = s.second;
      survivor_words = s.survivor_words;
      past_at = s.past;
      future_at = s.future;
      eden_used = s.eden_used;
      past_used = s.past_used;
      future_used = s.future_used;
    } };

    ghost invariant = { λ s. Fits (record {
      eden_at = s.eden;
      eden_words = s.eden_words;
      first_at = s.first;
      second_at = s.second;
      survivor_words = s.survivor_words;
      past_at = s.past;
      future_at = s.future;
      eden_used = s.eden_used;
      past_used = s.past_used;
      future_used = s.future_used;
    }) };
}

impl NewSpace {
    /// Eden and two survivor spaces at these places, of which nothing is used. The first survivor space is past space.
    pub fn new(
        eden: usize,
        eden_words: usize,
        first: usize,
        second: usize,
        survivor_words: usize,
    ) -> NewSpace
        requires { AreRuns eden eden_words first second survivor_words }
        ensures { result ≡ unused eden eden_words first second survivor_words }
    {
        NewSpace {
            eden,
            eden_words,
            first,
            second,
            survivor_words,
            past: first,
            future: second,
            eden_used: 0,
            past_used: 0,
            future_used: 0,
        }
    }

    /// What is used of each space fits it.
    pub fn fits(&self)
        ensures { Fits self.now }
    {
        let _eden = self.eden;
    }

    /// Takes `n` words behind the used words of eden, and answers where they begin. `None` exactly where eden has fewer left.
    pub fn take(&mut self, n: usize) -> Option<usize>
        ensures none { IsNone result ↔ (eden_left self.old < n) }
        ensures at { IfSome result (λ at. at ≡ self.old.eden_at + self.old.eden_used) }
        ensures taken { IfSome result (λ _. self.new ≡ record self.old { eden_used = self.old.eden_used + n }) }
        ensures same { IfNone result (self.new ≡ self.old) }
    {
        if self.left() < n {
            return None;
        }
        let at = self.eden + self.eden_used;
        self.eden_used += n;
        Some(at)
    }

    /// Takes `n` words behind the used words of future space, and answers where they begin. `None` exactly where it has fewer left.
    pub fn take_future(&mut self, n: usize) -> Option<usize>
        ensures none { IsNone result ↔ (future_left self.old < n) }
        ensures at { IfSome result (λ at. at ≡ self.old.future_at + self.old.future_used) }
        ensures taken { IfSome result (λ _. self.new ≡ record self.old { future_used = self.old.future_used + n }) }
        ensures same { IfNone result (self.new ≡ self.old) }
    {
        if self.survivor_words - self.future_used < n {
            return None;
        }
        let at = self.future + self.future_used;
        self.future_used += n;
        Some(at)
    }

    /// Makes future space past space: what was used of it is used of past space then, and nothing of eden and of future space is.
    pub fn flip(&mut self)
        ensures { self.new ≡ flipped self.old }
    {
        let past = self.past;
        self.past = self.future;
        self.future = past;
        self.eden_used = 0;
        self.past_used = self.future_used;
        self.future_used = 0;
    }

    /// Lets only the first `used` words of a part be used, where at least as many are.
    pub fn cut(&mut self, part: Part, used: usize)
        requires { used ≤ used_of self.old part }
        ensures { self.new ≡ cut self.old part used }
    {
        match part {
            Part::Eden => self.eden_used = used,
            Part::Past => self.past_used = used,
        }
    }

    /// The words left in eden.
    pub fn left(&self) -> usize
        ensures { result ≡ eden_left self.now }
    {
        self.eden_words - self.eden_used
    }

    /// The words used of eden.
    pub fn eden_used(&self) -> usize
        ensures { result ≡ self.now.eden_used }
    {
        self.eden_used
    }

    /// The words used of past space.
    pub fn past_used(&self) -> usize
        ensures { result ≡ self.now.past_used }
    {
        self.past_used
    }

    /// The words used of future space.
    pub fn future_used(&self) -> usize
        ensures { result ≡ self.now.future_used }
    {
        self.future_used
    }

    /// Where eden begins.
    pub fn eden_at(&self) -> usize
        ensures { result ≡ self.now.eden_at }
    {
        self.eden
    }

    /// Where the first survivor space begins.
    pub fn first_at(&self) -> usize
        ensures { result ≡ self.now.first_at }
    {
        self.first
    }

    /// Where the second survivor space begins.
    pub fn second_at(&self) -> usize
        ensures { result ≡ self.now.second_at }
    {
        self.second
    }

    /// Where past space begins.
    pub fn past_at(&self) -> usize
        ensures { result ≡ self.now.past_at }
    {
        self.past
    }

    /// Where future space begins.
    pub fn future_at(&self) -> usize
        ensures { result ≡ self.now.future_at }
    {
        self.future
    }
}
