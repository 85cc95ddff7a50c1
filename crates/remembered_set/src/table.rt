// The table of remembered starts.
ghost use Rattle.std.specs.Prelude.{◌≡◌, ◌<◌, ◌^◌, ◌++◌, ◌∷◌, [], ◌==◌, ◌↔◌, ℕ, Contains, IfOk, IsTrue, filter, length, not, slice_index, swap_remove};
ghost use Rattle.remembered_set.specs.Starts.{AreDistinct};

use spur_words::NoMemory;
use std::alloc::Global;
use std::marker::Model;

/// The starts that are remembered. A start is the index of a header word, below 2^32.
#[derive(Drop)]
pub struct Remembered {
    starts: Vec<u32>,
}

impl Model for Remembered {
    ghost use Rattle.std.specs.Prelude.{vec_capacity};
    ghost use Rattle.remembered_set.specs.Starts.{Table, AreDistinct, table_code};

    ghost Value = { Table };

    ghost coded = { table_code };

    ghost view = { λ r. record { starts = r.starts.items; capacity = vec_capacity r.starts } };

    ghost invariant = { λ r. AreDistinct r.starts.items };
}

impl Remembered {
    /// A table of no start, with room for `capacity` of them. [`NoMemory`] where that is not to be had.
    pub fn new(alloc: Global, capacity: usize) -> Result<Remembered, NoMemory>
        ensures { IfOk result (λ table. table ≡ record { starts = []; capacity = capacity }) }
    {
        match Vec::with_capacity(alloc, capacity) {
            Ok(starts) => Ok(Remembered { starts }),
            Err(_) => Err(NoMemory),
        }
    }

    /// How many starts there are.
    pub fn len(&self) -> usize
        ensures { result ≡ length self.now.starts }
    {
        self.starts.len()
    }

    /// The start at an index.
    pub fn item(&self, i: usize) -> usize
        requires { i < length self.now.starts }
        ensures { result ≡ slice_index self.now.starts i }
    {
        self.starts[i] as usize
    }

    /// Whether a start is there. It searches the table.
    pub fn contains(&self, start: usize) -> bool
        ensures { IsTrue result ↔ Contains self.now.starts start }
    {
        self.starts.iter().any(|x| *x as usize == start)
    }

    /// No start is there twice.
    pub fn distinct(&self)
        ensures { AreDistinct self.now.starts }
    {
        let _starts = &self.starts;
    }

    /// Enters a start behind the others.
    pub fn add(&mut self, start: usize)
        requires below { start < 2 ^ 32 }
        requires absent { ¬ (Contains self.old.starts start) }
        requires room { length self.old.starts < self.old.capacity }
        ensures { self.new ≡ record self.old { starts = self.old.starts ++ start ∷ [] } }
    {
        self.starts.push_reserved(start as u32);
    }

    /// Takes a start out; the others stay in their order. One that is not there stays absent. It goes through the table.
    pub fn remove(&mut self, start: usize)
        ensures { self.new ≡ record self.old { starts = filter (λ s. not (s == start)) self.old.starts } }
    {
        self.starts.retain(|x| *x as usize != start);
    }

    /// Takes the start at an index out, and the last one takes its place.
    pub fn swap_remove(&mut self, i: usize)
        requires { i < length self.old.starts }
        ensures { self.new ≡ record self.old { starts = swap_remove self.old.starts i 0 } }
    {
        let _ = self.starts.swap_remove(i);
    }

    /// Takes all starts out.
    pub fn clear(&mut self)
        ensures { self.new ≡ record self.old { starts = [] } }
    {
        self.starts.clear();
    }
}
