ghost use Rattle.std.specs.Prelude.{◌≡◌, ◌+◌, ◌<◌, ◌≤◌, length, slice_index, slice_set, slice_range, IfOk, List, ℕ, replicate};
ghost use Rattle.std.specs.Borrow.{sem};
ghost use Rattle.spur_words.specs.Lending.{LendsRun};

use crate::slide::slide_run;
use std::alloc::Global;
use std::marker::Model;

/// There was no memory for what a call had to make.
#[derive(Clone, Copy, Debug, PartialEq, Eq)]
pub struct NoMemory;

/// All words of a heap. Their number stays as it was made.
#[derive(Drop)]
pub struct Region {
    words: Vec<u64>,
}

impl Model for Region {
    ghost use Rattle.std.specs.Prelude.{List, ℕ};

    ghost Value = { List ℕ };

    ghost view = { λ r. r.words.items };
}

impl Region {
    /// A region of that many words, each 0. [`NoMemory`] where they are not to be had.
    pub fn new(alloc: Global, words: usize) -> Result<Region, NoMemory>
        ensures zeros { IfOk result (λ r. r ≡ replicate words 0) }
    {
        match Vec::from_elem(alloc, 0, words) {
            Ok(words) => Ok(Region { words }),
            Err(_) => Err(NoMemory),
        }
    }

    /// The number of words.
    pub fn len(&self) -> usize
        ensures { result ≡ length self.now }
    {
        self.words.len()
    }

    /// All words.
    pub fn as_slice(&self) -> &[u64]
        ensures { result.now ≡ self.now }
    {
        self.words.as_slice()
    }

    /// The word at the index `at`.
    pub fn get(&self, at: usize) -> u64
        requires { at < length self.now }
        ensures { result ≡ slice_index self.now at }
    {
        self.words[at]
    }

    /// Writes the word at the index `at`, and no other.
    pub fn put(&mut self, at: usize, word: u64)
        requires { at < length self.old }
        ensures { self.new ≡ slice_set self.old at word }
    {
        self.words[at] = word;
    }

    /// The word `i` of the run from the index `at` on.
    pub(crate) fn get_from(&self, at: usize, i: usize) -> u64
        requires { at + i < length self.now }
        ensures { result ≡ slice_index self.now (at + i) }
    {
        self.words[at + i]
    }

    /// Writes the word `i` of the run from the index `at` on, and no other.
    pub(crate) fn put_from(&mut self, at: usize, i: usize, word: u64)
        requires { at + i < length self.old }
        ensures { self.new ≡ slice_set self.old (at + i) word }
    {
        self.words[at + i] = word;
    }

    /// The run of `len` words from the index `at` on.
    pub fn window(&self, at: usize, len: usize) -> &[u64]
        requires { at + len ≤ length self.now }
        ensures { result.now ≡ slice_range self.now at (at + len) }
    {
        &self.words[at..at + len]
    }

    /// The run of `len` words from the index `at` on, for writing. No word outside it changes.
    pub fn window_mut(&mut self, at: usize, len: usize) -> &mut [u64]
        requires { at + len ≤ length self.old }
        ensures* writes_back { sem 𝓛 (LendsRun self.entry at result) }
        ensures value { result.now ≡ slice_range self.old at (at + len) }
    {
        self.words.slice_mut(at..at + len)
    }

    /// Moves the run of `len` words at the index `from` down to the index `to`. The two runs may share
    /// words. No word outside the run at `to` changes, so that what stood at `from` and is not written
    /// over stays there.
    pub fn slide(&mut self, from: usize, to: usize, len: usize)
        requires down { to ≤ from }
        requires within { from + len ≤ length self.old }
        ensures same_length { length self.new ≡ length self.old }
        ensures moved { (k : ℕ) → k < len
            → slice_index self.new (to + k) ≡ slice_index self.old (from + k) }
        ensures below { (k : ℕ) → k < to → slice_index self.new k ≡ slice_index self.old k }
        ensures above { (k : ℕ) → to + len ≤ k
            → slice_index self.new k ≡ slice_index self.old k }
    {
        slide_run(self.words.as_mut_slice(), from, to, len);
    }
}
