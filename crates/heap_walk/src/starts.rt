ghost use Rattle.std.specs.Prelude.{◌≡◌, ◌≢◌, ◌+◌, ◌*◌, ◌/◌, ◌<◌, ◌≤◌, ℕ, length, IfOk, IfSome, IfNone, false, true};

use spur_words::NoMemory;
use std::alloc::Global;

/// Bits in a word of the map.
const WORD_BITS: usize = 64;

/// A set of starts: indices of words in a region.
#[derive(Drop)]
pub struct StartMap {
    bits: Vec<u64>,
    words: usize,
    ghost room: { words ≤ 64 * length bits.items },
}

impl StartMap {
    ghost use Rattle.heap_walk.specs.Starts.{has_start, covered};

    /// No start, for a region of that many words. [`NoMemory`] where the bits are not to be had.
    #[tactic(auto, unfolding(crate::specs::Starts::has_start))]
    pub fn new(alloc: Global, words: usize) -> Result<StartMap, NoMemory>
        ensures empty { IfOk result (λ map. (k : ℕ) → has_start map k ≡ false) }
        ensures covers { IfOk result (λ map. covered map ≡ words) }
    {
        match Vec::from_elem(alloc, 0, words.div_ceil(WORD_BITS)) {
            Ok(bits) => Ok(StartMap { bits, words }),
            Err(_) => Err(NoMemory),
        }
    }

    /// The number of words of the region whose starts the map can hold.
    pub fn len(&self) -> usize
        ensures { result ≡ covered self.now }
    {
        self.words
    }

    /// Whether a chunk starts at the word `at`.
    #[tactic(auto, unfolding(crate::specs::Starts::has_start))]
    pub fn has(&self, at: usize) -> bool
        requires { at < covered self.now }
        ensures { result ≡ has_start self.now at }
    {
        (self.bits[at / WORD_BITS] >> (at % WORD_BITS)) & 1 == 1
    }

    /// The first start at `at` or behind it whose bit is in the same word of the map, if there is one.
    fn next_in_word(&self, at: usize) -> Option<usize>
        requires { at < covered self.now }
        ensures found { IfSome result (λ s. (at ≤ s) × (has_start self.now s ≡ true)) }
        ensures first { IfSome result (λ s. (k : ℕ) → at ≤ k → k < s → has_start self.now k ≡ false) }
        ensures none { IfNone result ((k : ℕ) → at ≤ k → k < 64 * (at / 64 + 1) → has_start self.now k ≡ false) }
    {
        let rest = self.bits[at / WORD_BITS] >> (at % WORD_BITS);
        if rest == 0 {
            return None;
        }
        Some(at + rest.trailing_zeros() as usize)
    }

    /// The first start at the word `from` or behind it, if there is one.
    pub fn next(&self, from: usize) -> Option<usize>
        ensures found { IfSome result (λ s. (from ≤ s) × (s < covered self.now) × (has_start self.now s ≡ true)) }
        ensures first { IfSome result (λ s. (k : ℕ) → from ≤ k → k < s → has_start self.now k ≡ false) }
        ensures none { IfNone result ((k : ℕ) → from ≤ k → k < covered self.now → has_start self.now k ≡ false) }
    {
        let end = self.words;
        let mut at = from;
        'words: while at < end {
            match self.next_in_word(at) {
                Some(start) => return if start < end { Some(start) } else { None },
                None => at = (at / WORD_BITS + 1).saturating_mul(WORD_BITS),
            }
        }
        None
    }

    /// Adds the start `at`. One that is there already stays.
    pub fn set(&mut self, at: usize)
        requires { at < covered self.old }
        ensures added { has_start self.new at ≡ true }
        ensures others { (k : ℕ) → k ≢ at → has_start self.new k ≡ has_start self.old k }
        ensures covers { covered self.new ≡ covered self.old }
    {
        let word = self.bits[at / WORD_BITS];
        self.bits[at / WORD_BITS] = word | 1 << (at % WORD_BITS);
    }

    /// Removes the start `at`. One that is not there stays absent.
    pub fn unset(&mut self, at: usize)
        requires { at < covered self.old }
        ensures removed { has_start self.new at ≡ false }
        ensures others { (k : ℕ) → k ≢ at → has_start self.new k ≡ has_start self.old k }
        ensures covers { covered self.new ≡ covered self.old }
    {
        let word = self.bits[at / WORD_BITS];
        self.bits[at / WORD_BITS] = word & !(1 << (at % WORD_BITS));
    }

    /// Removes every start.
    #[tactic(auto, unfolding(crate::specs::Starts::has_start))]
    pub fn clear(&mut self)
        ensures empty { (k : ℕ) → has_start self.new k ≡ false }
        ensures covers { covered self.new ≡ covered self.old }
    {
        self.bits.fill(0);
    }
}
