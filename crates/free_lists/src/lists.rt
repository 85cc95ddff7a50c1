// The lists by size, and the calls.
ghost use Rattle.std.specs.Prelude.{◌≡◌, ◌≢◌, ◌+◌, ◌-◌, ◌^◌, ◌<◌, ◌≤◌, ℕ, List, [], ◌∷◌, ◌++◌, length, slice_index, slice_set, MatchOption, IfNone, IfSome};
ghost use Rattle.std.specs.List.{Contains};
ghost use Rattle.free_lists.specs.Runs.{IsFree, cover};
ghost use Rattle.object_header.specs.Chunks.{Chunk, Cuts};
ghost use Rattle.free_lists.specs.Rows.{free_runs, is_free, rewritten, with_run};
ghost use Rattle.free_lists.specs.Trees.{runs_in};
ghost use Rattle.free_lists.specs.Lists.{Lists, Held, MeetsNone, IsOutside, AllBelow, IsSmallest, NoneFits, Takes, TakesOut, TakesWhole, IsGreatest, HaveBits, IsNextSize, IsFirstOfSize, IsFitting, Fits, Shortens, total_of};

use crate::chunks::write_free;
use crate::tree::{MOST_WORDS, NONE, first_from, insert, key_of, largest, remove};
use heap_walk::span_of;
use object_header::{FREE_CLASS, Header};
use spur_words::Region;

/// A chunk of fewer words stands in the list of its size, the others in the tree. The sizes below
/// it have a bit each in one word.
const LARGE: usize = 64;

/// How many words from the first word of a chunk in a list the link to the next one stands: in its
/// first slot, since no small chunk has an overflow word.
const NEXT: usize = 1;

/// The free chunks of old space. Their words and links are in the region, so each call is handed the
/// region that holds them.
///
/// A place is an index of the region, and a size is counted in words of it, with the head words. No
/// call changes a word but those of free chunks and of the run that it is given.
#[derive(Drop)]
pub struct FreeLists {
    /// For each small size the link to the first chunk of its list.
    heads: [usize; LARGE],
    /// The small sizes whose lists have a chunk: the bit with the size's number is 1.
    sizes: u64,
    /// The link to the top of the tree.
    root: usize,
    /// The words of all free chunks together.
    total: usize,
}

impl FreeLists {
    /// No free chunk.
    pub fn new() -> FreeLists
        ensures empty { (words : List ℕ) → Lists words result [] }
    {
        FreeLists {
            heads: [NONE; LARGE],
            sizes: 0,
            root: NONE,
            total: 0,
        }
    }

    /// Makes `link` the first link of the list of a size.
    fn set_head(&mut self, size: usize, link: usize)
        requires { size < 64 }
        ensures heads { self.new.heads ≡ slice_set self.old.heads size link }
        ensures bits { HaveBits self.old → HaveBits self.new }
        ensures same { (self.new.root ≡ self.old.root) × (self.new.total ≡ self.old.total) }
    {
        self.heads[size] = link;
        if link == NONE {
            self.sizes &= !(1 << size);
        } else {
            self.sizes |= 1 << size;
        }
    }

    /// The least size from `from` on whose list has a chunk.
    fn next_size(&self, from: usize) -> Option<usize>
        requires within { from < 64 }
        requires bits { HaveBits self.now }
        ensures { MatchOption result ((k : ℕ) → from ≤ k → k < 64 → slice_index self.now.heads k ≡ 0) (IsNextSize self.now from) }
    {
        let rest = self.sizes >> from;
        if rest == 0 {
            return None;
        }
        Some(from + rest.trailing_zeros() as usize)
    }

    /// Puts a small free chunk, which shares no word with the others, at the front of its list.
    fn add_small(&mut self, region: &mut Region, at: usize, words: usize)
        requires small { length region.old ≤ 2 ^ 27 }
        requires chunk { IsFree region.old at words }
        requires short { words < 64 }
        requires held { (runs : List (ℕ × ℕ)) × Lists region.old self.old runs × MeetsNone runs at words }
        ensures added { (runs : List (ℕ × ℕ)) → Lists region.old self.old runs → MeetsNone runs at words
            → Lists region.new self.new ((at, words) ∷ runs) }
        ensures same_length { length region.new ≡ length region.old }
        ensures others { (k : ℕ) → k ≢ at + 1 → slice_index region.new k ≡ slice_index region.old k }
    {
        region.put(at + NEXT, self.heads[words] as u64);
        self.set_head(words, at + 1);
        self.total += words;
    }

    /// Puts a large free chunk, which shares no word with the others, into the tree.
    fn add_large(&mut self, region: &mut Region, at: usize, words: usize)
        requires small { length region.old ≤ 2 ^ 27 }
        requires chunk { IsFree region.old at words }
        requires large { 64 ≤ words }
        requires held { (runs : List (ℕ × ℕ)) × Lists region.old self.old runs × MeetsNone runs at words }
        ensures added { (runs : List (ℕ × ℕ)) → Lists region.old self.old runs → MeetsNone runs at words
            → Lists region.new self.new ((at, words) ∷ runs) }
        ensures same_length { length region.new ≡ length region.old }
        ensures others { (runs : List (ℕ × ℕ)) → Lists region.old self.old runs → MeetsNone runs at words
            → (k : ℕ) → IsOutside ((at, words) ∷ runs) k → slice_index region.new k ≡ slice_index region.old k }
    {
        self.total += words;
        self.root = insert(region, self.root, at, words, self.total);
    }

    /// Makes the `words` words from the place `at` on a free chunk, which is one more. They are words
    /// of no free chunk before.
    ///
    /// A chunk of less than 64 words is put into its list at once; a larger one takes a walk down the
    /// tree and back.
    pub fn give(&mut self, region: &mut Region, at: usize, words: usize)
        requires big { 2 ≤ words }
        requires inside { at + words ≤ length region.old }
        requires small { length region.old ≤ 2 ^ 27 }
        requires held { (runs : List (ℕ × ℕ)) × Lists region.old self.old runs × MeetsNone runs at words }
        ensures held { Held region.new self.new }
        ensures given { (runs : List (ℕ × ℕ)) → Lists region.old self.old runs → MeetsNone runs at words
            → Lists region.new self.new ((at, words) ∷ runs) }
        ensures same_length { length region.new ≡ length region.old }
        ensures others { (runs : List (ℕ × ℕ)) → Lists region.old self.old runs → MeetsNone runs at words
            → (k : ℕ) → IsOutside ((at, words) ∷ runs) k → slice_index region.new k ≡ slice_index region.old k }
    {
        write_free(region, at, words);
        if words < LARGE {
            self.add_small(region, at, words);
        } else {
            self.add_large(region, at, words);
        }
    }

    /// The smallest chunk in a list with at least `n` words, the first of its list: its place and its
    /// size.
    fn find_small(&self, n: usize) -> Option<(usize, usize)>
        requires bits { HaveBits self.now }
        ensures { MatchOption result ((k : ℕ) → n ≤ k → k < 64 → slice_index self.now.heads k ≡ 0)
            (λ f. IsNextSize self.now n f.1 × (slice_index self.now.heads f.1 ≡ f.0 + 1)) }
    {
        if n >= LARGE {
            return None;
        }
        match self.next_size(n) {
            None => None,
            Some(size) => Some((self.heads[size] - 1, size)),
        }
    }

    /// The smallest chunk of the tree with at least `n` words: its place and its size.
    fn find_large(&self, region: &Region, n: usize) -> Option<(usize, usize)>
        requires small { length region.now ≤ 2 ^ 27 }
        requires held { Held region.now self.now }
        ensures { (runs : List (ℕ × ℕ)) (lists : Lists region.now self.now runs)
            → MatchOption result (AllBelow (runs_in lists.tree) n) (IsSmallest (runs_in lists.tree) n) }
    {
        if n > MOST_WORDS {
            return None;
        }
        first_from(region, self.root, key_of(0, n), self.total)
    }

    /// The smallest chunk with at least `n` words: its place and its size.
    fn find(&self, region: &Region, n: usize) -> Option<(usize, usize)>
        requires small { length region.now ≤ 2 ^ 27 }
        requires held { Held region.now self.now }
        ensures found { (runs : List (ℕ × ℕ)) → Lists region.now self.now runs
            → MatchOption result (AllBelow runs n) (IsSmallest runs n) }
        ensures enough { IfSome result (λ f. (n ≤ f.1) × (f.1 ≤ 2 ^ 27)) }
        ensures first { IfSome result (IsFirstOfSize self.now) }
    {
        match self.find_small(n) {
            Some(found) => Some(found),
            None => self.find_large(region, n),
        }
    }

    /// The smallest chunk that serves a need of `n` words: its place and its size.
    fn fitting(&self, region: &Region, n: usize) -> Option<(usize, usize)>
        requires small { length region.now ≤ 2 ^ 27 }
        requires held { Held region.now self.now }
        ensures found { (runs : List (ℕ × ℕ)) → Lists region.now self.now runs
            → MatchOption result (NoneFits runs n) (IsFitting runs n) }
        ensures first { IfSome result (IsFirstOfSize self.now) }
    {
        match self.find(region, n) {
            None => None,
            Some((at, words)) => {
                if words - n == 1 {
                    self.find(region, words + 1)
                } else {
                    Some((at, words))
                }
            }
        }
    }

    /// Takes the first chunk of its list out.
    fn remove_small(&mut self, region: &Region, at: usize, words: usize)
        requires small { length region.now ≤ 2 ^ 27 }
        requires held { (runs : List (ℕ × ℕ)) × Lists region.now self.old runs × Contains runs (at, words) }
        requires short { words < 64 }
        requires first { slice_index self.old.heads words ≡ at + 1 }
        ensures out { (runs : List (ℕ × ℕ)) → Lists region.now self.old runs → Contains runs (at, words)
            → TakesOut region.now self.new runs at words }
    {
        let next = region.get(at + NEXT) as usize;
        self.set_head(words, next);
        self.total -= words;
    }

    /// Takes a chunk out of the tree.
    fn remove_large(&mut self, region: &mut Region, at: usize, words: usize)
        requires small { length region.old ≤ 2 ^ 27 }
        requires held { (runs : List (ℕ × ℕ)) × Lists region.old self.old runs × Contains runs (at, words) }
        requires large { 64 ≤ words }
        ensures out { (runs : List (ℕ × ℕ)) → Lists region.old self.old runs → Contains runs (at, words)
            → TakesOut region.new self.new runs at words }
        ensures same_length { length region.new ≡ length region.old }
        ensures others { (runs : List (ℕ × ℕ)) → Lists region.old self.old runs
            → (k : ℕ) → IsOutside runs k → slice_index region.new k ≡ slice_index region.old k }
    {
        self.root = remove(region, self.root, at, words, self.total);
        self.total -= words;
    }

    /// Takes out a chunk that was found.
    fn remove_chunk(&mut self, region: &mut Region, at: usize, words: usize)
        requires small { length region.old ≤ 2 ^ 27 }
        requires held { (runs : List (ℕ × ℕ)) × Lists region.old self.old runs × Contains runs (at, words) }
        requires first { IsFirstOfSize self.old (at, words) }
        ensures out { (runs : List (ℕ × ℕ)) → Lists region.old self.old runs → Contains runs (at, words)
            → TakesOut region.new self.new runs at words }
        ensures same_length { length region.new ≡ length region.old }
        ensures others { (runs : List (ℕ × ℕ)) → Lists region.old self.old runs
            → (k : ℕ) → IsOutside runs k → slice_index region.new k ≡ slice_index region.old k }
    {
        if words < LARGE {
            self.remove_small(region, at, words);
        } else {
            self.remove_large(region, at, words);
        }
    }

    /// Takes the low `n` words of a chunk that was found, and gives the rest back.
    fn cut(&mut self, region: &mut Region, at: usize, words: usize, n: usize)
        requires small { length region.old ≤ 2 ^ 27 }
        requires big { 2 ≤ n }
        requires fits { Fits words n }
        requires held { (runs : List (ℕ × ℕ)) × Lists region.old self.old runs × Contains runs (at, words) }
        requires first { IsFirstOfSize self.old (at, words) }
        ensures cuts { (runs : List (ℕ × ℕ)) → Lists region.old self.old runs → Contains runs (at, words)
            → Shortens region.new self.new runs at words n }
        ensures same_length { length region.new ≡ length region.old }
        ensures others { (runs : List (ℕ × ℕ)) → Lists region.old self.old runs → Contains runs (at, words)
            → (k : ℕ) → IsOutside runs k → slice_index region.new k ≡ slice_index region.old k }
    {
        self.remove_chunk(region, at, words);
        if words > n {
            self.give(region, at + n, words - n);
        }
    }

    /// Takes `n` words, and answers the place of the first. They are the low words of the smallest
    /// chunk that serves: one of exactly `n` words, or one that leaves at least two, which stay a free
    /// chunk, since one word is none. `None` where no chunk serves, and then nothing is changed.
    ///
    /// This rule is the project's own. Where a list has the chunk it costs some steps, and else a walk
    /// down the tree and back.
    pub fn take(&mut self, region: &mut Region, n: usize) -> Option<usize>
        requires small { length region.old ≤ 2 ^ 27 }
        requires big { 2 ≤ n }
        requires held { Held region.old self.old }
        ensures held { Held region.new self.new }
        ensures taken { (runs : List (ℕ × ℕ)) → Lists region.old self.old runs
            → MatchOption result (NoneFits runs n) (Takes region.new self.new runs n) }
        ensures none { IfNone result ((region.new ≡ region.old) × (self.new ≡ self.old)) }
        ensures same_length { length region.new ≡ length region.old }
        ensures others { (runs : List (ℕ × ℕ)) → Lists region.old self.old runs
            → (k : ℕ) → IsOutside runs k → slice_index region.new k ≡ slice_index region.old k }
    {
        match self.fitting(region, n) {
            None => None,
            Some((at, words)) => {
                self.cut(region, at, words, n);
                Some(at)
            }
        }
    }

    /// Takes the smallest chunk with at least `n` words whole, and answers its place and its size.
    /// `None` where there is none, and then nothing is changed. It costs as much as a taking.
    pub fn take_whole(&mut self, region: &mut Region, n: usize) -> Option<(usize, usize)>
        requires small { length region.old ≤ 2 ^ 27 }
        requires held { Held region.old self.old }
        ensures held { Held region.new self.new }
        ensures taken { (runs : List (ℕ × ℕ)) → Lists region.old self.old runs
            → MatchOption result (AllBelow runs n) (TakesWhole region.new self.new runs n) }
        ensures none { IfNone result ((region.new ≡ region.old) × (self.new ≡ self.old)) }
        ensures same_length { length region.new ≡ length region.old }
        ensures others { (runs : List (ℕ × ℕ)) → Lists region.old self.old runs
            → (k : ℕ) → IsOutside runs k → slice_index region.new k ≡ slice_index region.old k }
    {
        match self.find(region, n) {
            None => None,
            Some((at, words)) => {
                self.remove_chunk(region, at, words);
                Some((at, words))
            }
        }
    }

    /// The size of the largest free chunk, 0 where there is none: a walk down the tree.
    pub fn largest(&self, region: &Region) -> usize
        requires small { length region.now ≤ 2 ^ 27 }
        requires held { Held region.now self.now }
        ensures { (runs : List (ℕ × ℕ)) → Lists region.now self.now runs → IsGreatest runs result }
    {
        if self.root == NONE {
            self.last_size()
        } else {
            largest(region, self.root, self.total)
        }
    }

    /// The greatest size whose list has a chunk, 0 where there is none.
    fn last_size(&self) -> usize
        requires bits { HaveBits self.now }
        ensures most { (k : ℕ) → result < k → k < 64 → slice_index self.now.heads k ≡ 0 }
        ensures some { 0 < result → (result < 64) × (slice_index self.now.heads result ≢ 0) }
    {
        if self.sizes == 0 {
            return 0;
        }
        63 - self.sizes.leading_zeros() as usize
    }

    /// The words of all free chunks together. It is kept, and not counted.
    pub fn total(&self, region: &Region) -> usize
        ensures { (runs : List (ℕ × ℕ)) → Lists region.now self.now runs → result ≡ total_of runs }
    {
        self.total
    }

    /// The place of a free chunk of a small size, the first of its list. `None` where no free chunk
    /// has that size.
    pub fn head(&self, region: &Region, size: usize) -> Option<usize>
        requires within { (2 ≤ size) × (size < 64) }
        requires held { Held region.now self.now }
        ensures found { (runs : List (ℕ × ℕ)) → Lists region.now self.now runs
            → MatchOption result ((at : ℕ) → Contains runs (at, size) → ⊥) (λ at. Contains runs (at, size)) }
        ensures first { IfSome result (λ at. slice_index self.now.heads size ≡ at + 1) }
    {
        let link = self.heads[size];
        if link == NONE {
            return None;
        }
        Some(link - 1)
    }

    /// Adds the chunk of `words` words at the index `at`, if its header is that of a free chunk.
    fn add_if_free(&mut self, region: &mut Region, at: usize, words: usize, header: Header)
        requires small { length region.old ≤ 2 ^ 27 }
        requires big { 2 ≤ words }
        requires inside { at + words ≤ length region.old }
        requires held { (runs : List (ℕ × ℕ)) × Lists region.old self.old runs × MeetsNone runs at words }
        ensures added { (runs : List (ℕ × ℕ)) → Lists region.old self.old runs → MeetsNone runs at words
            → Lists region.new self.new (with_run (is_free header.0) (at, words) runs) }
        ensures same_length { length region.new ≡ length region.old }
        ensures others { (runs : List (ℕ × ℕ)) → Lists region.old self.old runs → MeetsNone runs at words
            → (k : ℕ) → IsOutside (with_run (is_free header.0) (at, words) runs) k
            → slice_index region.new k ≡ slice_index region.old k }
    {
        if header.class() == FREE_CLASS {
            self.give(region, at, words);
        }
    }

    /// Makes the free chunks among the words from `from` up to `to` the only ones. What was free
    /// before plays no part. These words are a row of chunks, and they stay one, of the same places and
    /// sizes; each free chunk has the head then that a gift writes, so that one of at most 255 words
    /// has no overflow word.
    ///
    /// One pass over the row, with a gift for each free chunk.
    pub fn rebuild(&mut self, region: &mut Region, from: usize, to: usize)
        requires small { length region.old ≤ 2 ^ 27 }
        requires inside { to ≤ length region.old }
        requires row { (cs : List Chunk) × Cuts region.old from to cs }
        ensures held { Held region.new self.new }
        ensures rebuilt { (cs : List Chunk) → Cuts region.old from to cs
            → Lists region.new self.new (free_runs region.old cs) }
        ensures row { (cs : List Chunk) → Cuts region.old from to cs
            → Cuts region.new from to (rewritten region.old cs) }
        ensures same_length { length region.new ≡ length region.old }
        ensures others { (cs : List Chunk) → Cuts region.old from to cs
            → (k : ℕ) → IsOutside (free_runs region.old cs) k
            → slice_index region.new k ≡ slice_index region.old k }
    {
        *self = FreeLists::new();
        let mut at = from;
        'chunks: while at < to {
            let chunk = span_of(at, region.get(at));
            let header = Header(region.get(chunk.start));
            self.add_if_free(region, at, chunk.end - at, header);
            at = chunk.end;
        }
    }
}
