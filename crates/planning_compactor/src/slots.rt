// References under new places, while first fields are kept aside.
ghost use Rattle.std.specs.Prelude.{◌≡◌, ◌≢◌, ◌+◌, ◌%◌, ◌/◌, ◌^◌, ◌<◌, ◌≤◌, ◌⊎◌, ℕ, length, slice_index, IfSome, IfNone, MatchOption, None, true, false};
ghost use Rattle.object_header.specs.Formats.{pointer_slots_of};
ghost use Rattle.object_header.specs.Chunks.{StandsAt, slots_at};
ghost use Rattle.planning_compactor.specs.Entries.{entry, start_of, virtual, IsTable, IsElsewhere};
ghost use Rattle.heap_walk.specs.Starts.{has_start, covered};
ghost use Rattle.planning_compactor.specs.Readdressed.{pointers_with, count_at, slot_at, is_between, moved_word, IsNamed, Rewritten, CanReaddress, Readdressed};

use heap_walk::{Saved, StartMap, slots_of};
use object_header::Header;

/// Whether a word names an object whose start is from `low` up to `high`.
#[tactic(auto, unfolding(crate::specs::Readdressed::is_between))]
fn is_between(word: u64, low: usize, high: usize) -> bool
    ensures { result ≡ is_between low high word }
{
    word % 8 == 0 && low as u64 <= word / 8 && word / 8 <= high as u64
}

/// The word once the objects from `low` up to `high` that are not pinned have moved, where the word behind the header of each is 8 times its target.
/// Nothing that the word names is read before the test of the range.
#[tactic(auto, unfolding(crate::specs::Readdressed::moved_word))]
pub(crate) fn moved_word(words: &[u64], low: usize, high: usize, word: u64) -> u64
    requires { is_between low high word ≡ true → word / 8 + 1 < length words.now }
    ensures { result ≡ moved_word words.now low high word }
{
    let _end = words.len();
    if !is_between(word, low, high) {
        return word;
    }
    let start = (word / 8) as usize;
    if Header(words[start]).pinned() == 1 {
        return word;
    }
    words[start + 1]
}

/// The word at the index `at` as it is with the first fields put back. `kept` is the entry that keeps it aside, if one does.
fn field(words: &[u64], table: &[Saved], at: usize, kept: Option<usize>) -> u64
    requires inside { at < length words.now }
    requires table { IsTable table.now words.now }
    requires kept { MatchOption kept (IsElsewhere table.now at)
        (λ k. (k < length table.now) × (start_of table.now k + 1 ≡ at)) }
    ensures { result ≡ virtual table.now words.now at }
{
    match kept {
        Some(k) => table[k].first,
        None => words[at],
    }
}

/// Rewrites the slot at the index `at`, in the entry `kept` that keeps it aside, or where it stands.
fn rewrite(
    words: &mut [u64],
    table: &mut [Saved],
    low: usize,
    high: usize,
    at: usize,
    kept: Option<usize>,
)
    requires inside { at < length words.old }
    requires table { IsTable table.old words.old }
    requires kept { MatchOption kept (IsElsewhere table.old at)
        (λ k. (k < length table.old) × (start_of table.old k + 1 ≡ at)) }
    requires named { is_between low high (virtual table.old words.old at) ≡ true
        → virtual table.old words.old at / 8 + 1 < length words.old }
    ensures same_words { length words.new ≡ length words.old }
    ensures same_table { length table.new ≡ length table.old }
    ensures starts { (k : ℕ) → k < length table.old → start_of table.new k ≡ start_of table.old k }
    ensures targets { (k : ℕ) → k < length table.old
        → slice_index words.new (start_of table.old k + 1) ≡ slice_index words.old (start_of table.old k + 1) }
    ensures here { virtual table.new words.new at ≡ moved_word words.old low high (virtual table.old words.old at) }
    ensures others { (j : ℕ) → j ≢ at → virtual table.new words.new j ≡ virtual table.old words.old j }
    ensures outside { (j : ℕ) → j ≢ at → slice_index words.new j ≡ slice_index words.old j }
{
    let word = field(words, table, at, kept);
    let moved = moved_word(words, low, high, word);
    match kept {
        Some(k) => {
            let start = table[k].start;
            table[k] = Saved {
                start,
                first: moved,
            };
        }
        None => words[at] = moved,
    }
}

/// How many pointer slots the object at `start` has, `first` being its first field.
#[tactic(auto, unfolding(crate::specs::Readdressed::pointers_with))]
fn pointers_with(words: &[u64], start: usize, first: u64) -> usize
    requires { StandsAt words.now start }
    ensures { result ≡ pointers_with words.now start first }
{
    Header(words[start]).pointer_slots(slots_of(words, start), first)
}

/// The entry that keeps slot `i` of an object aside, where `kept` keeps its first field: no other field is kept.
fn kept_slot(i: usize, kept: Option<usize>) -> Option<usize>
    ensures first { i ≡ 0 → result ≡ kept }
    ensures other { i ≢ 0 → result ≡ None }
{
    if i == 0 { kept } else { None }
}

/// Rewrites the pointer slots of the object at `start`. The entry `kept` keeps its first field aside, if one does.
fn readdress_object(
    words: &mut [u64],
    table: &mut [Saved],
    low: usize,
    high: usize,
    start: usize,
    kept: Option<usize>,
)
    requires stands { StandsAt words.old start }
    requires table { IsTable table.old words.old }
    requires kept { MatchOption kept (IsElsewhere table.old (start + 1))
        (λ k. (k < length table.old) × (start_of table.old k ≡ start)) }
    requires apart { (k : ℕ) → k < length table.old
        → (start_of table.old k ≤ start) ⊎ (start + slots_at words.old start < start_of table.old k) }
    requires fits { count_at table.old words.old start ≤ slots_at words.old start }
    requires named { (i : ℕ) → i < count_at table.old words.old start → is_between low high (slot_at table.old words.old start i) ≡ true
        → IsNamed words.old table.old (slot_at table.old words.old start i / 8) }
    requires heads { (i : ℕ) → i < count_at table.old words.old start → is_between low high (slot_at table.old words.old start i) ≡ true
        → (slot_at table.old words.old start i / 8 ≤ start) ⊎ (start + slots_at words.old start < slot_at table.old words.old start i / 8) }
    ensures { Rewritten table.old table.new words.old words.new low high start (count_at table.old words.old start) }
{
    let first = field(words, table, start + 1, kept);
    let count = pointers_with(words, start, first);
    'slots: for i in 0..count {
        rewrite(words, table, low, high, start + 1 + i, kept_slot(i, kept));
    }
}

/// The entry of the object at `start`, if entry `k` is it.
fn kept_at(table: &[Saved], k: usize, start: usize) -> Option<usize>
    ensures is { IfSome result (λ m. (m ≡ k) × (k < length table.now) × (start_of table.now k ≡ start)) }
    ensures none { IfNone result (k < length table.now → start_of table.now k ≢ start) }
{
    if k < table.len() && table[k].start == start {
        return Some(k);
    }
    None
}

/// Rewrites each pointer slot that names an object from `low` up to `high`, which moves unless it is pinned. The table is passed beside the map of starts,
/// since both are in order.
pub(crate) fn readdress(
    words: &mut [u64],
    table: &mut [Saved],
    starts: &StartMap,
    low: usize,
    high: usize,
)
    requires covers { covered starts.now ≡ length words.old }
    requires can { CanReaddress (has_start starts.now) table.old words.old low high }
    ensures { Readdressed (has_start starts.now) table.old table.new words.old words.new low high (length words.old) }
{
    let mut at = 0;
    let mut k = 0;
    'objects: while let Some(start) = starts.next(at) {
        let kept = kept_at(table, k, start);
        readdress_object(words, table, low, high, start, kept);
        k = after_entry(k, kept);
        at = start + 1;
    }
}

/// The entry to look at behind an object whose entry was `kept`.
fn after_entry(k: usize, kept: Option<usize>) -> usize
    requires small { k < 2 ^ 60 }
    ensures some { IfSome kept (λ m. result ≡ k + 1) }
    ensures none { IfNone kept (result ≡ k) }
{
    match kept {
        Some(_) => k + 1,
        None => k,
    }
}
