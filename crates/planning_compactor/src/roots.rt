// What names objects from outside of the words: handles, the special objects word, and mourners.
ghost use Rattle.std.specs.Prelude.{◌≡◌, ◌+◌, ◌*◌, ◌/◌, ◌%◌, ◌^◌, ◌<◌, ℕ, length, slice_index, true};
ghost use Rattle.spur_heap.specs.Tables.{begins, start_in};
ghost use Rattle.planning_compactor.specs.Readdressed.{is_between, moved_word};
ghost use Rattle.planning_compactor.specs.Roots.{roots_of, Readdresses};

use crate::slots::moved_word;

/// The bit of a mourner's entry that tells that it begins a group. The other bits are its start.
const GROUP: u32 = 2_147_483_648;

/// Rewrites each word that names an object from `low` up to `high`, which moves unless it is pinned.
fn readdress_words(words: &[u64], roots: &mut [u64], low: usize, high: usize)
    requires named { (i : ℕ) → i < length roots.old → is_between low high (slice_index roots.old i) ≡ true
        → slice_index roots.old i / 8 + 1 < length words.now }
    ensures same { length roots.new ≡ length roots.old }
    ensures moved { (i : ℕ) → i < length roots.old → slice_index roots.new i ≡ moved_word words.now low high (slice_index roots.old i) }
{
    'roots: for i in 0..roots.len() {
        let word = roots[i];
        roots[i] = moved_word(words, low, high, word);
    }
}

/// The entry of a mourner that is an object from `low` up to `high`, which moves unless it is pinned.
fn moved_mourner(words: &[u64], entry: u32, low: usize, high: usize) -> u32
    requires named { is_between low high (8 * start_in entry) ≡ true → start_in entry + 1 < length words.now }
    requires small { moved_word words.now low high (8 * start_in entry) < 2 ^ 34 }
    ensures start { start_in result ≡ moved_word words.now low high (8 * start_in entry) / 8 }
    ensures group { begins result ≡ begins entry }
{
    let start = entry % GROUP;
    let word = moved_word(words, low, high, 8 * start as u64);
    entry - start + (word / 8) as u32
}

/// Rewrites each mourner's entry that is an object from `low` up to `high`, which moves unless it is pinned.
fn readdress_mourners(words: &[u64], mourners: &mut [u32], low: usize, high: usize)
    requires named { (i : ℕ) → i < length mourners.old → is_between low high (8 * start_in (slice_index mourners.old i)) ≡ true
        → start_in (slice_index mourners.old i) + 1 < length words.now }
    requires small { (i : ℕ) → i < length mourners.old → moved_word words.now low high (8 * start_in (slice_index mourners.old i)) < 2 ^ 34 }
    ensures same { length mourners.new ≡ length mourners.old }
    ensures starts { (i : ℕ) → i < length mourners.old
        → start_in (slice_index mourners.new i) ≡ moved_word words.now low high (8 * start_in (slice_index mourners.old i)) / 8 }
    ensures groups { (i : ℕ) → i < length mourners.old → begins (slice_index mourners.new i) ≡ begins (slice_index mourners.old i) }
{
    'mourners: for i in 0..mourners.len() {
        let entry = mourners[i];
        mourners[i] = moved_mourner(words, entry, low, high);
    }
}

/// Rewrites what names an object from `low` up to `high` from outside of the words, while each object that moves has 8 times its target behind its header.
pub(crate) fn readdress_roots(
    words: &[u64],
    handles: &mut [u64],
    special: &mut u64,
    mourners: &mut [u32],
    low: usize,
    high: usize,
)
    requires handles { (i : ℕ) → i < length handles.old → is_between low high (slice_index handles.old i) ≡ true
        → slice_index handles.old i / 8 + 1 < length words.now }
    requires special { is_between low high special.old ≡ true → special.old / 8 + 1 < length words.now }
    requires mourners { (i : ℕ) → i < length mourners.old → is_between low high (8 * start_in (slice_index mourners.old i)) ≡ true
        → start_in (slice_index mourners.old i) + 1 < length words.now }
    requires small { (i : ℕ) → i < length mourners.old → moved_word words.now low high (8 * start_in (slice_index mourners.old i)) < 2 ^ 34 }
    ensures { Readdresses words.now low high (roots_of handles.old special.old mourners.old) (roots_of handles.new special.new mourners.new) }
{
    readdress_words(words, handles, low, high);
    *special = moved_word(words, low, high, *special);
    readdress_mourners(words, mourners, low, high);
}
