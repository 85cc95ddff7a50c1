// The tree of the large free chunks.
//
// It is a search tree by size and then by place, whose links and heights stand in the chunks' own
// slots. Everything is made of one step, a join at a chunk: of a tree, a chunk behind it and a tree
// behind that it makes one tree, whose heights are balanced if those of the two trees are. A tree is
// cut at a key by joins at the chunks on the way, a chunk is added by a cut and a join at it, and
// taken out by two cuts and a join.
//
// What is proved is the order and which chunks there are. No clause asks whether the heights are
// right: they decide only which chunks stand above which, and so how many steps a call takes and how
// deep it nests. A region has at most two million large chunks, a balanced tree of which is some
// thirty chunks deep. `levels` bounds a call's nesting for the proof alone.
ghost use Rattle.std.specs.Prelude.{◌≡◌, ◌≢◌, ◌+◌, ◌^◌, ◌<◌, ◌≤◌, ℕ, length, slice_index, MatchOption};
ghost use Rattle.std.specs.List.{Contains};
ghost use Rattle.free_lists.specs.Runs.{IsFree, covers, cover};
ghost use Rattle.free_lists.specs.Trees.{Tree, IsTree, IsTop, HoldsTree, IsWithin, runs_in, key_of, left_of, right_of, Splits, Joins, IsOrdered, IsApartFrom, Inserts, Removes, NoneFrom, IsFirst, IsLargest, Parts, HaveParts, MakesOne, KeepsOthers, Turns};

use crate::chunks::size_at;
use spur_words::Region;

/// The link that names no chunk. Every other link is 1 more than the first word of the chunk that
/// it names.
pub(crate) const NONE: usize = 0;

/// The most words of a region, so that a chunk's size and place make one number of 64 bits.
pub(crate) const MOST_WORDS: usize = 1 << 27;

/// How many words from a chunk's first word its left link stands, and its right link: words that
/// are slots in every large chunk, with an overflow word or without.
const LEFT: usize = 2;

const RIGHT: usize = 3;

/// Where the height of the tree below it stands.
const HEIGHT: usize = 4;

/// What the words of a chunk in the tree say.
#[derive(Clone, Copy)]
pub(crate) struct Node {
    at: usize,
    words: usize,
    left: usize,
    right: usize,
}

/// Reads the chunk that a link names.
fn read_node(region: &Region, link: usize) -> Node
    requires some { link ≢ 0 }
    requires held { (t : Tree) × IsTree region.now link t }
    ensures link { link ≡ result.at + 1 }
    ensures room { result.at + 64 ≤ length region.now }
    ensures top { (t : Tree) → IsTree region.now link t → IsTop region.now t result }
{
    let _end = region.len();
    let at = link - 1;
    Node {
        at,
        words: size_at(region, at),
        left: region.get(at + LEFT) as usize,
        right: region.get(at + RIGHT) as usize,
    }
}

/// What orders the chunks: their sizes, and among equal sizes their places.
pub(crate) fn key_of(at: usize, words: usize) -> u64
    requires at { at < 2 ^ 27 }
    requires words { words ≤ 2 ^ 27 }
    ensures { result ≡ key_of at words }
{
    words as u64 * MOST_WORDS as u64 + at as u64
}

/// The height of a tree, as its top says. No proof asks for it: the heights tell only which chunks
/// stand above which, so that a tree is never deep.
fn height(region: &Region, link: usize) -> usize
    requires small { length region.now ≤ 2 ^ 27 }
    requires held { (t : Tree) × IsTree region.now link t }
    ensures { link ≡ 0 → result ≡ 0 }
{
    if link == NONE {
        return 0;
    }
    let node = read_node(region, link);
    region.get(node.at + HEIGHT) as usize
}

/// Makes a chunk the top of two trees.
fn branch(region: &mut Region, left: usize, at: usize, right: usize) -> usize
    requires small { length region.old ≤ 2 ^ 27 }
    requires held { HaveParts region.old left at right }
    ensures made { MakesOne region.old region.new left at right result }
    ensures some { result ≢ 0 }
    ensures same_length { length region.new ≡ length region.old }
    ensures others { KeepsOthers region.old region.new left at right }
{
    let below = height(region, left).max(height(region, right));
    region.put(at + LEFT, left as u64);
    region.put(at + RIGHT, right as u64);
    region.put(at + HEIGHT, (below as u64).saturating_add(1));
    at + 1
}

/// Makes one tree of a tree, a chunk, and a tree behind it, with the top of the first tree at the top.
fn lift_left(region: &mut Region, left: usize, at: usize, right: usize) -> usize
    requires small { length region.old ≤ 2 ^ 27 }
    requires some { left ≢ 0 }
    requires held { HaveParts region.old left at right }
    ensures made { MakesOne region.old region.new left at right result }
    ensures some { result ≢ 0 }
    ensures same_length { length region.new ≡ length region.old }
    ensures others { KeepsOthers region.old region.new left at right }
{
    let node = read_node(region, left);
    let behind = branch(region, node.right, at, right);
    branch(region, node.left, node.at, behind)
}

/// Makes one tree of a tree, a chunk, and a tree behind it, with the top of the last tree at the top.
fn lift_right(region: &mut Region, left: usize, at: usize, right: usize) -> usize
    requires small { length region.old ≤ 2 ^ 27 }
    requires some { right ≢ 0 }
    requires held { HaveParts region.old left at right }
    ensures made { MakesOne region.old region.new left at right result }
    ensures some { result ≢ 0 }
    ensures same_length { length region.new ≡ length region.old }
    ensures others { KeepsOthers region.old region.new left at right }
{
    let node = read_node(region, right);
    let before = branch(region, left, at, node.left);
    branch(region, before, node.at, node.right)
}

/// Turns a tree whose right tree is the higher one.
fn lean_left(region: &mut Region, link: usize) -> usize
    requires small { length region.old ≤ 2 ^ 27 }
    requires some { link ≢ 0 }
    requires held { (t : Tree) × (low : ℕ) × (high : ℕ) × HoldsTree region.old link t × IsWithin low high t }
    ensures turns { (t : Tree) (low high : ℕ) → HoldsTree region.old link t → IsWithin low high t → Turns region.new t result low high }
    ensures some { result ≢ 0 }
    ensures same_length { length region.new ≡ length region.old }
    ensures others { (t : Tree) (low high : ℕ) → HoldsTree region.old link t → IsWithin low high t
        → (k : ℕ) → cover (runs_in t) k ≡ 0 → slice_index region.new k ≡ slice_index region.old k }
{
    let node = read_node(region, link);
    if height(region, node.left) >= height(region, node.right) {
        return link;
    }
    lift_right(region, node.left, node.at, node.right)
}

/// Turns a tree whose left tree is the higher one.
fn lean_right(region: &mut Region, link: usize) -> usize
    requires small { length region.old ≤ 2 ^ 27 }
    requires some { link ≢ 0 }
    requires held { (t : Tree) × (low : ℕ) × (high : ℕ) × HoldsTree region.old link t × IsWithin low high t }
    ensures turns { (t : Tree) (low high : ℕ) → HoldsTree region.old link t → IsWithin low high t → Turns region.new t result low high }
    ensures some { result ≢ 0 }
    ensures same_length { length region.new ≡ length region.old }
    ensures others { (t : Tree) (low high : ℕ) → HoldsTree region.old link t → IsWithin low high t
        → (k : ℕ) → cover (runs_in t) k ≡ 0 → slice_index region.new k ≡ slice_index region.old k }
{
    let node = read_node(region, link);
    if height(region, node.right) >= height(region, node.left) {
        return link;
    }
    lift_left(region, node.left, node.at, node.right)
}

/// Makes one tree of a tree, a chunk, and a tree behind it, whose heights differ by two at most.
fn balance(region: &mut Region, left: usize, at: usize, right: usize) -> usize
    requires small { length region.old ≤ 2 ^ 27 }
    requires held { HaveParts region.old left at right }
    ensures made { MakesOne region.old region.new left at right result }
    ensures some { result ≢ 0 }
    ensures same_length { length region.new ≡ length region.old }
    ensures others { KeepsOthers region.old region.new left at right }
{
    let before = height(region, left);
    let behind = height(region, right);
    if before > behind.saturating_add(1) {
        let leaning = lean_left(region, left);
        return lift_left(region, leaning, at, right);
    }
    if behind > before.saturating_add(1) {
        let leaning = lean_right(region, right);
        return lift_right(region, left, at, leaning);
    }
    branch(region, left, at, right)
}

/// Makes one tree of a tree, a chunk, and a tree behind it. `levels` is at least the number of chunks
/// in both trees.
fn join_at(region: &mut Region, left: usize, at: usize, right: usize, levels: usize) -> usize
    requires small { length region.old ≤ 2 ^ 27 }
    requires held { (l : Tree) × (size : ℕ) × (r : Tree) × (low : ℕ) × (high : ℕ) × Parts region.old left at right l size r low high
        × (length (runs_in l) + length (runs_in r) ≤ levels) }
    ensures made { MakesOne region.old region.new left at right result }
    ensures some { result ≢ 0 }
    ensures same_length { length region.new ≡ length region.old }
    ensures others { KeepsOthers region.old region.new left at right }
{
    let before = height(region, left);
    let behind = height(region, right);
    if before > behind.saturating_add(1) {
        let node = read_node(region, left);
        let last = join_at(region, node.right, at, right, levels - 1);
        return balance(region, node.left, node.at, last);
    }
    if behind > before.saturating_add(1) {
        let node = read_node(region, right);
        let first = join_at(region, left, at, node.left, levels - 1);
        return balance(region, first, node.at, node.right);
    }
    branch(region, left, at, right)
}

/// Cuts a tree into the chunks whose keys are below `key` and the others. `levels` is at least the
/// number of chunks in it.
fn split(region: &mut Region, link: usize, key: u64, levels: usize) -> (usize, usize)
    requires small { length region.old ≤ 2 ^ 27 }
    requires held { (t : Tree) × HoldsTree region.old link t × (low : ℕ) × (high : ℕ) × IsWithin low high t × (length (runs_in t) ≤ levels) }
    ensures splits { (t : Tree) (low high : ℕ) → HoldsTree region.old link t → IsWithin low high t
        → Splits region.new t result.0 result.1 key low high }
    ensures same_length { length region.new ≡ length region.old }
    ensures others { (t : Tree) (low high : ℕ) → HoldsTree region.old link t → IsWithin low high t
        → (k : ℕ) → cover (runs_in t) k ≡ 0 → slice_index region.new k ≡ slice_index region.old k }
{
    if link == NONE {
        return (NONE, NONE);
    }
    let node = read_node(region, link);
    if key_of(node.at, node.words) < key {
        let (low, high) = split(region, node.right, key, levels - 1);
        (join_at(region, node.left, node.at, low, levels), high)
    } else {
        let (low, high) = split(region, node.left, key, levels - 1);
        (low, join_at(region, high, node.at, node.right, levels))
    }
}

/// Makes one tree of two, of which the second has the greater keys. `levels` is at least the number
/// of chunks in both.
fn join(region: &mut Region, first: usize, second: usize, levels: usize) -> usize
    requires small { length region.old ≤ 2 ^ 27 }
    requires held { (a b : Tree) × HoldsTree region.old first a × HoldsTree region.old second b
        × ((k : ℕ) → cover (runs_in a) k + cover (runs_in b) k ≤ 1)
        × (low : ℕ) × (mid : ℕ) × (high : ℕ) × IsWithin low mid a × IsWithin mid high b × (low ≤ mid) × (mid ≤ high) × (length (runs_in a) + length (runs_in b) ≤ levels) }
    ensures joins { (a b : Tree) (low mid high : ℕ) → HoldsTree region.old first a → HoldsTree region.old second b
        → ((k : ℕ) → cover (runs_in a) k + cover (runs_in b) k ≤ 1)
        → IsWithin low mid a → IsWithin mid high b → low ≤ mid → mid ≤ high → Joins region.new a b result low high }
    ensures same_length { length region.new ≡ length region.old }
    ensures others { (a b : Tree) (low mid high : ℕ) → HoldsTree region.old first a → HoldsTree region.old second b
        → ((k : ℕ) → cover (runs_in a) k + cover (runs_in b) k ≤ 1)
        → IsWithin low mid a → IsWithin mid high b → low ≤ mid → mid ≤ high
        → (k : ℕ) → cover (runs_in a) k + cover (runs_in b) k ≡ 0 → slice_index region.new k ≡ slice_index region.old k }
{
    if first == NONE {
        return second;
    }
    if second == NONE {
        return first;
    }
    let node = read_node(region, first);
    let last = join(region, node.right, second, levels - 1);
    join_at(region, node.left, node.at, last, levels)
}

/// Adds a free chunk that shares no word with those of the tree. `levels` is greater than their
/// number.
pub(crate) fn insert(
    region: &mut Region,
    link: usize,
    at: usize,
    words: usize,
    levels: usize,
) -> usize
    requires small { length region.old ≤ 2 ^ 27 }
    requires chunk { IsFree region.old at words }
    requires large { 64 ≤ words }
    requires held { (t : Tree) × HoldsTree region.old link t × IsOrdered t × IsApartFrom t at words
        × (length (runs_in t) < levels) }
    ensures inserts { (t : Tree) → HoldsTree region.old link t → IsOrdered t → IsApartFrom t at words
        → Inserts region.new t at words result }
    ensures same_length { length region.new ≡ length region.old }
    ensures others { (t : Tree) → HoldsTree region.old link t → IsOrdered t → IsApartFrom t at words
        → (k : ℕ) → cover (runs_in t) k + covers k (at, words) ≡ 0
        → slice_index region.new k ≡ slice_index region.old k }
{
    let (low, high) = split(region, link, key_of(at, words), levels);
    join_at(region, low, at, high, levels)
}

/// Takes a chunk out of the tree. `levels` is at least the number of chunks in it.
pub(crate) fn remove(
    region: &mut Region,
    link: usize,
    at: usize,
    words: usize,
    levels: usize,
) -> usize
    requires small { length region.old ≤ 2 ^ 27 }
    requires chunk { IsFree region.old at words }
    requires held { (t : Tree) × HoldsTree region.old link t × IsOrdered t × Contains (runs_in t) (at, words)
        × (length (runs_in t) ≤ levels) }
    ensures removes { (t : Tree) → HoldsTree region.old link t → IsOrdered t → Contains (runs_in t) (at, words)
        → Removes region.new t at words result }
    ensures same_length { length region.new ≡ length region.old }
    ensures others { (t : Tree) → HoldsTree region.old link t → IsOrdered t
        → (k : ℕ) → cover (runs_in t) k ≡ 0 → slice_index region.new k ≡ slice_index region.old k }
{
    let key = key_of(at, words);
    let (low, rest) = split(region, link, key, levels);
    let (_, high) = split(region, rest, key + 1, levels);
    join(region, low, high, levels)
}

/// The first chunk of the tree whose key is at least `key`: its place and its words. `levels` is at
/// least the number of chunks in it.
pub(crate) fn first_from(
    region: &Region,
    link: usize,
    key: u64,
    levels: usize,
) -> Option<(usize, usize)>
    requires small { length region.now ≤ 2 ^ 27 }
    requires held { (t : Tree) × IsTree region.now link t × (length (runs_in t) ≤ levels) }
    ensures { (t : Tree) (low high : ℕ) → IsTree region.now link t → IsWithin low high t
        → MatchOption result (NoneFrom t key) (IsFirst t key) }
{
    if link == NONE {
        return None;
    }
    let node = read_node(region, link);
    if key_of(node.at, node.words) < key {
        return first_from(region, node.right, key, levels - 1);
    }
    match first_from(region, node.left, key, levels - 1) {
        None => Some((node.at, node.words)),
        Some(found) => Some(found),
    }
}

/// The size of the largest chunk of the tree, 0 where it has none. `levels` is at least the number
/// of chunks in it.
pub(crate) fn largest(region: &Region, link: usize, levels: usize) -> usize
    requires small { length region.now ≤ 2 ^ 27 }
    requires held { (t : Tree) × IsTree region.now link t × (length (runs_in t) ≤ levels) }
    ensures { (t : Tree) (low high : ℕ) → IsTree region.now link t → IsWithin low high t
        → IsLargest t result }
{
    if link == NONE {
        return 0;
    }
    let node = read_node(region, link);
    if node.right == NONE {
        return node.words;
    }
    largest(region, node.right, levels - 1)
}
