// What is not marked goes.
ghost use Rattle.std.specs.Prelude.{◌≡◌, ◌≢◌, ◌<◌, ℕ, length, true, false, if◌then◌else◌};
ghost use Rattle.heap_walk.specs.Starts.{has_start, covered};
ghost use Rattle.spur_graph.specs.Heaps.{is_marked};
ghost use Rattle.planning_compactor.specs.Planning.{marks};
ghost use Rattle.planning_compactor.specs.Ranges.{is_lost};

use heap_walk::StartMap;
use object_header::{FORWARDER_CLASS, Header};

/// Leaves the starts of marked chunks alone. Gives how many objects there are among the others: those that are no forwarders.
pub(crate) fn sweep(words: &[u64], starts: &mut StartMap) -> usize
    requires covers { covered starts.old ≡ length words.now }
    requires stands { (s : ℕ) → has_start starts.old s ≡ true → s < length words.now }
    ensures covers { covered starts.new ≡ covered starts.old }
    ensures kept { (s : ℕ) → has_start starts.old s ≡ true → has_start starts.new s ≡ is_marked words.now s }
    ensures gone { (s : ℕ) → has_start starts.old s ≡ false → has_start starts.new s ≡ false }
    ensures lost { result ≡ length (marks (is_lost (has_start starts.old) words.now) words.now 0 (length words.now)) }
{
    let _end = words.len();
    let mut lost = 0;
    let mut at = 0;
    'starts: while let Some(start) = starts.next(at) {
        lost += keep_marked(words, starts, start);
        at = start + 1;
    }
    lost
}

/// Removes the start of a chunk that is not marked: gives 1 where an object goes, else 0.
fn keep_marked(words: &[u64], starts: &mut StartMap, start: usize) -> usize
    requires inside { start < length words.now }
    requires covered { start < covered starts.old }
    requires there { has_start starts.old start ≡ true }
    ensures covers { covered starts.new ≡ covered starts.old }
    ensures here { has_start starts.new start ≡ is_marked words.now start }
    ensures others { (s : ℕ) → s ≢ start → has_start starts.new s ≡ has_start starts.old s }
    ensures lost { result ≡ (if is_lost (has_start starts.old) words.now start then 1 else 0) }
{
    let header = Header(words[start]);
    if header.marked() == 1 {
        return 0;
    }
    starts.unset(start);
    if header.class() == FORWARDER_CLASS {
        0
    } else {
        1
    }
}
