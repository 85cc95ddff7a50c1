// Where objects go.
ghost use Rattle.std.specs.Prelude.{◌≡◌, ◌≢◌, ◌+◌, ◌-◌, ◌*◌, ◌/◌, ◌^◌, ◌<◌, ◌≤◌, ◌&&◌, ℕ, length, slice_index, IfSome, IfNone, true, false};
ghost use Rattle.object_header.specs.Chunks.{StandsAt};
ghost use Rattle.heap_walk.specs.Starts.{has_start, covered};
ghost use Rattle.spur_graph.specs.FreeSizes.{fits};
ghost use Rattle.planning_compactor.specs.Entries.{entry};
ghost use Rattle.planning_compactor.specs.Spans.{Gap, stop};
ghost use Rattle.heap_walk.specs.Shapes.{lead_at, place_at, words_at, end_at};
ghost use Rattle.compaction_laws.specs.Compacting.{is_pinned};
ghost use Rattle.planning_compactor.specs.Pins.{is_pin};
ghost use Rattle.planning_compactor.specs.Planning.{pins, IsIn, AreLaid, AreAhead, Passing, HasRoom, HasMoves, IsPlan, IsAbsent, left, IsNext, IsPlanned};

use heap_walk::{Saved, StartMap, lead_of, words_of};
use object_header::Header;

/// How far the plan of a range is.
#[derive(Clone, Copy)]
pub(crate) struct Plan {
    /// The index of the first word of the range.
    pub low: usize,
    /// The index behind the last word of the range.
    pub end: usize,
    /// From this start on objects have no place yet.
    pub next: usize,
    /// From this start on pinned objects are ahead of the finger.
    pub pin: usize,
    /// The place of the next object, if the gap there takes it.
    pub finger: usize,
}

/// Whether a gap takes so many words: nothing of it is left, or the two words that a chunk has at least.
fn fits(words: usize, gap: usize) -> bool
    ensures { result ≡ fits words gap }
{
    gap == words || (words <= gap && 2 <= gap - words)
}

/// The first pinned object that starts at `from` or behind it, and before `end`.
fn next_pin(words: &[u64], starts: &StartMap, from: usize, end: usize) -> Option<usize>
    requires stands { (s : ℕ) → has_start starts.now s ≡ true → s < length words.now }
    requires within { end ≤ covered starts.now }
    ensures found { IfSome result (λ s. (from ≤ s) × (s < end) × (is_pin (has_start starts.now) words.now s ≡ true)) }
    ensures first { IfSome result (λ s. (k : ℕ) → from ≤ k → k < s → is_pin (has_start starts.now) words.now k ≡ false) }
    ensures none { IfNone result ((k : ℕ) → from ≤ k → k < end → is_pin (has_start starts.now) words.now k ≡ false) }
{
    let mut at = from;
    'starts: while let Some(start) = starts.next(at) {
        if start >= end {
            return None;
        }
        if Header(words[start]).pinned() == 1 {
            return Some(start);
        }
        at = start + 1;
    }
    None
}

/// Moves the finger to where the object at `start` goes, which has `size` words from `place` on: over each pinned object that begins before it and whose gap
/// does not take it.
fn stop(words: &[u64], starts: &StartMap, plan: &mut Plan, start: usize, place: usize, size: usize)
    requires covers { covered starts.now ≡ length words.now }
    requires within { plan.old.end ≤ length words.now }
    requires laid { AreLaid (has_start starts.now) words.now plan.old.low plan.old.end }
    requires here { IsIn (has_start starts.now) plan.old.low plan.old.end start }
    requires place { place ≡ place_at words.now start }
    requires size { 2 ≤ size }
    requires pin { (plan.old.low ≤ plan.old.pin) × (plan.old.pin ≤ plan.old.end) }
    requires ahead { AreAhead (has_start starts.now) words.now plan.old.low plan.old.end plan.old.pin plan.old.finger }
    requires down { Gap plan.old.finger place }
    ensures same { plan.new ≡ record plan.old { pin = plan.new.pin; finger = plan.new.finger } }
    ensures passing { Passing (has_start starts.now) words.now plan.old.low plan.old.end place
        plan.old.pin plan.old.finger plan.new.pin plan.new.finger }
    ensures is { stop (pins (has_start starts.now) words.now plan.old.pin plan.old.end) plan.old.finger place size
        ≡ record { at = plan.new.finger; ahead = pins (has_start starts.now) words.now plan.new.pin plan.old.end } }
    ensures room { HasRoom (has_start starts.now) words.now plan.old.low plan.old.end place size plan.new.pin plan.new.finger }
{
    'pins: while let Some(pin) = next_pin(words, starts, plan.pin, plan.end) {
        plan.pin = pin;
        let at = pin - lead_of(words, pin);
        if at >= place {
            return;
        }
        if fits(size, at - plan.finger) {
            return;
        }
        plan.finger = at + words_of(words, pin);
        plan.pin = pin + 1;
    }
    plan.pin = plan.end;
}

/// Plans the object at `start`, the next of the range, and gives the number of entries. Objects that stay where they are at the front get none.
fn plan_object(
    words: &[u64],
    starts: &StartMap,
    plan: &mut Plan,
    table: &mut [Saved],
    count: usize,
    start: usize,
) -> usize
    requires covers { covered starts.now ≡ length words.now }
    requires within { plan.old.end ≤ length words.now }
    requires laid { AreLaid (has_start starts.now) words.now plan.old.low plan.old.end }
    requires here { IsIn (has_start starts.now) plan.old.low plan.old.end start }
    requires next { plan.old.next ≤ start }
    requires none { (k : ℕ) → plan.old.next ≤ k → k < start → has_start starts.now k ≡ false }
    requires room { count < length table.old }
    requires plan { IsPlan (has_start starts.now) words.now plan.old.low plan.old.end
        plan.old.next plan.old.pin plan.old.finger table.old count }
    requires moves { HasMoves (has_start starts.now) words.now plan.old.low plan.old.end table.old count plan.old.next }
    ensures same { (plan.new.low ≡ plan.old.low) × (plan.new.end ≡ plan.old.end) × (plan.new.next ≡ start + 1) }
    ensures same_table { length table.new ≡ length table.old }
    ensures few { (result ≤ count + 1) × (count ≤ result) }
    ensures plan { IsPlan (has_start starts.now) words.now plan.old.low plan.old.end
        plan.new.next plan.new.pin plan.new.finger table.new result }
    ensures moves { HasMoves (has_start starts.now) words.now plan.old.low plan.old.end table.new result plan.new.next }
    ensures front { (k : ℕ) → k < count → entry table.new k ≡ entry table.old k }
    ensures is { IsNext (left (has_start starts.now) words.now plan.old.next plan.old.pin plan.old.finger plan.old.end)
        table.new count result plan.new.next (left (has_start starts.now) words.now plan.new.next plan.new.pin plan.new.finger plan.old.end) }
{
    plan.next = start + 1;
    if Header(words[start]).pinned() == 1 {
        return count;
    }
    let lead = lead_of(words, start);
    let size = words_of(words, start);
    stop(words, starts, plan, start, start - lead, size);
    let target = plan.finger + lead;
    plan.finger += size;
    if count == 0 && target == start {
        return count;
    }
    table[count] = Saved {
        start,
        first: 8 * target as u64,
    };
    count + 1
}

/// The first start at `from` or behind it, and before `end`.
pub(crate) fn next_before(starts: &StartMap, from: usize, end: usize) -> Option<usize>
    requires within { end ≤ covered starts.now }
    ensures found { IfSome result (λ s. (from ≤ s) × (s < end) × (has_start starts.now s ≡ true)) }
    ensures first { IfSome result (λ s. (k : ℕ) → from ≤ k → k < s → has_start starts.now k ≡ false) }
    ensures none { IfNone result ((k : ℕ) → from ≤ k → k < end → has_start starts.now k ≡ false) }
{
    match starts.next(from) {
        Some(start) => {
            if start < end {
                return Some(start);
            }
            None
        }
        None => None,
    }
}

/// Plans objects of the range until the table is full or none is left, and gives the number of entries.
pub(crate) fn plan_moves(
    words: &[u64],
    starts: &StartMap,
    plan: &mut Plan,
    table: &mut [Saved],
) -> usize
    requires covers { covered starts.now ≡ length words.now }
    requires within { plan.old.end ≤ length words.now }
    requires laid { AreLaid (has_start starts.now) words.now plan.old.low plan.old.end }
    requires plan { IsPlan (has_start starts.now) words.now plan.old.low plan.old.end
        plan.old.next plan.old.pin plan.old.finger table.old 0 }
    ensures same { (plan.new.low ≡ plan.old.low) × (plan.new.end ≡ plan.old.end) × (plan.old.next ≤ plan.new.next) }
    ensures same_table { length table.new ≡ length table.old }
    ensures few { result ≤ length table.old }
    ensures plan { IsPlan (has_start starts.now) words.now plan.old.low plan.old.end
        plan.new.next plan.new.pin plan.new.finger table.new result }
    ensures moves { HasMoves (has_start starts.now) words.now plan.old.low plan.old.end table.new result plan.new.next }
    ensures is { IsPlanned (left (has_start starts.now) words.now plan.old.next plan.old.pin plan.old.finger plan.old.end)
        table.new result plan.new.next (left (has_start starts.now) words.now plan.new.next plan.new.pin plan.new.finger plan.old.end) }
    ensures done { result < length table.old → (s : ℕ) → IsIn (has_start starts.now) plan.old.low plan.old.end s → s < plan.new.next }
{
    let mut count = 0;
    'objects: while count < table.len() {
        match next_before(starts, plan.next, plan.end) {
            Some(start) => count = plan_object(words, starts, plan, table, count, start),
            None => return count,
        }
    }
    count
}
