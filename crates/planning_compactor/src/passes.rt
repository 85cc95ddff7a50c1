// One pass: objects move, and references with them.
ghost use Rattle.std.specs.Prelude.{◌≡◌, ◌^◌, ◌<◌, ◌≤◌, ℕ, List, length};
ghost use Rattle.heap_walk.specs.declared.saved.Saved.{Saved};
ghost use Rattle.heap_walk.specs.Starts.{has_start, covered};
ghost use Rattle.heap_laws.specs.Compaction.{MovedBy};
ghost use Rattle.planning_compactor.specs.Planning.{AreLaid, HasMoves, IsPlan, IsIn, left};
ghost use Rattle.planning_compactor.specs.Objects.{goes_to, AreObjects, KeepsLoose, IsPass};
ghost use Rattle.planning_compactor.specs.Roots.{roots_of, AreRoots, RootsMovedBy};

use crate::plan::{Plan, plan_moves};
use crate::roots::readdress_roots;
use crate::slides::{set_targets, slide_all, unset_starts};
use crate::slots::readdress;
use crate::table::swap;
use heap_walk::{Saved, StartMap};

/// Moves the objects of a table, which has some, each to where its entry says. The plan tells the range.
fn move_objects(
    words: &mut [u64],
    handles: &mut [u64],
    special: &mut u64,
    mourners: &mut [u32],
    starts: &mut StartMap,
    plan: &Plan,
    table: &mut [Saved],
)
    requires covers { covered starts.old ≡ length words.old }
    requires small { length words.old ≤ 2 ^ 27 }
    requires some { 0 < length table.old }
    requires laid { AreLaid (has_start starts.old) words.old plan.now.low plan.now.end }
    requires objects { AreObjects (has_start starts.old) words.old }
    requires moves { HasMoves (has_start starts.old) words.old plan.now.low plan.now.end table.old (length table.old) plan.now.next }
    requires roots { AreRoots (has_start starts.old) (roots_of handles.old special.old mourners.old) }
    ensures covers { covered starts.new ≡ covered starts.old }
    ensures same_table { length table.new ≡ length table.old }
    ensures moved { MovedBy (goes_to table.old) (has_start starts.old) (has_start starts.new) words.old words.new }
    ensures loose { KeepsLoose (has_start starts.old) words.old words.new plan.now.low plan.now.end }
    ensures roots { RootsMovedBy (goes_to table.old) (roots_of handles.old special.old mourners.old) (roots_of handles.new special.new mourners.new) }
{
    let first = table[0].start;
    let last = table[table.len() - 1].start;
    swap(words, table);
    readdress_roots(words, handles, special, mourners, first, last);
    readdress(words, table, starts, first, last);
    swap(words, table);
    slide_all(words, table);
    unset_starts(starts, table);
    set_targets(starts, table);
}

/// One pass over a range: plans as many moves as the table has room for, and makes them. Gives their number.
///
/// It walks the map of starts once to rewrite references, and tests whether a word names an object of the table before it reads what it names.
pub(crate) fn pass(
    words: &mut [u64],
    handles: &mut [u64],
    special: &mut u64,
    mourners: &mut [u32],
    starts: &mut StartMap,
    plan: &mut Plan,
    table: &mut [Saved],
) -> usize
    requires covers { covered starts.old ≡ length words.old }
    requires small { length words.old ≤ 2 ^ 27 }
    requires within { plan.old.end ≤ length words.old }
    requires laid { AreLaid (has_start starts.old) words.old plan.old.low plan.old.end }
    requires objects { AreObjects (has_start starts.old) words.old }
    requires plan { IsPlan (has_start starts.old) words.old plan.old.low plan.old.end plan.old.next plan.old.pin plan.old.finger table.old 0 }
    requires roots { AreRoots (has_start starts.old) (roots_of handles.old special.old mourners.old) }
    ensures covers { covered starts.new ≡ covered starts.old }
    ensures same_words { length words.new ≡ length words.old }
    ensures same_table { length table.new ≡ length table.old }
    ensures same { (plan.new.low ≡ plan.old.low) × (plan.new.end ≡ plan.old.end) × (plan.old.next ≤ plan.new.next) }
    ensures few { result ≤ length table.old }
    ensures laid { AreLaid (has_start starts.new) words.new plan.old.low plan.old.end }
    ensures objects { AreObjects (has_start starts.new) words.new }
    ensures plan { IsPlan (has_start starts.new) words.new plan.old.low plan.old.end plan.new.next plan.new.pin plan.new.finger table.new 0 }
    ensures moved { (es : List Saved) × (length es ≡ result)
        × IsPass (left (has_start starts.old) words.old plan.old.next plan.old.pin plan.old.finger plan.old.end) es (has_start starts.old) (has_start starts.new) words.old words.new
        plan.old.low plan.old.end plan.new.next (left (has_start starts.new) words.new plan.new.next plan.new.pin plan.new.finger plan.old.end)
        × RootsMovedBy (goes_to es) (roots_of handles.old special.old mourners.old) (roots_of handles.new special.new mourners.new) }
    ensures roots { AreRoots (has_start starts.new) (roots_of handles.new special.new mourners.new) }
    ensures done { result < length table.old → (s : ℕ) → IsIn (has_start starts.new) plan.old.low plan.old.end s → s < plan.new.next }
{
    let count = plan_moves(words, starts, plan, table);
    if count == 0 {
        return 0;
    }
    move_objects(
        words,
        handles,
        special,
        mourners,
        starts,
        plan,
        &mut table[..count],
    );
    count
}
