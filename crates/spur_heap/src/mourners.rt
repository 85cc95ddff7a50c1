// The table of mourners: the ephemerons that have fired, group after group, until they are taken away.
ghost use Rattle.std.specs.Prelude.{◌≡◌, ◌≢◌, ◌≤◌, ◌<◌, ◌*◌, ◌^◌, ℕ, [], length, drop, slice_index, vec_len, vec_capacity, false, IfSome, IfNone};
ghost use Rattle.spur_graph.specs.Graph.{with_node};
ghost use Rattle.spur_graph.specs.Ordinary.{is_good_word, is_ordinary};
ghost use Rattle.spur_graph.specs.Refusals.{waits};
ghost use Rattle.spur_graph.specs.Heaps.{heap_graph, heap_room, heap_value, waiting_in};
ghost use Rattle.spur_heap.specs.Following.{FollowsEntries};
ghost use Rattle.spur_heap.specs.Mourning.{ChangesTable, TakesEntry, TakesMourner, added, with_group, left, retired_word};
ghost use Rattle.spur_heap.specs.Parts.{ArePartsOfHeap, view_of};
ghost use Rattle.spur_heap.specs.Tables.{begins, start_in};
ghost use Rattle.spur_heap.specs.Views.{IsGood, IsOrdinary, WritesWord, node_in, store};

use crate::chains::{follow_start, follow_word};
use crate::heap::{Heap, HeapParts};

/// What is added to the entry that begins a group. A start is below it.
const GROUP: u32 = 1 << 31;

/// The format of an object that has named slots alone. An ephemeron that has fired has it.
pub const NAMED_SLOTS_FORMAT: u64 = 1;

/// The start in an entry.
fn start_of(entry: u32) -> usize
    ensures { result ≡ start_in entry }
{
    (entry % GROUP) as usize
}

/// The entry of a start, which begins a group where it is the `first` of one.
fn entry_of(start: usize, first: bool) -> u32
    requires below { start < 2 ^ 31 }
    ensures start { start_in result ≡ start }
    ensures begins { begins result ≡ first }
{
    if first {
        start as u32 + GROUP
    } else {
        start as u32
    }
}

/// Makes a place behind the entries, where there is none: those that were taken away go, and the others move to the front.
fn make_place(parts: &mut HeapParts)
    requires taken { parts.old.mourned ≤ length parts.old.mourners.items }
    requires few { length (left parts.old) < vec_capacity parts.old.mourners }
    ensures place { vec_len parts.new.mourners < vec_capacity parts.new.mourners }
    ensures same { left parts.new ≡ left parts.old }
    ensures changes { ChangesTable parts.old parts.new }
{
    if parts.mourners.len() == parts.mourners.capacity() {
        parts.mourners.drain(..parts.mourned);
        parts.mourned = 0;
    }
}

/// Makes the entry at an index, if there is one, the first of its group.
fn begin_group(entries: &mut [u32], i: usize)
    ensures { drop i entries.new ≡ with_group (drop i entries.old) }
{
    if i < entries.len() {
        entries[i] = entries[i] % GROUP + GROUP;
    }
}

/// Takes away the first of the entries that are left. The next one, if there is one, is then the first of its group.
fn take_entry(parts: &mut HeapParts) -> Option<u32>
    requires taken { parts.old.mourned ≤ length parts.old.mourners.items }
    ensures none { IfNone result ((left parts.old ≡ []) × (parts.new ≡ parts.old)) }
    ensures entry { IfSome result (TakesEntry parts.old parts.new) }
{
    let at = parts.mourned;
    if at == parts.mourners.len() {
        return None;
    }
    let entry = parts.mourners[at];
    begin_group(parts.mourners.as_mut_slice(), at + 1);
    parts.mourned = at + 1;
    Some(entry)
}

/// Whether the object that starts there waits among the mourners. Each entry is followed, since it may name a forwarder.
pub fn mourns(parts: &HeapParts, start: usize) -> bool
    requires heap { ArePartsOfHeap parts.now }
    ensures { result ≡ waits (heap_graph (view_of parts.now)) start }
{
    let entries = parts.mourners.as_slice();
    'entries: for i in parts.mourned..entries.len() {
        if follow_start(parts, start_of(entries[i])) == start {
            return true;
        }
    }
    false
}

/// Follows the starts of the mourners in their entries.
pub fn follow_entries(parts: &mut HeapParts)
    requires heap { ArePartsOfHeap parts.old }
    ensures { FollowsEntries (length parts.old.mourners.items) parts.old parts.new }
{
    'entries: for i in parts.mourned..parts.mourners.len() {
        let entry = parts.mourners[i];
        let start = follow_start(parts, start_of(entry));
        parts.mourners[i] = entry_of(start, entry >= GROUP);
    }
}

impl Heap {
    /// The word of mourner `i`, group after group. It may name a forwarder.
    pub fn mourner(&self, i: usize) -> u64
        requires { i < length (waiting_in self.now.mourners) }
        ensures word { result ≡ 8 * slice_index (waiting_in self.now.mourners) i }
        ensures good { IsGood self.now result }
    {
        let parts = &self.parts;
        let entries = parts.mourners.as_slice();
        8 * start_of(entries[parts.mourned + i]) as u64
    }

    /// Makes an ephemeron an object that has named slots alone: its key is a slot like any other from then on. Its header word is written, and no other.
    pub fn retire_ephemeron(&mut self, start: usize)
        requires there { IsOrdinary self.old start }
        requires ephemeron { (node_in self.old start).format ≡ 5 }
        ensures written { WritesWord self.old self.new start (retired_word (slice_index self.old.words start)) }
        ensures graph { heap_graph self.new ≡ with_node (heap_graph self.old) start (record (node_in self.old start) { format = 1 }) }
        ensures room { heap_room self.new ≡ heap_room self.old }
        ensures values { (w : ℕ) → heap_value self.new w ≡ heap_value self.old w }
        ensures goods { (w : ℕ) → is_good_word (store self.new) w ≡ is_good_word (store self.old) w }
        ensures ordinary { (s : ℕ) → is_ordinary (store self.new) s ≡ is_ordinary (store self.old) s }
    {
        let header = self.header(start).set_format(NAMED_SLOTS_FORMAT);
        self.put_header(start, header);
    }

    /// Puts an object of format 1 behind the mourners, as the first of a group or into the last one. There is always a place. Only where the table is full
    /// of mourners and of those that were taken away, all of them move in it.
    pub fn add_mourner(&mut self, start: usize, first: bool)
        requires there { IsOrdinary self.old start }
        requires format { (node_in self.old start).format ≡ 1 }
        requires absent { waits (heap_graph self.old) start ≡ false }
        requires some { first ≡ false → self.old.mourners ≢ [] }
        ensures rest { self.new ≡ record self.old { mourners = added self.old.mourners start first } }
        ensures graph { heap_graph self.new ≡ record (heap_graph self.old) { mourners = added (heap_graph self.old).mourners start first } }
        ensures room { heap_room self.new ≡ heap_room self.old }
    {
        make_place(&mut self.parts);
        self.parts.mourners.push_reserved(entry_of(start, first));
    }

    /// Takes a mourner of the earliest group away, and answers its word, followed; None where there is no mourner. It costs a step for each forwarder that
    /// is followed, and no other mourner moves in the table.
    pub fn take_mourner(&mut self) -> Option<u64>
        ensures none { IfNone result (((heap_graph self.old).mourners ≡ []) × (self.new ≡ self.old)) }
        ensures taken { IfSome result (TakesMourner self.old self.new) }
    {
        let entry = take_entry(&mut self.parts)?;
        Some(follow_word(&self.parts, 8 * start_of(entry) as u64))
    }
}
