// Where the handles lie, found by mutator and name.
ghost use Rattle.std.specs.Prelude.{◌≡◌, ◌≢◌, ℕ, ◌+◌, ◌<◌, ◌≤◌, ◌↔◌, [], length, IsTrue, IfOk, OnErr, IfErr, IfSome, IfNone, swap_remove};
ghost use Rattle.handle_table.specs.Handles.{AreDistinct, IsHeldAt, IsAbsent, Enters};
ghost use Rattle.handle_table.specs.Slots.{home_of, key_of, home_at, key_at, slot_at, HasGap, IsFreeFor, IsIndexed, IsIndex};

use spur_graph::HandleName;
use std::alloc::{AllocError, Global};
use std::hash::{FoldHasher, Hash, Hasher};
use std::marker::Model;

/// How many handles all mutators hold together at most.
pub const MOST_HANDLES: usize = 65_536;

// Home slots are twice as many as handles, so a search is short.
const HOMES: usize = 131_072;

// A search starts at a home slot, and passes at most one slot for each handle.
const SLOTS: usize = HOMES + MOST_HANDLES;

// A handle, and the slot that has its index.
#[derive(Clone, Copy)]
pub struct Held {
    mutator: u8,
    name: HandleName,
    slot: u32,
}

impl Held {
    fn is(&self, mutator: u8, name: &HandleName) -> bool
        ensures { IsTrue result ↔ (key_of self.now ≡ (mutator, name.now.bytes)) }
    {
        self.mutator == mutator && self.name == *name
    }

    fn home(&self) -> usize
        ensures value { result ≡ home_of (key_of self.now) }
        ensures small { result < HOMES }
    {
        home(self.mutator, &self.name)
    }
}

// What becomes of a handle that is to be held.
pub enum Entered {
    // It is held at this index.
    Before(usize),
    // It is new, and stands at the last index now.
    Last,
    // It is new, and no more can be held.
    Full,
}

/// The handles that are held, each at an index of its own; a new one gets the index behind all others.
#[derive(Drop)]
pub struct Index {
    slots: Vec<u32>,
    held: Vec<Held>,
}

impl Model for Index {
    ghost use Rattle.std.specs.Prelude.{List, map, ◌≤◌, vec_capacity};
    ghost use Rattle.spur_graph.specs.Graph.{Handle};
    ghost use Rattle.handle_table.specs.declared.index.TheConstants.{MOST_HANDLES};
    ghost use Rattle.handle_table.specs.Slots.{key_of, IsIndex};

    ghost Value = { List Handle };

    ghost view = { λ x. map key_of x.held.items };

    ghost invariant = { λ x. IsIndex x.slots.items x.held.items × (MOST_HANDLES ≤ vec_capacity x.held) };
}

impl Index {
    // No handle, and room for the most.
    pub(crate) fn new(alloc: Global) -> Result<Index, AllocError>
        ensures { IfOk result (λ index. index ≡ []) }
    {
        let held = Vec::with_capacity(alloc, MOST_HANDLES)?;
        let slots = Vec::from_elem(alloc, 0, SLOTS)?;
        Ok(Index { slots, held })
    }

    pub(crate) fn len(&self) -> usize
        ensures len { result ≡ length self.now }
        ensures few { result ≤ MOST_HANDLES }
        ensures distinct { AreDistinct self.now }
    {
        self.held.len()
    }

    // The index of a handle.
    pub(crate) fn find(&self, mutator: u8, name: &HandleName) -> Option<usize>
        ensures found { IfSome result (IsHeldAt self.now (mutator, name.now.bytes)) }
        ensures absent { IfNone result (IsAbsent self.now (mutator, name.now.bytes)) }
        ensures distinct { AreDistinct self.now }
    {
        find(self.slots.as_slice(), self.held.as_slice(), mutator, name).ok()
    }

    // Holds a handle from now on, at the last index if it was not held.
    pub(crate) fn enter(&mut self, mutator: u8, name: HandleName) -> Entered
        ensures enters { Enters self.old (mutator, name.bytes) result self.new }
        ensures distinct { AreDistinct self.old }
    {
        match find(self.slots.as_slice(), self.held.as_slice(), mutator, &name) {
            Ok(n) => Entered::Before(n),
            Err(slot) => {
                if self.held.len() == MOST_HANDLES {
                    return Entered::Full;
                }
                self.held.push_reserved(Held {
                    mutator,
                    name,
                    slot: slot as u32,
                });
                self.slots[slot] = self.held.len() as u32;
                Entered::Last
            }
        }
    }

    // Holds a handle no longer, and answers the index that it had, which the last handle has now.
    pub(crate) fn leave(&mut self, mutator: u8, name: &HandleName) -> Option<usize>
        ensures found { IfSome result (IsHeldAt self.old (mutator, name.now.bytes)) }
        ensures left { IfSome result (λ n. self.new ≡ swap_remove self.old n (mutator, name.now.bytes)) }
        ensures absent { IfNone result (IsAbsent self.old (mutator, name.now.bytes)) }
        ensures same { IfNone result (self.new ≡ self.old) }
        ensures distinct { AreDistinct self.old }
    {
        let n = self.find(mutator, name)?;
        let last = self.held.len() - 1;
        let slot = self.held[n].slot as usize;
        let last_slot = self.held[last].slot as usize;
        self.slots[last_slot] = n as u32 + 1;
        self.slots[slot] = 0;
        self.held.swap_remove(n);
        close_gap(self.slots.as_mut_slice(), self.held.as_mut_slice(), slot);
        Some(n)
    }
}

// The slot at which the search for a handle starts.
#[tactic(auto, unfolding(crate::specs::Slots::home_of))]
fn home(mutator: u8, name: &HandleName) -> usize
    ensures value { result ≡ home_of (mutator, name.now.bytes) }
    ensures small { result < HOMES }
{
    let mut hasher = FoldHasher::default();
    hasher.write_u8(mutator);
    name.hash(&mut hasher);
    (hasher.finish() % HOMES as u64) as usize
}

// The index of a handle, or the free slot at which the search for it ends.
fn find(slots: &[u32], held: &[Held], mutator: u8, name: &HandleName) -> Result<usize, usize>
    requires { IsIndex slots.now held.now }
    ensures within { IfOk result (λ n. n < length held.now) }
    ensures found { IfOk result (λ n. key_at held.now n ≡ (mutator, name.now.bytes)) }
    ensures absent { OnErr result ((n : ℕ) → n < length held.now → key_at held.now n ≢ (mutator, name.now.bytes)) }
    ensures free { IfErr result (IsFreeFor slots.now (home_of (mutator, name.now.bytes))) }
{
    let mut at = home(mutator, name);
    'probes: while slots[at] != 0 {
        let n = slots[at] as usize - 1;
        if held[n].is(mutator, name) {
            return Ok(n);
        }
        at += 1;
    }
    Err(at)
}

// Closes a gap: each handle behind it that a search would miss moves up, and leaves a gap in turn.
fn close_gap(slots: &mut [u32], held: &mut [Held], mut gap: usize)
    requires { HasGap slots.old (length held.old) (home_at held.old) (slot_at held.old) gap (gap + 1) }
    ensures indexed { IsIndexed slots.new (length held.new) (home_at held.new) (slot_at held.new) }
    ensures keys { (n : ℕ) → key_at held.new n ≡ key_at held.old n }
{
    let first = gap + 1;
    'shift: for at in first..SLOTS {
        let index = slots[at];
        if index == 0 {
            return;
        }
        let n = index as usize - 1;
        if held[n].home() <= gap {
            slots[gap] = index;
            slots[at] = 0;
            held[n].slot = gap as u32;
            gap = at;
        }
    }
}
