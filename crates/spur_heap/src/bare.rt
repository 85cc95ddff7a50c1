// The places and tables of a heap before its words are there.
ghost use Rattle.std.specs.Prelude.{◌≡◌, ◌+◌, ◌*◌, ◌^◌, ◌≤◌, ℕ, IfOk, length, replicate, false};
ghost use Rattle.heap_walk.specs.Starts.{has_start, covered};
ghost use Rattle.std.specs.Borrow.{sem};
ghost use Rattle.spur_heap.specs.Bares.{room_of};
ghost use Rattle.spur_heap.specs.Lending.{LendsRegion};
ghost use Rattle.spur_heap.specs.Tables.{HasEmptyTables, IsUnbound};

use handle_table::HandleTable;
use heap_walk::{Saved, StartMap};
use remembered_set::Remembered;
use spur_graph::Limits;
use spur_words::{NoMemory, Region};
use std::alloc::Global;

/// The places and tables of a heap, to be filled: not yet a heap. A place is the index of a word of the region.
#[derive(Drop)]
pub struct Bare {
    /// All words: old space, eden and the two survivor spaces, one behind another.
    pub region: Region,
    /// Where old space ends. It begins at word 0.
    pub old_end: usize,
    /// The starts of objects and forwarders: none.
    pub starts: StartMap,
    /// The remembered starts: none, with a place for each object that the region can hold.
    pub remembered: Remembered,
    /// The mourners: none, with as many places.
    pub mourners: Vec<u32>,
    /// The mark stack: empty, with as many places.
    pub marks: Vec<u32>,
    /// The table that keeps first fields aside, of as many entries as the limits say.
    pub saved: Vec<Saved>,
    /// The handles: none.
    pub handles: HandleTable,
    /// How large the spaces and tables were asked to be.
    pub limits: Limits,
}

impl Bare {
    /// Places of `old_words` words of old space, the free chunk behind its objects among them, and of what the limits ask for besides, at most 2^27
    /// words together; all are 0. [`NoMemory`] where they are not to be had.
    pub fn new(alloc: Global, old_words: usize, limits: Limits) -> Result<Bare, NoMemory>
        requires few { room_of old_words limits ≤ 2 ^ 27 }
        requires some_saved { 1 ≤ limits.saved }
        ensures zeros { IfOk result (λ bare. bare.region ≡ replicate (room_of old_words limits) 0) }
        ensures covers { IfOk result (λ bare. covered bare.starts ≡ room_of old_words limits) }
        ensures unmarked { IfOk result (λ bare. (s : ℕ) → has_start bare.starts s ≡ false) }
        ensures unbound { IfOk result IsUnbound }
        ensures tables { IfOk result HasEmptyTables }
        ensures limits { IfOk result (λ bare. bare.limits ≡ limits) }
        ensures end { IfOk result (λ bare. bare.old_end ≡ old_words) }
    {
        let words = old_words + limits.eden + 2 * limits.survivor;
        let region = Region::new(alloc, words)?;
        let starts = StartMap::new(alloc, words)?;
        let objects = words / 2;
        let remembered = Remembered::new(alloc, objects)?;
        let Ok(mourners) = Vec::with_capacity(alloc, objects) else {
            return Err(NoMemory);
        };
        let Ok(marks) = Vec::with_capacity(alloc, objects) else {
            return Err(NoMemory);
        };
        let Ok(saved) = Vec::from_elem(alloc, Saved { start: 0, first: 0 }, limits.saved) else {
            return Err(NoMemory);
        };
        let Ok(handles) = HandleTable::new(alloc) else {
            return Err(NoMemory);
        };
        Ok(Bare {
            region,
            old_end: old_words,
            starts,
            remembered,
            mourners,
            marks,
            saved,
            handles,
            limits,
        })
    }

    /// The region, to be filled. Nothing else changes.
    pub fn region_mut(&mut self) -> &mut Region
        ensures* writes_back { sem 𝓛 (LendsRegion self.entry result) }
        ensures value { result.now ≡ self.old.region }
    {
        &mut self.region
    }
}
