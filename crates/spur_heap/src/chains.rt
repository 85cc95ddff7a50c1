// Chains of forwarders.
ghost use Rattle.std.specs.Prelude.{◌≡◌, true};
ghost use Rattle.spur_graph.specs.Cells.{final};
ghost use Rattle.spur_graph.specs.Heaps.{store_of, heap_value};
ghost use Rattle.heap_cells.specs.Settled.{settled_word};
ghost use Rattle.spur_heap.specs.Words.{AreSound, starts_at, is_good};
ghost use Rattle.spur_heap.specs.Parts.{view_of};

use crate::heap::HeapParts;
use object_header::{FORWARDER_CLASS, Header};

/// The start of the object to which the forwarders from `start` on lead, one step for each.
pub fn follow_start(parts: &HeapParts, start: usize) -> usize
    requires sound { AreSound (view_of parts.now) }
    requires there { starts_at (view_of parts.now) start ≡ true }
    ensures { result ≡ final (store_of (view_of parts.now)) start }
{
    let mut at = start;
    'hops: while Header(parts.region.get(at)).class() == FORWARDER_CLASS {
        at = (parts.region.get(at + 1) / 8) as usize;
    }
    at
}

/// The word, followed: an immediate stays.
pub fn follow_word(parts: &HeapParts, word: u64) -> u64
    requires sound { AreSound (view_of parts.now) }
    requires good { is_good (view_of parts.now) word ≡ true }
    ensures followed { result ≡ settled_word (store_of (view_of parts.now)) word }
    ensures value { heap_value (view_of parts.now) result ≡ heap_value (view_of parts.now) word }
    ensures good { is_good (view_of parts.now) result ≡ true }
{
    if word % 8 != 0 {
        return word;
    }
    8 * follow_start(parts, (word / 8) as usize) as u64
}
