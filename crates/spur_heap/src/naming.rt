// Whether an object names new space.
ghost use Rattle.std.specs.Prelude.{◌≡◌, true};
ghost use Rattle.spur_graph.specs.Heaps.{store_of, is_over, names_over};
ghost use Rattle.spur_heap.specs.Parts.{view_of};
ghost use Rattle.spur_heap.specs.Words.{AreSound, is_object};

use crate::heap::HeapParts;
use crate::slots::pointer_count_of;

/// Whether a word names new space.
fn is_new(parts: &HeapParts, word: u64) -> bool
    ensures { result ≡ is_over parts.now.old_end word }
{
    word % 8 == 0 && word / 8 >= parts.old_end as u64
}

/// Whether a pointer slot of the object that starts there names new space.
pub fn names_new(parts: &HeapParts, start: usize) -> bool
    requires sound { AreSound (view_of parts.now) }
    requires there { is_object (view_of parts.now) start ≡ true }
    ensures { result ≡ names_over parts.now.old_end ((store_of (view_of parts.now)).cell start) }
{
    // the length tells that no sum of places wraps
    let _end = parts.region.len();
    let count = pointer_count_of(parts, start);
    'slots: for i in 0..count {
        if is_new(parts, parts.region.get(start + 1 + i)) {
            return true;
        }
    }
    false
}
