// Where the chunks of a heap stand.
ghost use Rattle.std.specs.Prelude.{◌≡◌, ◌<◌, length, true};
ghost use Rattle.spur_graph.specs.Cells.{first};
ghost use Rattle.spur_graph.specs.Heaps.{store_of};
ghost use Rattle.heap_cells.specs.Settled.{word_of};
ghost use Rattle.spur_heap.specs.Words.{AreSound, is_good};
ghost use Rattle.spur_heap.specs.Parts.{view_of};

use crate::heap::HeapParts;
use heap_walk::span_of;

/// The start of chunk `k` of old space, one of the first five, found by the sizes of those before it.
pub fn first_start(parts: &HeapParts, k: usize) -> usize
    requires sound { AreSound (view_of parts.now) }
    requires five { k < 5 }
    ensures start { result ≡ first (store_of (view_of parts.now)) k }
    ensures inside { result < length parts.now.region }
{
    let mut at = 0;
    'chunks: for _ in 0..k {
        at = span_of(at, parts.region.get(at)).end;
    }
    span_of(at, parts.region.get(at)).start
}

/// The word of the first chunk, the second or the third: nil, false or true.
pub fn first_word(parts: &HeapParts, k: usize) -> u64
    requires sound { AreSound (view_of parts.now) }
    requires three { k < 3 }
    ensures word { result ≡ word_of (first (store_of (view_of parts.now)) k) }
    ensures good { is_good (view_of parts.now) result ≡ true }
{
    8 * first_start(parts, k) as u64
}
