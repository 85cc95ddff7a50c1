// The map of starts, from the words.
ghost use Rattle.std.specs.Prelude.{◌≡◌, ◌<◌, ◌≤◌, ◌&&◌, ◌||◌, ℕ, length, false, not, nat_eq};
ghost use Rattle.object_header.specs.Chunks.{Cuts, row, starts_in};
ghost use Rattle.object_header.specs.Head.{class_of};
ghost use Rattle.object_header.specs.declared.header.TheConstants.{FREE_CLASS};
ghost use Rattle.heap_walk.specs.Starts.{has_start, covered};

use crate::reading::span_of;
use crate::starts::StartMap;
use object_header::{FREE_CLASS, Header};

/// Enters the start of a chunk with this header, unless the chunk is free.
fn mark(starts: &mut StartMap, start: usize, header: Header)
    requires { start < covered starts.old }
    ensures marks { (k : ℕ) → has_start starts.new k ≡ (has_start starts.old k || (nat_eq k start && not (nat_eq (class_of header.0) FREE_CLASS))) }
    ensures covers { covered starts.new ≡ covered starts.old }
{
    if header.class() != FREE_CLASS {
        starts.set(start);
    }
}

/// Enters the starts of the objects and forwarders among the words up to `end`, which are cut into
/// chunks, into a map that has none yet.
pub fn mark_starts(words: &[u64], end: usize, starts: &mut StartMap)
    requires row { Cuts words.now 0 end (row words.now 0 end) }
    requires within { end ≤ length words.now }
    requires covers { covered starts.old ≡ length words.now }
    requires empty { (s : ℕ) → has_start starts.old s ≡ false }
    ensures map { (s : ℕ) → has_start starts.new s ≡ starts_in words.now (row words.now 0 end) s }
    ensures covers { covered starts.new ≡ length words.now }
{
    let mut at = 0;
    'chunks: while at < end {
        let chunk = span_of(at, words[at]);
        mark(starts, chunk.start, Header(words[chunk.start]));
        at = chunk.end;
    }
}
