// The mark bits of all headers, cleared.
ghost use Rattle.std.specs.Prelude.{◌≡◌, ◌≤◌, ◌^◌, length};
ghost use Rattle.object_header.specs.Chunks.{Cuts, row};
ghost use Rattle.spur_graph.specs.Heaps.{chunks_of};
ghost use Rattle.spur_heap.specs.Words.{AreSound};
ghost use Rattle.spur_heap.specs.Parts.{view_of};
ghost use Rattle.spur_heap.specs.MarkBits.{Unmarks};

use crate::heap::HeapParts;
use heap_walk::span_of;
use object_header::Header;
use spur_words::Region;

/// Clears the mark bits of the chunks into which the words from `from` up to `end` are cut.
fn clear_row(region: &mut Region, from: usize, end: usize)
    requires small { length region.old ≤ 2 ^ 27 }
    requires row { Cuts region.old from end (row region.old from end) }
    requires within { end ≤ length region.old }
    ensures { Unmarks region.old region.new (row region.old from end) }
{
    let mut at = from;
    'chunks: while at < end {
        let chunk = span_of(at, region.get(at));
        let header = Header(region.get(chunk.start));
        region.put(chunk.start, header.set_marked(0).0);
        at = chunk.end;
    }
}

/// Clears the mark bits of all chunks, free ones and forwarders too, so that nothing but sizes has to be known of them.
pub fn clear_rows(parts: &mut HeapParts)
    requires sound { AreSound (view_of parts.old) }
    ensures rest { parts.new ≡ record parts.old { region = parts.new.region } }
    ensures unmarks { Unmarks parts.old.region parts.new.region (chunks_of (view_of parts.old)) }
{
    // the length tells that no sum of places wraps
    let _end = parts.region.len();
    let eden = parts.eden_at;
    let past = parts.past_at;
    clear_row(&mut parts.region, 0, parts.old_end);
    clear_row(&mut parts.region, eden, eden + parts.eden_used);
    clear_row(&mut parts.region, past, past + parts.past_used);
}
