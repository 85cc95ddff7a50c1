// A walk over the chunks that are saved, word by word. Each chunk is looked at once, when the walk comes to its first word.
ghost use Rattle.std.specs.Prelude.{◌≡◌, ◌<◌, ◌≤◌, ◌+◌, length};
ghost use Rattle.object_header.specs.Head.{class_of, is_unformed};
ghost use Rattle.spur_graph.specs.Heaps.{IsWhole};
ghost use Rattle.spur_heap.specs.Parts.{view_of};
ghost use Rattle.image_save.specs.Saved.{region_place, file_words};
ghost use Rattle.image_save.specs.Places.{ArePlaces, Begins, IsAt, IsReady};

use crate::places::Places;
use heap_walk::span_of;
use object_header::{FORWARDER_CLASS, FREE_CLASS, Header};
use spur_heap::{HeapParts, pointer_count_of};

/// The chunk whose words are written, by places in the region.
#[derive(Clone, Copy)]
pub(crate) struct Cursor {
    /// Where its first word stands.
    pub at: usize,
    /// Where its header stands, behind an overflow word if it has one.
    pub start: usize,
    /// Where its last word ends.
    pub end: usize,
    /// How many slots of an object are pointers. These are the first. A free chunk and a forwarder have none to be followed: `None`.
    pub pointers: Option<usize>,
}

/// The cursor before all chunks.
pub(crate) fn before() -> Cursor
    ensures { result.end ≡ 0 }
{
    Cursor {
        at: 0,
        start: 0,
        end: 0,
        pointers: None,
    }
}

/// Whether this header is that of a free chunk or a forwarder, and of no object.
fn is_unformed(header: u64) -> bool
    ensures { result ≡ is_unformed (class_of header) }
{
    let class = Header(header).class();
    class == FREE_CLASS || class == FORWARDER_CLASS
}

/// The cursor at the chunk that begins at the word `at`.
pub(crate) fn look(parts: &HeapParts, places: &Places, at: usize) -> Cursor
    requires whole { IsWhole (view_of parts.now) }
    requires places { ArePlaces (view_of parts.now) places.now }
    requires begins { Begins (view_of parts.now) at }
    ensures { IsAt (view_of parts.now) at result }
{
    let span = span_of(at, parts.region.get(at));
    if is_unformed(parts.region.get(span.start)) {
        return Cursor {
            at,
            start: span.start,
            end: span.end,
            pointers: None,
        };
    }
    Cursor {
        at,
        start: span.start,
        end: span.end,
        pointers: Some(pointer_count_of(parts, span.start)),
    }
}

/// Brings the cursor to the chunk of the word `at` of the region, which is word `i` of the file.
pub(crate) fn advance(parts: &HeapParts, places: &Places, cursor: &mut Cursor, i: usize, at: usize)
    requires whole { IsWhole (view_of parts.now) }
    requires places { ArePlaces (view_of parts.now) places.now }
    requires inside { i < file_words (view_of parts.now) }
    requires place { at ≡ region_place (view_of parts.now) i }
    requires ready { IsReady (view_of parts.now) i cursor.old }
    ensures at { IsAt (view_of parts.now) at cursor.new }
    ensures ready { IsReady (view_of parts.now) (i + 1) cursor.new }
{
    if at >= cursor.end {
        *cursor = look(parts, places, at);
    }
}
