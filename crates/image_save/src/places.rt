// Where the words of a heap stand in its file. A place of the region is the index of a word there, and a place in the file that of a word of its heap.
ghost use Rattle.std.specs.Prelude.{◌≡◌, ◌≤◌, ◌<◌, ◌+◌, ◌^◌, length, nat_eq, if◌then◌else◌};
ghost use Rattle.object_header.specs.Head.{class_of};
ghost use Rattle.spur_graph.specs.Cells.{first};
ghost use Rattle.object_header.specs.Chunks.{Cuts, row};
ghost use Rattle.spur_graph.specs.ImageFile.{base};
ghost use Rattle.spur_graph.specs.Heaps.{IsCarried, IsWhole, store_of};
ghost use Rattle.spur_heap.specs.Parts.{view_of};
ghost use Rattle.image_save.specs.Saved.{cut, kept_from, file_place, region_place, file_words};
ghost use Rattle.image_save.specs.Places.{ArePlaces, HasPlace};

use heap_walk::span_of;
use object_header::{FREE_CLASS, Header};
use spur_graph::FREE_LISTS;
use spur_heap::{HeapParts, first_start};

/// What is left out of the region, and what the words of the file are told from.
#[derive(Clone, Copy)]
pub(crate) struct Places {
    /// How many of the first words of old space are saved: all up to the free chunks at its end.
    pub cut: usize,
    /// Where eden begins in the region.
    pub eden_at: usize,
    /// Where its used words end.
    pub eden_end: usize,
    /// The place in the file of the first word of past space, behind old space and eden.
    pub past_from: usize,
    /// Where past space begins in the region.
    pub past_at: usize,
    /// The words of the file's heap, without the bridge.
    pub words: usize,
    /// The address of the first of them, in bytes.
    pub base: u64,
    /// The start of the free lists object in the region. Its words are no values.
    pub lists: usize,
}

/// Where the last chunk ends that is no free one: at `end` if this header, of a chunk that ends there, is not that of a free chunk, else at `kept` as before.
fn kept_after(header: u64, kept: usize, end: usize) -> usize
    ensures { result ≡ (if nat_eq (class_of header) FREE_CLASS then kept else end) }
{
    if Header(header).class() == FREE_CLASS {
        kept
    } else {
        end
    }
}

/// Where the last chunk ends that is no free one, among those of the words up to `end`; 0 where all are free.
pub(crate) fn kept_end(words: &[u64], end: usize) -> usize
    requires row { Cuts words.now 0 end (row words.now 0 end) }
    requires within { end ≤ length words.now }
    ensures { result ≡ kept_from words.now 0 (row words.now 0 end) }
{
    let mut kept = 0;
    let mut at = 0;
    'chunks: while at < end {
        let chunk = span_of(at, words[at]);
        kept = kept_after(words[chunk.start], kept, chunk.end);
        at = chunk.end;
    }
    kept
}

/// The address of the first word, which is that of the image the heap was loaded from.
fn base_of(carried: &[u8; 128]) -> u64
    requires { IsCarried carried.now }
    ensures { result ≡ base carried.now }
{
    match image_header::read(carried) {
        Ok(header) => header.base,
        Err(_) => 0,
    }
}

/// The places of a heap, by one walk over old space.
pub(crate) fn places_of(parts: &HeapParts) -> Places
    requires { IsWhole (view_of parts.now) }
    ensures { ArePlaces (view_of parts.now) result }
{
    let cut = kept_end(parts.region.as_slice(), parts.old_end);
    let past_from = cut + parts.eden_used;
    Places {
        cut,
        eden_at: parts.eden_at,
        eden_end: parts.eden_at + parts.eden_used,
        past_from,
        past_at: parts.past_at,
        words: past_from + parts.past_used,
        base: base_of(&parts.carried),
        lists: first_start(parts, FREE_LISTS),
    }
}

/// The place in the file of a word of the region that is saved.
pub(crate) fn file_place(parts: &HeapParts, places: &Places, start: usize) -> usize
    requires places { ArePlaces (view_of parts.now) places.now }
    requires has { HasPlace (view_of parts.now) start }
    ensures place { result ≡ file_place (view_of parts.now) start }
    ensures inside { result < 2 ^ 28 }
{
    if start < places.cut {
        start
    } else if start < places.eden_end {
        places.cut + (start - places.eden_at)
    } else {
        places.past_from + (start - places.past_at)
    }
}

/// The word of the region at a place in the file.
pub(crate) fn region_place(parts: &HeapParts, places: &Places, i: usize) -> usize
    requires places { ArePlaces (view_of parts.now) places.now }
    requires inside { i < file_words (view_of parts.now) }
    ensures { result ≡ region_place (view_of parts.now) i }
{
    if i < places.cut {
        i
    } else if i < places.past_from {
        places.eden_at + (i - places.cut)
    } else {
        places.past_at + (i - places.past_from)
    }
}
