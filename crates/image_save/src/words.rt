// The words of the file's heap, and their bytes.
ghost use Rattle.std.specs.Prelude.{◌≡◌, ◌<◌, ◌≤◌, ◌+◌, ◌*◌, ◌/◌, ◌^◌, ◌++◌, length, slice_index, true};
ghost use Rattle.std.specs.Int.{w64, to_le_bytes};
ghost use Rattle.object_header.specs.Fields.{fields_of};
ghost use Rattle.object_header.specs.Chunks.{Chunk};
ghost use Rattle.spur_graph.specs.Heaps.{IsWhole};
ghost use Rattle.spur_heap.specs.Parts.{view_of};
ghost use Rattle.spur_heap.specs.Words.{starts_at};
ghost use Rattle.image_save.specs.Saved.{saved_header, saved_value, saved_slot, object_word, free_word, has_object, value_count, saved_at, saved_word, word_bytes, file_words};
ghost use Rattle.image_save.specs.Places.{ArePlaces, Covers, IsAt, IsReady};
ghost use Rattle.image_save.specs.Words.{IsValue};

use crate::cursor::{Cursor, advance};
use crate::places::{Places, file_place, region_place};
use arrayvec::ArrayVec;
use object_header::{Header, LONGEST_SHORT, OVERFLOW_COUNT, free_header, overflow_word};
use spur_heap::{HeapParts, follow_start};

/// Words that are written at a time, a choice of this project.
pub(crate) const PIECE_WORDS: usize = 512;

/// Their bytes.
pub(crate) const PIECE_BYTES: usize = 8 * PIECE_WORDS;

/// An object's header as it is saved: without mark, grey and remembered bit, and without bits 22 and 54, which are in no field.
#[tactic(auto, unfolding(crate::specs::Saved::saved_header))]
fn saved_header(word: u64) -> u64
    ensures { result ≡ saved_header word }
{
    let header = Header(word);
    (header.count() << 56)
        + (header.hash() << 32)
        + (header.pinned() << 30)
        + (header.format() << 24)
        + (header.readonly() << 23)
        + header.class()
}

/// A pointer slot's word as it is saved: an immediate stays, and for a reference stands the address of the object to which its forwarders lead, one step for
/// each.
#[tactic(auto, unfolding(crate::specs::Saved::saved_value))]
pub(crate) fn saved_value(parts: &HeapParts, places: &Places, word: u64) -> u64
    requires whole { IsWhole (view_of parts.now) }
    requires places { ArePlaces (view_of parts.now) places.now }
    requires value { IsValue (view_of parts.now) word }
    ensures { result ≡ saved_value (view_of parts.now) word }
{
    if word % 8 != 0 {
        return word;
    }
    let start = follow_start(parts, (word / 8) as usize);
    places.base + 8 * file_place(parts, places, start) as u64
}

/// Word `k` behind the header of the object at `start`, which has so many pointer slots, as it is saved. Those of the free lists object are written as 0, since
/// who loads the file builds lists of its own.
#[tactic(auto, unfolding(crate::specs::Saved::saved_slot))]
fn saved_slot(parts: &HeapParts, places: &Places, start: usize, pointers: usize, k: usize) -> u64
    requires whole { IsWhole (view_of parts.now) }
    requires places { ArePlaces (view_of parts.now) places.now }
    requires inside { start + 1 + k < length parts.now.region }
    requires there { has_object (view_of parts.now) start ≡ true }
    requires pointers { pointers ≡ value_count (view_of parts.now) start }
    ensures { result ≡ saved_slot (view_of parts.now) start k }
{
    if start == places.lists {
        return 0;
    }
    let word = parts.region.get(start + 1 + k);
    if k < pointers {
        return saved_value(parts, places, word);
    }
    word
}

/// The word `at` of the region as it is saved. It is one of the object at `start`, which has so many pointer slots.
#[tactic(auto, unfolding(crate::specs::Saved::object_word))]
fn object_word(parts: &HeapParts, places: &Places, start: usize, pointers: usize, at: usize) -> u64
    requires whole { IsWhole (view_of parts.now) }
    requires places { ArePlaces (view_of parts.now) places.now }
    requires inside { at < length parts.now.region }
    requires there { has_object (view_of parts.now) start ≡ true }
    requires pointers { pointers ≡ value_count (view_of parts.now) start }
    ensures { result ≡ object_word (view_of parts.now) start at }
{
    if at < start {
        return parts.region.get(at);
    }
    if at == start {
        return saved_header(parts.region.get(at));
    }
    saved_slot(parts, places, start, pointers, at - (start + 1))
}

/// Word `k` of a free chunk of `size` words: its head words, and 0 behind them. So a free chunk is written by its size alone, and a forwarder as one.
#[tactic(auto, unfolding(crate::specs::Saved::free_word))]
fn free_word(size: usize, k: usize) -> u64
    requires big { 2 ≤ size }
    requires small { size ≤ 2 ^ 27 }
    ensures { result ≡ free_word size k }
{
    if size <= LONGEST_SHORT {
        return match k {
            0 => free_header(size as u64 - 1).0,
            _ => 0,
        };
    }
    match k {
        0 => overflow_word(size as u64 - 2),
        1 => free_header(OVERFLOW_COUNT).0,
        _ => 0,
    }
}

/// The word `at` of the region as it is saved. It is one of the cursor's chunk.
fn saved_at(parts: &HeapParts, places: &Places, cursor: &Cursor, at: usize) -> u64
    requires whole { IsWhole (view_of parts.now) }
    requires places { ArePlaces (view_of parts.now) places.now }
    requires at { IsAt (view_of parts.now) at cursor.now }
    ensures { (c : Chunk) → Covers (view_of parts.now) c at → result ≡ saved_at (view_of parts.now) c at }
{
    match cursor.pointers {
        Some(pointers) => object_word(parts, places, cursor.start, pointers, at),
        None => free_word(cursor.end - cursor.at, at - cursor.at),
    }
}

/// Word `i` of the file's heap, 0 where it is one of the bridge. The cursor goes on to it.
fn next_word(parts: &HeapParts, places: &Places, cursor: &mut Cursor, i: usize) -> u64
    requires whole { IsWhole (view_of parts.now) }
    requires places { ArePlaces (view_of parts.now) places.now }
    requires small { i < 2 ^ 32 }
    requires ready { IsReady (view_of parts.now) i cursor.old }
    ensures word { result ≡ saved_word (view_of parts.now) i }
    ensures ready { IsReady (view_of parts.now) (i + 1) cursor.new }
{
    if i >= places.words {
        return 0;
    }
    let at = region_place(parts, places, i);
    advance(parts, places, cursor, i, at);
    saved_at(parts, places, cursor, at)
}

/// Adds a number of 64 bits, its low byte first.
fn put64(piece: &mut ArrayVec<u8, PIECE_BYTES>, number: u64)
    requires { length piece.old.items + 8 ≤ PIECE_BYTES }
    ensures items { piece.new.items ≡ piece.old.items ++ to_le_bytes w64 number }
    ensures len { length piece.new.items ≡ length piece.old.items + 8 }
{
    let _fits = piece.try_extend_from_slice(&number.to_le_bytes());
}

/// The bytes of `count` words of the file's heap, from the word `from` on.
#[tactic(auto, using(crate::proofs::Pieces::word_bytes_none, crate::proofs::Pieces::word_bytes_more))]
pub(crate) fn words_piece(
    parts: &HeapParts,
    places: &Places,
    cursor: &mut Cursor,
    from: usize,
    count: usize,
) -> ArrayVec<u8, PIECE_BYTES>
    requires whole { IsWhole (view_of parts.now) }
    requires places { ArePlaces (view_of parts.now) places.now }
    requires fits { count ≤ PIECE_WORDS }
    requires small { from + count < 2 ^ 32 }
    requires ready { IsReady (view_of parts.now) from cursor.old }
    ensures bytes { result.items ≡ word_bytes (view_of parts.now) from count }
    ensures ready { IsReady (view_of parts.now) (from + count) cursor.new }
{
    let mut piece = ArrayVec::new();
    'words: for done in 0..count {
        put64(&mut piece, next_word(parts, places, cursor, from + done));
    }
    piece
}
