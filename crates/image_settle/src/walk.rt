// The two walks over the chunks.
ghost use Rattle.std.specs.Prelude.{◌≡◌, ◌≢◌, ◌≤◌, ◌<◌, ◌+◌, ◌^◌, ℕ, length, slice_index, slice_set, nat_eq, ◌||◌, false, Some, IfOk, OnOk};
ghost use Rattle.std.specs.List.{All, Contains};
ghost use Rattle.object_header.specs.Head.{class_of};
ghost use Rattle.object_header.specs.declared.header.TheConstants.{FORWARDER_CLASS};
ghost use Rattle.spur_graph.specs.ImageCauses.{FindsLeast};
ghost use Rattle.spur_graph.specs.Segments.{word_in};
ghost use Rattle.object_header.specs.Chunks.{Chunk, Cuts, chunks};
ghost use Rattle.spur_graph.specs.Cells.{Store, start_named};
ghost use Rattle.spur_graph.specs.Heaps.{row_store, IsClear};
ghost use Rattle.heap_cells.specs.Settled.{IsSettled, word_of};
ghost use Rattle.image_words.specs.References.{IsBadPointer};
ghost use Rattle.image_settle.specs.Settles.{IsReady, IsCleared, IsTurned, HaveNoForwarder};
ghost use Rattle.spur_graph.specs.FileStores.{file_store};

use crate::object::settle_chunk;
use crate::word::word_of;
use heap_segments::AddressMap;
use heap_walk::span_of;
use image_words::ImageWords;
use object_header::{FORWARDER_CLASS, Header};

/// Whether this header is that of a forwarder, or one was found before.
fn is_found(found: bool, header: Header) -> bool
    ensures { result ≡ (found || nat_eq (class_of header.0) FORWARDER_CLASS) }
{
    found || header.class() == FORWARDER_CLASS
}

/// Clears the headers and settles the slots of all chunks, and answers whether there are forwarders. Their words stay addresses. The error is that of
/// [`settle`].
fn settle_chunks(words: &mut [u64], image: &ImageWords) -> Result<bool, usize>
    ghost h: { Store }
    requires ready { IsReady image.now words.old }
    requires store { h ≡ file_store image.now.map.now words.old }
    ensures least { FindsLeast (IsBadPointer h) result }
    ensures same_len { length words.new ≡ length words.old }
    ensures cleared { OnOk result ((c : Chunk) → Contains (chunks words.old) c → (j : ℕ) → c.at ≤ j → j < c.at + c.size
        → IsCleared h words.old c j (slice_index words.new j)) }
    ensures found { IfOk result (λ found. found ≡ false → HaveNoForwarder words.old (chunks words.old)) }
{
    let mut at = 0;
    let mut found = false;
    'chunks: while at < words.len() {
        let span = span_of(at, words[at]);
        found = is_found(found, Header(words[span.start]));
        match settle_chunk(words, image, span) {
            Ok(()) => {}
            Err(slot) => return Err(slot),
        }
        at = span.end;
    }
    Ok(found)
}

/// Turns the word behind a header, if it is that of a forwarder.
fn turn_forwarder(words: &mut [u64], map: &AddressMap, start: usize)
    requires inside { start + 1 < length words.old }
    requires small { length words.old ≤ 2 ^ 27 }
    requires below { (w s : ℕ) → word_in map.now 0 w ≡ Some s → s < length words.old }
    ensures turned { class_of (slice_index words.old start) ≡ FORWARDER_CLASS
        → words.new ≡ slice_set words.old (start + 1) (word_of (start_named (word_in map.now 0) words.old (slice_index words.old (start + 1)))) }
    ensures kept { class_of (slice_index words.old start) ≢ FORWARDER_CLASS → words.new ≡ words.old }
{
    if Header(words[start]).class() == FORWARDER_CLASS {
        let target = map.to_region(words[start + 1]).unwrap_or(words.len());
        words[start + 1] = word_of(target);
    }
}

/// Turns the words of all forwarders.
fn turn_forwarders(words: &mut [u64], map: &AddressMap)
    requires cut { Cuts words.old 0 (length words.old) (chunks words.old) }
    requires small { length words.old ≤ 2 ^ 27 }
    requires below { (w s : ℕ) → word_in map.now 0 w ≡ Some s → s < length words.old }
    ensures same_len { length words.new ≡ length words.old }
    ensures turned { (c : Chunk) → Contains (chunks words.old) c → (j : ℕ) → c.at ≤ j → j < c.at + c.size
        → IsTurned map.now words.old c j (slice_index words.new j) }
{
    let mut at = 0;
    'chunks: while at < words.len() {
        let span = span_of(at, words[at]);
        turn_forwarder(words, map, span.start);
        at = span.end;
    }
}

/// Turns the words of all forwarders, where any were found.
fn turn_found(words: &mut [u64], map: &AddressMap, found: bool)
    requires cut { Cuts words.old 0 (length words.old) (chunks words.old) }
    requires small { length words.old ≤ 2 ^ 27 }
    requires below { (w s : ℕ) → word_in map.now 0 w ≡ Some s → s < length words.old }
    requires found { found ≡ false → HaveNoForwarder words.old (chunks words.old) }
    ensures same_len { length words.new ≡ length words.old }
    ensures turned { (c : Chunk) → Contains (chunks words.old) c → (j : ℕ) → c.at ≤ j → j < c.at + c.size
        → IsTurned map.now words.old c j (slice_index words.new j) }
{
    if !found {
        return;
    }
    turn_forwarders(words, map);
}

/// Turns the words of an image whose chunks, forwarders and class table have passed the checks into those of a heap, and tests each pointer slot of
/// each ordinary object of another format than 3 on the way. The error is the index of the first such slot's word that has no value, by the order of the
/// words; some of them are turned then, and others not.
///
/// Headers lose what collections leave in them, and the two bits of no field. Pointer slots are followed, and have `nil` where they have no value;
/// those of the hidden roots name pages, or `nil` behind them. Forwarders go on naming the same object. All other words stay.
pub fn settle(words: &mut [u64], image: &ImageWords) -> Result<(), usize>
    requires { IsReady image.now words.old }
    ensures least { FindsLeast (IsBadPointer (file_store image.now.map.now words.old)) result }
    ensures same_len { length words.new ≡ length words.old }
    ensures settled { OnOk result (IsSettled (file_store image.now.map.now words.old) (row_store words.new)) }
    ensures cut { OnOk result (Cuts words.new 0 (length words.new) (chunks words.new)) }
    ensures chunks { OnOk result (chunks words.new ≡ chunks words.old) }
    ensures clear { OnOk result (All (λ (c : Chunk). IsClear (slice_index words.new c.start)) (chunks words.new)) }
{
    let found = match settle_chunks(words, image) {
        Ok(found) => found,
        Err(slot) => return Err(slot),
    };
    turn_found(words, image.map, found);
    Ok(())
}
