// The words of one chunk.
ghost use Rattle.std.specs.Prelude.{◌≡◌, ◌≢◌, ◌≤◌, ◌<◌, ◌+◌, ◌-◌, ◌&&◌, ℕ, length, slice_index, true, false, not, nat_eq, OnOk};
ghost use Rattle.object_header.specs.Fields.{fields_of};
ghost use Rattle.object_header.specs.Head.{format_of};
ghost use Rattle.heap_walk.specs.Starts.{has_start, covered};
ghost use Rattle.spur_graph.specs.ImageCauses.{FindsLeast};
ghost use Rattle.spur_graph.specs.Ordinary.{is_ordinary, is_good_word};
ghost use Rattle.spur_graph.specs.Cells.{Store};
ghost use Rattle.spur_graph.specs.Heaps.{HasNoUnusedBits};
ghost use Rattle.heap_cells.specs.Settled.{settled_word, settled_root};
ghost use Rattle.image_words.specs.References.{Leads, IsBadPointerOf};
ghost use Rattle.image_settle.specs.Settles.{Follows, IsLoose, IsNext, unmarked, slot_in};

use crate::word::{settled_root, settled_word, value_word};
use heap_walk::{Span, StartMap};
use image_words::ImageWords;
use object_header::{FORWARDER_CLASS, FREE_CLASS, Header};

/// Format of a context, whose slots are read otherwise.
const CONTEXT_FORMAT: u64 = 3;

/// The header without what collections leave in one: mark, grey and remembered bit, and the two bits of no field.
pub(crate) fn cleared(header: Header) -> Header
    ensures fields { fields_of result.0 ≡ unmarked (fields_of header.0) }
    ensures unused { HasNoUnusedBits result.0 }
{
    Header(0)
        .set_count(header.count())
        .set_hash(header.hash())
        .set_pinned(header.pinned())
        .set_format(header.format())
        .set_readonly(header.readonly())
        .set_class(header.class())
}

/// Follows the words from `from` up to `to`. The error is the index of the first of them that is no value.
fn settle_values(words: &mut [u64], image: &ImageWords, from: usize, to: usize) -> Result<(), usize>
    ghost h: { Store }
    requires image { Follows h image.now }
    requires leads { Leads h words.old }
    requires order { from ≤ to }
    requires within { to ≤ length words.old }
    requires loose { (j : ℕ) → from ≤ j → j < to → IsLoose h j }
    ensures least { FindsLeast (λ j. (from ≤ j) × (j < to) × (is_good_word h (slice_index words.old j) ≡ false)) result }
    ensures same_len { length words.new ≡ length words.old }
    ensures leads { Leads h words.new }
    ensures followed { OnOk result ((j : ℕ) → from ≤ j → j < to → slice_index words.new j ≡ settled_word h (slice_index words.old j)) }
    ensures before { (j : ℕ) → j < from → slice_index words.new j ≡ slice_index words.old j }
    ensures behind { (j : ℕ) → to ≤ j → slice_index words.new j ≡ slice_index words.old j }
{
    'values: for j in from..to {
        let word = words[j];
        match value_word(words, image, word) {
            Some(value) => words[j] = value,
            None => return Err(j),
        }
    }
    Ok(())
}

/// Follows the words from `from` up to `to`. One that is no value becomes `nil`.
fn settle_slots(words: &mut [u64], image: &ImageWords, from: usize, to: usize)
    ghost h: { Store }
    requires image { Follows h image.now }
    requires leads { Leads h words.old }
    requires order { from ≤ to }
    requires within { to ≤ length words.old }
    requires loose { (j : ℕ) → from ≤ j → j < to → IsLoose h j }
    ensures same_len { length words.new ≡ length words.old }
    ensures leads { Leads h words.new }
    ensures followed { (j : ℕ) → from ≤ j → j < to → slice_index words.new j ≡ settled_word h (slice_index words.old j) }
    ensures before { (j : ℕ) → j < from → slice_index words.new j ≡ slice_index words.old j }
    ensures behind { (j : ℕ) → to ≤ j → slice_index words.new j ≡ slice_index words.old j }
{
    'slots: for j in from..to {
        let word = words[j];
        words[j] = settled_word(words, image, word);
    }
}

/// The same of the slots of the hidden roots, which are the words from `from` up to `to`.
fn settle_roots(words: &mut [u64], image: &ImageWords, from: usize, to: usize)
    ghost h: { Store }
    requires image { Follows h image.now }
    requires order { from ≤ to }
    requires within { to ≤ length words.old }
    ensures same_len { length words.new ≡ length words.old }
    ensures named { (j : ℕ) → from ≤ j → j < to → slice_index words.new j ≡ settled_root h (j - from) (slice_index words.old j) }
    ensures before { (j : ℕ) → j < from → slice_index words.new j ≡ slice_index words.old j }
    ensures behind { (j : ℕ) → to ≤ j → slice_index words.new j ≡ slice_index words.old j }
{
    'roots: for j in from..to {
        words[j] = settled_root(image, j - from, words[j]);
    }
}

/// Settles the slots of an ordinary object with this header, which is no context. The error is the index of the first pointer slot's word that has no
/// value.
fn settle_object(
    words: &mut [u64],
    image: &ImageWords,
    header: Header,
    span: Span,
) -> Result<(), usize>
    ghost h: { Store }
    requires image { Follows h image.now }
    requires leads { Leads h words.old }
    requires next { IsNext h words.old header.0 span.start span.slots }
    requires there { is_ordinary h span.start ≡ true }
    requires format { format_of header.0 ≢ 3 }
    ensures least { FindsLeast (IsBadPointerOf h span.start) result }
    ensures same_len { length words.new ≡ length words.old }
    ensures leads { Leads h words.new }
    ensures slots { OnOk result ((j : ℕ) → span.start < j → j < span.start + 1 + span.slots
        → slice_index words.new j ≡ slot_in h span.start (h.cell span.start) (j - span.start - 1) (slice_index words.old j)) }
    ensures before { (j : ℕ) → j ≤ span.start → slice_index words.new j ≡ slice_index words.old j }
    ensures behind { (j : ℕ) → span.start + 1 + span.slots ≤ j → slice_index words.new j ≡ slice_index words.old j }
{
    let from = span.start + 1;
    let to = from + header.pointer_slots(span.slots, words[from]);
    settle_values(words, image, from, to)
}

/// Settles the slots of a chunk with this header, whatever it is. Those of free chunks and forwarders stay, and those of the free lists object, which
/// has words that are no values; in every other pointer slot a word that is no value becomes `nil`.
fn settle_any(words: &mut [u64], image: &ImageWords, header: Header, span: Span)
    ghost h: { Store }
    requires image { Follows h image.now }
    requires leads { Leads h words.old }
    requires next { IsNext h words.old header.0 span.start span.slots }
    ensures same_len { length words.new ≡ length words.old }
    ensures leads { Leads h words.new }
    ensures slots { (j : ℕ) → span.start < j → j < span.start + 1 + span.slots
        → slice_index words.new j ≡ slot_in h span.start (h.cell span.start) (j - span.start - 1) (slice_index words.old j) }
    ensures before { (j : ℕ) → j ≤ span.start → slice_index words.new j ≡ slice_index words.old j }
    ensures behind { (j : ℕ) → span.start + 1 + span.slots ≤ j → slice_index words.new j ≡ slice_index words.old j }
{
    let class = header.class();
    if class == FREE_CLASS || class == FORWARDER_CLASS {
        return;
    }
    let from = span.start + 1;
    if span.start == image.roots.hidden_roots {
        settle_roots(words, image, from, from + span.slots);
    } else if span.start != image.roots.free_lists {
        let to = from + header.pointer_slots(span.slots, words[from]);
        settle_slots(words, image, from, to);
    }
}

/// Whether what starts there is an ordinary object and no context, so that its pointer slots are to have values.
fn wants_values(ordinary: &StartMap, start: usize, header: Header) -> bool
    requires { start < covered ordinary.now }
    ensures { result ≡ (has_start ordinary.now start && not (nat_eq (format_of header.0) 3)) }
{
    ordinary.has(start) && header.format() != CONTEXT_FORMAT
}

/// Settles the slots of a chunk with this header. The error is the index of the first one's word that has no value and is to have one.
fn settle_body(
    words: &mut [u64],
    image: &ImageWords,
    header: Header,
    span: Span,
) -> Result<(), usize>
    ghost h: { Store }
    requires image { Follows h image.now }
    requires leads { Leads h words.old }
    requires next { IsNext h words.old header.0 span.start span.slots }
    ensures least { FindsLeast (IsBadPointerOf h span.start) result }
    ensures same_len { length words.new ≡ length words.old }
    ensures leads { Leads h words.new }
    ensures slots { OnOk result ((j : ℕ) → span.start < j → j < span.start + 1 + span.slots
        → slice_index words.new j ≡ slot_in h span.start (h.cell span.start) (j - span.start - 1) (slice_index words.old j)) }
    ensures before { (j : ℕ) → j ≤ span.start → slice_index words.new j ≡ slice_index words.old j }
    ensures behind { (j : ℕ) → span.start + 1 + span.slots ≤ j → slice_index words.new j ≡ slice_index words.old j }
{
    if wants_values(image.ordinary, span.start, header) {
        return settle_object(words, image, header, span);
    }
    settle_any(words, image, header, span);
    Ok(())
}

/// Clears the header of a chunk and settles its slots. The error is the index of the first one's word that has no value and is to have one.
pub(crate) fn settle_chunk(words: &mut [u64], image: &ImageWords, span: Span) -> Result<(), usize>
    ghost h: { Store }
    requires image { Follows h image.now }
    requires leads { Leads h words.old }
    requires next { IsNext h words.old (slice_index words.old span.start) span.start span.slots }
    ensures least { FindsLeast (IsBadPointerOf h span.start) result }
    ensures same_len { length words.new ≡ length words.old }
    ensures leads { Leads h words.new }
    ensures header { fields_of (slice_index words.new span.start) ≡ unmarked (fields_of (slice_index words.old span.start)) }
    ensures unused { HasNoUnusedBits (slice_index words.new span.start) }
    ensures slots { OnOk result ((j : ℕ) → span.start < j → j < span.start + 1 + span.slots
        → slice_index words.new j ≡ slot_in h span.start (h.cell span.start) (j - span.start - 1) (slice_index words.old j)) }
    ensures before { (j : ℕ) → j < span.start → slice_index words.new j ≡ slice_index words.old j }
    ensures behind { (j : ℕ) → span.start + 1 + span.slots ≤ j → slice_index words.new j ≡ slice_index words.old j }
{
    let header = Header(words[span.start]);
    words[span.start] = cleared(header).0;
    settle_body(words, image, header, span)
}
