// The segments of an image, entered one after another.
ghost use Rattle.std.specs.Prelude.{◌≡◌, ◌≤◌, ◌<◌, ◌%◌, ◌+◌, ◌*◌, ◌^◌, ◌↔◌, ◌++◌, ◌∷◌, [], length, take, true, IfOk, OnOk, OnErr, IsErr, IfErr};
ghost use Rattle.spur_graph.specs.ImageFile.{header_bytes};
ghost use Rattle.spur_graph.specs.Segments.{Segment, bridge_bytes, greatest_end, most_segments, word_count, total_words, word_in, offset_in};
ghost use Rattle.heap_segments.specs.Rising.{IsRising, end_address, end_place, is_refused, segment_at};
ghost use Rattle.heap_segments.specs.declared.bridge.SegmentFault.TheVariants.{Size};

use crate::bridge::SegmentFault;
use crate::entry::{
    Entry, begin_of, behind, is_misfit, offset_of, place_of, word_at, word_count_of,
};
use spur_words::NoMemory;
use std::alloc::Global;
use std::marker::Model;

/// How many segments an image may have.
const MOST_SEGMENTS: usize = 4096;

/// The segments of an image, at most 4,096, in the order of the file. A contract sees their list.
#[derive(Drop)]
pub struct AddressMap {
    entries: Vec<Entry>,
}

impl Model for AddressMap {
    ghost use Rattle.std.specs.Prelude.{List, ◌≤◌, vec_capacity};
    ghost use Rattle.spur_graph.specs.Segments.{Segment, most_segments};

    ghost Value = { List Segment };

    ghost use Rattle.heap_segments.specs.Entries.{segments_of, AreLaid};

    ghost view = { λ m. segments_of m.entries.items };

    ghost invariant = { λ m. AreLaid m.entries.items × (most_segments ≤ vec_capacity m.entries) };
}

impl AddressMap {
    /// A map of no segments, with room for 4,096. [`NoMemory`] where that is not to be had.
    pub fn new(alloc: Global) -> Result<AddressMap, NoMemory>
        ensures empty { IfOk result (λ map. map ≡ []) }
        ensures end { IfOk result (λ map. end_address 0 map ≡ 0) }
        ensures place { IfOk result (λ map. end_place header_bytes map ≡ header_bytes) }
    {
        match Vec::with_capacity(alloc, MOST_SEGMENTS) {
            Ok(entries) => Ok(AddressMap { entries }),
            Err(_) => Err(NoMemory),
        }
    }

    /// How many segments there are.
    pub fn len(&self) -> usize
        ensures len { result ≡ length self.now }
        ensures most { result ≤ most_segments }
        ensures rising { IsRising 0 self.now }
    {
        self.entries.len()
    }

    /// How many words of objects all segments have.
    pub fn words(&self) -> usize
        ensures { result ≡ total_words self.now }
    {
        behind(self.entries.as_slice()).1
    }

    /// The word of the heap at which segment `i` begins, or the end of all words where there is no such segment.
    pub fn begin(&self, i: usize) -> usize
        ensures { result ≡ total_words (take i self.now) }
    {
        begin_of(self.entries.as_slice(), i)
    }

    /// The place in the file of segment `i`.
    pub fn place(&self, i: usize) -> u64
        requires { i < length self.now }
        ensures place { result ≡ (segment_at self.now i).at }
        ensures near { result + 8 * word_count (segment_at self.now i) ≤ header_bytes + greatest_end }
        ensures within { result + (segment_at self.now i).size ≤ end_place header_bytes self.now }
    {
        place_of(self.entries.as_slice(), i)
    }

    /// How many words of objects segment `i` has.
    pub fn word_count(&self, i: usize) -> usize
        requires { i < length self.now }
        ensures words { result ≡ word_count (segment_at self.now i) }
        ensures bytes { 8 * result + bridge_bytes ≡ (segment_at self.now i).size }
        ensures low { total_words (take i self.now) + result ≤ 2 ^ 59 }
    {
        word_count_of(self.entries.as_slice(), i)
    }

    /// Enters the next segment, of `size` bytes with its bridge, where `left` bytes of the heap are left, its own among them.
    /// The error is [`SegmentFault::Size`], where it can't have this size or 4,096 segments stand; then the map stays as it was.
    pub fn next_segment(&mut self, left: u64, size: u64, address: u64) -> Result<(), SegmentFault>
        requires aligned { address % 8 ≡ 0 }
        requires above { end_address 0 self.old ≤ address }
        ensures entered { OnOk result (self.new ≡ self.old ++ record { at = end_place header_bytes self.old; size = size; address = address } ∷ []) }
        ensures end { OnOk result (end_address 0 self.new ≡ address + size) }
        ensures place { OnOk result (end_place header_bytes self.new ≡ end_place header_bytes self.old + size) }
        ensures refused { IsErr result ↔ (is_refused self.old left size address ≡ true) }
        ensures fault { IfErr result (λ fault. fault ≡ Size) }
        ensures same { OnErr result (self.new ≡ self.old) }
    {
        if self.entries.len() == MOST_SEGMENTS || is_misfit(left, size, address) {
            return Err(SegmentFault::Size);
        }
        let (at, begin) = behind(self.entries.as_slice());
        self.entries.push_reserved(Entry {
            at,
            size,
            address,
            begin,
        });
        Ok(())
    }

    /// The word of the heap that has an address; none where the address is no multiple of 8, or that of no word of objects.
    pub fn to_region(&self, address: u64) -> Option<usize>
        ensures { result ≡ word_in self.now 0 address }
    {
        word_at(self.entries.as_slice(), address)
    }

    /// The place in the file of a word of the heap, or of the end of all words.
    pub fn offset(&self, word: usize) -> u64
        requires some { 0 < length self.now }
        requires within { word ≤ total_words self.now }
        ensures { result ≡ offset_in self.now word }
    {
        offset_of(self.entries.as_slice(), word)
    }
}
