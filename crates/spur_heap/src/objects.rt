// What is read of the objects of a heap, and written to them.
ghost use Rattle.std.specs.Prelude.{◌≡◌, ◌==◌, ◌<◌, ◌*◌, ◌^◌, ◌+◌, ℕ, length, slice_index, slice_index_or, slice_set, true};
ghost use Rattle.object_header.specs.Fields.{fields_of};
ghost use Rattle.object_header.specs.Formats.{is_method, unit_bytes_of};
ghost use Rattle.std.specs.Prelude.{IfOk};
ghost use Rattle.std.specs.Result.{result_err};
ghost use Rattle.spur_graph.specs.declared.answer.Refusal.TheVariants as refusals;
ghost use Rattle.spur_graph.specs.declared.answer.Value.TheVariants.{Ref};
ghost use Rattle.spur_graph.specs.Value.{is_immediate};
ghost use Rattle.spur_graph.specs.Refusals.{test};
ghost use Rattle.spur_graph.specs.Graph.{with_node};
ghost use Rattle.spur_graph.specs.Heaps.{heap_value, heap_graph, heap_room};
ghost use Rattle.spur_heap.specs.Words.{unit_place, unit_word};
ghost use Rattle.spur_heap.specs.Views.{IsOrdinary, IsGood, node_in, WritesWord};
ghost use Rattle.spur_heap.specs.Remembering.{stored};

use crate::Heap;
use crate::remembering::remember_for;
use crate::slots::{format_of, pointer_count_of, unit_count_of, unit_place_of};
use crate::units::{unit_of, with_unit};
use object_header::Header;
use spur_graph::Refusal;

impl Heap {
    /// The start of the object that a word leads to; [`Refusal::Immediate`] where it leads to none. It costs a step for each forwarder on the way.
    pub fn object(&self, word: u64) -> Result<usize, Refusal>
        requires good { IsGood self.now word }
        ensures refusal { test (is_immediate (heap_value self.now word)) refusals.Immediate ≡ result_err result }
        ensures there { IfOk result (IsOrdinary self.now) }
        ensures value { IfOk result (λ start. heap_value self.now word ≡ Ref start) }
    {
        if word % 8 != 0 {
            return Err(Refusal::Immediate);
        }
        Ok((self.follow(word) / 8) as usize)
    }

    /// The header word of an object.
    pub fn header(&self, start: usize) -> Header
        requires there { IsOrdinary self.now start }
        ensures word { result.0 ≡ slice_index self.now.words start }
        ensures class { (fields_of result.0).class ≡ (node_in self.now start).class }
        ensures hash { (fields_of result.0).hash ≡ (node_in self.now start).hash }
        ensures format { (fields_of result.0).format ≡ (node_in self.now start).format }
        ensures pinned { ((fields_of result.0).pinned == 1) ≡ (node_in self.now start).pinned }
        ensures readonly { ((fields_of result.0).readonly == 1) ≡ (node_in self.now start).readonly }
    {
        Header(self.parts.region.get(start))
    }

    /// How many pointer slots an object has.
    pub fn pointer_count(&self, start: usize) -> usize
        requires there { IsOrdinary self.now start }
        ensures { result ≡ length (node_in self.now start).pointers }
    {
        pointer_count_of(&self.parts, start)
    }

    /// The word of a pointer slot of an object. It may name a forwarder.
    pub fn pointer(&self, start: usize, i: usize) -> u64
        requires there { IsOrdinary self.now start }
        requires within { i < length (node_in self.now start).pointers }
        ensures value { heap_value self.now result ≡ slice_index_or (node_in self.now start).pointers i (heap_value self.now 0) }
        ensures word { result ≡ slice_index self.now.words (start + 1 + i) }
        ensures good { IsGood self.now result }
    {
        let region = &self.parts.region;
        // the length tells that no sum of places wraps
        let _end = region.len();
        region.get(start + 1 + i)
    }

    /// Writes a pointer slot of an object, and where the object stands in old space and now names new space, its remembered bit; no other word. Slot 0
    /// of a method, which tells the number of its literals, stays.
    pub fn put_pointer(&mut self, start: usize, i: usize, word: u64)
        requires there { IsOrdinary self.old start }
        requires within { i < length (node_in self.old start).pointers }
        requires no_literals { is_method (node_in self.old start).format ≡ true → 0 < i }
        requires good { IsGood self.old word }
        ensures written { self.new ≡ stored self.old start i word }
        ensures graph { heap_graph self.new ≡ with_node (heap_graph self.old) start (record (node_in self.old start) { pointers = slice_set (node_in self.old start).pointers i (heap_value self.old word) }) }
        ensures room { heap_room self.new ≡ heap_room self.old }
        ensures values { (w : ℕ) → heap_value self.new w ≡ heap_value self.old w }
        ensures goods { (w : ℕ) → IsGood self.old w → IsGood self.new w }
        ensures ordinary { (s : ℕ) → IsOrdinary self.old s → IsOrdinary self.new s }
    {
        // the length tells that no sum of places wraps
        let _end = self.parts.region.len();
        remember_for(&mut self.parts, start, word);
        self.parts.region.put(start + 1 + i, word);
    }

    /// How many units an object has.
    pub fn unit_count(&self, start: usize) -> usize
        requires there { IsOrdinary self.now start }
        ensures { result ≡ length (node_in self.now start).units }
    {
        unit_count_of(&self.parts, start)
    }

    /// The bytes of a unit of an object, 0 where its format has no units.
    pub fn unit_bytes(&self, start: usize) -> usize
        requires there { IsOrdinary self.now start }
        ensures { result ≡ unit_bytes_of (node_in self.now start).format }
    {
        format_of(&self.parts, start).unit_bytes()
    }

    /// Unit `i` of an object. Units stand behind its pointer slots, and in a word the first is the lowest.
    pub fn unit(&self, start: usize, i: usize) -> u64
        requires there { IsOrdinary self.now start }
        requires within { i < length (node_in self.now start).units }
        ensures { result ≡ slice_index (node_in self.now start).units i }
    {
        let parts = &self.parts;
        let word = parts.region.get(unit_place_of(parts, start, i));
        let bytes = format_of(parts, start).unit_bytes();
        unit_of(word, 8 * (i * bytes % 8), bytes)
    }

    /// Writes unit `i` of an object, and no other bit.
    pub fn put_unit(&mut self, start: usize, i: usize, value: u64)
        requires there { IsOrdinary self.old start }
        requires within { i < length (node_in self.old start).units }
        requires range { value < 2 ^ (8 * unit_bytes_of (node_in self.old start).format) }
        ensures written { WritesWord self.old self.new (unit_place self.old start i) (unit_word self.old start i value) }
        ensures graph { heap_graph self.new ≡ with_node (heap_graph self.old) start (record (node_in self.old start) { units = slice_set (node_in self.old start).units i value }) }
        ensures room { heap_room self.new ≡ heap_room self.old }
        ensures values { (w : ℕ) → heap_value self.new w ≡ heap_value self.old w }
        ensures goods { (w : ℕ) → IsGood self.old w → IsGood self.new w }
        ensures ordinary { (s : ℕ) → IsOrdinary self.old s → IsOrdinary self.new s }
    {
        let parts = &self.parts;
        let at = unit_place_of(parts, start, i);
        let bytes = format_of(parts, start).unit_bytes();
        let word = parts.region.get(at);
        self.parts
            .region
            .put(at, with_unit(word, 8 * (i * bytes % 8), bytes, value));
    }
}
