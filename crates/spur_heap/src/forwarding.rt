// Objects that become forwarders.
ghost use Rattle.std.specs.Prelude.{◌≡◌, ◌≢◌, ◌<◌, ◌+◌, ◌^◌, ℕ, length, false};
ghost use Rattle.spur_graph.specs.Names.{rename};
ghost use Rattle.spur_graph.specs.Become.{instead, redirect, room_redirected};
ghost use Rattle.spur_graph.specs.Refusals.{is_special};
ghost use Rattle.spur_graph.specs.Heaps.{heap_value, heap_graph, heap_room};
ghost use Rattle.spur_heap.specs.Parts.{view_of};
ghost use Rattle.spur_heap.specs.Views.{IsOrdinary, IsGood};
ghost use Rattle.spur_heap.specs.Forwarders.{KeepsClass, KeepsMourner, led_to};
ghost use Rattle.spur_heap.specs.Remembering.{CanNote, must_remember, noted};
ghost use Rattle.heap_cells.specs.Settled.{word_of};

use crate::heap::{Heap, HeapParts};
use crate::remembering::remember_for;
use object_header::{FORWARDER_CLASS, Header};
use spur_graph::FORWARDER_FORMAT;

/// Makes what starts at `from` a forwarder to `to`, remembered where it stands in old space and `to` behind it.
pub fn lead_to(parts: &mut HeapParts, from: usize, to: usize)
    requires can { CanNote parts.old from }
    requires inside { from + 1 < length parts.old.region }
    requires small { to < 2 ^ 27 }
    ensures { parts.new ≡ record parts.old { region = (led_to (view_of parts.old) from to).words; remembered = noted (view_of parts.old) (must_remember (view_of parts.old) from (word_of to)) from parts.old.remembered } }
{
    let word = 8 * to as u64;
    // the length tells that no sum of places wraps
    let _end = parts.region.len();
    remember_for(parts, from, word);
    let header = Header(parts.region.get(from));
    parts.region.put(
        from,
        header
            .set_class(FORWARDER_CLASS)
            .set_format(FORWARDER_FORMAT)
            .0,
    );
    parts.region.put(from + 1, word);
}

impl Heap {
    /// Makes the object that starts at `from` a forwarder to the one at `to`: whatever names the one names the other from then on. Its header word is
    /// written, with the remembered bit where the forwarder stands in old space and the other does not, and the word behind it; no other word. None of
    /// nil, false and true may become one.
    pub fn forward_to(&mut self, from: usize, to: usize)
        requires there { IsOrdinary self.old from }
        requires other { IsOrdinary self.old to }
        requires apart { from ≢ to }
        requires plain { is_special (heap_graph self.old) from ≡ false }
        requires class { KeepsClass self.old from to }
        requires mourner { KeepsMourner self.old from to }
        ensures written { self.new ≡ led_to self.old from to }
        ensures graph { heap_graph self.new ≡ redirect (heap_graph self.old) from to }
        ensures room { heap_room self.new ≡ room_redirected (heap_room self.old) from to }
        ensures values { (w : ℕ) → heap_value self.new w ≡ rename (instead from to) (heap_value self.old w) }
        ensures goods { (w : ℕ) → IsGood self.old w → IsGood self.new w }
        ensures ordinary { (s : ℕ) → s ≢ from → IsOrdinary self.old s → IsOrdinary self.new s }
    {
        lead_to(&mut self.parts, from, to);
        self.parts.objects -= 1;
        self.parts.forwarders = true;
    }

    /// Whether an object has become a forwarder since the heap was made, so that following a word may take steps that can be saved. No clause speaks of it.
    pub fn has_forwarders(&self) -> bool {
        let parts = &self.parts;
        parts.forwarders
    }
}
