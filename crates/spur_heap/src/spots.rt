// Where an object stands, and how many words it has.
ghost use Rattle.std.specs.Prelude.{◌≡◌, ◌≤◌, ◌^◌, length, false, nat_lt};
ghost use Rattle.spur_graph.specs.Room.{Space, Old, fresh_spot, is_old, slots_in, spot_at};
ghost use Rattle.spur_graph.specs.Become.{stays_in_place};
ghost use Rattle.spur_graph.specs.Heaps.{heap_room};
ghost use Rattle.spur_heap.specs.Words.{body_in};
ghost use Rattle.spur_heap.specs.Views.{IsOrdinary};

use crate::heap::Heap;
use heap_walk::slots_of;
use object_header::{Header, OVERFLOW_COUNT};

impl Heap {
    /// How many slots an object has.
    ///
    /// An object of new space has the words of one of so many slots that is made; one that was loaded may have an overflow word without need.
    pub fn slot_count(&self, start: usize) -> usize
        requires there { IsOrdinary self.now start }
        ensures slots { result ≡ length (body_in self.now start).words }
        ensures few { result ≤ 2 ^ 27 }
        ensures spot { (space : Space) → fresh_spot space (slots_in (spot_at (heap_room self.now) start)) ≡ fresh_spot space result }
        ensures young { is_old (spot_at (heap_room self.now) start).space ≡ false → record (spot_at (heap_room self.now) start) { space = Old } ≡ fresh_spot Old result }
    {
        slots_of(self.parts.region.as_slice(), start)
    }

    /// Whether an object has an overflow word.
    fn has_overflow(&self, start: usize) -> bool
        requires there { IsOrdinary self.now start }
        ensures { result ≡ (spot_at (heap_room self.now) start).overflow }
    {
        Header(self.parts.region.get(start)).count() == OVERFLOW_COUNT
    }

    /// Whether two objects take as many words, both with an overflow word or both without, so that each fits the other's place.
    pub fn stays_in_place(&self, a: usize, b: usize) -> bool
        requires first { IsOrdinary self.now a }
        requires second { IsOrdinary self.now b }
        ensures { result ≡ stays_in_place (heap_room self.now) a b }
    {
        self.whole();
        self.has_overflow(a) == self.has_overflow(b)
            && self.slot_count(a).max(1) == self.slot_count(b).max(1)
    }

    /// Whether an object stands in old space.
    pub fn is_old(&self, start: usize) -> bool
        requires there { IsOrdinary self.now start }
        ensures room { result ≡ is_old (spot_at (heap_room self.now) start).space }
        ensures place { result ≡ nat_lt start self.now.spaces.old_end }
    {
        let parts = &self.parts;
        start < parts.old_end
    }
}
