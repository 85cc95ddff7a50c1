// The slots of an object: which are pointers, and how the others are cut into units.
ghost use Rattle.std.specs.Prelude.{◌≡◌, ◌≤◌, ◌<◌, ◌*◌, ◌^◌, length, true};
ghost use Rattle.spur_graph.specs.Cells.{pointer_count, unit_count};
ghost use Rattle.spur_heap.specs.Parts.{view_of};
ghost use Rattle.spur_heap.specs.Words.{AreSound, is_object, body_in, unit_bytes_in, unit_place};

use crate::heap::HeapParts;
use heap_walk::{pointers_of, slots_of};
use object_header::{Format, Header};

/// The format of an object.
pub fn format_of(parts: &HeapParts, start: usize) -> Format
    requires sound { AreSound (view_of parts.now) }
    requires there { is_object (view_of parts.now) start ≡ true }
    ensures { result ≡ (body_in (view_of parts.now) start).format }
{
    Format::new(Header(parts.region.get(start)).format() as u8)
}

/// How many slots of an object are pointers.
pub fn pointer_count_of(parts: &HeapParts, start: usize) -> usize
    requires sound { AreSound (view_of parts.now) }
    requires there { is_object (view_of parts.now) start ≡ true }
    ensures count { result ≡ pointer_count (body_in (view_of parts.now) start) }
    ensures fits { result ≤ length (body_in (view_of parts.now) start).words }
{
    pointers_of(parts.region.as_slice(), start)
}

/// How many units an object has.
pub fn unit_count_of(parts: &HeapParts, start: usize) -> usize
    requires sound { AreSound (view_of parts.now) }
    requires there { is_object (view_of parts.now) start ≡ true }
    ensures { result ≡ unit_count (body_in (view_of parts.now) start) }
{
    let format = format_of(parts, start);
    let slots = slots_of(parts.region.as_slice(), start) - pointer_count_of(parts, start);
    match format.unit_bytes() {
        0 => 0,
        bytes => slots * 8 / bytes - format.unused(),
    }
}

/// The index of the word that holds unit `i` of an object.
pub fn unit_place_of(parts: &HeapParts, start: usize, i: usize) -> usize
    requires sound { AreSound (view_of parts.now) }
    requires there { is_object (view_of parts.now) start ≡ true }
    requires within { i < unit_count (body_in (view_of parts.now) start) }
    ensures place { result ≡ unit_place (view_of parts.now) start i }
    ensures inside { result < length parts.now.region }
    ensures small { i * unit_bytes_in (view_of parts.now) start < 2 ^ 30 }
{
    let bytes = format_of(parts, start).unit_bytes();
    start + 1 + pointer_count_of(parts, start) + i * bytes / 8
}
