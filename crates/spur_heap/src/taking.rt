// The header and the slots of an object that takes the contents of another.
ghost use Rattle.std.specs.Prelude.{◌≡◌, ◌<◌, ◌^◌, ◌+◌, ◌≤◌, ℕ, length, slice_index, true};
ghost use Rattle.spur_heap.specs.Contents.{TakesHeader};
ghost use Rattle.spur_heap.specs.Fresh.{SameOutside};
ghost use Rattle.spur_heap.specs.Parts.{view_of};
ghost use Rattle.spur_heap.specs.Remembering.{must_with};
ghost use Rattle.spur_heap.specs.Swaps.{remembers};
ghost use Rattle.spur_heap.specs.Words.{AreSound, is_object};

use crate::flags::bit;
use crate::heap::HeapParts;
use crate::naming::names_new;
use object_header::Header;
use spur_words::Region;

/// Whether an object that stands at `to` has to be remembered once it has the contents of the one that starts at `from`.
pub fn is_remembered_with(parts: &HeapParts, from: usize, to: usize) -> bool
    requires sound { AreSound (view_of parts.now) }
    requires there { is_object (view_of parts.now) from ≡ true }
    ensures { result ≡ must_with (view_of parts.now) to from }
{
    if to < parts.old_end {
        names_new(parts, from)
    } else {
        false
    }
}

/// Whether a place is remembered once it has the contents of another object: it was, or it has to be.
pub fn remembers(parts: &HeapParts, place: usize, other: usize) -> bool
    requires sound { AreSound (view_of parts.now) }
    requires inside { place < length parts.now.region }
    requires there { is_object (view_of parts.now) other ≡ true }
    ensures { result ≡ remembers (view_of parts.now) place other }
{
    Header(parts.region.get(place)).remembered() == 1 || is_remembered_with(parts, other, place)
}

/// The header of the object that starts at `to` once it has the contents of the one that starts at `from`, and this hash.
pub fn header_taking(parts: &HeapParts, from: usize, to: usize, hash: u64) -> Header
    requires sound { AreSound (view_of parts.now) }
    requires there { is_object (view_of parts.now) from ≡ true }
    requires inside { (from < length parts.now.region) × (to < length parts.now.region) }
    requires fits { hash < 2 ^ 22 }
    ensures { TakesHeader (view_of parts.now) from to hash result.0 }
{
    let own = Header(parts.region.get(to));
    Header(parts.region.get(from))
        .set_count(own.count())
        .set_hash(hash)
        .set_marked(0)
        .set_grey(0)
        .set_remembered(bit(remembers(parts, to, from)))
}

/// Copies the run of `len` words from the index `from` on to the index `to` on. No word outside the second run changes.
pub fn copy_run(region: &mut Region, from: usize, to: usize, len: usize)
    requires source { from + len ≤ length region.old }
    requires target { to + len ≤ length region.old }
    ensures same_length { length region.new ≡ length region.old }
    ensures run { (i : ℕ) → i < len → slice_index region.new (to + i) ≡ slice_index region.old (from + i) }
    ensures others { SameOutside region.old region.new to len }
{
    let all = region.len();
    region.window_mut(0, all).copy_within(from..from + len, to);
}
