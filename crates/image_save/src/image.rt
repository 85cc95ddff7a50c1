// The header of the file.
ghost use Rattle.std.specs.Prelude.{◌≡◌};
ghost use Rattle.spur_graph.specs.Heaps.{IsWhole};
ghost use Rattle.spur_heap.specs.Parts.{view_of};
ghost use Rattle.image_header.specs.Headers.{written};
ghost use Rattle.image_save.specs.Saved.{saved_head};
ghost use Rattle.image_save.specs.Places.{ArePlaces};

use crate::places::Places;
use crate::words::saved_value;
use image_header::ImageHeader;
use spur_graph::{BRIDGE_BYTES, SPUR_FORMAT};
use spur_heap::HeapParts;

/// The words of the bridge at the end of the segment. Each is 0.
pub(crate) const BRIDGE_WORDS: usize = BRIDGE_BYTES as usize / 8;

/// The bytes of the header. The heap is as long as its first segment, the bridge counted; the last hash has the hash state in its low half, and 0 in its
/// upper one.
pub(crate) fn header_bytes(parts: &HeapParts, places: &Places) -> [u8; 128]
    requires whole { IsWhole (view_of parts.now) }
    requires places { ArePlaces (view_of parts.now) places.now }
    ensures { result ≡ written (saved_head (view_of parts.now)) }
{
    let heap_bytes = 8 * (places.words + BRIDGE_WORDS) as u64;
    image_header::write(&ImageHeader {
        format: SPUR_FORMAT,
        heap_bytes,
        base: places.base,
        special: saved_value(parts, places, parts.special),
        last_hash: parts.hash as u64,
        first_segment: heap_bytes,
        carried: parts.carried,
    })
}
