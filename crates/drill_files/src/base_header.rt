// The header of the base image.
ghost use Rattle.std.specs.Prelude.{◌≡◌};
ghost use Rattle.spur_graph.specs.BaseImage.{base_header};

use crate::base_words::{BASE_ADDRESS, SPECIAL_ARRAY, WORD_COUNT, address};
use crate::puts::{put, put32, put64};
use arrayvec::ArrayVec;
use spur_graph::{HEADER_BYTES, SPUR_FORMAT};

/// Bytes of the heap, with the bridge.
const HEAP_BYTES: u64 = 8 * WORD_COUNT as u64;

/// The header. What an image only carries, and no load reads, is 0.
#[tactic(auto, unfolding(spur_graph::specs::BaseImage::base_header))]
pub(crate) fn base_header() -> ArrayVec<u8, HEADER_BYTES>
    ensures { result.items ≡ base_header }
{
    let mut header = ArrayVec::new();
    put32(&mut header, SPUR_FORMAT);
    put32(&mut header, HEADER_BYTES as u32);
    put64(&mut header, HEAP_BYTES);
    put64(&mut header, BASE_ADDRESS);
    put64(&mut header, address(SPECIAL_ARRAY));
    // the last hash
    put64(&mut header, 1);
    put(&mut header, &[0; 32]);
    // bytes of the first segment, which is the whole heap
    put64(&mut header, HEAP_BYTES);
    put(&mut header, &[0; 48]);
    header
}
