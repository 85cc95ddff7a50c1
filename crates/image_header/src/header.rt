// A header as fields, and as bytes.
ghost use Rattle.std.specs.Prelude.{◌≡◌, IfOk, MatchResult, Some, None};
ghost use Rattle.image_header.specs.Headers.{IsHeaderOf, fault_of, is_bad_base, written};

use crate::bytes::{number32, number64, put32, put64};
use spur_graph::{GREATEST_BASE, HEADER_BYTES, SPUR_FORMAT};

/// What the header of an image says.
#[derive(Clone, Copy, Debug, PartialEq, Eq)]
pub struct ImageHeader {
    /// The format of the image, 68021 where it was read.
    pub format: u32,
    /// Bytes of the heap, the bridges of its segments included.
    pub heap_bytes: u64,
    /// The address of the heap's first word.
    pub base: u64,
    /// The reference to the special objects array.
    pub special: u64,
    /// The state from which identity hashes are drawn.
    pub last_hash: u64,
    /// Bytes of the first segment, its bridge included; 0 stands for those of the heap.
    pub first_segment: u64,
    /// All bytes of the header that was read.
    pub carried: [u8; 128],
}

/// Why a header is refused.
#[derive(Clone, Copy, Debug, PartialEq, Eq)]
pub enum HeaderError {
    /// The image has this format, and not 68021.
    Format(u32),
    /// The header has this size, and not 128 bytes.
    HeaderSize(u32),
    /// The heap begins at this address, which is no multiple of 8 or exceeds 2^60.
    Base(u64),
}

fn is_misplaced(base: u64) -> bool
    ensures { result ≡ is_bad_base base }
{
    base % 8 != 0 || base > GREATEST_BASE
}

/// Reads the header of an image. The error is the first of the faults that applies, in the order of [`HeaderError`].
pub fn read(bytes: &[u8; 128]) -> Result<ImageHeader, HeaderError>
    ensures fields { IfOk result (IsHeaderOf bytes.now) }
    ensures error { MatchResult result (λ _. fault_of bytes.now ≡ None) (λ e. fault_of bytes.now ≡ Some e) }
{
    let format = number32(bytes, 0);
    if format != SPUR_FORMAT {
        return Err(HeaderError::Format(format));
    }
    let size = number32(bytes, 4);
    if size as usize != HEADER_BYTES {
        return Err(HeaderError::HeaderSize(size));
    }
    let base = number64(bytes, 16);
    if is_misplaced(base) {
        return Err(HeaderError::Base(base));
    }
    Ok(ImageHeader {
        format,
        heap_bytes: number64(bytes, 8),
        base,
        special: number64(bytes, 24),
        last_hash: number64(bytes, 32),
        first_segment: number64(bytes, 72),
        carried: *bytes,
    })
}

/// The bytes of a header: those that it carries with the fields in their places, and 0 for the free bytes, 80 to 87. The size
/// of the header, in bytes 4 to 7, is as it was carried.
pub fn write(header: &ImageHeader) -> [u8; 128]
    ensures { result ≡ written header.now }
{
    let mut bytes = header.carried;
    put32(&mut bytes, 0, header.format);
    put64(&mut bytes, 8, header.heap_bytes);
    put64(&mut bytes, 16, header.base);
    put64(&mut bytes, 24, header.special);
    put64(&mut bytes, 32, header.last_hash);
    put64(&mut bytes, 72, header.first_segment);
    put64(&mut bytes, 80, 0);
    bytes
}
