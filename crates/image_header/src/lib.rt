//! The header of an image file: its 128 bytes, and the fields that they are.
//!
//! All numbers are little-endian. The fields are those of the format of 64-bit Spur images, number 68021: the format, the
//! size of the header, the bytes of the heap, its base address, the reference to the special objects array, the last hash, and
//! the bytes of the first segment, where 0 stands for the bytes of the heap. What else an image has in its header, a
//! virtual machine may mean something by; these bytes are carried from the image that is read to the one that is written,
//! but for the eight of the free bytes, which nobody reads and which are written as 0.
//!
//! The layers above rest on two things. A header is refused by its first fault, of the format, its size and the base address;
//! so a base that is accepted is a multiple of 8 and at most 2^60. And what is written is read again as the same fields, and
//! what was read is written again as the same bytes.
#![tactic(auto)]

mod bytes;
mod header;
mod laws;
#[cfg(test)]
mod tests;

pub use header::{HeaderError, ImageHeader, read, write};
pub use laws::{carries, reads_back, writes_back};
