// Little-endian numbers among bytes.
ghost use Rattle.std.specs.Prelude.{◌≡◌, ◌≤◌, ◌+◌, length};
ghost use Rattle.std.specs.Int.{w32, w64, to_le_bytes};
ghost use Rattle.spur_graph.specs.Bytes.{number};
ghost use Rattle.image_header.specs.Headers.{put};

use byteorder::{ByteOrder, LittleEndian};

/// The four bytes from `at` on, as a number.
pub(crate) fn number32(bytes: &[u8], at: usize) -> u32
    requires { at + 4 ≤ length bytes.now }
    ensures { result ≡ number w32 at bytes.now }
{
    let (_, rest) = bytes.split_at(at);
    LittleEndian::read_u32(rest)
}

/// The eight bytes from `at` on, as a number.
pub(crate) fn number64(bytes: &[u8], at: usize) -> u64
    requires { at + 8 ≤ length bytes.now }
    ensures { result ≡ number w64 at bytes.now }
{
    let (_, rest) = bytes.split_at(at);
    LittleEndian::read_u64(rest)
}

/// Puts a number into the four bytes from `at` on.
pub(crate) fn put32(bytes: &mut [u8], at: usize, number: u32)
    requires { at + 4 ≤ length bytes.old }
    ensures { bytes.new ≡ put at (to_le_bytes w32 number) bytes.old }
{
    let (_, rest) = bytes.split_at_mut(at);
    LittleEndian::write_u32(rest, number);
}

/// Puts a number into the eight bytes from `at` on.
pub(crate) fn put64(bytes: &mut [u8], at: usize, number: u64)
    requires { at + 8 ≤ length bytes.old }
    ensures { bytes.new ≡ put at (to_le_bytes w64 number) bytes.old }
{
    let (_, rest) = bytes.split_at_mut(at);
    LittleEndian::write_u64(rest, number);
}
