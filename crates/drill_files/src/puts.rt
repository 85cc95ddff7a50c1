// Bytes put behind those of a piece that has room for them.
ghost use Rattle.std.specs.Prelude.{◌≡◌, ◌≤◌, ◌+◌, ◌++◌, length};
ghost use Rattle.std.specs.Int.{w32, w64, to_le_bytes};

use arrayvec::ArrayVec;

/// Adds bytes.
pub(crate) fn put<const CAP: usize>(out: &mut ArrayVec<u8, CAP>, bytes: &[u8])
    requires { length out.old.items + length bytes.now ≤ CAP }
    ensures items { out.new.items ≡ out.old.items ++ bytes.now }
    ensures len { length out.new.items ≡ length out.old.items + length bytes.now }
{
    let _fits = out.try_extend_from_slice(bytes);
}

/// Adds a number of 32 bits, its low byte first.
pub(crate) fn put32<const CAP: usize>(out: &mut ArrayVec<u8, CAP>, number: u32)
    requires { length out.old.items + 4 ≤ CAP }
    ensures items { out.new.items ≡ out.old.items ++ to_le_bytes w32 number }
    ensures len { length out.new.items ≡ length out.old.items + 4 }
{
    put(out, &number.to_le_bytes());
}

/// Adds a number of 64 bits, its low byte first.
pub(crate) fn put64<const CAP: usize>(out: &mut ArrayVec<u8, CAP>, number: u64)
    requires { length out.old.items + 8 ≤ CAP }
    ensures items { out.new.items ≡ out.old.items ++ to_le_bytes w64 number }
    ensures len { length out.new.items ≡ length out.old.items + 8 }
{
    put(out, &number.to_le_bytes());
}
