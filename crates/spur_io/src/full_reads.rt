// Reads that go on over short answers.
ghost use Rattle.std.specs.Prelude.{◌≡◌, ◌≤◌, ◌+◌, ◌<◌, ◌^◌, length, take, drop, IfOk, IfSome};
ghost use Rattle.spur_io.specs.Causes.{FileCause};

use crate::{FileFault, Files};

/// Reads bytes of the file from the byte `at` on until `into` is full or the file ends, and says how many.
///
/// What `into` has behind them is left open, and so is all of it after a refusal.
pub fn read_full<F: Files>(
    files: &mut F,
    name: &str,
    at: u64,
    into: &mut [u8],
) -> Result<usize, FileFault>
    requires { at + length into.old < 2 ^ 64 }
    ensures bound { IfOk result (λ n. n ≤ length into.new) }
    ensures bytes { IfOk result (λ n. IfSome (F.told files.old) (λ store. take n into.new ≡ take (length into.new) (drop at (store name.now)))) }
    ensures same { F.told files.new ≡ F.told files.old }
    ensures cause { FileCause (F.read_count files.old) (F.read_count files.new) result }
    ensures other { F.write_count files.new ≡ F.write_count files.old }
{
    let mut filled = 0;
    'pieces: while filled < into.len() {
        let count = files.read_at(name, at + filled as u64, &mut into[filled..])?;
        if count == 0 {
            return Ok(filled);
        }
        filled += count;
    }
    Ok(filled)
}
