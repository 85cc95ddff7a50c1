// How long a file is.
ghost use Rattle.std.specs.Prelude.{◌≡◌, ◌≤◌, ◌<◌, ◌+◌, ◌^◌, ℕ, List, length, nat_lt, IfOk, IfErr, OnOk};
ghost use Rattle.spur_io.specs.Causes.{FileCause};
ghost use Rattle.image_file.specs.Told.{Tells};
ghost use Rattle.image_file.specs.Errors.{IsShort, ReadCause};

use crate::LoadError;
use spur_graph::HEADER_BYTES;
use spur_io::{FileFault, Files, read_full};

/// Whether the file has a byte at the place `at`.
fn has_byte<F: Files>(files: &mut F, name: &str, at: u64) -> Result<bool, FileFault>
    requires near { at + 1 < 2 ^ 64 }
    ensures has { IfOk result (λ there. (file : List ℕ) → Tells (F.told files.old) name.now file → there ≡ nat_lt at (length file)) }
    ensures same { F.told files.new ≡ F.told files.old }
    ensures cause { FileCause (F.read_count files.old) (F.read_count files.new) result }
    ensures other { F.write_count files.new ≡ F.write_count files.old }
{
    let mut piece = [0; 1];
    let count = read_full(files, name, at, &mut piece)?;
    Ok(count > 0)
}

/// The length of a file that has at least `least` bytes and at most `most`.
///
/// It is found by bisection, with a read of one byte at each step, so it costs no memory and no more time for a long file.
fn length_between<F: Files>(
    files: &mut F,
    name: &str,
    least: u64,
    most: u64,
) -> Result<u64, FileFault>
    requires order { least ≤ most }
    requires near { most < 2 ^ 63 }
    ensures length { IfOk result (λ n. (file : List ℕ) → Tells (F.told files.old) name.now file → least ≤ length file → length file ≤ most → n ≡ length file) }
    ensures same { F.told files.new ≡ F.told files.old }
    ensures cause { FileCause (F.read_count files.old) (F.read_count files.new) result }
    ensures other { F.write_count files.new ≡ F.write_count files.old }
{
    let mut low = least;
    let mut high = most;
    'halves: while low < high {
        let middle = low + (high - low) / 2;
        if has_byte(files, name, middle)? {
            low = middle + 1;
        } else {
            high = middle;
        }
    }
    Ok(low)
}

/// Whether the file has a heap of so many bytes behind its header. The error is [`LoadError::Short`] with the length of the file,
/// where that is less.
pub(crate) fn check_length<F: Files>(
    files: &mut F,
    name: &str,
    heap_bytes: u64,
) -> Result<(), LoadError>
    requires few { heap_bytes ≤ 2 ^ 31 }
    ensures long { OnOk result ((file : List ℕ) → Tells (F.told files.old) name.now file → HEADER_BYTES ≤ length file → HEADER_BYTES + heap_bytes ≤ length file) }
    ensures short { IfErr result (λ e. (file : List ℕ) → Tells (F.told files.old) name.now file → HEADER_BYTES ≤ length file → IsShort file (HEADER_BYTES + heap_bytes) e) }
    ensures same { F.told files.new ≡ F.told files.old }
    ensures cause { ReadCause (F.read_count files.old) (F.read_count files.new) result }
    ensures other { F.write_count files.new ≡ F.write_count files.old }
{
    if heap_bytes == 0 {
        return Ok(());
    }
    let least = HEADER_BYTES as u64;
    let last = least + heap_bytes - 1;
    if has_byte(files, name, last)? {
        return Ok(());
    }
    Err(LoadError::Short(length_between(files, name, least, last)?))
}
