// The header at the front of a file.
ghost use Rattle.std.specs.Prelude.{◌≡◌, ◌≤◌, ◌<◌, ◌+◌, ◌*◌, ◌/◌, ◌%◌, ◌^◌, ℕ, List, length, IfOk, IfErr, OnOk, IsErr};
ghost use Rattle.spur_graph.specs.declared.limits.Limits.{Limits};
ghost use Rattle.spur_graph.specs.ImageCauses.{greatest_base, most_words};
ghost use Rattle.spur_graph.specs.ImageFile.{base};
ghost use Rattle.spur_graph.specs.Heaps.{IsCarried};
ghost use Rattle.image_header.specs.Headers.{IsHeaderOf};
ghost use Rattle.image_file.specs.Told.{Tells};
ghost use Rattle.image_file.specs.Passed.{Passes, needed_words};
ghost use Rattle.image_file.specs.Errors.{IsCauseOf, ReadCause, IsSoundHeader};
ghost use Rattle.image_file.specs.declared.error.LoadError.TheVariants.{Large};

use crate::LoadError;
use image_header::ImageHeader;
use spur_graph::{HEADER_BYTES, Limits, MOST_WORDS};
use spur_io::{Files, read_full};

/// The header of a file.
pub(crate) fn read_header<F: Files>(files: &mut F, name: &str) -> Result<ImageHeader, LoadError>
    ensures header { IfOk result (λ h. (file : List ℕ) → Tells (F.told files.old) name.now file → IsHeaderOf file h) }
    ensures passes { IfOk result (λ h. (file : List ℕ) → Tells (F.told files.old) name.now file → (limits : Limits) → Passes file limits 4) }
    ensures sound { IfOk result IsSoundHeader }
    ensures refused { IfErr result (λ e. (file : List ℕ) → Tells (F.told files.old) name.now file → (limits : Limits) → IsCauseOf file limits e) }
    ensures same { F.told files.new ≡ F.told files.old }
    ensures cause { ReadCause (F.read_count files.old) (F.read_count files.new) result }
    ensures other { F.write_count files.new ≡ F.write_count files.old }
{
    let mut front = [0; HEADER_BYTES];
    let count = read_full(files, name, 0, &mut front)?;
    if count < HEADER_BYTES {
        return Err(LoadError::Short(count as u64));
    }
    Ok(image_header::read(&front)?)
}

/// The words that an image with this header and the limits ask for.
fn needed(header: &ImageHeader, limits: Limits) -> u128
    requires room { limits.room ≤ 2 ^ 27 }
    requires eden { limits.eden ≤ 2 ^ 27 }
    requires survivor { limits.survivor ≤ 2 ^ 27 }
    ensures { result ≡ needed_words header.now limits }
{
    let heap = header.heap_bytes as u128 / 8;
    heap + limits.room as u128 + limits.eden as u128 + 2 * limits.survivor as u128
}

/// Whether the image fits a region beside what the limits ask for. The error is [`LoadError::Large`].
pub(crate) fn check_size(header: &ImageHeader, limits: Limits) -> Result<(), LoadError>
    requires room { limits.room ≤ 2 ^ 27 }
    requires eden { limits.eden ≤ 2 ^ 27 }
    requires survivor { limits.survivor ≤ 2 ^ 27 }
    ensures fits { OnOk result (needed_words header.now limits ≤ most_words) }
    ensures large { IfErr result (λ e. (e ≡ Large (needed_words header.now limits)) × (most_words < needed_words header.now limits)) }
{
    let words = needed(header, limits);
    if words > MOST_WORDS as u128 {
        return Err(LoadError::Large(words));
    }
    Ok(())
}
