// What stands at the front of a file, and its chain of segments.
ghost use Rattle.std.specs.Prelude.{◌≡◌, ◌≤◌, ◌^◌, length, IfOk, IfErr, IfSome};
ghost use Rattle.image_file.specs.Errors.{IsCauseOf, ReadCause};
ghost use Rattle.image_file.specs.Whole.{IsFrontOf, IsSoundFront};

use crate::LoadError;
use crate::chain::read_chain;
use crate::header::{check_size, read_header};
use crate::length::check_length;
use heap_segments::AddressMap;
use image_header::ImageHeader;
use spur_graph::Limits;
use spur_io::Files;
use std::alloc::Global;

/// What stands at the front of an image file, and the chain of segments that its bridges tell.
#[derive(Drop)]
pub struct Front {
    /// The header.
    pub header: ImageHeader,
    /// The segments, in the order of the file.
    pub map: AddressMap,
}

/// Reads the front of the image file of this name, and follows its chain of segments.
///
/// The error is the first of the causes that applies, in the order of [`LoadError`], where [`LoadError::Short`] for the heap comes
/// behind [`LoadError::Large`]. A file that is shorter than its header promises costs no memory: its length is found by reads of one byte.
pub fn read_front<F: Files>(
    alloc: Global,
    files: &mut F,
    name: &str,
    limits: Limits,
) -> Result<Front, LoadError>
    requires room { limits.room ≤ 2 ^ 27 }
    requires eden { limits.eden ≤ 2 ^ 27 }
    requires survivor { limits.survivor ≤ 2 ^ 27 }
    ensures front { IfOk result (λ f. IfSome (F.told files.old) (λ store. IsFrontOf (store name.now) limits f)) }
    ensures sound { IfOk result (IsSoundFront limits) }
    ensures refused { IfErr result (λ e. IfSome (F.told files.old) (λ store. IsCauseOf (store name.now) limits e)) }
    ensures same { F.told files.new ≡ F.told files.old }
    ensures cause { ReadCause (F.read_count files.old) (F.read_count files.new) result }
    ensures other { F.write_count files.new ≡ F.write_count files.old }
{
    let header = read_header(files, name)?;
    check_size(&header, limits)?;
    check_length(files, name, header.heap_bytes)?;
    let map = read_chain(alloc, files, name, &header)?;
    Ok(Front { header, map })
}
