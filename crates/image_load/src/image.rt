// An image in memory, as it was read.
ghost use Rattle.std.specs.Prelude.{◌≡◌, IfOk, IfErr, IfSome};
ghost use Rattle.image_file.specs.Errors.{IsCauseOf};
ghost use Rattle.image_load.specs.Loaded.{AreLimits, LoadCause};
ghost use Rattle.image_load.specs.Images.{IsImageOf, IsSoundImage};

use crate::LoadError;
use heap_segments::AddressMap;
use image_file::{Front, read_front, read_words};
use image_header::ImageHeader;
use spur_graph::Limits;
use spur_heap::Bare;
use spur_io::Files;
use std::alloc::Global;

/// What was read of an image.
#[derive(Drop)]
pub(crate) struct Image {
    /// The header.
    pub header: ImageHeader,
    /// The segments, in the order of the file.
    pub map: AddressMap,
    /// The places of a heap, with the words of the image's objects at the front of the region and the room behind them.
    pub bare: Bare,
}

/// Reads the image file of this name into the places of a heap. Memory for these is asked for once the front is read and the file
/// is known to be as long as its header promises.
pub(crate) fn read_image<F: Files>(
    alloc: Global,
    files: &mut F,
    name: &str,
    limits: Limits,
) -> Result<Image, LoadError>
    requires { AreLimits limits }
    ensures image { IfOk result (λ i. IfSome (F.told files.old) (λ store. IsImageOf (store name.now) i)) }
    ensures sound { IfOk result IsSoundImage }
    ensures limits { IfOk result (λ i. i.bare.limits ≡ limits) }
    ensures refused { IfErr result (λ e. IfSome (F.told files.old) (λ store. IsCauseOf (store name.now) limits e)) }
    ensures same { F.told files.new ≡ F.told files.old }
    ensures cause { LoadCause (F.read_count files.old) (F.read_count files.new) result }
    ensures other { F.write_count files.new ≡ F.write_count files.old }
{
    let Front { header, map } = match read_front(alloc, files, name, limits) {
        Ok(front) => front,
        Err(error) => return Err(error),
    };
    let Ok(mut bare) = Bare::new(alloc, map.words() + limits.room, limits) else {
        return Err(LoadError::Memory);
    };
    match read_words(alloc, files, name, &map, bare.region_mut()) {
        Ok(()) => Ok(Image { header, map, bare }),
        Err(error) => Err(error),
    }
}
