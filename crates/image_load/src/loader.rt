// An image file, loaded.
ghost use Rattle.std.specs.Prelude.{◌≡◌, ℕ, List, take, IfOk, IfErr, IfSome};
ghost use Rattle.std.specs.FinMap as map;
ghost use Rattle.spur_graph.specs.ImageFile.{header_bytes};
ghost use Rattle.spur_graph.specs.ImageCauses.{IsAccepted};
ghost use Rattle.spur_graph.specs.LoadedGraph.{loaded_graph, loaded_room};
ghost use Rattle.spur_graph.specs.Heaps.{Stands, Whole};
ghost use Rattle.image_file.specs.Errors.{IsCauseOf};
ghost use Rattle.image_laws.specs.Whole.{StandsInOrder};
ghost use Rattle.image_load.specs.Loaded.{AreLimits, LoadCause};
ghost use Rattle.image_load.specs.Passes.{IsNoFault};
ghost use Rattle.image_load.specs.Images.{IsImageOf, IsSoundImage};

use crate::LoadError;
use crate::image::{Image, read_image};
use crate::objects::settle_front;
use image_settle::put_room;
use spur_graph::Limits;
use spur_heap::Heap;
use spur_io::Files;
use std::alloc::Global;

/// How many states the drawing of identity hashes has.
const HASH_STATES: u64 = 1 << 32;

/// Makes a heap of an image that was read. The state from which identity hashes are drawn is the low half of the header's.
fn adopt(alloc: Global, image: Image) -> Result<Heap, LoadError>
    requires { IsSoundImage image }
    ensures stands { IfOk result (λ h. (bytes : List ℕ) → IsImageOf bytes image → IsAccepted bytes image.bare.limits × Stands h (loaded_graph bytes) (loaded_room bytes image.bare.limits)) }
    ensures order { IfOk result (λ h. (bytes : List ℕ) → IsImageOf bytes image → StandsInOrder bytes image.bare.limits h) }
    ensures fresh { IfOk result (λ h. (h.handles ≡ map.empty) × (h.limits ≡ image.bare.limits)) }
    ensures carried { IfOk result (λ h. h.carried ≡ image.header.carried) }
    ensures unmarked { IfOk result (λ h. h.phase ≡ Whole) }
    ensures refused { IfErr result (λ e. (bytes : List ℕ) → IsImageOf bytes image → IsCauseOf bytes image.bare.limits e) }
    ensures fault { IfErr result IsNoFault }
{
    let Image {
        header,
        map,
        mut bare,
    } = image;
    let room = bare.limits.room;
    let region = bare.region_mut();
    let special = match settle_front(alloc, region, &map, header.special) {
        Ok(special) => special,
        Err(error) => return Err(error),
    };
    put_room(region, map.words(), room);
    let heap = Heap::adopt(
        bare,
        special,
        (header.last_hash % HASH_STATES) as u32,
        header.carried,
    );
    // That it is whole is known of each heap.
    heap.whole();
    Ok(heap)
}

/// Loads the image file of this name, with room for further objects as the limits say. Each object stands at the word that its address names, so that
/// the objects keep the order that they have in the file.
pub fn load<F: Files>(
    alloc: Global,
    files: &mut F,
    name: &str,
    limits: Limits,
) -> Result<Heap, LoadError>
    requires { AreLimits limits }
    ensures stands { IfOk result (λ h. IfSome (F.told files.old) (λ store. IsAccepted (store name.now) limits × Stands h (loaded_graph (store name.now)) (loaded_room (store name.now) limits))) }
    ensures order { IfOk result (λ h. IfSome (F.told files.old) (λ store. StandsInOrder (store name.now) limits h)) }
    ensures fresh { IfOk result (λ h. (h.handles ≡ map.empty) × (h.limits ≡ limits)) }
    ensures unmarked { IfOk result (λ h. h.phase ≡ Whole) }
    ensures carried { IfOk result (λ h. IfSome (F.told files.old) (λ store. h.carried ≡ take header_bytes (store name.now))) }
    ensures refused { IfErr result (λ e. IfSome (F.told files.old) (λ store. IsCauseOf (store name.now) limits e)) }
    ensures same { F.told files.new ≡ F.told files.old }
    ensures cause { LoadCause (F.read_count files.old) (F.read_count files.new) result }
    ensures other { F.write_count files.new ≡ F.write_count files.old }
{
    match read_image(alloc, files, name, limits) {
        Ok(image) => adopt(alloc, image),
        Err(error) => Err(error),
    }
}
