// The chain of segments of a file.
ghost use Rattle.std.specs.Prelude.{◌≡◌, ◌≤◌, ◌<◌, ◌+◌, ◌*◌, ◌%◌, ◌^◌, ℕ, List, length, IfOk, IfErr, IfSome, IfNone};
ghost use Rattle.spur_graph.specs.ImageFile.{header_bytes, heap_bytes};
ghost use Rattle.spur_graph.specs.Segments.{first_size, most_segments, total_words};
ghost use Rattle.spur_graph.specs.ImageCauses.{greatest_base};
ghost use Rattle.heap_segments.specs.Rising.{end_place};
ghost use Rattle.image_header.specs.Headers.{IsHeaderOf};
ghost use Rattle.image_file.specs.Told.{Tells};
ghost use Rattle.image_file.specs.Errors.{ReadCause};
ghost use Rattle.image_file.specs.Linked.{IsReady, Leads, IsChain, IsLinkError};

use crate::LoadError;
use crate::pieces::read_bridge;
use heap_segments::{AddressMap, Next, after};
use image_header::ImageHeader;
use spur_graph::{BRIDGE_BYTES, HEADER_BYTES};
use spur_io::Files;
use std::alloc::Global;

/// A segment as a header or a bridge tells of it, before it is checked.
#[derive(Clone, Copy)]
pub struct Link {
    /// Its place in the file.
    pub place: u64,
    /// Its bytes, with the bridge.
    pub size: u64,
    /// Its address.
    pub address: u64,
}

/// The first segment of an image. Where the header has no length of it, it is the whole heap.
fn first_link(header: &ImageHeader) -> Link
    ensures place { result.place ≡ header_bytes }
    ensures size { (file : List ℕ) → IsHeaderOf file header.now → result.size ≡ first_size file }
    ensures address { result.address ≡ (header.now).base }
{
    let size = if header.first_segment == 0 {
        header.heap_bytes
    } else {
        header.first_segment
    };
    Link {
        place: HEADER_BYTES as u64,
        size,
        address: header.base,
    }
}

/// Enters a segment into the map, and gives what its bridge tells: the next segment, or none where the chain ends. The heap
/// ends at the byte `end` of the file.
///
/// The error is [`LoadError::Segment`] where the segment can't stand, and [`LoadError::End`] where it is the last and bytes of the heap are left.
fn enter<F: Files>(
    files: &mut F,
    name: &str,
    map: &mut AddressMap,
    end: u64,
    link: Link,
) -> Result<Option<Link>, LoadError>
    requires ready { IsReady end map.old link }
    requires near { end ≤ 2 ^ 32 }
    ensures ready { IfOk result (λ o. IfSome o (IsReady end map.new)) }
    ensures more { IfOk result (λ _. length map.new ≡ length map.old + 1) }
    ensures few { length map.old ≤ most_segments }
    ensures words { IfOk result (λ _. header_bytes + 8 * total_words map.new ≤ end) }
    ensures next { IfOk result (λ o. IfSome o (λ next. (file : List ℕ) → Tells (F.told files.old) name.now file → end ≡ header_bytes + heap_bytes file → end ≤ length file → Leads file map.old link → Leads file map.new next)) }
    ensures last { IfOk result (λ o. IfNone o ((file : List ℕ) → Tells (F.told files.old) name.now file → end ≡ header_bytes + heap_bytes file → end ≤ length file → Leads file map.old link → IsChain file map.new)) }
    ensures ends { IfOk result (λ o. IfNone o (end_place header_bytes map.new ≡ end)) }
    ensures refused { IfErr result (λ e. (file : List ℕ) → Tells (F.told files.old) name.now file → end ≡ header_bytes + heap_bytes file → end ≤ length file → Leads file map.old link → IsLinkError file e) }
    ensures same { F.told files.new ≡ F.told files.old }
    ensures cause { ReadCause (F.read_count files.old) (F.read_count files.new) result }
    ensures other { F.write_count files.new ≡ F.write_count files.old }
{
    let number = map.len() as u64;
    let Ok(()) = map.next_segment(end - link.place, link.size, link.address) else {
        return Err(LoadError::Segment(number));
    };
    let place = link.place + link.size;
    let left = end - place;
    let (first, second) = read_bridge(files, name, place - BRIDGE_BYTES)?;
    match after(first, second, left, link.address + link.size) {
        Ok(Next::Last) => Ok(None),
        Ok(Next::Segment { address, size }) => Ok(Some(Link {
            place,
            size,
            address,
        })),
        Err(_) => Err(LoadError::End(left)),
    }
}

/// The chain of segments of a file, in the order of the file. The errors are those of each segment.
pub(crate) fn read_chain<F: Files>(
    alloc: Global,
    files: &mut F,
    name: &str,
    header: &ImageHeader,
) -> Result<AddressMap, LoadError>
    requires aligned { (header.now).base % 8 ≡ 0 }
    requires few { (header.now).heap_bytes ≤ 2 ^ 31 }
    ensures chain { IfOk result (λ map. (file : List ℕ) → Tells (F.told files.old) name.now file → IsHeaderOf file header.now → header_bytes + heap_bytes file ≤ length file → IsChain file map) }
    ensures some { IfOk result (λ map. 0 < length map) }
    ensures ends { IfOk result (λ map. end_place header_bytes map ≡ header_bytes + (header.now).heap_bytes) }
    ensures words { IfOk result (λ map. 8 * total_words map ≤ (header.now).heap_bytes) }
    ensures refused { IfErr result (λ e. (file : List ℕ) → Tells (F.told files.old) name.now file → IsHeaderOf file header.now → header_bytes + heap_bytes file ≤ length file → IsLinkError file e) }
    ensures same { F.told files.new ≡ F.told files.old }
    ensures cause { ReadCause (F.read_count files.old) (F.read_count files.new) result }
    ensures other { F.write_count files.new ≡ F.write_count files.old }
{
    let end = HEADER_BYTES as u64 + header.heap_bytes;
    let mut map = AddressMap::new(alloc)?;
    let mut link = first_link(header);
    'segments: while let Some(next) = enter(files, name, &mut map, end, link)? {
        link = next;
    }
    Ok(map)
}
