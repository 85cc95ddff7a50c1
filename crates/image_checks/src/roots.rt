// The first five chunks of an image.
ghost use Rattle.std.specs.Prelude.{◌≡◌, List, length, IfOk, OnOk};
ghost use Rattle.spur_graph.specs.ImageCauses.{FindsLeast};
ghost use Rattle.spur_graph.specs.Segments.{Segment};
ghost use Rattle.spur_graph.specs.Places.{IsBadRoot, is_bad_root};
ghost use Rattle.heap_cells.specs.Rows.{AllRead};
ghost use Rattle.image_words.specs.Roots.{AreRoots};
ghost use Rattle.image_checks.specs.Checks.{HasFive};
ghost use Rattle.spur_graph.specs.FileStores.{file_store};

use crate::head::known_head;
use image_words::Roots;
use object_header::{ARRAY_FORMAT, FORWARDER_CLASS, FREE_CLASS, Head, Header};
use spur_graph::{FREE_LISTS, HIDDEN_ROOTS, HIDDEN_ROOTS_SLOTS};

/// The greatest format that is no method's.
const LAST_UNIT_FORMAT: u64 = 23;

/// Whether the chunk can't be chunk `k` of the first five.
fn is_bad_root(k: usize, head: Head) -> bool
    ensures { result ≡ is_bad_root k head }
{
    let header = Header(head.header);
    let class = header.class();
    let format = header.format();
    class == FREE_CLASS
        || class == FORWARDER_CLASS
        || (k == FREE_LISTS && format > LAST_UNIT_FORMAT)
        || (k == HIDDEN_ROOTS && !(format == ARRAY_FORMAT && head.slots == HIDDEN_ROOTS_SLOTS))
}

/// The starts of the first five chunks: nil, false, true, the free lists object, which has no format of methods, and the hidden roots, an
/// array of 4,104 slots. The error is the first word of the first of them that is bad, or the end where there are fewer.
pub fn first_bad_root(words: &[u64]) -> Result<Roots, usize>
    requires { AllRead words.now 0 (length words.now) }
    ensures least { FindsLeast (IsBadRoot words.now 0 (length words.now)) result }
    ensures five { OnOk result ((segs : List Segment) → HasFive (file_store segs words.now)) }
    ensures starts { IfOk result (λ roots. (segs : List Segment) → AreRoots (file_store segs words.now) roots) }
{
    let mut starts = [0; 5];
    let mut at = 0;
    'roots: for k in 0..5 {
        if at >= words.len() {
            return Err(at);
        }
        let head = known_head(words, at);
        if is_bad_root(k, head) {
            return Err(at);
        }
        starts[k] = at + head.lead;
        at += head.words;
    }
    Ok(Roots {
        nil: starts[0],
        false_object: starts[1],
        true_object: starts[2],
        free_lists: starts[FREE_LISTS],
        hidden_roots: starts[HIDDEN_ROOTS],
    })
}
