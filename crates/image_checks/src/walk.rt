// The chunks of an image, each in its segment.
ghost use Rattle.std.specs.Prelude.{◌≡◌, ◌≤◌, length, OnOk};
ghost use Rattle.spur_graph.specs.ImageCauses.{FindsLeast};
ghost use Rattle.spur_graph.specs.Places.{IsBadObject};
ghost use Rattle.heap_cells.specs.Rows.{AllRead};
ghost use Rattle.image_checks.specs.Checks.{AreOf, IsBadIn, IsCut};

use crate::head::head_at;
use heap_segments::AddressMap;

/// Walks over the chunks of one range. The error is the first word of the first chunk that is refused.
fn walk(words: &[u64], from: usize, to: usize) -> Result<(), usize>
    requires order { from ≤ to }
    requires within { to ≤ length words.now }
    ensures { FindsLeast (IsBadObject words.now from to) result }
{
    let mut at = from;
    'walk: while at < to {
        match head_at(words, at, to) {
            Ok(head) => at += head.words,
            Err(_) => return Err(at),
        }
    }
    Ok(())
}

/// Walks over the chunks of all segments. The error is the first word of the first chunk that is refused in its segment.
pub fn first_bad_object(words: &[u64], map: &AddressMap) -> Result<(), usize>
    requires all { AreOf map.now words.now }
    ensures least { FindsLeast (IsBadIn map.now words.now) result }
    ensures cut { OnOk result (IsCut map.now words.now) }
    ensures read { OnOk result (AllRead words.now 0 (length words.now)) }
{
    'segments: for i in 0..map.len() {
        match walk(words, map.begin(i), map.begin(i + 1)) {
            Ok(()) => {}
            Err(at) => return Err(at),
        }
    }
    Ok(())
}
