// The objects of an image, tested and settled.
ghost use Rattle.std.specs.Prelude.{◌≡◌, ◌<◌, ◌≤◌, ◌^◌, ℕ, List, length, take, IfOk, IfErr};
ghost use Rattle.spur_graph.specs.declared.limits.Limits.{Limits};
ghost use Rattle.spur_graph.specs.ImageCauses.{IsAccepted};
ghost use Rattle.spur_graph.specs.Segments.{total_words};
ghost use Rattle.image_checks.specs.Checks.{AreOf};
ghost use Rattle.image_file.specs.Errors.{IsCauseOf};
ghost use Rattle.image_load.specs.Passes.{AreTried, IsNoFault};
ghost use Rattle.image_load.specs.Images.{AreSettled};

use crate::LoadError;
use crate::checks::check;
use heap_segments::AddressMap;
use image_checks::is_good_reference;
use image_settle::{settle, settled_word};
use image_words::ImageWords;
use spur_words::Region;
use std::alloc::Global;

/// Tests the words of an image's objects and turns them into those of a heap. `special` is the image's special objects reference,
/// and the answer is the word that it has in the heap. The error is the first cause that applies to the words, or
/// [`LoadError::Memory`].
fn settle_objects(
    alloc: Global,
    words: &mut [u64],
    map: &AddressMap,
    special: u64,
) -> Result<u64, LoadError>
    requires all { AreOf map.now words.old }
    requires some { 0 < length map.now }
    requires small { length words.old ≤ 2 ^ 27 }
    ensures settled { IfOk result (AreSettled map.now words.old words.new special) }
    ensures accepted { IfOk result (λ _. (bytes : List ℕ) (limits : Limits) → AreTried bytes limits map.now words.old special → IsAccepted bytes limits) }
    ensures refused { IfErr result (λ e. (bytes : List ℕ) (limits : Limits) → AreTried bytes limits map.now words.old special → IsCauseOf bytes limits e) }
    ensures fault { IfErr result IsNoFault }
    ensures long { length words.new ≡ length words.old }
{
    // That the segments rise is known of each map.
    let _segments = map.len();
    let found = match check(alloc, words, map) {
        Ok(found) => found,
        Err(error) => return Err(error),
    };
    let image = ImageWords {
        map,
        starts: &found.starts,
        ordinary: &found.ordinary,
        roots: found.roots,
    };
    // The reference is followed while the words of forwarders are addresses, and judged when all slots have passed.
    let is_good = is_good_reference(words, &image, special);
    let word = settled_word(words, &image, special);
    match settle(words, &image) {
        Ok(()) => {}
        Err(slot) => return Err(LoadError::Slot(map.offset(slot))),
    }
    if is_good {
        Ok(word)
    } else {
        Err(LoadError::Special(special))
    }
}

/// The same of the words at the front of a region.
pub(crate) fn settle_front(
    alloc: Global,
    region: &mut Region,
    map: &AddressMap,
    special: u64,
) -> Result<u64, LoadError>
    requires some { 0 < length map.now }
    requires within { total_words map.now ≤ length region.old }
    requires small { length region.old ≤ 2 ^ 27 }
    ensures settled { IfOk result (AreSettled map.now (take (total_words map.now) region.old) (take (total_words map.now) region.new) special) }
    ensures accepted { IfOk result (λ _. (bytes : List ℕ) (limits : Limits) → AreTried bytes limits map.now (take (total_words map.now) region.old) special → IsAccepted bytes limits) }
    ensures refused { IfErr result (λ e. (bytes : List ℕ) (limits : Limits) → AreTried bytes limits map.now (take (total_words map.now) region.old) special → IsCauseOf bytes limits e) }
    ensures fault { IfErr result IsNoFault }
    ensures long { length region.new ≡ length region.old }
{
    settle_objects(alloc, region.window_mut(0, map.words()), map, special)
}
