// References, followed to ordinary objects.
ghost use Rattle.std.specs.Prelude.{◌≡◌, ◌<◌, ◌&&◌, length, slice_index, nat_eq, if◌then◌else◌, None, IfSome};
ghost use Rattle.object_header.specs.Head.{class_of};
ghost use Rattle.object_header.specs.declared.header.TheConstants.{FORWARDER_CLASS};
ghost use Rattle.heap_walk.specs.Starts.{has_start, covered};
ghost use Rattle.spur_graph.specs.Cells.{Store, lead};
ghost use Rattle.spur_graph.specs.Ordinary.{is_good_reference};
ghost use Rattle.image_words.specs.References.{IsImage, Leads};

use crate::image::ImageWords;
use heap_walk::StartMap;
use object_header::{FORWARDER_CLASS, Header};

/// Whether a forwarder starts at the word `s`, where `starts` has the starts of objects and forwarders.
pub fn is_forwarder(words: &[u64], starts: &StartMap, s: usize) -> bool
    requires inside { s < length words.now }
    requires covers { covered starts.now ≡ length words.now }
    ensures { result ≡ (has_start starts.now s && nat_eq (class_of (slice_index words.now s)) FORWARDER_CLASS) }
{
    starts.has(s) && Header(words[s]).class() == FORWARDER_CLASS
}

/// The start of the ordinary object to which a word leads, over a forwarder where it names one; none where it leads to no ordinary object.
pub fn ordinary_start(words: &[u64], image: &ImageWords, word: u64) -> Option<usize>
    ghost h: { Store }
    requires image { IsImage h image.now }
    requires leads { Leads h words.now }
    ensures value { result ≡ (if is_good_reference h word then lead h word else None) }
    ensures below { IfSome result (λ s. s < length words.now) }
{
    let s = image.map.to_region(word)?;
    if s >= image.ordinary.len() {
        return None;
    }
    if image.ordinary.has(s) {
        return Some(s);
    }
    if !is_forwarder(words, image.starts, s) {
        return None;
    }
    let target = image.map.to_region(words[s + 1])?;
    if image.ordinary.has(target) {
        Some(target)
    } else {
        None
    }
}
