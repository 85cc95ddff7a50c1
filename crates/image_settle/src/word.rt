// Words of slots, followed to the starts of a heap.
ghost use Rattle.std.specs.Prelude.{◌≡◌, ◌≤◌, ◌^◌, if◌then◌else◌, Some, None};
ghost use Rattle.spur_graph.specs.Cells.{Store};
ghost use Rattle.spur_graph.specs.Ordinary.{is_good_word};
ghost use Rattle.heap_cells.specs.Settled.{settled_word, settled_root, word_of};
ghost use Rattle.image_words.specs.References.{Leads};
ghost use Rattle.image_settle.specs.Settles.{Follows};

use image_words::{ImageWords, ordinary_start};
use immediates::is_immediate_word;
use spur_graph::PAGE_PLACES;

/// The word that refers to the header at the index `start`.
pub(crate) fn word_of(start: usize) -> u64
    requires { start ≤ 2 ^ 27 }
    ensures { result ≡ word_of start }
{
    8 * start as u64
}

/// The word of a slot in a heap, by its word in the file: an immediate as it is, and a reference to where it leads; none for whatever is no value.
/// `words` may be settled already, but for headers and the words of forwarders.
pub(crate) fn value_word(words: &[u64], image: &ImageWords, word: u64) -> Option<u64>
    ghost h: { Store }
    requires image { Follows h image.now }
    requires leads { Leads h words.now }
    ensures { result ≡ (if is_good_word h word then Some (settled_word h word) else None) }
{
    if is_immediate_word(word) {
        return Some(word);
    }
    match ordinary_start(words, image, word) {
        Some(start) => Some(word_of(start)),
        None => None,
    }
}

/// The same, and `nil` for whatever is no value.
pub fn settled_word(words: &[u64], image: &ImageWords, word: u64) -> u64
    ghost h: { Store }
    requires image { Follows h image.now }
    requires leads { Leads h words.now }
    ensures { result ≡ settled_word h word }
{
    match value_word(words, image, word) {
        Some(value) => value,
        None => word_of(image.roots.nil),
    }
}

/// The word of slot `i` of the hidden roots in a heap: the start that it names, or `nil` behind the places of pages.
pub(crate) fn settled_root(image: &ImageWords, i: usize, word: u64) -> u64
    ghost h: { Store }
    requires image { Follows h image.now }
    ensures { result ≡ settled_root h i word }
{
    if i >= PAGE_PLACES {
        return word_of(image.roots.nil);
    }
    word_of(image.map.to_region(word).unwrap_or(image.roots.nil))
}
