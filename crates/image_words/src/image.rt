// What is known of the words of an image, beside the words.
ghost use Rattle.std.specs.Prelude.{◌≡◌};

use heap_segments::AddressMap;
use heap_walk::StartMap;

/// The starts of the first five chunks, in the order of the image.
#[derive(Clone, Copy)]
pub struct Roots {
    /// The start of nil.
    pub nil: usize,
    /// The start of false.
    pub false_object: usize,
    /// The start of true.
    pub true_object: usize,
    /// The start of the free lists object.
    pub free_lists: usize,
    /// The start of the hidden roots.
    pub hidden_roots: usize,
}

/// What was found in the words of an image, by which its references are followed. The words themselves stand beside it, since they are written.
#[derive(Clone, Copy)]
pub struct ImageWords<'a> {
    /// The segments, by which an address is turned into a word.
    pub map: &'a AddressMap,
    /// The starts of objects and forwarders.
    pub starts: &'a StartMap,
    /// The starts of ordinary objects.
    pub ordinary: &'a StartMap,
    /// The starts of the first five chunks.
    pub roots: Roots,
}

impl Roots {
    ghost use Rattle.image_words.specs.Roots.{has_root};

    /// Whether one of the five chunks starts at the word `start`.
    pub fn has(&self, start: usize) -> bool
        ensures { result ≡ has_root self.now start }
    {
        self.hidden_roots == start
            || self.free_lists == start
            || self.true_object == start
            || self.false_object == start
            || self.nil == start
    }
}
