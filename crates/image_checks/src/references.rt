// References, judged.
ghost use Rattle.std.specs.Prelude.{◌≡◌};
ghost use Rattle.spur_graph.specs.Ordinary.{is_good_reference};
ghost use Rattle.image_words.specs.References.{IsImage, Leads};
ghost use Rattle.spur_graph.specs.FileStores.{file_store};

use image_words::{ImageWords, ordinary_start};

/// Whether a word leads to an ordinary object.
pub fn is_good_reference(words: &[u64], image: &ImageWords, word: u64) -> bool
    requires image { IsImage (file_store image.now.map.now words.now) image.now }
    requires leads { Leads (file_store image.now.map.now words.now) words.now }
    ensures { result ≡ is_good_reference (file_store image.now.map.now words.now) word }
{
    ordinary_start(words, image, word).is_some()
}
