// The class table: its pages' entries, and the classes that are entered in it.
ghost use Rattle.std.specs.Prelude.{◌≡◌, ◌+◌, ◌*◌, ◌<◌, ◌≤◌, length, IfSome, true};
ghost use Rattle.spur_graph.specs.ImageCauses.{FindsLeast};
ghost use Rattle.spur_graph.specs.Ordinary.{page_places, page_entries, class_limit, is_ordinary, is_no_index, has_entry, is_entered};
ghost use Rattle.image_checks.specs.Checks.{IsBadIndex};
ghost use Rattle.spur_graph.specs.FileStores.{file_store};
ghost use Rattle.image_checks.specs.Checked.{IsPaged, HasPage, FindsWithin, is_good_entry};

use crate::pages::named_at;
use image_words::{ImageWords, ordinary_start};
use object_header::{BRIDGE_CLASS, FORWARDER_CLASS, Header};
use spur_graph::{PAGE_ENTRIES, PAGE_PLACES};

/// The start of the page that slot `place` of the hidden roots names; none where it names nil.
fn page_at(words: &[u64], image: &ImageWords, place: usize) -> Option<usize>
    requires paged { IsPaged image.now words.now }
    requires within { place < page_places }
    ensures page { HasPage (file_store image.now.map.now words.now) place result }
    ensures room { IfSome result (λ page. page + 1 + page_entries ≤ length words.now) }
{
    let page = named_at(words, image.map, &image.roots, place)?;
    if page == image.roots.nil {
        None
    } else {
        Some(page)
    }
}

/// Whether a hash is that of no class: 0 is no hash, and the others are the class indices of bridges and forwarders.
fn is_no_index(hash: u64) -> bool
    ensures { result ≡ is_no_index hash }
{
    hash == 0 || hash == BRIDGE_CLASS || hash == FORWARDER_CLASS
}

/// Whether entry `index` of the class table leads to the ordinary object that starts at `start`.
fn has_entry(words: &[u64], image: &ImageWords, index: usize, start: usize) -> bool
    requires paged { IsPaged image.now words.now }
    requires low { index < class_limit }
    requires there { is_ordinary (file_store image.now.map.now words.now) start ≡ true }
    ensures { result ≡ has_entry (file_store image.now.map.now words.now) index start }
{
    let Some(page) = page_at(words, image, index / PAGE_ENTRIES) else {
        return false;
    };
    let _end = words.len();
    let word = words[page + 1 + index % PAGE_ENTRIES];
    match ordinary_start(words, image, word) {
        Some(entry) => entry == start,
        None => false,
    }
}

/// Whether the ordinary object that starts there is an entered class: one that the class table has at its hash.
fn is_entered(words: &[u64], image: &ImageWords, start: usize) -> bool
    requires paged { IsPaged image.now words.now }
    requires there { is_ordinary (file_store image.now.map.now words.now) start ≡ true }
    requires inside { start < length words.now }
    ensures { result ≡ is_entered (file_store image.now.map.now words.now) start }
{
    let hash = Header(words[start]).hash();
    if is_no_index(hash) {
        return false;
    }
    has_entry(words, image, hash as usize, start)
}

/// Whether a word is good for entry `index` of the class table: it leads to nil, or, but for entry 0, to an entered class.
fn is_good_entry(words: &[u64], image: &ImageWords, index: usize, word: u64) -> bool
    requires paged { IsPaged image.now words.now }
    ensures { result ≡ is_good_entry (file_store image.now.map.now words.now) index word }
{
    match ordinary_start(words, image, word) {
        Some(start) => start == image.roots.nil || (index != 0 && is_entered(words, image, start)),
        None => false,
    }
}

/// Tests the entries of the page at slot `place` of the hidden roots, if there is one. The error is the index of the first
/// that is bad.
fn check_page(words: &[u64], image: &ImageWords, place: usize) -> Result<(), usize>
    requires paged { IsPaged image.now words.now }
    requires within { place < page_places }
    ensures { FindsWithin (IsBadIndex (file_store image.now.map.now words.now)) (place * page_entries) (place * page_entries + page_entries) result }
{
    let Some(page) = page_at(words, image, place) else {
        return Ok(());
    };
    let _end = words.len();
    'entries: for entry in 0..PAGE_ENTRIES {
        let index = place * PAGE_ENTRIES + entry;
        if !is_good_entry(words, image, index, words[page + 1 + entry]) {
            return Err(index);
        }
    }
    Ok(())
}

/// Tests the entries of the class table by their index: entry i is the word i mod 1024 of the page that slot i / 1024 of the
/// hidden roots names, and is to lead to nil or to an entered class, entry 0 to nil. The error is the first index whose entry
/// does not.
pub fn first_bad_entry(words: &[u64], image: &ImageWords) -> Result<(), usize>
    requires paged { IsPaged image.now words.now }
    ensures { FindsLeast (IsBadIndex (file_store image.now.map.now words.now)) result }
{
    'places: for place in 0..PAGE_PLACES {
        match check_page(words, image, place) {
            Ok(()) => {}
            Err(index) => return Err(index),
        }
    }
    Ok(())
}
