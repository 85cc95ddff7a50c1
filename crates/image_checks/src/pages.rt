// The internal objects: the hidden roots, the free lists object, and the class table pages.
ghost use Rattle.std.specs.Prelude.{◌≡◌, ◌+◌, ◌<◌, ℕ, length, slice_index, OnOk, true, false, not, ◌&&◌, nat_eq};
ghost use Rattle.object_header.specs.Chunks.{StandsAt, slots_at};
ghost use Rattle.object_header.specs.Head.{format_of};
ghost use Rattle.heap_walk.specs.Starts.{has_start, covered};
ghost use Rattle.spur_graph.specs.Segments.{word_in};
ghost use Rattle.spur_graph.specs.Cells.{is_there};
ghost use Rattle.spur_graph.specs.ImageCauses.{FindsLeast};
ghost use Rattle.spur_graph.specs.Ordinary.{page_places, page_entries, root_slot, is_bad_page};
ghost use Rattle.image_checks.specs.Checks.{IsCut, IsBadPlace, HasOrdinary};
ghost use Rattle.spur_graph.specs.FileStores.{file_store};
ghost use Rattle.image_checks.specs.Checked.{IsChecked, AreFirst, AreLeft, AreWithin, is_free_page};

use heap_segments::AddressMap;
use heap_walk::{StartMap, slots_of};
use image_words::{Roots, is_forwarder};
use object_header::{ARRAY_FORMAT, Header};
use spur_graph::{PAGE_ENTRIES, PAGE_PLACES};

/// The word that slot `place` of the hidden roots names, if it names one.
pub(crate) fn named_at(
    words: &[u64],
    map: &AddressMap,
    roots: &Roots,
    place: usize,
) -> Option<usize>
    requires cut { IsCut map.now words.now }
    requires first { AreFirst (file_store map.now words.now) roots.now }
    requires within { place < page_places }
    ensures { result ≡ word_in map.now 0 (root_slot (file_store map.now words.now) place) }
{
    let _end = words.len();
    map.to_region(words[roots.hidden_roots + 1 + place])
}

/// Whether it is an array of as many slots as a page has.
fn is_page_array(words: &[u64], start: usize) -> bool
    requires { StandsAt words.now start }
    ensures { result ≡ (nat_eq (format_of (slice_index words.now start)) 2 && nat_eq (slots_at words.now start) page_entries) }
{
    Header(words[start]).format() == ARRAY_FORMAT && slots_of(words, start) == PAGE_ENTRIES
}

/// Whether a page can start there: an array of its size that is none of the first five and that no slot named before.
fn is_free_page(words: &[u64], roots: &Roots, left: &StartMap, start: usize) -> bool
    requires { AreWithin words.now left.now }
    ensures { result ≡ is_free_page words.now roots.now left.now start }
{
    start < left.len() && left.has(start) && !roots.has(start) && is_page_array(words, start)
}

/// Takes the page that slot `place` of the hidden roots names out of the starts that no slot before it named. False where
/// it names neither nil nor a page of its own.
fn take_page(
    words: &[u64],
    map: &AddressMap,
    roots: &Roots,
    left: &mut StartMap,
    place: usize,
) -> bool
    requires cut { IsCut map.now words.now }
    requires first { AreFirst (file_store map.now words.now) roots.now }
    requires within { place < page_places }
    requires covers { covered left.old ≡ length words.now }
    requires left { AreLeft (file_store map.now words.now) place (has_start left.old) }
    ensures told { result ≡ not (is_bad_page (file_store map.now words.now) place) }
    ensures taken { result ≡ true → AreLeft (file_store map.now words.now) (place + 1) (has_start left.new) }
    ensures covers { covered left.new ≡ covered left.old }
{
    let Some(start) = named_at(words, map, roots, place) else {
        return false;
    };
    if start == roots.nil {
        return true;
    }
    if !is_free_page(words, roots, left, start) {
        return false;
    }
    left.unset(start);
    true
}

/// Leaves in a map of starts those of the ordinary objects, where it has those of all objects: takes out the free lists
/// object, the hidden roots, and the class table pages that they name. The error is the first of their first 4,096 slots
/// that names neither nil nor a page: an object of format 2 with 1,024 slots that is none of the first five and that no
/// slot before names.
pub fn take_pages(
    words: &[u64],
    map: &AddressMap,
    roots: &Roots,
    ordinary: &mut StartMap,
) -> Result<(), usize>
    requires cut { IsCut map.now words.now }
    requires first { AreFirst (file_store map.now words.now) roots.now }
    requires covers { covered ordinary.old ≡ length words.now }
    requires objects { (s : ℕ) → has_start ordinary.old s ≡ is_there ((file_store map.now words.now).cell s) }
    ensures least { FindsLeast (IsBadPlace (file_store map.now words.now)) result }
    ensures ordinary { OnOk result (HasOrdinary (file_store map.now words.now) (has_start ordinary.new)) }
    ensures covers { covered ordinary.new ≡ covered ordinary.old }
{
    let _end = words.len();
    'places: for place in 0..PAGE_PLACES {
        if !take_page(words, map, roots, ordinary, place) {
            return Err(place);
        }
    }
    ordinary.unset(roots.free_lists);
    ordinary.unset(roots.hidden_roots);
    Ok(())
}

/// Sets the starts of all objects in a map that has none, and not those of forwarders.
pub fn mark_objects(words: &[u64], map: &AddressMap, starts: &StartMap, objects: &mut StartMap)
    requires checked { IsChecked map.now words.now starts.now }
    requires covers { covered objects.old ≡ length words.now }
    requires empty { (s : ℕ) → has_start objects.old s ≡ false }
    ensures objects { (s : ℕ) → has_start objects.new s ≡ is_there ((file_store map.now words.now).cell s) }
    ensures covers { covered objects.new ≡ covered objects.old }
{
    let mut at = 0;
    'starts: while let Some(start) = starts.next(at) {
        if !is_forwarder(words, starts, start) {
            objects.set(start);
        }
        at = start + 1;
    }
}
