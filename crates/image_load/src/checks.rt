// The passes over the words of an image, in the order of the causes.
ghost use Rattle.std.specs.Prelude.{◌≡◌, ◌<◌, ◌≤◌, ℕ, List, length, true, IfOk, IfErr};
ghost use Rattle.spur_graph.specs.declared.limits.Limits.{Limits};
ghost use Rattle.spur_graph.specs.ImageCauses.{BadObject, BadForwarder, BadPage, entry_word};
ghost use Rattle.spur_graph.specs.Ordinary.{is_bad_entry};
ghost use Rattle.image_checks.specs.Checks.{AreOf, IsCut};
ghost use Rattle.spur_graph.specs.FileStores.{file_store};
ghost use Rattle.image_checks.specs.Checked.{IsChecked, AreFirst, HasPages};
ghost use Rattle.image_file.specs.Errors.{IsCauseOf};
ghost use Rattle.image_load.specs.Passes.{TellsFrom, IsNoFault, AreGoodChunks, AreForwarded, HasClasses, AreTried, HavePassed};

use crate::LoadError;
use heap_segments::AddressMap;
use heap_walk::{StartMap, mark_starts};
use image_checks::{
    first_bad_entry, first_bad_object, first_bad_root, mark_objects, resolve_forwarders, take_pages,
};
use image_words::{ImageWords, Roots};
use spur_graph::PAGE_ENTRIES;
use std::alloc::Global;

/// What was found in the words of an image to which no cause before that of values applies.
#[derive(Drop)]
pub(crate) struct Found {
    /// The starts of objects and forwarders.
    pub starts: StartMap,
    /// The starts of ordinary objects.
    pub ordinary: StartMap,
    /// The starts of the first five chunks.
    pub roots: Roots,
}

/// Reads the chunks, and answers where the first five start. The error is [`LoadError::Object`] or [`LoadError::Roots`].
fn check_chunks(words: &[u64], map: &AddressMap) -> Result<Roots, LoadError>
    requires all { AreOf map.now words.now }
    requires some { 0 < length map.now }
    ensures chunks { IfOk result (AreGoodChunks map.now words.now) }
    ensures told { IfErr result (TellsFrom map.now words.now (file_store map.now words.now) BadObject) }
    ensures fault { IfErr result IsNoFault }
{
    match first_bad_object(words, map) {
        Ok(()) => {}
        Err(at) => return Err(LoadError::Object(map.offset(at))),
    }
    match first_bad_root(words) {
        Ok(roots) => Ok(roots),
        Err(at) => Err(LoadError::Roots(map.offset(at))),
    }
}

/// Marks the starts of objects and forwarders, and has each forwarder name the object to which it leads. The error is
/// [`LoadError::Forwarder`] or [`LoadError::Memory`].
fn check_forwarders(
    alloc: Global,
    words: &mut [u64],
    map: &AddressMap,
    roots: &Roots,
) -> Result<StartMap, LoadError>
    requires all { AreOf map.now words.old }
    requires some { 0 < length map.now }
    requires chunks { AreGoodChunks map.now words.old roots.now }
    ensures forwarded { IfOk result (AreForwarded map.now words.old words.new roots.now) }
    ensures told { IfErr result (TellsFrom map.now words.old (file_store map.now words.old) BadForwarder) }
    ensures fault { IfErr result IsNoFault }
    ensures long { length words.new ≡ length words.old }
{
    let Ok(mut starts) = StartMap::new(alloc, words.len()) else {
        return Err(LoadError::Memory);
    };
    mark_starts(words, words.len(), &mut starts);
    match resolve_forwarders(words, map, &starts) {
        Ok(()) => Ok(starts),
        Err(at) => Err(LoadError::Forwarder(map.offset(at))),
    }
}

/// The word at which a bad entry of the class table stands.
fn entry_place(words: &[u64], map: &AddressMap, roots: &Roots, index: usize) -> usize
    requires cut { IsCut map.now words.now }
    requires first { AreFirst (file_store map.now words.now) roots.now }
    requires pages { HasPages (file_store map.now words.now) }
    requires bad { is_bad_entry (file_store map.now words.now) index ≡ true }
    ensures place { result ≡ entry_word (file_store map.now words.now) index }
    ensures within { result ≤ length words.now }
{
    let place = roots.hidden_roots + 1 + index / PAGE_ENTRIES;
    let page = map.to_region(words[place]).unwrap_or(words.len());
    page + 1 + index % PAGE_ENTRIES
}

/// Tests the class table, and answers the starts of ordinary objects. The error is [`LoadError::Class`] or [`LoadError::Memory`].
fn check_classes(
    alloc: Global,
    words: &[u64],
    map: &AddressMap,
    starts: &StartMap,
    roots: &Roots,
) -> Result<StartMap, LoadError>
    requires all { AreOf map.now words.now }
    requires some { 0 < length map.now }
    requires checked { IsChecked map.now words.now starts.now }
    requires first { AreFirst (file_store map.now words.now) roots.now }
    ensures classes { IfOk result (HasClasses map.now words.now) }
    ensures told { IfErr result (λ e. (old : List ℕ) → TellsFrom map.now old (file_store map.now words.now) BadPage e) }
    ensures fault { IfErr result IsNoFault }
{
    let Ok(mut ordinary) = StartMap::new(alloc, words.len()) else {
        return Err(LoadError::Memory);
    };
    mark_objects(words, map, starts, &mut ordinary);
    match take_pages(words, map, roots, &mut ordinary) {
        Ok(()) => {}
        Err(place) => {
            return Err(LoadError::Class(map.offset(roots.hidden_roots + 1 + place)));
        }
    }
    let image = ImageWords {
        map,
        starts,
        ordinary: &ordinary,
        roots: *roots,
    };
    match first_bad_entry(words, &image) {
        Ok(()) => Ok(ordinary),
        Err(index) => Err(LoadError::Class(map.offset(entry_place(words, map, roots, index)))),
    }
}

/// Tests the chunks of an image's objects and the class table, and resolves the forwarders. The error is the first cause that applies to the words, or
/// [`LoadError::Memory`].
pub(crate) fn check(alloc: Global, words: &mut [u64], map: &AddressMap) -> Result<Found, LoadError>
    requires all { AreOf map.now words.old }
    requires some { 0 < length map.now }
    ensures passed { IfOk result (HavePassed map.now words.old words.new) }
    ensures refused { IfErr result (λ e. (bytes : List ℕ) (limits : Limits) (special : ℕ) → AreTried bytes limits map.now words.old special → IsCauseOf bytes limits e) }
    ensures fault { IfErr result IsNoFault }
    ensures long { length words.new ≡ length words.old }
{
    let roots = match check_chunks(words, map) {
        Ok(roots) => roots,
        Err(error) => return Err(error),
    };
    let starts = match check_forwarders(alloc, words, map, &roots) {
        Ok(starts) => starts,
        Err(error) => return Err(error),
    };
    match check_classes(alloc, words, map, &starts, &roots) {
        Ok(ordinary) => Ok(Found {
            starts,
            ordinary,
            roots,
        }),
        Err(error) => Err(error),
    }
}
