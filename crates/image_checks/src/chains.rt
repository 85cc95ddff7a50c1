// Chains of forwarders. Each is followed to its end and then written short, so that all together are passed in time linear in the words,
// without recursion, and whatever their shape.
ghost use Rattle.std.specs.Prelude.{◌≡◌, ◌<◌, ℕ, length, Some, true, false, IfSome, IfNone, OnOk};
ghost use Rattle.spur_graph.specs.ImageCauses.{FindsLeast};
ghost use Rattle.spur_graph.specs.Segments.{word_in};
ghost use Rattle.object_header.specs.Chunks.{chunks};
ghost use Rattle.spur_graph.specs.Cells.{Moved, final, is_moved, is_there};
ghost use Rattle.spur_graph.specs.Ordinary.{is_bad_forwarder};
ghost use Rattle.heap_walk.specs.Starts.{has_start, covered};
ghost use Rattle.image_checks.specs.Checks.{AreOf, IsCut, HasStarts, IsResolved, IsLost};
ghost use Rattle.spur_graph.specs.FileStores.{file_store};
ghost use Rattle.image_checks.specs.Chains.{AreKnown, Ends, ChangesForwarders, AreShortened};

use heap_segments::AddressMap;
use heap_walk::StartMap;
use image_words::is_forwarder;

/// The address of the object in which the chain from the forwarder at `s` ends, if it ends in one.
fn end_of(words: &[u64], map: &AddressMap, starts: &StartMap, s: usize) -> Option<u64>
    requires known { AreKnown map.now words.now starts.now }
    requires moved { is_moved ((file_store map.now words.now).cell s) ≡ true }
    ensures end { IfSome result (λ end. word_in map.now 0 end ≡ Some (final (file_store map.now words.now) s)) }
    ensures ends { IfSome result (λ end. Ends (file_store map.now words.now) s) }
    ensures lost { IfNone result (is_there ((file_store map.now words.now).cell (final (file_store map.now words.now) s)) ≡ false) }
{
    let mut at = s;
    // a chain of more steps than there are words is a cycle
    'steps: for _step in 0..words.len() {
        let word = words[at + 1];
        at = match map.to_region(word) {
            Some(next) => next,
            None => return None,
        };
        if !is_forwarder(words, starts, at) {
            return if starts.has(at) { Some(word) } else { None };
        }
    }
    None
}

/// Writes the address of their end into all forwarders of the chain from `s`.
fn shorten(words: &mut [u64], map: &AddressMap, starts: &StartMap, s: usize, end: u64)
    requires known { AreKnown map.now words.old starts.now }
    requires moved { is_moved ((file_store map.now words.old).cell s) ≡ true }
    requires end { word_in map.now 0 end ≡ Some (final (file_store map.now words.old) s) }
    requires ends { Ends (file_store map.now words.old) s }
    ensures shortened { AreShortened map.now words.old words.new }
    ensures here { (file_store map.now words.new).cell s ≡ Moved (final (file_store map.now words.old) s) }
{
    let mut at = s;
    'steps: for _step in 0..words.len() {
        let word = words[at + 1];
        words[at + 1] = end;
        match map.to_region(word) {
            Some(next) => at = next,
            None => return,
        }
        if !is_forwarder(words, starts, at) {
            return;
        }
    }
}

/// Resolves the forwarder at `s` and those behind it, if there is one. The answer is whether its chain ends in an object.
#[tactic(auto, using(crate::proofs::Resolving::told_moved))]
fn resolve(words: &mut [u64], map: &AddressMap, starts: &StartMap, s: usize) -> bool
    requires known { AreKnown map.now words.old starts.now }
    requires inside { s < length words.old }
    ensures shortened { AreShortened map.now words.old words.new }
    ensures ends { result ≡ true → is_moved ((file_store map.now words.old).cell s) ≡ true → Ends (file_store map.now words.old) s }
    ensures here { result ≡ true → is_moved ((file_store map.now words.old).cell s) ≡ true
        → (file_store map.now words.new).cell s ≡ Moved (final (file_store map.now words.old) s) }
    ensures lost { result ≡ false → is_bad_forwarder (file_store map.now words.old) s ≡ true }
{
    if !is_forwarder(words, starts, s) {
        return true;
    }
    match end_of(words, map, starts, s) {
        Some(end) => {
            shorten(words, map, starts, s, end);
            true
        }
        None => false,
    }
}

/// Writes into each forwarder an address of the object to which it leads, so that no forwarder names another one. The error is the first slot
/// of the first forwarder whose chain does not end in an object; then some of those before it are resolved.
pub fn resolve_forwarders(
    words: &mut [u64],
    map: &AddressMap,
    starts: &StartMap,
) -> Result<(), usize>
    requires cut { IsCut map.now words.old }
    requires all { AreOf map.now words.old }
    requires starts { HasStarts (file_store map.now words.old) (has_start starts.now) }
    requires covers { covered starts.now ≡ length words.old }
    ensures least { FindsLeast (IsLost (file_store map.now words.old)) result }
    ensures resolved { OnOk result (IsResolved (file_store map.now words.old) (file_store map.now words.new)) }
    ensures cut { IsCut map.now words.new }
    ensures starts { HasStarts (file_store map.now words.new) (has_start starts.now) }
    ensures words { ChangesForwarders (file_store map.now words.old) words.old words.new }
    ensures long { length words.new ≡ length words.old }
    ensures row { chunks words.new ≡ chunks words.old }
{
    let mut at = 0;
    'starts: while let Some(s) = starts.next(at) {
        if !resolve(words, map, starts, s) {
            return Err(s + 1);
        }
        at = s + 1;
    }
    Ok(())
}
