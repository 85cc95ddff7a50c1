// Words that change places.
ghost use Rattle.std.specs.Prelude.{◌≡◌, ◌≢◌, ◌≤◌, ◌<◌, ◌+◌, length, true};
ghost use Rattle.object_header.specs.Chunks.{StandsAt};
ghost use Rattle.spur_words.specs.Runs.{IsApart};
ghost use Rattle.spur_heap.specs.Parts.{view_of};
ghost use Rattle.spur_heap.specs.Words.{AreSound, is_object};
ghost use Rattle.heap_walk.specs.Shapes.{lead_at, words_at};
ghost use Rattle.spur_heap.specs.Swaps.{swap_run, AreAlike, header_for, exchanged_words};

use crate::flags::bit;
use crate::heap::HeapParts;
use crate::taking::remembers;
use object_header::Header;
use spur_words::Region;

/// The `n` words from the index `a` on and those from the index `b` on change places.
fn swap_runs(region: &mut Region, a: usize, b: usize, n: usize)
    requires first { a + n ≤ length region.old }
    requires second { b + n ≤ length region.old }
    requires apart { IsApart a n b n }
    ensures { region.new ≡ swap_run region.old a b n }
{
    let mut pair = region.pair_mut(a, n, b, n);
    'words: for i in 0..n {
        let first = pair.get_first(i);
        let second = pair.get_second(i);
        pair.put_first(i, second);
        pair.put_second(i, first);
    }
}

/// How many words of an object stand before its header: one where it has an overflow word, else none.
fn lead_of(region: &Region, start: usize) -> usize
    requires inside { start < length region.now }
    ensures { result ≡ lead_at region.now start }
{
    heap_walk::lead_of(region.as_slice(), start)
}

/// How many words an object has, with those before its header.
fn words_of(region: &Region, start: usize) -> usize
    requires stands { StandsAt region.now start }
    ensures { result ≡ words_at region.now start }
{
    heap_walk::words_of(region.as_slice(), start)
}

/// The header that a place has once it has the contents of another object: it keeps its hash, and its remembered bit where that is set.
fn header_for(parts: &HeapParts, place: usize, other: usize) -> Header
    requires sound { AreSound (view_of parts.now) }
    requires inside { place < length parts.now.region }
    requires there { is_object (view_of parts.now) other ≡ true }
    ensures { result.0 ≡ header_for (view_of parts.now) place other }
{
    let own = Header(parts.region.get(place));
    let header = Header(parts.region.get(other));
    header
        .set_hash(own.hash())
        .set_remembered(bit(remembers(parts, place, other)))
}

/// Two objects of as many words change contents where they stand: all their words change places, and each place keeps its hash and its remembered bit. The
/// slot count goes along, since an object without a slot has as many words as one of one slot.
pub fn exchange_contents(parts: &mut HeapParts, a: usize, b: usize)
    requires sound { AreSound (view_of parts.old) }
    requires first { is_object (view_of parts.old) a ≡ true }
    requires second { is_object (view_of parts.old) b ≡ true }
    requires alike { AreAlike parts.old.region a b }
    requires apart { a ≢ b }
    ensures { parts.new ≡ record parts.old { region = exchanged_words (view_of parts.old) a b } }
{
    let first = header_for(parts, a, b);
    let second = header_for(parts, b, a);
    let lead = lead_of(&parts.region, a);
    let words = words_of(&parts.region, a);
    swap_runs(&mut parts.region, a - lead, b - lead, words);
    parts.region.put(a, first.0);
    parts.region.put(b, second.0);
}
