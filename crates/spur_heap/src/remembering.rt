// The remembered bit and the table: an object of old space that names new space has the bit in its header and stands in the table.
ghost use Rattle.std.specs.Prelude.{◌≡◌, ◌<◌, ◌≤◌, ℕ, IfNone, IfSome, length, slice_set, slice_index, false, true};
ghost use Rattle.spur_graph.specs.Heaps.{IsWhole, is_remembered};
ghost use Rattle.spur_heap.specs.Parts.{view_of, HasMap, HasRemembered};
ghost use Rattle.spur_heap.specs.Remembering.{CanNote, must_remember, must_with, noted, noted_by, with_remembered, remembered_for};
ghost use Rattle.spur_heap.specs.Tables.{has, HasPlaces};
ghost use Rattle.spur_heap.specs.Words.{is_object, starts_at};

use crate::heap::HeapParts;
use crate::taking::is_remembered_with;
use object_header::Header;

/// Enters a start in the table of remembered ones, if it has to be remembered and its header does not tell that it is. Its header stays.
fn note(parts: &mut HeapParts, start: usize, has_to: bool)
    requires can { CanNote parts.old start }
    ensures { parts.new ≡ record parts.old { remembered = noted (view_of parts.old) has_to start parts.old.remembered } }
{
    if has_to && Header(parts.region.get(start)).remembered() == 0 {
        parts.remembered.add(start);
    }
}

/// Enters a start in the table of remembered ones, if its header has the bit.
fn note_marked(parts: &mut HeapParts, start: usize)
    requires can { CanNote parts.old start }
    requires absent { has parts.old.remembered.starts start ≡ false }
    ensures { parts.new ≡ record parts.old { remembered = noted_by (is_remembered parts.old.region start) start parts.old.remembered } }
{
    if Header(parts.region.get(start)).remembered() == 1 {
        parts.remembered.add(start);
    }
}

/// The first start of an object or a forwarder of old space at the word `from` or behind it, if there is one.
fn next_old(parts: &HeapParts, from: usize) -> Option<usize>
    requires map { HasMap parts.now }
    ensures found { IfSome result (λ s. (from ≤ s) × (starts_at (view_of parts.now) s ≡ true)) }
    ensures first { IfSome result (λ s. (k : ℕ) → from ≤ k → k < s → starts_at (view_of parts.now) k ≡ false) }
    ensures none { IfNone result ((k : ℕ) → from ≤ k → k < parts.now.old_end → k < length parts.now.region → starts_at (view_of parts.now) k ≡ false) }
{
    let start = parts.starts.next(from)?;
    if start < parts.old_end {
        Some(start)
    } else {
        None
    }
}

/// Makes the table of remembered starts anew, of what the headers tell: one walk over the starts of old space. Nothing else changes.
pub fn remember_anew(parts: &mut HeapParts)
    requires whole { IsWhole (view_of parts.old) }
    requires map { HasMap parts.old }
    requires places { HasPlaces (length parts.old.region) parts.old.remembered.capacity }
    ensures table { HasRemembered parts.new }
    ensures rest { parts.new ≡ record parts.old { remembered = parts.new.remembered } }
{
    parts.remembered.clear();
    let mut at = 0;
    'starts: while let Some(start) = next_old(parts, at) {
        note_marked(parts, start);
        at = start + 1;
    }
}

/// Enters a place in the table of remembered ones, if it has to be remembered once it has the contents of what starts at `other`. Its header stays.
pub fn note_with(parts: &mut HeapParts, place: usize, other: usize)
    requires can { CanNote parts.old place }
    requires there { is_object (view_of parts.old) other ≡ true }
    ensures { parts.new ≡ record parts.old { remembered = noted (view_of parts.old) (must_with (view_of parts.old) place other) place parts.old.remembered } }
{
    let has_to = is_remembered_with(parts, other, place);
    note(parts, place, has_to);
}

/// Whether the object that starts there has to be remembered once this word stands in it: it is in old space, and the word names new space.
fn has_to_remember(parts: &HeapParts, start: usize, word: u64) -> bool
    ensures { result ≡ must_remember (view_of parts.now) start word }
{
    start < parts.old_end && word % 8 == 0 && word / 8 >= parts.old_end as u64
}

/// Sets the remembered bit of the header there.
fn remember(parts: &mut HeapParts, start: usize)
    requires inside { start < length parts.old.region }
    ensures { parts.new ≡ record parts.old { region = slice_set parts.old.region start (with_remembered (slice_index parts.old.region start)) } }
{
    let header = Header(parts.region.get(start));
    parts.region.put(start, header.set_remembered(1).0);
}

/// Enters the object that starts there in the table of remembered ones and sets its remembered bit, if it has to be remembered once this word stands in
/// it. Whoever puts the word calls this first: the heap is then whole after each of the two steps.
pub fn remember_for(parts: &mut HeapParts, start: usize, word: u64)
    requires can { CanNote parts.old start }
    ensures { parts.new ≡ record parts.old { region = (remembered_for (view_of parts.old) start word).words; remembered = noted (view_of parts.old) (must_remember (view_of parts.old) start word) start parts.old.remembered } }
{
    if has_to_remember(parts, start, word) {
        note(parts, start, true);
        remember(parts, start);
    }
}
