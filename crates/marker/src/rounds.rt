// Rounds of ephemerons whose keys died.
ghost use Rattle.std.specs.Prelude.{◌≡◌, ◌≢◌, ◌<◌, ◌/◌, ◌∷◌, ◌++◌, [], length, if◌then◌else◌, true, false};
ghost use Rattle.spur_graph.specs.Heaps.{heap_graph, Marked};
ghost use Rattle.spur_graph.specs.Live as live;
ghost use Rattle.spur_graph.specs.Rounds.{Decides};
ghost use Rattle.spur_heap.specs.MarkBits.{StartsAt, marks};
ghost use Rattle.spur_heap.specs.Views.{IsOrdinary};
ghost use Rattle.weak_ephemeron.specs.Steps.{FiresOne};
ghost use Rattle.marker.specs.Finished.{Finishes, IsMarkedWhole};
ghost use Rattle.marker.specs.Firing.{FiresFirst, Gathers, Rounded, dies};
ghost use Rattle.marker.specs.Waiting.{waits};
ghost use Rattle.marker.specs.Visits.{IsStackOf};

use crate::follow::follow_all;
use crate::inner::has_format;
use crate::keys::waits;
use crate::look::complete;
use crate::nils::{is_live, nil_all};
use spur_graph::Counts;
use spur_heap::Heap;
use weak_ephemeron::{EPHEMERON_FORMAT, fire};

/// Whether what starts there is a marked ephemeron whose key is an object that is not marked.
fn is_dying(heap: &Heap, start: usize) -> bool
    requires there { StartsAt heap.now start }
    ensures { result ≡ dies heap.now start }
{
    if !has_format(heap, start, EPHEMERON_FORMAT) {
        return false;
    }
    is_live(heap, start) && waits(heap, start)
}

/// Puts what starts there on the mark stack, if it is a marked ephemeron whose key is an object that is not marked.
fn gather(heap: &mut Heap, start: usize)
    requires there { StartsAt heap.old start }
    requires room { dies heap.old start ≡ true → length heap.old.stack < length heap.old.words / 2 }
    ensures skips { dies heap.old start ≡ false → heap.new ≡ heap.old }
    ensures puts { dies heap.old start ≡ true → heap.new ≡ record heap.old { stack = heap.old.stack ++ start ∷ [] } }
{
    if is_dying(heap, start) {
        heap.whole();
        heap.push_mark(start);
    }
}

/// Puts each marked ephemeron whose key is an object that is not marked on the mark stack.
fn gather_dying(heap: &mut Heap)
    requires empty { heap.old.stack ≡ [] }
    ensures gathers { Gathers (length heap.old.words) heap.old heap.new }
{
    let mut at = 0;
    'starts: while let Some(start) = heap.next_start(at) {
        heap.whole();
        gather(heap, start);
        at = start + 1;
    }
    heap.whole();
}

/// Fires an ephemeron whose key is an object that is not marked, as the first of a group of mourners or in the last one. Answers how many fired: one or none.
fn fire_at(heap: &mut Heap, start: usize, first: bool) -> u64
    requires there { IsOrdinary heap.old start }
    requires some { first ≡ false → heap.old.mourners ≢ [] }
    ensures skips { waits heap.old start ≡ false → heap.new ≡ heap.old }
    ensures fires { waits heap.old start ≡ true → FiresOne start first heap.old heap.new }
    ensures count { result ≡ (if waits heap.old start then 1 else 0) }
{
    if !waits(heap, start) {
        return 0;
    }
    fire(heap, start, first);
    1
}

/// Fires each ephemeron on the mark stack whose key is an object that is not marked, and counts them. They are one group of mourners. No mark changes
/// meanwhile, so that none keeps the key of another alive, and the stack stays.
fn fire_round(heap: &mut Heap) -> u64
    requires stack { IsStackOf heap.old }
    ensures fires { FiresFirst (length heap.old.stack) heap.old result heap.new }
{
    let mut fired = 0;
    'waiting: for i in 0..heap.stack_len() {
        let start = heap.stack_item(i);
        fired += fire_at(heap, start, fired == 0);
    }
    fired
}

/// Fires ephemerons in rounds, and marks what lives through them, until a round finds none. Counts those that fired.
fn fire_in_rounds(heap: &mut Heap) -> u64
    requires phase { heap.old.phase ≡ Marked }
    requires exact { Decides (marks heap.old) (live.Live (heap_graph heap.old) live.none) }
    requires empty { heap.old.stack ≡ [] }
    ensures rounds { Rounded heap.old result heap.new }
{
    gather_dying(heap);
    heap.whole();
    let mut fired = 0;
    'rounds: loop {
        let count = fire_round(heap);
        heap.whole();
        if count == 0 {
            heap.clear_stack();
            return fired;
        }
        complete(heap, None);
        fired += count;
    }
}

/// Whether nothing became nil, and nothing fired.
fn is_idle(counts: Counts) -> bool
    ensures idle { result ≡ true → (counts.nilled ≡ 0) × (counts.fired ≡ 0) }
{
    counts.nilled == 0 && counts.fired == 0
}

/// Fires the ephemerons whose keys died, in rounds, each round one group of mourners, and marks what lives through them. Then weak slots that name dead
/// objects become nil. Both are counted. From then on no slot of a marked object and no root names a forwarder. No memory is taken. The headers are walked over
/// once for the ephemerons and once for the weak slots, and words are followed again only where some of either were found. A round costs what fires and what is
/// marked, and looks at the ephemerons that wait: one look, and one more for each in which a key was found.
pub fn finish(heap: &mut Heap) -> Counts
    requires phase { heap.old.phase ≡ Marked }
    requires marked { IsMarkedWhole heap.old }
    ensures { Finishes heap.old result.nilled result.fired heap.new }
{
    let fired = fire_in_rounds(heap);
    heap.whole();
    let nilled = nil_all(heap);
    heap.whole();
    let counts = Counts { nilled, fired };
    if is_idle(counts) {
        return counts;
    }
    heap.mark_internal();
    follow_all(heap);
    heap.whole();
    counts
}
