// Marking what is live.
ghost use Rattle.std.specs.Prelude.{◌≡◌, ℕ, [], IfSome, true};
ghost use Rattle.spur_graph.specs.Heaps.{is_marked, Whole, Marked};
ghost use Rattle.spur_heap.specs.Views.{IsGood, IsOrdinary};
ghost use Rattle.spur_heap.specs.MarkBits.{begun};
ghost use Rattle.marker.specs.Followed.{AreFollowed};
ghost use Rattle.marker.specs.Marked.{AreInternalMarked, IsFound, MarksOne, excepted};
ghost use Rattle.marker.specs.Visits.{AreBare, Keeps};

use crate::follow::follow_all;
use crate::look::complete;
use crate::roots::visit_roots;
use spur_heap::Heap;

/// The start of the object to which an excepted word leads, if there is one.
fn excepted_start(heap: &Heap, except: Option<u64>) -> Option<usize>
    requires good { IfSome except (IsGood heap.now) }
    ensures name { result ≡ excepted heap.now except }
    ensures there { IfSome result (IsOrdinary heap.now) }
{
    heap.object(except?).ok()
}

/// Marks the excepted object, if there is one. Nothing is owed to its slots.
fn mark_excepted(heap: &mut Heap, name: Option<usize>)
    requires there { IfSome name (IsOrdinary heap.old) }
    requires phase { heap.old.phase ≡ Marked }
    ensures marks { MarksOne name heap.old heap.new }
{
    if let Some(start) = name {
        heap.set_mark(start);
    }
}

/// Marks exactly the live objects, and the internal ones. The slots of the excepted object never count, yet it is marked itself; an excepted immediate
/// excepts nothing. From then on no slot of a marked object and no root names a forwarder. No memory is taken: each object is put on the stack once.
pub fn mark(heap: &mut Heap, except: Option<u64>)
    requires phase { heap.old.phase ≡ Whole }
    requires good { IfSome except (IsGood heap.old) }
    ensures keeps { Keeps (begun heap.old) heap.new }
    ensures sound { (t : ℕ) → IsOrdinary heap.new t → is_marked heap.new.words t ≡ true → IsFound heap.old except t }
    ensures complete { (t : ℕ) → IsFound heap.old except t → is_marked heap.new.words t ≡ true }
    ensures inner { AreInternalMarked heap.new }
    ensures bare { AreBare heap.new }
    ensures followed { AreFollowed heap.new }
    ensures rest { heap.new ≡ record (begun heap.old) { words = heap.new.words; special = heap.new.special; handles = heap.new.handles; mourners = heap.new.mourners } }
    ensures empty { heap.new.stack ≡ [] }
{
    heap.whole();
    let name = excepted_start(heap, except);
    heap.begin_marking();
    visit_roots(heap);
    complete(heap, name);
    heap.clear_stack();
    mark_excepted(heap, name);
    heap.whole();
    heap.mark_internal();
    follow_all(heap);
    heap.whole();
}
