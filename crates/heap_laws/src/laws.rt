// The laws, for the layers above. They hold of the definitions, so that these functions do nothing.
ghost use Rattle.heap_laws.specs.Placing.{CopiedIsSwapped, HeapIsLeft, WholeIsReady, AllMovesHeap, PlacedIsLoadable, PlacedIsSound, PlacedIsSameGraph, AllAreKept, KeptByName, PlacesPair, PlacedHasSpots, PlacedIsSameRoom, PlacedMovesHeap, LoadedIsPlaced, ReaddressedMovesHeap, ReaddressedIsSameGraph, CompactedMovesHeap, CopiedMovesHeap, SweptMovesHeap, KeptUnderIso, HeapHasSpots, ZonedSpots};
ghost use Rattle.heap_laws.specs.Settling.{SettledIsSound, SettledIsGood, SettledIsSameGraph, SettledIsSameRoom};

/// No cause of refusal applies to the objects of a store under moved places.
pub fn placed_is_loadable()
    ensures { PlacedIsLoadable }
{}

/// Objects under moved places are sound in a heap.
pub fn placed_is_sound()
    ensures { PlacedIsSound }
{}

/// Objects under moved places stand for the graph of those that are kept, up to names.
pub fn placed_is_same_graph()
    ensures { PlacedIsSameGraph }
{}

/// Where each ordinary object is kept, that is the whole graph.
pub fn all_are_kept()
    ensures { AllAreKept }
{}

/// What is kept, as a restriction of the graph to names.
pub fn kept_by_name()
    ensures { KeptByName }
{}

/// A pairing of all numbers takes the names of kept objects to those of their places.
pub fn places_pair()
    ensures { PlacesPair }
{}

/// A heap under moved places is sound, and stands for the graph of what is kept.
pub fn placed_moves_heap()
    ensures { PlacedMovesHeap }
{}

/// Where each ordinary object is kept, the heap stands for the same graph.
pub fn all_moves_heap()
    ensures { AllMovesHeap }
{}

/// A graph that a heap stands for, without names, is the graph of what is kept.
pub fn kept_under_iso()
    ensures { KeptUnderIso }
{}

/// What the laws ask of a heap is a part of its invariant.
pub fn whole_is_ready()
    ensures { WholeIsReady }
{}

/// A heap that stood for a graph stands, under moved places, for the graph of what is kept.
pub fn heap_is_left()
    ensures { HeapIsLeft }
{}

/// Each name has the spot that it had.
pub fn placed_has_spots()
    ensures { PlacedHasSpots }
{}

/// The room is the same up to names, given the sizes of the free chunks.
pub fn placed_is_same_room()
    ensures { PlacedIsSameRoom }
{}

/// Each name of a heap of three spaces has the spot that it had.
pub fn heap_has_spots()
    ensures { HeapHasSpots }
{}

/// The spots of a heap, by the space that each start tells.
pub fn zoned_spots()
    ensures { ZonedSpots }
{}

/// Loading moves nothing.
pub fn loaded_is_placed()
    ensures { LoadedIsPlaced }
{}

/// The words of an image to which no cause of refusal applies are sound once they are settled.
pub fn settled_is_sound()
    ensures { SettledIsSound }
{}

/// A good reference of the file is one of the heap once it is settled.
#[tactic(auto, using(crate::proofs::Settled::settled_is_good))]
pub fn settled_is_good()
    ensures { SettledIsGood }
{}

/// The settled words stand for the graph of the file, up to names.
#[tactic(auto, using(crate::proofs::Settled::settled_is_same_graph))]
pub fn settled_is_same_graph()
    ensures { SettledIsSameGraph }
{}

/// The settled words have the room of the file and the chunks behind, up to names.
pub fn settled_is_same_room()
    ensures { SettledIsSameRoom }
{}

/// A compaction, by its cells.
pub fn readdressed_moves_heap()
    ensures { ReaddressedMovesHeap }
{}

/// A compaction, by its words.
pub fn compacted_moves_heap()
    ensures { CompactedMovesHeap }
{}

/// A save, by its cells, of what names no forwarder that goes: nothing refuses the file, and it stands for the graph of what is saved. Where references are
/// written followed, `placed_is_loadable` and `placed_is_same_graph` serve at once.
pub fn readdressed_is_same_graph()
    ensures { ReaddressedIsSameGraph }
{}

/// A copy that leaves a forwarder.
pub fn copied_moves_heap()
    ensures { CopiedMovesHeap }
{}

/// A copy exchanges two names of the graph, and nothing else.
pub fn copied_is_swapped()
    ensures { CopiedIsSwapped }
{}

/// A sweep, which moves nothing.
pub fn swept_moves_heap()
    ensures { SweptMovesHeap }
{}
