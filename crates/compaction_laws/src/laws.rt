// The laws, for the layers above. They hold of the definitions, so that these functions do nothing.
ghost use Rattle.compaction_laws.specs.Outcomes.{CompactedHasRoom, CompactedIsSwept, CompactedIsWhole, CompactedStands, CompactedStarts, TightCanMove};

/// A heap whose marked objects name marked ones has what moving them asks of its words.
pub fn tight_can_move()
    ensures { TightCanMove }
{}

/// A compacted heap stands for the graph of what was marked, up to names.
pub fn compacted_is_swept()
    ensures { CompactedIsSwept }
{}

/// A compacted heap is whole.
pub fn compacted_is_whole()
    ensures { CompactedIsWhole }
{}

/// No forwarder and nothing that was not marked is left.
pub fn compacted_stands()
    ensures { CompactedStands }
{}

/// The start map that a compaction leaves is that of the heap, without the free lists object.
pub fn compacted_starts()
    ensures { CompactedStarts }
{}

/// A compacted heap has the room behind a full collection, up to names.
pub fn compacted_has_room()
    ensures { CompactedHasRoom }
{}
