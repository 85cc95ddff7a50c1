// The laws, for the layers above. They hold of the definitions, so that these functions do nothing.
ghost use Rattle.scavenge_laws.specs.Outcomes.{ClearingKeepsGraph, CopyKeepsGraph, EndBegins, FiringKeepsGraph, ForwarderKeepsGraph, LiveStandOutside, NotedAreAll, RootsKeepGraph, RoundIsMade, ScavengeBegins, ScavengeCollects, SlotsKeepGraph, StuckFire};

/// At the beginning of a scavenge what is remembered is all that is to do.
pub fn scavenge_begins()
    ensures { ScavengeBegins }
{}

/// A live object that is copied out keeps its name, and the graph is the same.
pub fn copy_keeps_graph()
    ensures { CopyKeepsGraph }
{}

/// Slots that are followed change nothing.
pub fn slots_keep_graph()
    ensures { SlotsKeepGraph }
{}

/// A forwarder that leads to its end at once changes nothing.
pub fn forwarder_keeps_graph()
    ensures { ForwarderKeepsGraph }
{}

/// Roots that are followed change nothing.
pub fn roots_keep_graph()
    ensures { RootsKeepGraph }
{}

/// With nothing to do, exactly the live names stand outside the space that is being left.
pub fn live_stand_outside()
    ensures { LiveStandOutside }
{}

/// With nothing to do, exactly the ephemerons that are held back, whose keys stand in the space that is being left, fire.
pub fn stuck_fire()
    ensures { StuckFire }
{}

/// They are one round, and where there are none, the rounds end.
pub fn round_is_made()
    ensures { RoundIsMade }
{}

/// The ephemerons of a group fire one after another.
pub fn firing_keeps_graph()
    ensures { FiringKeepsGraph }
{}

/// With nothing to do, what is held back is left to clear.
pub fn end_begins()
    ensures { EndBegins }
{}

/// A weak object is cleared of what is dead, and this is counted.
pub fn clearing_keeps_graph()
    ensures { ClearingKeepsGraph }
{}

/// What is left when the space that is being left goes is a collection of the heap of before.
pub fn scavenge_collects()
    ensures { ScavengeCollects }
{}

/// What has to be remembered behind a scavenge was noted.
pub fn noted_are_all()
    ensures { NotedAreAll }
{}
