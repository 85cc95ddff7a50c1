// The laws, for the loader. They hold of the definitions, so that these functions do nothing.
ghost use Rattle.image_laws.specs.Accepted.{AcceptedIsClosed};
ghost use Rattle.image_laws.specs.Resolved.{ResolvedIsSame};
ghost use Rattle.image_laws.specs.Named.{FileIsNamed, FileHasNames};
ghost use Rattle.image_laws.specs.Whole.{LoadedIsWhole, HeapStands};
ghost use Rattle.image_laws.specs.Counted.{RowsCount};
ghost use Rattle.image_laws.specs.Causes.{NothingBefore, NextRow, NoneIsAccepted, LeastIsFirst, AnyIsLeast, CauseOnce, AcceptedHasNone, FileHasCauses, ResolvedHasCauses, NoneIsLost, NoneIsLoadable};

/// Forwarders that name the objects to which they lead change nothing of what an image stands for.
pub fn resolved_is_same()
    ensures { ResolvedIsSame }
{}

/// No row is before the first.
pub fn nothing_before()
    ensures { NothingBefore }
{}

/// Behind a row without a bad key the next one is tried.
pub fn next_row()
    ensures { NextRow }
{}

/// Bytes are accepted where no row has a bad key.
pub fn none_is_accepted()
    ensures { NoneIsAccepted }
{}

/// The least bad key of the first row that has one tells the cause.
pub fn least_is_first()
    ensures { LeastIsFirst }
{}

/// Where any number is a bad key, 0 is the least.
pub fn any_is_least()
    ensures { AnyIsLeast }
{}

/// Bytes are refused for one cause.
pub fn cause_once()
    ensures { CauseOnce }
{}

/// Accepted bytes are refused for none.
pub fn accepted_has_none()
    ensures { AcceptedHasNone }
{}

/// What the passes look for in the words of a file is the bad keys of its rows.
pub fn file_has_causes()
    ensures { FileHasCauses }
{}

/// The same holds of the words once forwarders are resolved.
pub fn resolved_has_causes()
    ensures { ResolvedHasCauses }
{}

/// Where no forwarder is lost, each leads to an object.
pub fn none_is_lost()
    ensures { NoneIsLost }
{}

/// Words in which the passes found nothing can be settled.
pub fn none_is_loadable()
    ensures { NoneIsLoadable }
{}

/// Where the header can be, the segments rise and their words fit.
pub fn rows_count()
    ensures { RowsCount }
{}

/// The references of a file name words that stand in it, at multiples of 8.
pub fn file_is_named()
    ensures { FileIsNamed }
{}

/// No two starts have one address.
pub fn file_has_names()
    ensures { FileHasNames }
{}

/// A heap with the settled words of an accepted image is whole.
pub fn loaded_is_whole()
    ensures { LoadedIsWhole }
{}

/// It stands for the graph and the room of the bytes, up to names.
pub fn heap_stands()
    ensures { HeapStands }
{}

/// The graph of an image that is accepted is closed.
pub fn accepted_is_closed()
    ensures { AcceptedIsClosed }
{}
