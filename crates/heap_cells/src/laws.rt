// The laws, for the layers above. They hold of the definitions, so that these functions do nothing.
ghost use Rattle.heap_cells.specs.Closing.{LoadableIsClosed};

/// The graph of words to which no cause of refusal applies is closed.
pub fn loadable_is_closed()
    ensures { LoadableIsClosed }
{}
