// The law of addresses.
ghost use Rattle.heap_segments.specs.Rising.{IsOneToOne};

/// No two addresses in rising segments have the same word.
pub fn is_one_to_one()
    ensures { IsOneToOne }
{}
