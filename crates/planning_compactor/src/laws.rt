// Laws of what is planned and of what is compacted, for the layers above. They hold of the definitions, so that these functions do nothing.
ghost use Rattle.planning_compactor.specs.Spans.{PackedStay};
ghost use Rattle.planning_compactor.specs.Filled.{RowIsReady};

/// Objects that lie one behind another from the front of a range on stay where they are, and the others are planned as those of a range behind them.
#[tactic(auto, using(crate::proofs::Packed::packed_stay))]
pub fn packed_stay()
    ensures { PackedStay }
{}

/// The chunks of a range lie as a compaction asks, whichever of them are kept.
pub fn row_is_ready()
    ensures { RowIsReady }
{}
