// The laws, for the layers above. They hold of the definitions, so that these functions do nothing.
ghost use Rattle.graph_laws.specs.FixedNames.{AnswersAlike, RunsUnderFixedNames};
ghost use Rattle.graph_laws.specs.Collected.{CollectsKeepNames, ScavengesKeepNames, MournsKeepNames};

/// States that differ in names alone give the same answer to a line, and differ in names alone afterwards, where the first of them speaks only of names that
/// have nodes.
pub fn answers_alike()
    ensures { AnswersAlike }
{}

/// A run from a state that differs in names alone from one that speaks only of names that have nodes has the answers of a run under fixed names from there.
pub fn runs_under_fixed_names()
    ensures { RunsUnderFixedNames }
{}

/// A full collection, a scavenge and a mourning leave a closed graph, and a room that tells of no name but those that have a node, where there was one.
pub fn collections_keep_names()
    ensures collects { CollectsKeepNames }
    ensures scavenges { ScavengesKeepNames }
    ensures mourns { MournsKeepNames }
{}
