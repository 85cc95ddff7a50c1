// Laws of the definitions.
ghost use Rattle.std.specs.Prelude.{◌≡◌, ◌<◌, ◌^◌, ℕ, List, Some};
ghost use Rattle.std.specs.List.{All};
ghost use Rattle.spur_graph.specs.declared.answer.Value.{Value};
ghost use Rattle.spur_graph.specs.Graph.{Graph, held, bind};
ghost use Rattle.spur_graph.specs.Names.{Iso};
ghost use Rattle.spur_graph.specs.Live.{LiveByRules};

/// What was bound last is held.
pub fn handle_bound()
    ensures { (g : Graph) (k : ℕ) (h : List ℕ) (v : Value) → held (bind g k h v) k h ≡ Some v }
{}

/// A graph differs from itself in no name.
pub fn keeps_names()
    ensures { (g : Graph) → Iso g g (λ a. a) (λ a. a) }
{}

/// What stands in a derivation is what the rules reach.
pub fn live_by_rules()
    ensures { LiveByRules }
{}

/// A word has 64 bits.
pub fn words_fit(words: &[u64])
    ensures { All (λ w. w < 2 ^ 64) words.now }
{}
