ghost use Rattle.std.specs.Prelude.{◌≡◌, ◌⊎◌, ℕ, List};
ghost use Rattle.fixture_table.specs.Faults.{IsClosure, IsFault};
ghost use Rattle.fixture_table.specs.declared.fault.FixtureFault.{FixtureFault};
ghost use Rattle.fixture_table.specs.declared.types.FixtureDef.{FixtureDef};
ghost use Rattle.fixture_table.specs.declared.types.CollectionNode.{CollectionNode};

/// What an item asks for has a closure or a fault, never both, and one of each at most.
pub fn closure_or_fault()
    ensures some { (nodes : List CollectionNode) (defs : List FixtureDef) (item : ℕ) (bound uses args : List ℕ)
        → ((closure : List ℕ) × IsClosure nodes defs item bound uses args closure) ⊎ ((fault : FixtureFault) × IsFault nodes defs item bound uses args fault) }
    ensures not_both { (nodes : List CollectionNode) (defs : List FixtureDef) (item : ℕ) (bound uses args closure : List ℕ) (fault : FixtureFault)
        → IsClosure nodes defs item bound uses args closure → IsFault nodes defs item bound uses args fault → ⊥ }
    ensures one_closure { (nodes : List CollectionNode) (defs : List FixtureDef) (item : ℕ) (bound uses args a b : List ℕ)
        → IsClosure nodes defs item bound uses args a → IsClosure nodes defs item bound uses args b → a ≡ b }
    ensures one_fault { (nodes : List CollectionNode) (defs : List FixtureDef) (item : ℕ) (bound uses args : List ℕ) (a b : FixtureFault)
        → IsFault nodes defs item bound uses args a → IsFault nodes defs item bound uses args b → a ≡ b }
{}
