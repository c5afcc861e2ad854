ghost use Rattle.std.specs.Prelude.{◌≡◌, ℕ, ◌+◌, ◌<◌, List, length, slice_index};
ghost use Rattle.atomic_table.specs.Table.{State};
ghost use Rattle.share_files.specs.declared.rule.Range.{Range};
ghost use Rattle.share_files.specs.declared.rule.Counts.{Counts};
ghost use Rattle.share_files.specs.Deal.{Every, RisesFrom, EachOnce, deal};
ghost use Rattle.share_files.specs.Rule.{SharingInvariant, Says};

/// For every list of draws: each list rises, and each number from n to below the next one stands in exactly one list, once.
pub fn deal_law()
    ensures workers { (n : ℕ) (draws : List ℕ) → length (deal n draws) ≡ n }
    ensures rising { (n : ℕ) (draws : List ℕ) → Every (RisesFrom n) (deal n draws) }
    ensures once { (n : ℕ) (draws : List ℕ) → Every (λ k. k < n) draws → EachOnce n (n + length draws) (deal n draws) }
{}

/// What the rule says of the shared word and of what the seats know.
pub fn rule_law()
    ensures { (c : Counts) (s : State (Unit {0}) Range) → SharingInvariant c s → Says c (slice_index s.words 0) s.views }
{}
