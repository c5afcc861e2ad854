ghost use Rattle.std.specs.Prelude.{◌≡◌, ℕ, List};
ghost use Rattle.mark_expr.specs.Answer.{ParseResult, IsParseResult};
ghost use Rattle.selection.specs.Reading.{expression_answer};

/// The answer that is computed for a text is the one that its grammar allows (pytest's reference, "Command-line Flags", `-k` and `-m`).
pub fn one_answer()
    ensures is { (cs : List ℕ) → IsParseResult cs (expression_answer cs) }
    ensures only { (cs : List ℕ) (other : ParseResult) → IsParseResult cs other → other ≡ expression_answer cs }
{}
