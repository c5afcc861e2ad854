//! The grammar of statements, blocks and sources, and the verdict on a list of tokens.
//!
//! # What it is for
//!
//! The Language Reference's grammar of simple and compound statements as a table over `py_expressions`
//! (`specs/Lines.antt`, a row a line, with its EBNF above it; `specs/Sorts.antt` has the values between the parts of a row); what
//! may not stand where it stands (`specs/Context.antt`, one list of places in the order of the text); how deep expressions and
//! blocks stand in one another (`specs/Depth.antt`); and what is said of a whole list of tokens (`specs/Verdict.antt`): the
//! tree that it is, or one of `Unexpected`, `Unsupported`, `Context`, `Nesting` at its place.
//!
//! # What is proved
//!
//! - `a_list_has_one_verdict`: no list of tokens has two verdicts, so none has two trees.
//! - `an_ended_list_has_a_verdict`: each list that ends with the text's end has one.
//! - `the_reader_gives_the_verdict`: it is what the reader of the table gives (`specs/Sources.antt`), and the other way round: the
//!   parser above promises just that.
//! - `a_reading_is_as_high_as_its_tree`: the height that a reading carries is the depth of the tree's blocks.
//!
//! That the table is a good one is computed, a `refl` a line (`proofs/Good.antt`); everything about reading is proved once, in
//! `grammar`.
//!
//! # What tests alone show
//!
//! That the rows say what CPython reads.
#![tactic(auto)]

ghost use Rattle.std.specs.Prelude.{◌≡◌, ◌+◌, ℕ, List, Some};
ghost use Rattle.grammar.specs.Table.{Line};
ghost use Rattle.py_source.specs.Limits.{most_levels};
ghost use Rattle.py_expressions.specs.py_tokens.Layout.{EndsText};
ghost use Rattle.py_expressions.specs.py_tokens.declared.token.Token.{Token};
ghost use Rattle.py_tree.specs.Statements.{Block};
ghost use Rattle.py_grammar.specs.Depth.{block_depths};
ghost use Rattle.py_grammar.specs.Lines.{statements};
ghost use Rattle.py_grammar.specs.Sorts.{source};
ghost use Rattle.py_grammar.specs.Sources.{source_read, unlimited};
ghost use Rattle.py_grammar.specs.Verdict.{Verdict, IsVerdict, verdict_by};

/// No list of tokens has two verdicts.
pub fn a_list_has_one_verdict()
    ensures { (tokens : List Token) (u v : Verdict) → IsVerdict tokens u → IsVerdict tokens v → u ≡ v }
{}

/// Each list of tokens that ends with the text's end has a verdict.
pub fn an_ended_list_has_a_verdict()
    ensures { (tokens : List Token) → EndsText tokens → (v : Verdict) × IsVerdict tokens v }
{}

/// The verdict is the reader's.
pub fn the_reader_gives_the_verdict()
    ensures is { (tokens : List Token) (v : Verdict) → verdict_by (source_read most_levels tokens) ≡ Some v → IsVerdict tokens v }
    ensures only { (tokens : List Token) (v : Verdict) → IsVerdict tokens v → verdict_by (source_read most_levels tokens) ≡ Some v }
{}

/// A reading's height is one more than the levels of its blocks.
pub fn a_reading_is_as_high_as_its_tree()
    ensures { (tokens : List Token) (block : Block) (height : ℕ) → Line statements unlimited source tokens (block, height) → 1 + block_depths block ≡ height }
{}
