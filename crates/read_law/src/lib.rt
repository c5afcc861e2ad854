//! What is read meets what is asked of it.
//!
//! # What it is for
//!
//! Lowering, the binding of arguments and what remains behind a `yield` ask something of a source. This crate says that a source that the
//! grammar reads meets it. That each form means something needs no law: the meaning of sources is a function of every tree.
//!
//! # What is proved
//!
//! - `every_tree_can_be_lowered`: each block has the forms alone for which lowering answers (`BuiltBlock` of `lower_law`). That is the
//!   premise of the clause `lowered` of `assert_rewrite`'s calls, so whatever they give stands for its source, as `add_source` of
//!   `py_machine` asks. It holds of every tree.
//! - `what_is_read_is_well_formed`: of each function of a source that the grammar reads, no two parameters have one name, whatever values
//!   their defaults have (`parameters`): the premise of `calls_bind_their_arguments` of `core_rules`. And each `yield` of it stands among
//!   the statements of its body, of a block of an `if` or of the block of a `try` (`yields`): where `a_body_goes_on_at_its_yield` of
//!   `core_rules` says that what remains behind it is what follows it. And the source can be lowered (`lowered`).
//!
//! # What meets the laws, and what they refuse
//!
//! - Each source that `source_of` of `file_source` gives is read so. Of `def f(a, a): pass` and of a `yield` in a loop the grammar has a
//!   reading in which something stands where it may not, so neither is read.
//! - Refused, as an edit: that no `yield` stands in the block of a `try`.
#![tactic(auto)]

ghost use Rattle.std.specs.Prelude.{ℕ, List};
ghost use Rattle.py_source.specs.declared.pos.Pos.{Pos};
ghost use Rattle.py_grammar.specs.py_tokens.declared.token.Token.{Token};
ghost use Rattle.py_tree.specs.Trees.{Maybe, Trees};
ghost use Rattle.py_tree.specs.Statements.{Block, Def, Parameter};
ghost use Rattle.py_grammar.specs.Verdict.{Parses};
ghost use Rattle.lower_law.specs.Built.{BuiltBlock};
ghost use Rattle.lower_law.specs.py_world.Definitions.{with_defaults};
ghost use Rattle.py_values.specs.declared.value.Value.{Value as PyValue};
ghost use Rattle.lower_law.specs.source_meaning.Statements.{source_written};
ghost use Rattle.core_rules.specs.Bindings.{NamesDiffer};
ghost use Rattle.read_law.specs.Standing.{StandsIn};
ghost use Rattle.read_law.specs.Yielding.{YieldsStand};

/// Each source has the forms for which lowering answers, and no other.
pub fn every_tree_can_be_lowered()
    ensures { (block : Block) → BuiltBlock block }
{}

/// A source that the grammar reads can be lowered; of each function that is defined in it, at whatever depth, no two parameters have one
/// name, and each `yield` stands where what remains behind it is what follows it.
pub fn what_is_read_is_well_formed()
    ensures lowered { (tokens : List Token) (block : Block) → Parses tokens block → BuiltBlock block }
    ensures parameters { (tokens : List Token) (block : Block) → Parses tokens block → (at word : Pos) (decorators : Trees) (name : List ℕ) (params : List Parameter) (returns : Maybe) (body : Block) →
        StandsIn (Def at decorators word name params returns body) block → (values : List PyValue) → NamesDiffer (with_defaults (source_written params) values) }
    ensures yields { (tokens : List Token) (block : Block) → Parses tokens block → (at word : Pos) (decorators : Trees) (name : List ℕ) (params : List Parameter) (returns : Maybe) (body : Block) →
        StandsIn (Def at decorators word name params returns body) block → YieldsStand body }
{}
