//! Lowering: the core code of a source.
//!
//! # What it is for
//!
//! The machine runs core code, and contracts speak of sources. [`lower`] makes the one of the other: each form becomes the core form of
//! its name with lowered parts, at the same place. An `assert` becomes an `if` at its place with an empty block, whose `else` is the
//! failure with the lowered message. Where asserts are explained ([`lower_rewritten`]), the parts of the condition that are shown are
//! kept in temporaries, numbered in the order of the text, and the failure has the condition; else ([`lower_plain`]) it has its message
//! alone.
//!
//! # What is proved
//!
//! - `lower`, `lower_plain`, `lower_rewritten`: the core code carries exactly this source, with asserts that are explained or not, as
//!   was asked (`source`). Where the source has the forms of the language (`BuiltBlock` of `lower_law`), the core code stands for it
//!   (`lowered`: `LoweredModule`), and so does what the source does (`lowering_keeps_meaning` of `lower_law`). Each answers core code or
//!   want of memory, and nothing else.
//!
//! # What tests alone show
//!
//! That core code comes where there is memory (`rewrite_tests`).
//!
//! # What neither shows
//!
//! How much memory the core code takes.
#![tactic(auto)]

mod asserts;
mod expressions;
mod groups;
mod parameters;
mod simple;
mod statements;
mod targets;
mod watched;
mod yields;

ghost use Rattle.std.specs.Prelude.{IfOk, ◌≡◌, true as explained, false as plain};
ghost use Rattle.py_tree.specs.Statements.{module_tree};
ghost use Rattle.lower_law.specs.source_meaning.Statements.{script};
ghost use Rattle.lower_law.specs.Built.{BuiltBlock};
ghost use Rattle.lower_law.specs.Lowered.{LoweredModule};
ghost use Rattle.lower_law.specs.Sourced.{module_of};

use py_core::Core;
use py_tree::Module;
use seq::OutOfMemory;
use std::alloc::Global;

/// The core code of a source, whose asserts are explained or show nothing beside their messages.
#[tactic(auto, using(crate::proofs::StatementForms::modules))]
pub fn lower(alloc: Global, explains: bool, module: &Module) -> Result<Core, OutOfMemory>
    ensures source { IfOk result (λ core. module_of core ≡ script explains (module_tree «module».now)) }
    ensures lowered { IfOk result (λ core. BuiltBlock (module_tree «module».now) → LoweredModule (module_of core) core) }
{
    Ok(Core {
        body: statements::lower_body(alloc, explains, &module.body)?,
    })
}

/// The core code of a source whose asserts show nothing beside their messages.
pub fn lower_plain(alloc: Global, module: &Module) -> Result<Core, OutOfMemory>
    ensures source { IfOk result (λ core. module_of core ≡ script plain (module_tree «module».now)) }
    ensures lowered { IfOk result (λ core. BuiltBlock (module_tree «module».now) → LoweredModule (module_of core) core) }
{
    lower(alloc, false, module)
}

/// The core code of a source whose asserts are explained: a failed one tells the parts of its condition (pytest, assertion rewriting).
pub fn lower_rewritten(alloc: Global, module: &Module) -> Result<Core, OutOfMemory>
    ensures source { IfOk result (λ core. module_of core ≡ script explained (module_tree «module».now)) }
    ensures lowered { IfOk result (λ core. BuiltBlock (module_tree «module».now) → LoweredModule (module_of core) core) }
{
    lower(alloc, true, module)
}
