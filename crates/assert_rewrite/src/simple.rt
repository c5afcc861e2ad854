ghost use Rattle.std.specs.Prelude.{IfOk, ◌≡◌};
ghost use Rattle.assert_rewrite.specs.Groups as groups;
ghost use Rattle.assert_rewrite.specs.Lowers.{LowersStatement};

use crate::asserts::lower_assert;
use crate::expressions::{lower_expr, lower_some};
use crate::groups::StmtGroup;
use crate::targets::{lower_single, lower_targets};
use py_core::CoreStmtKind;
use py_tree::{SrcText, Stmt, StmtKind};
use seq::OutOfMemory;
use std::alloc::Global;

/// A name, if there is one.
pub fn copy_name(name: &Option<SrcText>) -> Result<Option<SrcText>, OutOfMemory>
    ensures { IfOk result (λ copy. copy ≡ name.now) }
{
    match name {
        None => Ok(None),
        Some(name) => Ok(Some(name.clone()?)),
    }
}

/// The core form of a simple statement.
#[tactic(auto, using(crate::proofs::SimpleForms::forms))]
pub fn lower_simple(alloc: Global, explains: bool, stmt: &Stmt) -> Result<CoreStmtKind, OutOfMemory>
    requires { groups.stmt_group stmt.now.kind ≡ StmtGroup.Simple }
    ensures { IfOk result (λ made. LowersStatement explains stmt.now.at stmt.now.kind made) }
{
    match &stmt.kind {
        StmtKind::Expr(e) => Ok(CoreStmtKind::Expr(lower_expr(alloc, e)?)),
        StmtKind::Assign(targets, value) => {
            let targets = lower_targets(alloc, targets)?;
            Ok(CoreStmtKind::Assign(targets, lower_expr(alloc, value)?))
        }
        StmtKind::AugAssign(single, op, value) => {
            let single = lower_single(alloc, single)?;
            Ok(CoreStmtKind::AugAssign(single, *op, lower_expr(alloc, value)?))
        }
        StmtKind::Return(value) => Ok(CoreStmtKind::Return(lower_some(alloc, value)?)),
        StmtKind::Raise(value) => Ok(CoreStmtKind::Raise(lower_some(alloc, value)?)),
        StmtKind::Assert(condition, message) => {
            lower_assert(alloc, explains, stmt.at, condition, message)
        }
        StmtKind::Del(single) => Ok(CoreStmtKind::Del(lower_single(alloc, single)?)),
        StmtKind::Pass => Ok(CoreStmtKind::Pass),
        StmtKind::Break => Ok(CoreStmtKind::Break),
        StmtKind::Continue => Ok(CoreStmtKind::Continue),
        _ => unreachable!(),
    }
}

/// The core form of a statement that is made of names alone.
#[tactic(auto, using(crate::proofs::SimpleForms::namings))]
pub fn lower_naming(alloc: Global, explains: bool, stmt: &Stmt) -> Result<CoreStmtKind, OutOfMemory>
    requires { groups.stmt_group stmt.now.kind ≡ StmtGroup.Naming }
    ensures { IfOk result (λ made. LowersStatement explains stmt.now.at stmt.now.kind made) }
{
    match &stmt.kind {
        StmtKind::Global(names) => Ok(CoreStmtKind::Global(names.clone()?)),
        StmtKind::Import(names, alias) => {
            let alias = copy_name(alias)?;
            Ok(CoreStmtKind::Import(names.clone()?, alias))
        }
        StmtKind::ImportFrom(names, all) => {
            let all = all.clone()?;
            Ok(CoreStmtKind::ImportFrom(names.clone()?, all))
        }
        _ => unreachable!(),
    }
}
