ghost use Rattle.std.specs.Prelude.{IfOk, ◌≡◌, ◌∷◌, [], true as explained, false as plain};
ghost use Rattle.py_tree.specs.declared.stmt.StmtKind.TheVariants as source;
ghost use Rattle.assert_rewrite.specs.Lowers.{LowersStatement, EmptyBranch};
ghost use Rattle.lower_law.specs.Lowered.{core_at};
ghost use Rattle.py_core.specs.Blocks.{stmts_in};
ghost use Rattle.py_core.specs.declared.stmt.CoreStmtKind.TheVariants as core;

use crate::expressions::{lower_expr, lower_some};
use crate::watched::watch_expr;
use py_core::{CoreBlock, CoreBranch, CoreExpr, CoreStmt, CoreStmtKind, Template};
use py_tree::{Expr, Pos};
use seq::OutOfMemory;
use std::alloc::Global;
use std::rc::Rc;

/// A block that stands for no statements of the source.
#[tactic(auto, using(crate::proofs::SimpleForms::bare_blocks))]
fn bare_block(alloc: Global, stmts: Vec<CoreStmt>) -> Result<Rc<CoreBlock>, OutOfMemory>
    ensures { IfOk result (λ b. stmts_in b.value ≡ stmts.items) }
{
    let source = Rc::new(alloc, Vec::new(alloc))?;
    let block = CoreBlock {
        source,
        explains: false,
        stmts,
    };
    Ok(Rc::new(alloc, block)?)
}

/// A branch at a place that does nothing.
#[tactic(auto, using(crate::proofs::SimpleForms::empties))]
fn empty_branch(
    alloc: Global,
    at: Pos,
    condition: Rc<CoreExpr>,
) -> Result<Rc<Vec<CoreBranch>>, OutOfMemory>
    ensures { IfOk result (λ branches. EmptyBranch at condition branches.value.items) }
{
    let body = bare_block(alloc, Vec::new(alloc))?;
    let mut branches = Vec::new(alloc);
    branches.push(CoreBranch {
        at,
        condition,
        body,
    })?;
    Ok(Rc::new(alloc, branches)?)
}

/// The failure of an assert at a place.
fn failure(
    alloc: Global,
    at: Pos,
    shown: Template,
    message: Option<Rc<CoreExpr>>,
) -> Result<Rc<CoreBlock>, OutOfMemory>
    ensures { IfOk result (λ b. stmts_in b.value ≡ core_at at (core.FailWith shown message) ∷ []) }
{
    let mut stmts = Vec::new(alloc);
    let kind = CoreStmtKind::FailWith(shown, message);
    stmts.push(CoreStmt { at, kind })?;
    bare_block(alloc, stmts)
}

/// The core form of an assert that shows nothing beside its message.
#[tactic(auto, using(crate::proofs::SimpleForms::plains))]
fn plain_assert(
    alloc: Global,
    at: Pos,
    condition: &Rc<Expr>,
    message: &Option<Rc<Expr>>,
) -> Result<CoreStmtKind, OutOfMemory>
    ensures { IfOk result (λ made. LowersStatement plain at (source.Assert condition.now message.now) made) }
{
    let core = lower_expr(alloc, condition)?;
    let message = lower_some(alloc, message)?;
    let branches = empty_branch(alloc, at, core)?;
    let other = failure(alloc, at, Template::Plain, message)?;
    Ok(CoreStmtKind::If(branches, other))
}

/// The core form of an assert that shows its condition, whose parts are kept.
#[tactic(auto, using(crate::proofs::SimpleForms::explaineds))]
fn explained_assert(
    alloc: Global,
    at: Pos,
    condition: &Rc<Expr>,
    message: &Option<Rc<Expr>>,
) -> Result<CoreStmtKind, OutOfMemory>
    ensures { IfOk result (λ made. LowersStatement explained at (source.Assert condition.now message.now) made) }
{
    let mut next = 0;
    let core = watch_expr(alloc, condition, &mut next)?;
    let message = lower_some(alloc, message)?;
    let branches = empty_branch(alloc, at, core)?;
    let shown = condition.clone()?;
    let other = failure(alloc, at, Template::Explain(shown), message)?;
    Ok(CoreStmtKind::If(branches, other))
}

/// The core form of an assert at a place: an `if` there that does nothing, whose `else` is the failure.
#[tactic(auto, using(crate::proofs::SimpleForms::asserts))]
pub fn lower_assert(
    alloc: Global,
    explains: bool,
    at: Pos,
    condition: &Rc<Expr>,
    message: &Option<Rc<Expr>>,
) -> Result<CoreStmtKind, OutOfMemory>
    ensures { IfOk result (λ made. LowersStatement explains at (source.Assert condition.now message.now) made) }
{
    if explains {
        explained_assert(alloc, at, condition, message)
    } else {
        plain_assert(alloc, at, condition, message)
    }
}
