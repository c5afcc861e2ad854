// The core forms of a `yield`.

ghost use Rattle.std.specs.Prelude.{IfOk, ◌≡◌};
ghost use Rattle.assert_rewrite.specs.Groups as groups;
ghost use Rattle.assert_rewrite.specs.Lowers.{LowersStatement, LowersUse};

use crate::expressions::lower_some;
use crate::groups::StmtGroup;
use crate::targets::lower_targets;
use py_core::{CoreStmtKind, CoreUse};
use py_tree::{Stmt, StmtKind, Target};
use seq::OutOfMemory;
use std::alloc::Global;
use std::rc::Rc;

/// What assigns the value that a `yield` is given to targets.
#[tactic(auto, using(crate::proofs::YieldForms::uses))]
fn lower_use(alloc: Global, targets: &Rc<Vec<Target>>) -> Result<CoreUse, OutOfMemory>
    ensures { IfOk result (λ used. LowersUse targets.now.value.items used) }
{
    let cores = lower_targets(alloc, targets)?;
    Ok(CoreUse::Targets(targets.clone()?, cores))
}

/// The core form of a statement with a `yield`: what it gives, and what is done with what it is given.
#[tactic(auto, using(crate::proofs::YieldForms::forms))]
pub fn lower_yield(alloc: Global, explains: bool, stmt: &Stmt) -> Result<CoreStmtKind, OutOfMemory>
    requires { groups.stmt_group stmt.now.kind ≡ StmtGroup.Yielding }
    ensures { IfOk result (λ made. LowersStatement explains stmt.now.at stmt.now.kind made) }
{
    match &stmt.kind {
        StmtKind::Yield(given) => {
            let value = lower_some(alloc, &given.value)?;
            let used = Rc::new(alloc, CoreUse::NoUse)?;
            Ok(CoreStmtKind::Yield(value, used))
        }
        StmtKind::AssignYield(targets, given) => {
            let value = lower_some(alloc, &given.value)?;
            let used = Rc::new(alloc, lower_use(alloc, targets)?)?;
            Ok(CoreStmtKind::Yield(value, used))
        }
        StmtKind::ReturnYield(given) => {
            let value = lower_some(alloc, &given.value)?;
            let used = Rc::new(alloc, CoreUse::Return)?;
            Ok(CoreStmtKind::Yield(value, used))
        }
        _ => unreachable!(),
    }
}
