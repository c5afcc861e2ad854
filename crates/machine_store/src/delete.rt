// Deletions.

ghost use Rattle.std.specs.Prelude.{◌≡◌, IfOk};
ghost use Rattle.machine_assign.specs.py_world.Targets as world;
ghost use Rattle.machine_assign.specs.core_meaning.Expressions.{eval};
ghost use Rattle.machine_assign.specs.core_meaning.Statements as meaning;
ghost use Rattle.machine_assign.specs.machine_state.Frames.{machine_rest, site_now, state_of, todo};

use machine_assign::{Frame, Machine, NextAction, TargetFrame, delete_name, descend};
use py_core::{CoreExpr, CoreSingle, CoreSingleKind, SrcText};
use seq::OutOfMemory;
use std::rc::Rc;

/// Begins the deletion of an attribute: its object comes first.
fn delete_attribute(
    m: &mut Machine,
    e: &Rc<CoreExpr>,
    name: &SrcText,
) -> Result<NextAction, OutOfMemory>
    ensures next { IfOk result (λ d. todo d m.new ≡ world.delete_attribute (eval e.now.value) name.now (site_now m.old) (state_of m.old) (machine_rest m.old)) }
    ensures left { m.new.left ≡ m.old.left }
{
    let frame = TargetFrame::DeleteAttribute(name.clone()?);
    descend(m, Frame::Target(frame), e)
}

/// Begins the deletion of an item: its object comes first, then its index or key.
fn delete_item(
    m: &mut Machine,
    e: &Rc<CoreExpr>,
    i: &Rc<CoreExpr>,
) -> Result<NextAction, OutOfMemory>
    ensures next { IfOk result (λ d. todo d m.new ≡ world.delete_item (eval e.now.value) (eval i.now.value) (site_now m.old) (state_of m.old) (machine_rest m.old)) }
    ensures left { m.new.left ≡ m.old.left }
{
    let frame = TargetFrame::DeleteItem(i.clone()?);
    descend(m, Frame::Target(frame), e)
}

/// Begins a deletion (Language Reference, the `del` statement).
pub fn begin_delete(m: &mut Machine, target: &CoreSingle) -> Result<NextAction, OutOfMemory>
    ensures next { IfOk result (λ d. todo d m.new ≡ meaning.delete_at target.now.kind (site_now m.old) (state_of m.old) (machine_rest m.old)) }
    ensures left { m.new.left ≡ m.old.left }
{
    match &target.kind {
        CoreSingleKind::Name(name) => delete_name(m, name),
        CoreSingleKind::Attribute(e, name) => delete_attribute(m, e, name),
        CoreSingleKind::Subscript(e, i) => delete_item(m, e, i),
    }
}
