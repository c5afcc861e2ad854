// Simple statements begin.

ghost use Rattle.std.specs.Prelude.{◌≡◌, ◌≤◌, ◌∷◌, IfOk, true};
ghost use Rattle.assert_explain.specs.py_world.Raising as raising;
ghost use Rattle.assert_explain.specs.py_world.Outcome.{Gave, Next};
ghost use Rattle.assert_explain.specs.py_world.Statements as world;
ghost use Rattle.assert_explain.specs.py_world.Targets as targets;
ghost use Rattle.machine_unwind.specs.core_meaning.Expressions.{eval};
ghost use Rattle.machine_unwind.specs.core_meaning.Requests.{Receives};
ghost use Rattle.machine_unwind.specs.core_meaning.Statements as meaning;
ghost use Rattle.machine_unwind.specs.machine_state.Places.{ends};
ghost use Rattle.machine_unwind.specs.machine_state.Frames.{layers_of, machine_rest, site_now, state_of, todo};
ghost use Rattle.machine_simple.specs.Simple as kinds;

use crate::failure::begin_failure;
use crate::simple::{stop, store_next};
use machine_expr::evaluate::descend_into;
use machine_store::augment::begin_augment;
use machine_store::delete::begin_delete;
use machine_store::{at_once, descend};
use machine_unwind::raise::raise_again;
use machine_unwind::{End, Frame, Machine, NextAction, SimpleFrame};
use py_core::{CoreExpr, CoreSingle, CoreStmtKind, CoreTarget, CoreUse};
use py_values::value::Value;
use seq::OutOfMemory;
use std::rc::Rc;

/// Begins a statement that is an expression.
fn begin_expression(m: &mut Machine, e: &Rc<CoreExpr>) -> Result<NextAction, OutOfMemory>
    ensures next { IfOk result (λ d. ends m.new.left (todo d m.new) ≡ ends m.old.left (world.expression_statement (eval e.now.value) (site_now m.old) (state_of m.old) (machine_rest m.old))) }
    ensures left { m.new.left ≤ m.old.left }
{
    match at_once(m, e)? {
        Some(there) => {
            m.left = there.left;
            Ok(NextAction::Back(End::Next))
        }
        None => descend_into(m, Frame::Simple(SimpleFrame::Forget), e),
    }
}

/// Begins an assignment.
fn begin_assign(
    m: &mut Machine,
    ts: &Rc<Vec<CoreTarget>>,
    e: &Rc<CoreExpr>,
) -> Result<NextAction, OutOfMemory>
    ensures next { IfOk result (λ d. ends m.new.left (todo d m.new) ≡ ends m.old.left (targets.assign (meaning.stores ts.now.value.items) (eval e.now.value) (site_now m.old) (state_of m.old) (machine_rest m.old))) }
    ensures left { m.new.left ≤ m.old.left }
{
    let targets = ts.clone()?;
    match at_once(m, e)? {
        Some(there) => {
            m.left = there.left;
            store_next(m, targets, 0, there.value)
        }
        None => descend_into(m, Frame::Simple(SimpleFrame::Assign(targets)), e),
    }
}

/// Begins a return of a value.
fn begin_return(m: &mut Machine, e: &Rc<CoreExpr>) -> Result<NextAction, OutOfMemory>
    ensures next { IfOk result (λ d. ends m.new.left (todo d m.new) ≡ ends m.old.left (world.return_value (Some (eval e.now.value)) (site_now m.old) (state_of m.old) (machine_rest m.old))) }
    ensures left { m.new.left ≤ m.old.left }
{
    match at_once(m, e)? {
        Some(there) => {
            m.left = there.left;
            Ok(NextAction::Back(End::Returned(there.value)))
        }
        None => descend_into(m, Frame::Simple(SimpleFrame::Return), e),
    }
}

/// Begins a return.
fn begin_some_return(m: &mut Machine, e: &Option<Rc<CoreExpr>>) -> Result<NextAction, OutOfMemory>
    ensures next { IfOk result (λ d. ends m.new.left (todo d m.new) ≡ ends m.old.left (world.return_value (meaning.some_part e.now) (site_now m.old) (state_of m.old) (machine_rest m.old))) }
    ensures left { m.new.left ≤ m.old.left }
{
    match e {
        Some(e) => begin_return(m, e),
        None => Ok(NextAction::Back(End::Returned(Value::None))),
    }
}

/// Begins a `yield`.
fn begin_yield(
    m: &mut Machine,
    e: &Option<Rc<CoreExpr>>,
    given: &Rc<CoreUse>,
) -> Result<NextAction, OutOfMemory>
    ensures next { IfOk result (λ d. todo d m.new ≡ world.yield_value (meaning.some_part e.now) (Receives given.now.value ∷ layers_of m.old.stack.own) (site_now m.old) (state_of m.old) (machine_rest m.old)) }
    ensures left { m.new.left ≡ m.old.left }
{
    let given = given.clone()?;
    match e {
        Some(e) => descend(m, Frame::Simple(SimpleFrame::Yield(given)), e),
        None => stop(m, given, Value::None),
    }
}

/// Begins a `raise`.
fn begin_raise(m: &mut Machine, e: &Option<Rc<CoreExpr>>) -> Result<NextAction, OutOfMemory>
    ensures next { IfOk result (λ d. todo d m.new ≡ raising.raise_value meaning.entry (meaning.some_part e.now) (site_now m.old) (state_of m.old) (machine_rest m.old)) }
    ensures left { m.new.left ≡ m.old.left }
{
    match e {
        Some(e) => descend(m, Frame::Simple(SimpleFrame::Raise), e),
        None => raise_again(m),
    }
}

/// Whether a statement is a simple one that does more than end.
pub fn is_simple(kind: &CoreStmtKind) -> bool
    ensures { result ≡ kinds.is_simple kind.now }
{
    match kind {
        CoreStmtKind::Expr(_)
        | CoreStmtKind::Assign(_, _)
        | CoreStmtKind::AugAssign(_, _, _)
        | CoreStmtKind::Return(_)
        | CoreStmtKind::FailWith(_, _)
        | CoreStmtKind::Global(_)
        | CoreStmtKind::Yield(_, _)
        | CoreStmtKind::Raise(_)
        | CoreStmtKind::Del(_) => true,
        CoreStmtKind::Pass
        | CoreStmtKind::Break
        | CoreStmtKind::Continue
        | CoreStmtKind::If(_, _)
        | CoreStmtKind::While(_, _)
        | CoreStmtKind::Def(_, _, _)
        | CoreStmtKind::For(_, _, _)
        | CoreStmtKind::Try(_, _)
        | CoreStmtKind::With(_, _, _)
        | CoreStmtKind::Class(_, _, _)
        | CoreStmtKind::Import(_, _)
        | CoreStmtKind::ImportFrom(_, _) => false,
    }
}

/// Begins a simple statement whose step is taken.
pub fn begin_simple(m: &mut Machine, kind: &CoreStmtKind) -> Result<NextAction, OutOfMemory>
    requires { kinds.is_simple kind.now ≡ true }
    ensures next { IfOk result (λ d. ends m.new.left (todo d m.new) ≡ ends m.old.left (meaning.core_statement_at (layers_of m.old.stack.own) kind.now (site_now m.old) (state_of m.old) (machine_rest m.old))) }
    ensures left { m.new.left ≤ m.old.left }
{
    match kind {
        CoreStmtKind::Expr(e) => begin_expression(m, e),
        CoreStmtKind::Assign(ts, e) => begin_assign(m, ts, e),
        CoreStmtKind::AugAssign(target, op, e) => begin_augment(m, target, *op, e),
        CoreStmtKind::Return(e) => begin_some_return(m, e),
        CoreStmtKind::FailWith(template, message) => begin_failure(m, template, message),
        CoreStmtKind::Global(_) => Ok(NextAction::Back(End::Next)),
        CoreStmtKind::Yield(e, given) => begin_yield(m, e, given),
        CoreStmtKind::Raise(e) => begin_raise(m, e),
        CoreStmtKind::Del(target) => begin_delete(m, target),
        _ => unreachable!(),
    }
}
