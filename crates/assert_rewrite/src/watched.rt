// Conditions that are explained: their parts are kept, numbered in the order of the text.

ghost use Rattle.std.specs.Prelude.{IfOk, ◌≡◌, ◌+◌};
ghost use Rattle.assert_rewrite.specs.Groups as groups;
ghost use Rattle.assert_rewrite.specs.Lowers.{Keeps, WatchesForm, Watches, WatchesEach};

use crate::expressions::lower_expr;
use crate::groups::{WatchGroup, watch_group};
use py_core::{CoreExpr, CoreExprKind};
use py_tree::{Expr, ExprKind, Pos};
use seq::OutOfMemory;
use std::alloc::Global;
use std::rc::Rc;

/// The number of the next part that is kept. Where there are more parts than numbers, memory is said to lack.
fn taken(next: &mut u32) -> Result<u32, OutOfMemory>
    ensures this { IfOk result (λ n. n ≡ next.old) }
    ensures behind { IfOk result (λ n. next.new ≡ next.old + 1) }
{
    let number = *next;
    match number.checked_add(1) {
        Some(behind) => {
            *next = behind;
            Ok(number)
        }
        None => Err(OutOfMemory),
    }
}

/// A form at a place, whose value is kept.
#[tactic(auto, using(crate::proofs::WatchForms::keepings))]
fn kept(
    alloc: Global,
    number: u32,
    at: Pos,
    kind: CoreExprKind,
) -> Result<CoreExprKind, OutOfMemory>
    ensures { IfOk result (λ core. Keeps number at kind core) }
{
    let whole = Rc::new(alloc, CoreExpr { at, kind })?;
    Ok(CoreExprKind::SetTemp(number, whole))
}

/// The core form of an expression whose parts are shown, at its place.
#[cycle(watched)]
#[tactic(auto, using(crate::proofs::WatchForms::expressions))]
pub fn watch_expr(alloc: Global, e: &Expr, next: &mut u32) -> Result<Rc<CoreExpr>, OutOfMemory>
    ensures { IfOk result (λ core. Watches next.old e.now core.value next.new) }
{
    let kind = watch_form(alloc, e, next)?;
    Ok(Rc::new(alloc, CoreExpr { at: e.at, kind })?)
}

/// The core form of an expression whose parts are shown.
#[cycle(watched)]
fn watch_form(alloc: Global, e: &Expr, next: &mut u32) -> Result<CoreExprKind, OutOfMemory>
    ensures { IfOk result (λ core. WatchesForm next.old e.now.at e.now.kind core next.new) }
{
    match watch_group(&e.kind) {
        WatchGroup::Whole => watch_whole(alloc, e, next),
        WatchGroup::Between => watch_between(alloc, e, next),
        WatchGroup::Row => watch_row(alloc, e, next),
        WatchGroup::Came => watch_came(alloc, e, next),
    }
}

/// The core form of an expression whose value alone is shown.
#[tactic(auto, using(crate::proofs::WatchForms::wholes))]
fn watch_whole(alloc: Global, e: &Expr, next: &mut u32) -> Result<CoreExprKind, OutOfMemory>
    requires { groups.watch_group e.now.kind ≡ WatchGroup.Whole }
    ensures { IfOk result (λ core. WatchesForm next.old e.now.at e.now.kind core next.new) }
{
    let number = taken(next)?;
    Ok(CoreExprKind::SetTemp(number, lower_expr(alloc, e)?))
}

/// The core form of an expression with one operator.
#[cycle(watched)]
#[tactic(auto, using(crate::proofs::WatchForms::betweens))]
fn watch_between(alloc: Global, e: &Expr, next: &mut u32) -> Result<CoreExprKind, OutOfMemory>
    requires { groups.watch_group e.now.kind ≡ WatchGroup.Between }
    ensures { IfOk result (λ core. WatchesForm next.old e.now.at e.now.kind core next.new) }
{
    match &e.kind {
        ExprKind::Paren(inner) => Ok(CoreExprKind::Paren(watch_expr(alloc, inner, next)?)),
        ExprKind::Unary(op, operand) => {
            Ok(CoreExprKind::Unary(*op, watch_expr(alloc, operand, next)?))
        }
        ExprKind::Not(operand) => Ok(CoreExprKind::Not(watch_expr(alloc, operand, next)?)),
        ExprKind::Binary(left, op, right) => {
            let left = watch_expr(alloc, left, next)?;
            let right = watch_expr(alloc, right, next)?;
            Ok(CoreExprKind::Binary(left, *op, right))
        }
        _ => unreachable!(),
    }
}

/// The core form of an expression with a first operand and a row of others.
#[cycle(watched)]
#[tactic(auto, using(crate::proofs::WatchForms::rows))]
fn watch_row(alloc: Global, e: &Expr, next: &mut u32) -> Result<CoreExprKind, OutOfMemory>
    requires { groups.watch_group e.now.kind ≡ WatchGroup.Row }
    ensures { IfOk result (λ core. WatchesForm next.old e.now.at e.now.kind core next.new) }
{
    match &e.kind {
        ExprKind::Compare(first, ops, rest) => {
            let first = watch_expr(alloc, first, next)?;
            let rest = watch_each(alloc, rest, next)?;
            Ok(CoreExprKind::Compare(first, ops.clone()?, rest))
        }
        ExprKind::And(first, rest) => {
            let first = watch_expr(alloc, first, next)?;
            Ok(CoreExprKind::And(first, watch_each(alloc, rest, next)?))
        }
        ExprKind::Or(first, rest) => {
            let first = watch_expr(alloc, first, next)?;
            Ok(CoreExprKind::Or(first, watch_each(alloc, rest, next)?))
        }
        _ => unreachable!(),
    }
}

/// The core form of a call or an attribute, whose value is kept, as those of its parts are.
#[cycle(watched)]
#[tactic(auto, using(crate::proofs::WatchForms::cames))]
fn watch_came(alloc: Global, e: &Expr, next: &mut u32) -> Result<CoreExprKind, OutOfMemory>
    requires { groups.watch_group e.now.kind ≡ WatchGroup.Came }
    ensures { IfOk result (λ core. WatchesForm next.old e.now.at e.now.kind core next.new) }
{
    let number = taken(next)?;
    match &e.kind {
        ExprKind::Call(callee, args, names) => {
            let callee = watch_expr(alloc, callee, next)?;
            let args = watch_each(alloc, args, next)?;
            let called = CoreExprKind::Call(callee, args, names.clone()?);
            let core = kept(alloc, number, e.at, called)?;
            Ok(core)
        }
        ExprKind::Attribute(of, name) => {
            let of = watch_expr(alloc, of, next)?;
            let read = CoreExprKind::Attribute(of, name.clone()?);
            kept(alloc, number, e.at, read)
        }
        _ => unreachable!(),
    }
}

/// The core forms of expressions whose parts are shown, in their order.
#[cycle(watched)]
#[tactic(auto, using(crate::proofs::WatchForms::lists))]
fn watch_each(
    alloc: Global,
    all: &[Rc<Expr>],
    next: &mut u32,
) -> Result<Rc<Vec<Rc<CoreExpr>>>, OutOfMemory>
    ensures { IfOk result (λ cores. WatchesEach next.old all.now cores.value.items next.new) }
{
    let mut done = Vec::new(alloc);
    for e in all {
        done.push(watch_expr(alloc, e, next)?)?;
    }
    Ok(Rc::new(alloc, done)?)
}
