// Augmented assignments, whose parts are evaluated once.

ghost use Rattle.std.specs.Prelude.{◌≡◌, ◌+◌, ◌≤◌, ◌<◌, ℕ, IfOk, IfSome};
ghost use Rattle.py_ops.specs.Binary.{augmented_of};
ghost use Rattle.machine_assign.specs.py_world.Outcome.{operated};
ghost use Rattle.machine_assign.specs.py_world.Targets as world;
ghost use Rattle.machine_assign.specs.core_meaning.Expressions.{eval};
ghost use Rattle.machine_assign.specs.core_meaning.Statements as meaning;
ghost use Rattle.machine_immediate.specs.AtOnce.{IsImmediate};
ghost use Rattle.machine_assign.specs.machine_state.Places.{ends};
ghost use Rattle.machine_assign.specs.machine_state.Frames.{machine_rest, site_now, state_of, todo, Follows};
ghost use Rattle.machine_assign.specs.machine_state.Work.{doing_work, stack_work, weight, Falls};

use machine_assign::{
    End, Frame, Machine, NextAction, Origin, SimpleFrame, Spot, TargetFrame, TurnEnd, bound_value,
    descend, look_up, store, subscript,
};
use machine_immediate::immediate::{Immediate, at_once, operate_now};
use py_attributes::attributes::attribute_made;
use py_core::{BinOp, CoreExpr, CoreSingle, CoreSingleKind, SrcText};
use py_values::end::Effect;
use py_values::index::Index;
use py_values::value::Value;
use seq::OutOfMemory;
use std::rc::Rc;

/// The value of an augmented assignment's operator, where it is there at once.
fn augmented_now(
    m: &Machine,
    op: BinOp,
    x: Value,
    y: Value,
) -> Result<Option<Immediate>, OutOfMemory>
    ensures { IfOk result (λ r. IfSome r (λ d. IsImmediate (operated (augmented_of op m.now.heap x y)) m.now.left d m.now)) }
{
    match x {
        Value::None | Value::Bool(_) | Value::Int(_) => operate_now(m, op, x, y, m.left),
        Value::Ref(_) => Ok(None),
    }
}

/// Goes on with an augmented assignment to a name behind both values.
fn augment_now(
    m: &mut Machine,
    x: Value,
    op: BinOp,
    y: Value,
    name: &SrcText,
) -> Result<NextAction, OutOfMemory>
    ensures next { IfOk result (λ d. ends m.new.left (todo d m.new) ≡ ends m.old.left (world.augmented x op y (world.store_name name.now) (site_now m.old) (state_of m.old) (machine_rest m.old))) }
    ensures left { m.new.left ≤ m.old.left }
{
    match augmented_now(m, op, x, y)? {
        Some(made) => {
            m.left = made.left;
            store(m, name, made.value)
        }
        None => {
            let name = name.clone()?;
            let frame = SimpleFrame::Augment(x, op, Spot::Name(name));
            m.stack.push(Frame::Simple(frame))?;
            Ok(NextAction::Back(End::Value(y)))
        }
    }
}

/// Goes on with an augmented assignment to a name behind the name's value.
fn augment_from(
    m: &mut Machine,
    x: Value,
    name: &SrcText,
    op: BinOp,
    e: &Rc<CoreExpr>,
) -> Result<NextAction, OutOfMemory>
    ensures next { IfOk result (λ d. ends m.new.left (todo d m.new) ≡ ends m.old.left (world.augment_on x op (eval e.now.value) (world.store_name name.now) (site_now m.old) (state_of m.old) (machine_rest m.old))) }
    ensures left { m.new.left ≤ m.old.left }
{
    match at_once(m, e)? {
        Some(there) => {
            m.left = there.left;
            augment_now(m, x, op, there.value, name)
        }
        None => {
            let name = name.clone()?;
            let frame = Frame::Simple(SimpleFrame::Augment(x, op, Spot::Name(name)));
            descend(m, frame, e)
        }
    }
}

/// Begins an augmented assignment to a name whose value isn't there.
#[inline(never)]
fn augment_unbound(
    m: &mut Machine,
    name: &SrcText,
    op: BinOp,
    e: &Rc<CoreExpr>,
) -> Result<NextAction, OutOfMemory>
    ensures next { IfOk result (λ d. ends m.new.left (todo d m.new) ≡ ends m.old.left (world.augment_name name.now op (eval e.now.value) (site_now m.old) (state_of m.old) (machine_rest m.old))) }
    ensures left { m.new.left ≤ m.old.left }
{
    match look_up(m, name)? {
        Effect::Give(x, _) => augment_from(m, x, name, op, e),
        Effect::New(obj, _) => {
            let id = m.heap.add(obj)?;
            augment_from(m, Value::Ref(id), name, op, e)
        }
        Effect::Put(id, change, x, _) => {
            m.heap.change(id, change)?;
            augment_from(m, x, name, op, e)
        }
        Effect::Fail(raise, _) => m.raise(raise, Origin::Code),
    }
}

/// Begins an augmented assignment to a name: its value comes first.
fn augment_name(
    m: &mut Machine,
    name: &SrcText,
    op: BinOp,
    e: &Rc<CoreExpr>,
) -> Result<NextAction, OutOfMemory>
    ensures next { IfOk result (λ d. ends m.new.left (todo d m.new) ≡ ends m.old.left (world.augment_name name.now op (eval e.now.value) (site_now m.old) (state_of m.old) (machine_rest m.old))) }
    ensures left { m.new.left ≤ m.old.left }
{
    match bound_value(m, name)? {
        Some(x) => augment_from(m, x, name, op, e),
        None => augment_unbound(m, name, op, e),
    }
}

/// Begins an augmented assignment to an attribute: its object comes first.
fn begin_attribute(
    m: &mut Machine,
    a: &Rc<CoreExpr>,
    name: &SrcText,
    op: BinOp,
    e: &Rc<CoreExpr>,
) -> Result<NextAction, OutOfMemory>
    ensures next { IfOk result (λ d. todo d m.new ≡ world.augment_attribute (eval a.now.value) name.now op (eval e.now.value) (site_now m.old) (state_of m.old) (machine_rest m.old)) }
    ensures left { m.new.left ≡ m.old.left }
{
    let frame = TargetFrame::AugmentAttribute(name.clone()?, op, e.clone()?);
    descend(m, Frame::Target(frame), a)
}

/// Begins an augmented assignment to an item: its object comes first, then its index or key.
fn begin_item(
    m: &mut Machine,
    a: &Rc<CoreExpr>,
    i: &Rc<CoreExpr>,
    op: BinOp,
    e: &Rc<CoreExpr>,
) -> Result<NextAction, OutOfMemory>
    ensures next { IfOk result (λ d. todo d m.new ≡ world.augment_item (eval a.now.value) (eval i.now.value) op (eval e.now.value) (site_now m.old) (state_of m.old) (machine_rest m.old)) }
    ensures left { m.new.left ≡ m.old.left }
{
    let frame = TargetFrame::AugmentItem(i.clone()?, op, e.clone()?);
    descend(m, Frame::Target(frame), a)
}

/// Begins an augmented assignment (Language Reference, augmented assignment statements).
pub fn begin_augment(
    m: &mut Machine,
    target: &CoreSingle,
    op: BinOp,
    e: &Rc<CoreExpr>,
) -> Result<NextAction, OutOfMemory>
    ensures next { IfOk result (λ d. ends m.new.left (todo d m.new) ≡ ends m.old.left (meaning.augment_at target.now.kind op (eval e.now.value) (site_now m.old) (state_of m.old) (machine_rest m.old))) }
    ensures left { m.new.left ≤ m.old.left }
{
    match &target.kind {
        CoreSingleKind::Name(name) => augment_name(m, name, op, e),
        CoreSingleKind::Attribute(a, name) => begin_attribute(m, a, name, op, e),
        CoreSingleKind::Subscript(a, i) => begin_item(m, a, i, op, e),
    }
}

/// Goes on with an augmented assignment behind the object of an attribute: the attribute's value comes next.
pub fn augment_attribute(
    m: &mut Machine,
    x: Value,
    name: SrcText,
    op: BinOp,
    e: Rc<CoreExpr>,
) -> Result<NextAction, OutOfMemory>
    ensures next { IfOk result (λ d. todo d m.new ≡ world.augment_attribute_of x name op (eval e.value) (site_now m.old) (state_of m.old) (machine_rest m.old)) }
    ensures left { m.new.left ≡ m.old.left }
    ensures work { IfOk result (λ d. doing_work d + stack_work m.new < weight e.value + 3 + stack_work m.old) }
{
    let made = attribute_made(m.alloc, &m.heap, x, name.chars())?;
    let frame = TargetFrame::Old(Spot::Attribute(x, name), op, e);
    m.stack.push(Frame::Target(frame))?;
    m.make(made, Origin::Code)
}

/// Goes on with an augmented assignment behind the index or key of an item: the value there comes next.
pub fn augment_item(
    m: &mut Machine,
    x: Value,
    i: Value,
    op: BinOp,
    e: Rc<CoreExpr>,
) -> Result<TurnEnd, OutOfMemory>
    ensures next { IfOk result (λ t. Follows t m.new m.old.left (world.augment_item_of x i op (eval e.value) (site_now m.old) (state_of m.old) (machine_rest m.old))) }
    ensures work { IfOk result (λ t. (work : ℕ) → Falls t m.new m.old.left work) }
{
    let frame = TargetFrame::Old(Spot::Item(x, i), op, e);
    m.stack.push(Frame::Target(frame))?;
    subscript(m, x, &Index::At(i))
}
