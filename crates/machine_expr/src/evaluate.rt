// Expressions begin.

ghost use Rattle.std.specs.Prelude.{◌≡◌, ◌+◌, ◌<◌, ◌≤◌, ◌∷◌, IfOk, length};
ghost use Rattle.machine_state.specs.py_world.Arguments.{arguments_of};
ghost use Rattle.machine_state.specs.py_world.Expressions as world;
ghost use Rattle.machine_state.specs.core_meaning.Expressions.{eval};
ghost use Rattle.machine_state.specs.Places.{ends, parts_from, site_of};
ghost use Rattle.machine_state.specs.Frames.{after_stack, handled_exception, outer_of, machine_rest, site_now, state_of, todo};
ghost use Rattle.machine_state.specs.Work.{doing_work, frame_work, stack_work, weight, weight_from};
ghost use Rattle.machine_expr.specs.Groups.{group_of};
ghost use Rattle.machine_expr.specs.Noting.{with_note};

use crate::containers::{begin_attribute, begin_dict, begin_display, begin_slice, begin_subscript};
use crate::group::{Group, kind_group};
use machine_arguments::shape::shape;
use machine_immediate::immediate::{at_once, at_once_unless_call};
use machine_immediate::part::{next_argument, temp_value};
use machine_state::frame::{CallFrame, ChainFrame, Display, End, Frame, OperandFrame};
use machine_state::machine::{Machine, NextAction, Origin};
use machine_turns::begin::descend;
use machine_turns::look_up;
use py_core::{ArgName, BinOp, CmpOp, CoreExpr, CoreExprKind, SrcText};
use py_values::class::ExcClass;
use py_values::end::Raise;
use py_values::limits::MOST_ELEMENTS;
use py_values::object::Obj;
use py_values::value::Value;
use seq::{OutOfMemory, PyText};
use std::rc::Rc;

/// The value of a name.
fn name_value(m: &mut Machine, name: &SrcText) -> Result<NextAction, OutOfMemory>
    ensures next { IfOk result (λ d. todo d m.new ≡ world.name_part name.now (site_now m.old) (state_of m.old) (machine_rest m.old)) }
    ensures left { m.new.left ≡ m.old.left }
    ensures work { IfOk result (λ d. doing_work d ≡ 0) }
    ensures stack { m.new.stack ≡ m.old.stack }
{
    let made = look_up(m, name)?;
    m.make(made, Origin::Code)
}

/// A text, which is a new object at each evaluation.
fn text_made(m: &mut Machine, text: &SrcText) -> Result<NextAction, OutOfMemory>
    ensures next { IfOk result (λ d. todo d m.new ≡ world.text_part text.now (site_now m.old) (state_of m.old) (machine_rest m.old)) }
    ensures left { m.new.left ≡ m.old.left }
    ensures work { IfOk result (λ d. doing_work d ≡ 0) }
    ensures stack { m.new.stack ≡ m.old.stack }
{
    if text.chars().len() > MOST_ELEMENTS {
        let raise = Raise::from_ascii(m.alloc, ExcClass::MemoryError, "sequence too long")?;
        return m.raise(raise, Origin::Code);
    }
    let text = PyText::from_chars(m.alloc, text.chars())?;
    let id = m.heap.add(Obj::Text(text))?;
    Ok(NextAction::Back(End::Value(Value::Ref(id))))
}

fn begin_call(
    m: &mut Machine,
    f: &Rc<CoreExpr>,
    es: &Rc<Vec<Rc<CoreExpr>>>,
    names: &Rc<Vec<Option<ArgName>>>,
) -> Result<NextAction, OutOfMemory>
    ensures next { IfOk result (λ d. todo d m.new ≡ world.call_part (eval f.now.value) (arguments_of names.now.value.items) (parts_from 0 es.now) (site_now m.old) (state_of m.old) (machine_rest m.old)) }
    ensures left { m.new.left ≡ m.old.left }
    ensures work { IfOk result (λ d. doing_work d + stack_work m.new ≡ weight f.now.value + (weight_from 0 es.now + 3 + stack_work m.old)) }
{
    let operands = es.clone()?;
    let named = names.clone()?;
    let frame = Frame::Call(CallFrame::Callee(operands, named));
    descend(m, frame, f)
}

fn begin_and(
    m: &mut Machine,
    a: &Rc<CoreExpr>,
    es: &Rc<Vec<Rc<CoreExpr>>>,
) -> Result<NextAction, OutOfMemory>
    ensures next { IfOk result (λ d. todo d m.new ≡ world.and_part (eval a.now.value) (parts_from 0 es.now) (site_now m.old) (state_of m.old) (machine_rest m.old)) }
    ensures left { m.new.left ≡ m.old.left }
    ensures work { IfOk result (λ d. doing_work d + stack_work m.new ≡ weight a.now.value + (weight_from 0 es.now + 1 + stack_work m.old)) }
{
    let operands = es.clone()?;
    let frame = Frame::Chain(ChainFrame::And(operands, 0));
    descend(m, frame, a)
}

fn begin_or(
    m: &mut Machine,
    a: &Rc<CoreExpr>,
    es: &Rc<Vec<Rc<CoreExpr>>>,
) -> Result<NextAction, OutOfMemory>
    ensures next { IfOk result (λ d. todo d m.new ≡ world.or_part (eval a.now.value) (parts_from 0 es.now) (site_now m.old) (state_of m.old) (machine_rest m.old)) }
    ensures left { m.new.left ≡ m.old.left }
    ensures work { IfOk result (λ d. doing_work d + stack_work m.new ≡ weight a.now.value + (weight_from 0 es.now + 1 + stack_work m.old)) }
{
    let operands = es.clone()?;
    let frame = Frame::Chain(ChainFrame::Or(operands, 0));
    descend(m, frame, a)
}

fn begin_compare(
    m: &mut Machine,
    a: &Rc<CoreExpr>,
    ops: &Rc<Vec<CmpOp>>,
    es: &Rc<Vec<Rc<CoreExpr>>>,
) -> Result<NextAction, OutOfMemory>
    ensures next { IfOk result (λ d. todo d m.new ≡ world.compare_part (eval a.now.value) ops.now.value.items (parts_from 0 es.now) (site_now m.old) (state_of m.old) (machine_rest m.old)) }
    ensures left { m.new.left ≡ m.old.left }
    ensures work { IfOk result (λ d. doing_work d + stack_work m.new ≡ weight a.now.value + (weight_from 0 es.now + 2 + stack_work m.old)) }
{
    let operators = ops.clone()?;
    let operands = es.clone()?;
    let frame = Frame::Chain(ChainFrame::First(operators, operands));
    descend(m, frame, a)
}

/// Begins an expression that has no parts.
fn begin_leaf(m: &mut Machine, e: &CoreExpr) -> Result<NextAction, OutOfMemory>
    requires { group_of e.now.kind ≡ Group.Leaf }
    ensures next { IfOk result (λ d. with_note e.now.at e.now.kind (todo d m.new) ≡ eval e.now (site_now m.old) (state_of m.old) (machine_rest m.old)) }
    ensures left { m.new.left ≡ m.old.left }
    ensures work { IfOk result (λ d. doing_work d + stack_work m.new < weight e.now + stack_work m.old) }
{
    match &e.kind {
        CoreExprKind::Name(name) => name_value(m, name),
        CoreExprKind::Number(n) => Ok(NextAction::Back(End::Value(Value::Int(*n)))),
        CoreExprKind::Text(text) => text_made(m, text),
        CoreExprKind::True => Ok(NextAction::Back(End::Value(Value::Bool(true)))),
        CoreExprKind::False => Ok(NextAction::Back(End::Value(Value::Bool(false)))),
        CoreExprKind::None => Ok(NextAction::Back(End::Value(Value::None))),
        CoreExprKind::Temp(t) => Ok(NextAction::Back(End::Value(temp_value(m, *t)))),
        _ => unreachable!(),
    }
}

/// Begins an expression with one operator.
fn begin_operator(m: &mut Machine, e: &CoreExpr) -> Result<NextAction, OutOfMemory>
    requires { group_of e.now.kind ≡ Group.Operator }
    ensures next { IfOk result (λ d. with_note e.now.at e.now.kind (todo d m.new) ≡ eval e.now (site_now m.old) (state_of m.old) (machine_rest m.old)) }
    ensures left { m.new.left ≡ m.old.left }
    ensures work { IfOk result (λ d. doing_work d + stack_work m.new < weight e.now + stack_work m.old) }
{
    match &e.kind {
        CoreExprKind::Paren(a) => Ok(NextAction::Evaluate(a.clone()?)),
        CoreExprKind::Unary(op, a) => { descend(m, Frame::Operand(OperandFrame::Unary(*op)), a) }
        CoreExprKind::Binary(a, op, b) => {
            let frame = Frame::Operand(OperandFrame::Right(*op, b.clone()?));
            descend(m, frame, a)
        }
        CoreExprKind::Not(a) => descend(m, Frame::Operand(OperandFrame::Not), a),
        CoreExprKind::IfElse(a, condition, b) => {
            let frame = Frame::Operand(OperandFrame::Choice(a.clone()?, b.clone()?));
            descend(m, frame, condition)
        }
        CoreExprKind::SetTemp(t, a) => descend(m, Frame::Operand(OperandFrame::Keep(*t)), a),
        _ => unreachable!(),
    }
}

/// Begins an expression with a first part and a row of others.
fn begin_chain(m: &mut Machine, e: &CoreExpr) -> Result<NextAction, OutOfMemory>
    requires { group_of e.now.kind ≡ Group.Chain }
    ensures next { IfOk result (λ d. with_note e.now.at e.now.kind (todo d m.new) ≡ eval e.now (site_now m.old) (state_of m.old) (machine_rest m.old)) }
    ensures left { m.new.left ≡ m.old.left }
    ensures work { IfOk result (λ d. doing_work d + stack_work m.new < weight e.now + stack_work m.old) }
{
    match &e.kind {
        CoreExprKind::Call(f, es, names) => begin_call(m, f, es, names),
        CoreExprKind::Compare(a, ops, es) => begin_compare(m, a, ops, es),
        CoreExprKind::And(a, es) => begin_and(m, a, es),
        CoreExprKind::Or(a, es) => begin_or(m, a, es),
        _ => unreachable!(),
    }
}

/// Begins a display, or what is read of an object.
fn begin_container(m: &mut Machine, e: &CoreExpr) -> Result<NextAction, OutOfMemory>
    requires { group_of e.now.kind ≡ Group.Container }
    ensures next { IfOk result (λ d. with_note e.now.at e.now.kind (todo d m.new) ≡ eval e.now (site_now m.old) (state_of m.old) (machine_rest m.old)) }
    ensures left { m.new.left ≡ m.old.left }
    ensures work { IfOk result (λ d. doing_work d + stack_work m.new < weight e.now + stack_work m.old) }
{
    match &e.kind {
        CoreExprKind::Tuple(es) => begin_display(m, Display::Tuple, es),
        CoreExprKind::List(es) => begin_display(m, Display::List, es),
        CoreExprKind::Dict(ks, es) => begin_dict(m, ks, es),
        CoreExprKind::Attribute(a, name) => begin_attribute(m, a, name),
        CoreExprKind::Subscript(a, i) => begin_subscript(m, a, i),
        CoreExprKind::Slice(a, from, to, by) => begin_slice(m, a, from, to, by),
        _ => unreachable!(),
    }
}

/// Begins an expression.
fn begin(m: &mut Machine, e: &CoreExpr) -> Result<NextAction, OutOfMemory>
    ensures next { IfOk result (λ d. with_note e.now.at e.now.kind (todo d m.new) ≡ eval e.now (site_now m.old) (state_of m.old) (machine_rest m.old)) }
    ensures left { m.new.left ≡ m.old.left }
    ensures work { IfOk result (λ d. doing_work d + stack_work m.new < weight e.now + stack_work m.old) }
{
    match kind_group(&e.kind) {
        Group::Leaf => begin_leaf(m, e),
        Group::Operator => begin_operator(m, e),
        Group::Chain => begin_chain(m, e),
        Group::Container => begin_container(m, e),
    }
}

/// Begins the argument of a call behind those whose values are there.
fn argument(
    m: &mut Machine,
    callee: Value,
    names: Rc<Vec<Option<ArgName>>>,
    so_far: Vec<Value>,
    es: Rc<Vec<Rc<CoreExpr>>>,
) -> Result<NextAction, OutOfMemory>
    ensures next { IfOk result (λ d. todo d m.new ≡ world.call_on callee (arguments_of names.value.items) (parts_from (length so_far.items) es) so_far.items (site_now m.old) (state_of m.old) (machine_rest m.old)) }
    ensures left { m.new.left ≡ m.old.left }
    ensures work { IfOk result (λ d. doing_work d + stack_work m.new ≤ weight_from (length so_far.items) es + 1 + stack_work m.old) }
{
    match next_argument(&es, &so_far)? {
        Some(e) => {
            m.stack.push(Frame::Call(CallFrame::Argument(callee, names, so_far, es)))?;
            Ok(NextAction::Evaluate(e))
        }
        None => Ok(NextAction::Apply(callee, shape(m.alloc, &names, so_far)?)),
    }
}

/// Goes on with the arguments of a call behind those whose values are there.
pub fn arguments(
    m: &mut Machine,
    callee: Value,
    names: Rc<Vec<Option<ArgName>>>,
    so_far: Vec<Value>,
    es: Rc<Vec<Rc<CoreExpr>>>,
) -> Result<NextAction, OutOfMemory>
    ensures next { IfOk result (λ d. ends m.new.left (todo d m.new) ≡ ends m.old.left (world.call_on callee (arguments_of names.value.items) (parts_from (length so_far.items) es) so_far.items (site_now m.old) (state_of m.old) (machine_rest m.old))) }
    ensures left { m.new.left ≤ m.old.left }
    ensures work { IfOk result (λ d. doing_work d + stack_work m.new ≤ weight_from (length so_far.items) es + 1 + stack_work m.old) }
{
    let mut so_far = so_far;
    'each: while so_far.len() < es.len() {
        let e = &es[so_far.len()];
        match at_once(m, e)? {
            Some(there) => {
                m.left = there.left;
                so_far.push(there.value)?;
            }
            None => return argument(m, callee, names, so_far, es),
        }
    }
    Ok(NextAction::Apply(callee, shape(m.alloc, &names, so_far)?))
}

/// Begins a call, with its callee and its first arguments where they are there at once.
fn call(
    m: &mut Machine,
    f: &Rc<CoreExpr>,
    es: &Rc<Vec<Rc<CoreExpr>>>,
    names: &Rc<Vec<Option<ArgName>>>,
) -> Result<NextAction, OutOfMemory>
    ensures next { IfOk result (λ d. ends m.new.left (todo d m.new) ≡ ends m.old.left (world.call_part (eval f.now.value) (arguments_of names.now.value.items) (parts_from 0 es.now) (site_now m.old) (state_of m.old) (machine_rest m.old))) }
    ensures left { m.new.left ≤ m.old.left }
    ensures work { IfOk result (λ d. doing_work d + stack_work m.new ≤ weight f.now.value + (weight_from 0 es.now + 3 + stack_work m.old)) }
{
    match at_once(m, f)? {
        Some(there) => {
            m.left = there.left;
            let none = Vec::new(m.alloc);
            let named = names.clone()?;
            arguments(m, there.value, named, none, es.clone()?)
        }
        None => begin_call(m, f, es, names),
    }
}

/// Begins a part of an expression: a call at once, another one in a turn of its own.
fn begin_part(m: &mut Machine, e: &Rc<CoreExpr>) -> Result<NextAction, OutOfMemory>
    ensures next { IfOk result (λ d. ends m.new.left (todo d m.new) ≡ ends m.old.left (eval e.now.value (site_now m.old) (state_of m.old) (machine_rest m.old))) }
    ensures left { m.new.left ≤ m.old.left }
    ensures work { IfOk result (λ d. doing_work d + stack_work m.new ≤ weight e.now.value + stack_work m.old) }
{
    if let CoreExprKind::Call(f, es, names) = &e.kind {
        return call(m, f, es, names);
    }
    Ok(NextAction::Evaluate(e.clone()?))
}

/// Goes on with the right operand of an operator, whose left one is there.
pub fn begin_right(
    m: &mut Machine,
    x: Value,
    op: BinOp,
    b: &Rc<CoreExpr>,
) -> Result<NextAction, OutOfMemory>
    ensures next { IfOk result (λ d. ends m.new.left (todo d m.new) ≡ ends m.old.left (world.right_operand x op (eval b.now.value) (site_now m.old) (state_of m.old) (machine_rest m.old))) }
    ensures left { m.new.left ≤ m.old.left }
    ensures work { IfOk result (λ d. doing_work d + stack_work m.new ≤ weight b.now.value + (1 + stack_work m.old)) }
{
    m.stack.push(Frame::Operand(OperandFrame::Binary(x, op)))?;
    begin_part(m, b)
}

/// Begins an operator between two operands, with the left one where that is there at once.
fn begin_binary(
    m: &mut Machine,
    a: &Rc<CoreExpr>,
    op: BinOp,
    b: &Rc<CoreExpr>,
) -> Result<NextAction, OutOfMemory>
    ensures next { IfOk result (λ d. ends m.new.left (todo d m.new) ≡ ends m.old.left (world.binary_part (eval a.now.value) op (eval b.now.value) (site_now m.old) (state_of m.old) (machine_rest m.old))) }
    ensures left { m.new.left ≤ m.old.left }
    ensures work { IfOk result (λ d. doing_work d + stack_work m.new ≤ weight a.now.value + (weight b.now.value + 2 + stack_work m.old)) }
{
    match at_once_unless_call(m, a)? {
        Some(there) => {
            m.left = there.left;
            begin_right(m, there.value, op, b)
        }
        None => {
            let right = b.clone()?;
            m.stack
                .push(Frame::Operand(OperandFrame::Right(op, right)))?;
            begin_part(m, a)
        }
    }
}

/// Begins an expression that isn't there at once.
fn begin_parts(m: &mut Machine, e: &CoreExpr) -> Result<NextAction, OutOfMemory>
    ensures next { IfOk result (λ d. ends m.new.left (todo d m.new) ≡ ends m.old.left (eval e.now (site_now m.old) (state_of m.old) (machine_rest m.old))) }
    ensures left { m.new.left ≤ m.old.left }
    ensures work { IfOk result (λ d. doing_work d + stack_work m.new < weight e.now + stack_work m.old) }
{
    if let CoreExprKind::Call(f, es, names) = &e.kind {
        return call(m, f, es, names);
    }
    if let CoreExprKind::Binary(a, op, b) = &e.kind {
        return begin_binary(m, a, *op, b);
    }
    begin(m, e)
}

/// Puts a frame on the stack, and begins an expression that isn't there at once.
pub fn descend_into(
    m: &mut Machine,
    frame: Frame,
    e: &Rc<CoreExpr>,
) -> Result<NextAction, OutOfMemory>
    ensures next { IfOk result (λ d. ends m.new.left (todo d m.new)
        ≡ ends m.old.left (eval e.now.value (site_of m.old.here (outer_of (frame ∷ m.old.stack.own)) (handled_exception (frame ∷ m.old.stack.own))) (state_of m.old) (after_stack (frame ∷ m.old.stack.own) m.old.here))) }
    ensures left { m.new.left ≤ m.old.left }
    ensures work { IfOk result (λ d. doing_work d + stack_work m.new < weight e.now.value + (frame_work frame + stack_work m.old)) }
{
    m.stack.push(frame)?;
    begin_parts(m, e)
}

/// Evaluates an expression: its value, where that is there at once, or else its first part that isn't.
pub fn evaluate(m: &mut Machine, e: &CoreExpr) -> Result<NextAction, OutOfMemory>
    ensures next { IfOk result (λ d. ends m.new.left (todo d m.new) ≡ ends m.old.left (eval e.now (site_now m.old) (state_of m.old) (machine_rest m.old))) }
    ensures left { m.new.left ≤ m.old.left }
    ensures work { IfOk result (λ d. doing_work d + stack_work m.new < weight e.now + stack_work m.old) }
{
    match at_once(m, e)? {
        Some(there) => {
            m.left = there.left;
            Ok(NextAction::Back(End::Value(there.value)))
        }
        None => begin_parts(m, e),
    }
}
