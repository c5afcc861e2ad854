// Values go to targets.

ghost use Rattle.std.specs.Prelude.{◌≡◌, ◌+◌, ◌<◌, IfOk, drop};
ghost use Rattle.machine_turns.specs.py_world.Targets as world;
ghost use Rattle.machine_turns.specs.core_meaning.Statements as meaning;
ghost use Rattle.machine_turns.specs.machine_state.Frames.{machine_rest, site_now, state_of, todo};
ghost use Rattle.machine_turns.specs.machine_state.Work.{doing_work, single_work, singles_work, stack_work, taker_work};

use crate::elements::{elements, wrong_count};
use machine_turns::begin::descend;
use machine_turns::names::store;
use machine_turns::{End, Frame, Machine, NextAction, Origin, TargetFrame};
use py_core::{CoreExpr, CoreSingle, CoreSingleKind, CoreTarget, SrcText};
use py_kinds::length::length_of;
use py_operands::faults::not_iterable;
use py_values::value::Value;
use seq::OutOfMemory;
use std::rc::Rc;

/// Begins the store of an attribute: its object comes first.
fn store_attribute(
    m: &mut Machine,
    e: &Rc<CoreExpr>,
    name: &SrcText,
    v: Value,
) -> Result<NextAction, OutOfMemory>
    ensures next { IfOk result (λ d. todo d m.new ≡ world.store_attribute (eval e.now.value) name.now v (site_now m.old) (state_of m.old) (machine_rest m.old)) }
    ensures left { m.new.left ≡ m.old.left }
    ensures work { IfOk result (λ d. doing_work d + stack_work m.new ≡ weight e.now.value + (1 + stack_work m.old)) }
{
    let frame = TargetFrame::Attribute(name.clone()?, v);
    descend(m, Frame::Target(frame), e)
}

/// Begins the store of an item: its object comes first, then its index or key.
fn store_item(
    m: &mut Machine,
    e: &Rc<CoreExpr>,
    i: &Rc<CoreExpr>,
    v: Value,
) -> Result<NextAction, OutOfMemory>
    ensures next { IfOk result (λ d. todo d m.new ≡ world.store_item (eval e.now.value) (eval i.now.value) v (site_now m.old) (state_of m.old) (machine_rest m.old)) }
    ensures left { m.new.left ≡ m.old.left }
    ensures work { IfOk result (λ d. doing_work d + stack_work m.new ≡ weight e.now.value + (weight i.now.value + 2 + stack_work m.old)) }
{
    let frame = TargetFrame::Item(i.clone()?, v);
    descend(m, Frame::Target(frame), e)
}

ghost use Rattle.machine_turns.specs.core_meaning.Expressions.{eval};
ghost use Rattle.machine_turns.specs.machine_state.Work.{weight};

/// Stores a value in what takes one.
pub fn store_single(
    m: &mut Machine,
    single: &CoreSingle,
    v: Value,
) -> Result<NextAction, OutOfMemory>
    ensures next { IfOk result (λ d. todo d m.new ≡ meaning.store_at single.now.kind v (site_now m.old) (state_of m.old) (machine_rest m.old)) }
    ensures left { m.new.left ≡ m.old.left }
    ensures work { IfOk result (λ d. doing_work d + stack_work m.new < single_work single.now.kind + stack_work m.old) }
{
    match &single.kind {
        CoreSingleKind::Name(name) => store(m, name, v),
        CoreSingleKind::Attribute(e, name) => store_attribute(m, e, name, v),
        CoreSingleKind::Subscript(e, i) => store_item(m, e, i, v),
    }
}

/// Stores values in the targets from a place on, to each its own.
#[tactic(auto, using(crate::proofs::Places::each_none, crate::proofs::Places::each_short, crate::proofs::Places::each_weighs))]
pub fn store_each(
    m: &mut Machine,
    ss: Rc<Vec<CoreSingle>>,
    vs: Vec<Value>,
    at: usize,
) -> Result<NextAction, OutOfMemory>
    ensures next { IfOk result (λ d. todo d m.new ≡ world.store_each (drop at (meaning.store_singles ss.value.items)) (drop at vs.items) (site_now m.old) (state_of m.old) (machine_rest m.old)) }
    ensures left { m.new.left ≡ m.old.left }
    ensures work { IfOk result (λ d. doing_work d + stack_work m.new < singles_work (drop at ss.value.items) + 1 + stack_work m.old) }
{
    if at >= ss.len() {
        return Ok(NextAction::Back(End::Next));
    }
    if at >= vs.len() {
        return Ok(NextAction::Back(End::Next));
    }
    let v = vs[at];
    let again = ss.clone()?;
    let frame = TargetFrame::Each(again, vs, at + 1);
    m.stack.push(Frame::Target(frame))?;
    store_single(m, &ss[at], v)
}

/// Unpacks a value of as many elements as there are targets; all of them are taken before the first store.
fn unpack_all(
    m: &mut Machine,
    ss: &Rc<Vec<CoreSingle>>,
    v: Value,
    n: usize,
) -> Result<NextAction, OutOfMemory>
    ensures next { IfOk result (λ d. todo d m.new ≡ world.store_elements (meaning.store_singles ss.now.value.items) (world.elements_from n v 0 n m.old.heap) (site_now m.old) (state_of m.old) (machine_rest m.old)) }
    ensures left { m.new.left ≡ m.old.left }
    ensures work { IfOk result (λ d. doing_work d + stack_work m.new < singles_work ss.now.value.items + 1 + stack_work m.old) }
{
    let vs = elements(m.alloc, &mut m.heap, v, n)?;
    let again = ss.clone()?;
    store_each(m, again, vs, 0)
}

/// Unpacks a value that has so many elements; their count is looked at first.
#[tactic(auto, using(crate::proofs::Places::counted_wrong))]
fn unpack_counted(
    m: &mut Machine,
    ss: &Rc<Vec<CoreSingle>>,
    v: Value,
    n: usize,
) -> Result<NextAction, OutOfMemory>
    ensures next { IfOk result (λ d. todo d m.new ≡ world.unpack_by (Some n) (meaning.store_singles ss.now.value.items) v (site_now m.old) (state_of m.old) (machine_rest m.old)) }
    ensures left { m.new.left ≡ m.old.left }
    ensures work { IfOk result (λ d. doing_work d + stack_work m.new < singles_work ss.now.value.items + 1 + stack_work m.old) }
{
    if n == ss.len() {
        return unpack_all(m, ss, v, n);
    }
    let raise = wrong_count(m.alloc, ss.len(), n)?;
    m.raise(raise, Origin::Code)
}

/// Unpacks a value (Language Reference, assignment statements), which costs nothing.
pub fn unpack(
    m: &mut Machine,
    ss: &Rc<Vec<CoreSingle>>,
    v: Value,
) -> Result<NextAction, OutOfMemory>
    ensures next { IfOk result (λ d. todo d m.new ≡ world.unpack (meaning.store_singles ss.now.value.items) v (site_now m.old) (state_of m.old) (machine_rest m.old)) }
    ensures left { m.new.left ≡ m.old.left }
    ensures work { IfOk result (λ d. doing_work d + stack_work m.new < singles_work ss.now.value.items + 1 + stack_work m.old) }
{
    match length_of(&m.heap, v) {
        Some(n) => unpack_counted(m, ss, v, n),
        None => {
            let raise = not_iterable(m.alloc, &m.heap, v)?;
            m.raise(raise, Origin::Code)
        }
    }
}

/// Stores a value in a target.
pub fn store_target(
    m: &mut Machine,
    target: &CoreTarget,
    v: Value,
) -> Result<NextAction, OutOfMemory>
    ensures next { IfOk result (λ d. todo d m.new ≡ meaning.store target.now v (site_now m.old) (state_of m.old) (machine_rest m.old)) }
    ensures left { m.new.left ≡ m.old.left }
    ensures work { IfOk result (λ d. doing_work d + stack_work m.new < taker_work target.now + stack_work m.old) }
{
    match target {
        CoreTarget::Single(single) => store_single(m, single, v),
        CoreTarget::Unpack(ss) => unpack(m, ss, v),
    }
}
