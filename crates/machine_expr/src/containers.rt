// Displays, attributes, subscripts and slices begin.

ghost use Rattle.std.specs.Prelude.{◌≡◌, ◌+◌, ◌≤◌, IfOk};
ghost use Rattle.machine_state.specs.py_world.Attributes.{attribute_part};
ghost use Rattle.machine_state.specs.py_world.Displays as world;
ghost use Rattle.machine_state.specs.core_meaning.Expressions.{eval};
ghost use Rattle.machine_state.specs.core_meaning.Statements.{some_part};
ghost use Rattle.machine_state.specs.Places.{parts_from};
ghost use Rattle.machine_state.specs.Frames.{display_of, machine_rest, site_now, state_of, todo};
ghost use Rattle.machine_state.specs.Work.{doing_work, some_weight, stack_work, weight, weight_from};
ghost use Rattle.machine_expr.specs.Pairs.{IsNextPair, pairs_weight};

use machine_immediate::part::part_at;
use machine_items::displays::{list_displayed, tuple_displayed};
use machine_state::frame::{Display, Frame, ItemFrame};
use machine_state::machine::{Machine, NextAction, Origin};
use machine_turns::begin::descend;
use py_core::{CoreExpr, SrcText};
use py_values::dict::Dict;
use py_values::end::Effect;
use py_values::object::Obj;
use py_values::value::Value;
use seq::OutOfMemory;
use std::alloc::Global;
use std::rc::Rc;

/// What a display of values in a row makes.
pub fn displayed(alloc: Global, display: Display, values: Vec<Value>) -> Result<Effect, OutOfMemory>
    ensures { IfOk result (λ made. made ≡ world.displayed (display_of display) values.items) }
{
    match display {
        Display::List => list_displayed(alloc, values),
        Display::Tuple => tuple_displayed(alloc, values),
    }
}

/// Begins a display of elements in a row.
pub fn begin_display(
    m: &mut Machine,
    display: Display,
    es: &Rc<Vec<Rc<CoreExpr>>>,
) -> Result<NextAction, OutOfMemory>
    ensures next { IfOk result (λ d. todo d m.new ≡ world.collected (λ heap vs. world.displayed (display_of display) vs) (parts_from 0 es.now) (site_now m.old) (state_of m.old) (machine_rest m.old)) }
    ensures left { m.new.left ≡ m.old.left }
    ensures work { IfOk result (λ d. doing_work d + stack_work m.new ≤ weight_from 0 es.now + stack_work m.old) }
{
    let none = Vec::new(m.alloc);
    match part_at(es, 0)? {
        Some(e) => {
            let frame = ItemFrame::Collect(display, es.clone()?, none);
            m.stack.push(Frame::Item(frame))?;
            Ok(NextAction::Evaluate(e))
        }
        None => {
            let made = displayed(m.alloc, display, none)?;
            m.make(made, Origin::Code)
        }
    }
}

/// The key or value at a place among the keys of a dict's display, each with its value behind it.
#[tactic(auto, using(crate::proofs::Pairs::next_key, crate::proofs::Pairs::next_value, crate::proofs::Pairs::no_key, crate::proofs::Pairs::no_value))]
pub fn pair_part(
    ks: &Rc<Vec<Rc<CoreExpr>>>,
    es: &Rc<Vec<Rc<CoreExpr>>>,
    at: usize,
) -> Result<Option<Rc<CoreExpr>>, OutOfMemory>
    ensures { IfOk result (λ e. IsNextPair e at ks.now es.now) }
{
    let pair = at / 2;
    if pair >= ks.len() || pair >= es.len() {
        return Ok(None);
    }
    if at % 2 == 0 {
        return Ok(Some(ks[pair].clone()?));
    }
    Ok(Some(es[pair].clone()?))
}

/// Begins a dict's display.
pub fn begin_dict(
    m: &mut Machine,
    ks: &Rc<Vec<Rc<CoreExpr>>>,
    es: &Rc<Vec<Rc<CoreExpr>>>,
) -> Result<NextAction, OutOfMemory>
    ensures next { IfOk result (λ d. todo d m.new ≡ world.dict_part (parts_from 0 ks.now) (parts_from 0 es.now) (site_now m.old) (state_of m.old) (machine_rest m.old)) }
    ensures left { m.new.left ≡ m.old.left }
    ensures work { IfOk result (λ d. doing_work d + stack_work m.new ≤ pairs_weight 0 ks.now es.now + stack_work m.old) }
{
    match pair_part(ks, es, 0)? {
        Some(e) => {
            let none = Vec::new(m.alloc);
            let frame = ItemFrame::Pairs(ks.clone()?, es.clone()?, none);
            m.stack.push(Frame::Item(frame))?;
            Ok(NextAction::Evaluate(e))
        }
        None => {
            let made = Effect::New(Obj::Dict(Dict::new(m.alloc)), 0);
            m.make(made, Origin::Code)
        }
    }
}

/// Begins an attribute reference.
pub fn begin_attribute(
    m: &mut Machine,
    a: &Rc<CoreExpr>,
    name: &SrcText,
) -> Result<NextAction, OutOfMemory>
    ensures next { IfOk result (λ d. todo d m.new ≡ attribute_part (eval a.now.value) name.now (site_now m.old) (state_of m.old) (machine_rest m.old)) }
    ensures left { m.new.left ≡ m.old.left }
    ensures work { IfOk result (λ d. doing_work d + stack_work m.new ≡ weight a.now.value + (1 + stack_work m.old)) }
{
    let frame = Frame::Item(ItemFrame::Attribute(name.clone()?));
    descend(m, frame, a)
}

/// Begins a subscription.
pub fn begin_subscript(
    m: &mut Machine,
    a: &Rc<CoreExpr>,
    i: &Rc<CoreExpr>,
) -> Result<NextAction, OutOfMemory>
    ensures next { IfOk result (λ d. todo d m.new ≡ world.subscript_part (eval a.now.value) (eval i.now.value) (site_now m.old) (state_of m.old) (machine_rest m.old)) }
    ensures left { m.new.left ≡ m.old.left }
    ensures work { IfOk result (λ d. doing_work d + stack_work m.new ≡ weight a.now.value + (weight i.now.value + 2 + stack_work m.old)) }
{
    let index = i.clone()?;
    let frame = Frame::Item(ItemFrame::Subscripted(index));
    descend(m, frame, a)
}

/// A bound of a slice, where it is given.
fn bound(e: &Option<Rc<CoreExpr>>) -> Result<Option<Rc<CoreExpr>>, OutOfMemory>
    ensures { IfOk result (λ r. (some_part r ≡ some_part e.now) × (some_weight r ≡ some_weight e.now)) }
{
    match e {
        Some(e) => Ok(Some(e.clone()?)),
        None => Ok(None),
    }
}

/// Begins a slicing.
pub fn begin_slice(
    m: &mut Machine,
    a: &Rc<CoreExpr>,
    from: &Option<Rc<CoreExpr>>,
    to: &Option<Rc<CoreExpr>>,
    by: &Option<Rc<CoreExpr>>,
) -> Result<NextAction, OutOfMemory>
    ensures next { IfOk result (λ d. todo d m.new ≡ world.slice_part (eval a.now.value) (some_part from.now) (some_part to.now) (some_part by.now) (site_now m.old) (state_of m.old) (machine_rest m.old)) }
    ensures left { m.new.left ≡ m.old.left }
    ensures work { IfOk result (λ d. doing_work d + stack_work m.new ≡ weight a.now.value + (some_weight from.now + some_weight to.now + some_weight by.now + 4 + stack_work m.old)) }
{
    let start = bound(from)?;
    let stop = bound(to)?;
    let step = bound(by)?;
    let frame = Frame::Item(ItemFrame::Sliced(start, stop, step));
    descend(m, frame, a)
}
