// The values of parts of displays, attributes, subscripts and slices.

ghost use Rattle.std.specs.Prelude.{◌≡◌, ◌+◌, IfOk, length};
ghost use Rattle.py_values.specs.Ends.{payable};
ghost use Rattle.machine_state.specs.py_world.Attributes.{attribute_end};
ghost use Rattle.machine_state.specs.py_world.Displays as world;
ghost use Rattle.machine_state.specs.py_world.Expressions as forms;
ghost use Rattle.machine_state.specs.py_world.Outcome.{costing};
ghost use Rattle.machine_state.specs.py_world.Site.{trace_of};
ghost use Rattle.machine_state.specs.py_world.World.{heap_of};
ghost use Rattle.machine_state.specs.core_meaning.Statements.{some_part};
ghost use Rattle.machine_state.specs.Places.{parts_from};
ghost use Rattle.machine_state.specs.Frames.{display_of, on_item, machine_rest, site_now, state_of, todo, Follows};
ghost use Rattle.machine_state.specs.Work.{doing_work, item_work, some_weight, stack_work, weight_from, Falls};
ghost use Rattle.machine_expr.specs.Pairs.{IsNextPair, pairs_from, pairs_weight};

use crate::operate::settle;
use machine_expr::containers::{displayed, pair_part};
use machine_immediate::part::next_argument;
use machine_items::attribute_made;
use machine_items::displays::{bound_given, dict_displayed};
use machine_state::frame::{Display, Frame, ItemFrame};
use machine_state::machine::{Machine, NextAction, Origin, TurnEnd};
use machine_turns::subscript::subscript;
use py_core::{CoreExpr, SrcText};
use py_values::end::{Effect, made_within};
use py_values::index::Index;
use py_values::value::Value;
use seq::OutOfMemory;
use std::alloc::Global;
use std::rc::Rc;

/// What a display makes, under a budget.
fn displayed_within(
    alloc: Global,
    display: Display,
    values: Vec<Value>,
    budget: u64,
) -> Result<Option<Effect>, OutOfMemory>
    ensures { IfOk result (λ m. m ≡ payable budget (world.displayed (display_of display) values.items)) }
{
    let made = displayed(alloc, display, values)?;
    Ok(made_within(made, budget))
}

/// Goes on with a display behind the elements whose values are there.
fn element(
    m: &mut Machine,
    display: Display,
    es: Rc<Vec<Rc<CoreExpr>>>,
    so_far: Vec<Value>,
) -> Result<TurnEnd, OutOfMemory>
    ensures next { IfOk result (λ t. Follows t m.new m.old.left (forms.arguments (parts_from (length so_far.items) es) so_far.items (site_now m.old) (state_of m.old) (machine_rest m.old)
        (λ vs s. costing (world.displayed (display_of display) vs) (trace_of (site_now m.old)) s (machine_rest m.old)))) }
    ensures work { IfOk result (λ t. Falls t m.new m.old.left (weight_from (length so_far.items) es + 1 + stack_work m.old)) }
{
    match next_argument(&es, &so_far)? {
        Some(e) => {
            let frame = ItemFrame::Collect(display, es, so_far);
            m.stack.push(Frame::Item(frame))?;
            Ok(TurnEnd::Go(NextAction::Evaluate(e)))
        }
        None => {
            let made = displayed_within(m.alloc, display, so_far, m.left)?;
            settle(m, made)
        }
    }
}

/// The key or value behind those whose values are there.
fn next_in_pairs(
    ks: &Rc<Vec<Rc<CoreExpr>>>,
    es: &Rc<Vec<Rc<CoreExpr>>>,
    so_far: &Vec<Value>,
) -> Result<Option<Rc<CoreExpr>>, OutOfMemory>
    ensures { IfOk result (λ e. IsNextPair e (length so_far.now.items) ks.now es.now) }
{
    pair_part(ks, es, so_far.len())
}

/// Goes on with a dict's display behind the keys and values that are there.
fn pair(
    m: &mut Machine,
    ks: Rc<Vec<Rc<CoreExpr>>>,
    es: Rc<Vec<Rc<CoreExpr>>>,
    so_far: Vec<Value>,
) -> Result<TurnEnd, OutOfMemory>
    ensures next { IfOk result (λ t. Follows t m.new m.old.left (forms.arguments (pairs_from (length so_far.items) ks es) so_far.items (site_now m.old) (state_of m.old) (machine_rest m.old)
        (λ vs s. costing (world.dict_displayed (heap_of s) vs) (trace_of (site_now m.old)) s (machine_rest m.old)))) }
    ensures work { IfOk result (λ t. Falls t m.new m.old.left (pairs_weight (length so_far.items) ks es + 1 + stack_work m.old)) }
{
    match next_in_pairs(&ks, &es, &so_far)? {
        Some(e) => {
            let frame = ItemFrame::Pairs(ks, es, so_far);
            m.stack.push(Frame::Item(frame))?;
            Ok(TurnEnd::Go(NextAction::Evaluate(e)))
        }
        None => {
            let made = dict_displayed(m.alloc, &m.heap, &so_far, m.left)?;
            settle(m, made)
        }
    }
}

/// Reads an attribute of a value.
fn attribute(m: &mut Machine, x: Value, name: &SrcText) -> Result<NextAction, OutOfMemory>
    ensures next { IfOk result (λ d. todo d m.new ≡ machine_rest m.old (attribute_end x name.now (site_now m.old) (state_of m.old))) }
    ensures left { m.new.left ≡ m.old.left }
    ensures work { IfOk result (λ d. doing_work d ≡ 0) }
    ensures stack { m.new.stack ≡ m.old.stack }
{
    let made = attribute_made(m.alloc, &m.heap, x, name.chars())?;
    m.make(made, Origin::Code)
}

/// Goes on with a slice whose first two bounds are there.
fn slice_by(
    m: &mut Machine,
    x: Value,
    a: Option<Value>,
    b: Option<Value>,
    by: Option<Rc<CoreExpr>>,
) -> Result<TurnEnd, OutOfMemory>
    ensures next { IfOk result (λ t. Follows t m.new m.old.left (world.slice_by x a b (some_part by) (site_now m.old) (state_of m.old) (machine_rest m.old))) }
    ensures work { IfOk result (λ t. Falls t m.new m.old.left (some_weight by + 2 + stack_work m.old)) }
{
    match by {
        Some(e) => {
            m.stack.push(Frame::Item(ItemFrame::By(x, a, b)))?;
            Ok(TurnEnd::Go(NextAction::Evaluate(e)))
        }
        None => subscript(m, x, &Index::Slice(a, b, None)),
    }
}

/// Goes on with a slice whose first bound is there.
fn slice_to(
    m: &mut Machine,
    x: Value,
    a: Option<Value>,
    to: Option<Rc<CoreExpr>>,
    by: Option<Rc<CoreExpr>>,
) -> Result<TurnEnd, OutOfMemory>
    ensures next { IfOk result (λ t. Follows t m.new m.old.left (world.slice_to x a (some_part to) (some_part by) (site_now m.old) (state_of m.old) (machine_rest m.old))) }
    ensures work { IfOk result (λ t. Falls t m.new m.old.left (some_weight to + some_weight by + 3 + stack_work m.old)) }
{
    match to {
        Some(e) => {
            m.stack.push(Frame::Item(ItemFrame::To(x, a, by)))?;
            Ok(TurnEnd::Go(NextAction::Evaluate(e)))
        }
        None => slice_by(m, x, a, None, by),
    }
}

/// Goes on with a slice of a value.
fn slice_from(
    m: &mut Machine,
    x: Value,
    from: Option<Rc<CoreExpr>>,
    to: Option<Rc<CoreExpr>>,
    by: Option<Rc<CoreExpr>>,
) -> Result<TurnEnd, OutOfMemory>
    ensures next { IfOk result (λ t. Follows t m.new m.old.left (world.slice_on x (some_part from) (some_part to) (some_part by) (site_now m.old) (state_of m.old) (machine_rest m.old))) }
    ensures work { IfOk result (λ t. Falls t m.new m.old.left (some_weight from + some_weight to + some_weight by + 4 + stack_work m.old)) }
{
    match from {
        Some(e) => {
            m.stack.push(Frame::Item(ItemFrame::From(x, to, by)))?;
            Ok(TurnEnd::Go(NextAction::Evaluate(e)))
        }
        None => slice_to(m, x, None, to, by),
    }
}

/// Goes on with the value of a part of a display, an attribute, a subscript or a slice.
pub fn take_item(m: &mut Machine, frame: ItemFrame, v: Value) -> Result<TurnEnd, OutOfMemory>
    ensures next { IfOk result (λ t. Follows t m.new m.old.left (on_item frame (site_now m.old) v (state_of m.old) (machine_rest m.old))) }
    ensures work { IfOk result (λ t. Falls t m.new m.old.left (item_work frame + stack_work m.old)) }
{
    match frame {
        ItemFrame::Collect(display, es, so_far) => {
            let mut so_far = so_far;
            so_far.push(v)?;
            element(m, display, es, so_far)
        }
        ItemFrame::Pairs(ks, es, so_far) => {
            let mut so_far = so_far;
            so_far.push(v)?;
            pair(m, ks, es, so_far)
        }
        ItemFrame::Attribute(name) => Ok(TurnEnd::Go(attribute(m, v, &name)?)),
        ItemFrame::Subscripted(i) => {
            m.stack.push(Frame::Item(ItemFrame::Subscript(v)))?;
            Ok(TurnEnd::Go(NextAction::Evaluate(i)))
        }
        ItemFrame::Subscript(x) => subscript(m, x, &Index::At(v)),
        ItemFrame::Sliced(from, to, by) => slice_from(m, v, from, to, by),
        ItemFrame::From(x, to, by) => slice_to(m, x, bound_given(v), to, by),
        ItemFrame::To(x, a, by) => slice_by(m, x, a, bound_given(v), by),
        ItemFrame::By(x, a, b) => subscript(m, x, &Index::Slice(a, b, bound_given(v))),
    }
}
