// The turns behind parts of simple statements.

ghost use Rattle.std.specs.Prelude.{◌≡◌, ◌+◌, ◌<◌, ◌∷◌, IfOk, drop};
ghost use Rattle.std.specs.List.{sum_by};
ghost use Rattle.run_tree.specs.Todo.{Freeze};
ghost use Rattle.assert_explain.specs.py_world.Outcome.{paused, Gave, Next};
ghost use Rattle.assert_explain.specs.py_world.Targets.{store_all};
ghost use Rattle.machine_unwind.specs.core_meaning.Requests.{Receives};
ghost use Rattle.machine_unwind.specs.core_meaning.Statements as meaning;
ghost use Rattle.machine_unwind.specs.machine_state.Places.{outcome, site_of};
ghost use Rattle.machine_unwind.specs.machine_state.Frames.{after_stack, handled_exception, here_simple, layers_of, on_simple, outer_of, machine_rest, site_now, state_of, todo, Follows};
ghost use Rattle.machine_unwind.specs.machine_state.Work.{doing_work, simple_work, stack_work, taker_work, use_work, Falls};

use crate::failure::{explain, fail};
use machine_store::operate::augment;
use machine_store::spot::store_spot;
use machine_store::store_target;
use machine_unwind::raise::{raise_it, raise_value};
use machine_unwind::{End, Frame, Machine, NextAction, SimpleFrame, TurnEnd};
use py_core::{CoreTarget, CoreUse};
use py_values::value::Value;
use seq::OutOfMemory;
use std::rc::Rc;

/// Stores a value in the targets from a place on, from left to right.
#[tactic(auto, using(crate::proofs::Targets::stores_last, crate::proofs::Targets::stores_none, crate::proofs::Targets::takers_weigh))]
pub fn store_next(
    m: &mut Machine,
    ts: Rc<Vec<CoreTarget>>,
    at: usize,
    v: Value,
) -> Result<NextAction, OutOfMemory>
    ensures next { IfOk result (λ d. todo d m.new ≡ store_all (meaning.stores (drop at ts.value.items)) v (site_now m.old) (state_of m.old) (machine_rest m.old)) }
    ensures left { m.new.left ≡ m.old.left }
    ensures work { IfOk result (λ d. doing_work d + stack_work m.new < sum_by taker_work (drop at ts.value.items) + 1 + stack_work m.old) }
{
    if at >= ts.len() {
        return Ok(NextAction::Back(End::Next));
    }
    if at + 1 >= ts.len() {
        return store_target(m, &ts[at], v);
    }
    let again = ts.clone()?;
    let frame = SimpleFrame::Targets(again, at + 1, v);
    m.stack.push(Frame::Simple(frame))?;
    store_target(m, &ts[at], v)
}

/// Stops the body with a value.
pub fn stop(m: &mut Machine, given: Rc<CoreUse>, v: Value) -> Result<NextAction, OutOfMemory>
    ensures next { IfOk result (λ d. todo d m.new ≡ Freeze (paused v (Receives given.value ∷ layers_of m.old.stack.own) (site_now m.old) (state_of m.old))) }
    ensures left { m.new.left ≡ m.old.left }
    ensures work { IfOk result (λ d. doing_work d + stack_work m.new ≡ use_work given.value + stack_work m.old) }
{
    let frame = SimpleFrame::Receive(given, m.here.line);
    m.stack.push(Frame::Simple(frame))?;
    Ok(NextAction::Freeze(v))
}

/// Goes on at a `yield` with what it is given.
pub fn receive(m: &mut Machine, given: &CoreUse, v: Value) -> Result<NextAction, OutOfMemory>
    ensures next { IfOk result (λ d. todo d m.new ≡ meaning.use_of given.now v (site_now m.old) (state_of m.old) (machine_rest m.old)) }
    ensures left { m.new.left ≡ m.old.left }
    ensures work { IfOk result (λ d. doing_work d + stack_work m.new < use_work given.now + stack_work m.old) }
{
    match given {
        CoreUse::NoUse => Ok(NextAction::Back(End::Next)),
        CoreUse::Targets(_, ts) => {
            let targets = ts.clone()?;
            store_next(m, targets, 0, v)
        }
        CoreUse::Return => Ok(NextAction::Back(End::Returned(v))),
    }
}

/// Goes on with a value.
fn take_value(m: &mut Machine, frame: SimpleFrame, v: Value) -> Result<TurnEnd, OutOfMemory>
    ensures next { IfOk result (λ t. Follows t m.new m.old.left (on_simple frame (layers_of m.old.stack.own) (site_now m.old) (Gave v (state_of m.old)) (machine_rest m.old))) }
    ensures work { IfOk result (λ t. Falls t m.new m.old.left (simple_work frame + stack_work m.old)) }
{
    match frame {
        SimpleFrame::Forget => Ok(TurnEnd::Go(NextAction::Back(End::Next))),
        SimpleFrame::Assign(ts) => Ok(TurnEnd::Go(store_next(m, ts, 0, v)?)),
        SimpleFrame::Targets(_, _, _) => Ok(TurnEnd::Go(NextAction::Back(End::Value(v)))),
        SimpleFrame::Augment(x, op, place) => {
            m.stack.push(Frame::Simple(SimpleFrame::Store(place)))?;
            augment(m, op, x, v)
        }
        SimpleFrame::Store(place) => store_spot(m, place, v),
        SimpleFrame::Raise => raise_value(m, v),
        SimpleFrame::Throw => Ok(TurnEnd::Go(raise_it(m, v)?)),
        SimpleFrame::Return => Ok(TurnEnd::Go(NextAction::Back(End::Returned(v)))),
        SimpleFrame::Fail => Ok(TurnEnd::Go(fail(m, Some(v))?)),
        SimpleFrame::Explain(shown) => Ok(TurnEnd::Go(explain(m, &shown, Some(v))?)),
        SimpleFrame::Yield(given) => Ok(TurnEnd::Go(stop(m, given, v)?)),
        SimpleFrame::Receive(given, _) => Ok(TurnEnd::Go(receive(m, &given, v)?)),
    }
}

/// Goes on behind a statement that is over.
fn take_next(m: &mut Machine, frame: SimpleFrame) -> Result<TurnEnd, OutOfMemory>
    ensures next { IfOk result (λ t. Follows t m.new m.old.left (on_simple frame (layers_of m.old.stack.own) (site_now m.old) (Next (state_of m.old)) (machine_rest m.old))) }
    ensures work { IfOk result (λ t. Falls t m.new m.old.left (simple_work frame + stack_work m.old)) }
{
    match frame {
        SimpleFrame::Targets(ts, at, v) => Ok(TurnEnd::Go(store_next(m, ts, at, v)?)),
        _ => Ok(TurnEnd::Go(NextAction::Back(End::Next))),
    }
}

/// Goes on behind a part of a simple statement, on its line.
#[tactic(auto, using(crate::proofs::Passing::simple_returned, crate::proofs::Passing::simple_broke, crate::proofs::Passing::simple_continued, crate::proofs::Passing::simple_raised))]
fn take_part(m: &mut Machine, frame: SimpleFrame, end: End) -> Result<TurnEnd, OutOfMemory>
    ensures next { IfOk result (λ t. Follows t m.new m.old.left (on_simple frame (layers_of m.old.stack.own) (site_now m.old) (outcome end (state_of m.old)) (machine_rest m.old))) }
    ensures work { IfOk result (λ t. Falls t m.new m.old.left (simple_work frame + stack_work m.old)) }
{
    match end {
        End::Value(v) => take_value(m, frame, v),
        End::Next => take_next(m, frame),
        End::Returned(v) => Ok(TurnEnd::Go(NextAction::Back(End::Returned(v)))),
        End::Broke => Ok(TurnEnd::Go(NextAction::Back(End::Broke))),
        End::Continued => Ok(TurnEnd::Go(NextAction::Back(End::Continued))),
        End::Raised(e, trace) => Ok(TurnEnd::Go(NextAction::Back(End::Raised(e, trace)))),
    }
}

/// Leaves a frame for what stands below it.
fn leave(m: &mut Machine, frame: &SimpleFrame)
    ensures { m.new ≡ record m.old { here = here_simple frame.now m.old.here } }
{
    match frame {
        SimpleFrame::Receive(_, line) => m.here.line = *line,
        SimpleFrame::Forget => {}
        SimpleFrame::Assign(_) => {}
        SimpleFrame::Targets(_, _, _) => {}
        SimpleFrame::Augment(_, _, _) => {}
        SimpleFrame::Store(_) => {}
        SimpleFrame::Raise => {}
        SimpleFrame::Throw => {}
        SimpleFrame::Return => {}
        SimpleFrame::Fail => {}
        SimpleFrame::Explain(_) => {}
        SimpleFrame::Yield(_) => {}
    }
}

/// Goes on behind a part of a simple statement.
pub fn take_simple(m: &mut Machine, frame: SimpleFrame, end: End) -> Result<TurnEnd, OutOfMemory>
    ensures next { IfOk result (λ t. Follows t m.new m.old.left
        (on_simple frame (layers_of m.old.stack.own) (site_of (here_simple frame m.old.here) (outer_of m.old.stack.own) (handled_exception m.old.stack.own)) (outcome end (state_of m.old)) (after_stack m.old.stack.own (here_simple frame m.old.here)))) }
    ensures work { IfOk result (λ t. Falls t m.new m.old.left (simple_work frame + stack_work m.old)) }
{
    leave(m, &frame);
    take_part(m, frame, end)
}
