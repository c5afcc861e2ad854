// The turns of a `for` (Language Reference, the for statement).

ghost use Rattle.std.specs.Prelude.{◌≡◌, ◌+◌, ℕ, IfOk, Some};
ghost use Rattle.py_items.specs.Turns as items;
ghost use Rattle.py_world.specs.Loops as world;
ghost use Rattle.py_world.specs.Outcome.{on_next};
ghost use Rattle.py_world.specs.Statements.{asked};
ghost use Rattle.machine_state.specs.core_meaning.Requests.{ForOf};
ghost use Rattle.machine_state.specs.core_meaning.Expressions.{eval};
ghost use Rattle.machine_state.specs.core_meaning.Statements.{core_block_body, store};
ghost use Rattle.machine_state.specs.Places.{outcome};
ghost use Rattle.machine_state.specs.Frames.{layers_of, on_flow, machine_rest, site_now, state_of, todo, Follows};
ghost use Rattle.machine_state.specs.Work.{doing_work, flow_work, stack_work, Falls};
ghost use Rattle.machine_flow.specs.Looks.{look_of};

use machine_assign::assign::store_target;
use machine_assign::{begin_block, descend};
use machine_state::frame::{End, FlowFrame, Frame};
use machine_state::machine::{Machine, NextAction, Origin, TurnEnd};
use py_core::{CoreBlock, CoreExpr, CoreTarget};
use py_items::iter::IterAt;
use py_items::turn::{iterate, turn_made};
use py_operands::faults::not_iterable;
use py_values::end::{Effect, Raise};
use py_values::value::Value;
use seq::OutOfMemory;
use std::rc::Rc;

/// Begins a `for` with what it goes over.
pub fn begin_for(
    m: &mut Machine,
    target: &Rc<CoreTarget>,
    e: &Rc<CoreExpr>,
    body: &Rc<CoreBlock>,
) -> Result<NextAction, OutOfMemory>
    ensures next { IfOk result (λ d. todo d m.new ≡ world.for_statement (ForOf target.now.value body.now.value) (eval e.now.value) (site_now m.old) (state_of m.old) (machine_rest m.old)) }
    ensures left { m.new.left ≡ m.old.left }
{
    let frame = FlowFrame::Iterable(target.clone()?, body.clone()?);
    descend(m, Frame::Flow(frame), e)
}

/// The place behind an element.
fn place_behind(at: IterAt, made: &Effect) -> IterAt
    requires { items.HasRoom at.next (Some made.now) }
    ensures { result ≡ items.iterator_after at made.now }
{
    match made {
        Effect::Fail(_, _) => at,
        Effect::Give(_, _) | Effect::New(_, _) | Effect::Put(_, _, _, _) => IterAt {
            of: at.of,
            next: at.next + 1,
            length: at.length,
        },
    }
}

/// Stores an element in the target, behind which the block begins.
fn store_element(
    m: &mut Machine,
    target: Rc<CoreTarget>,
    body: Rc<CoreBlock>,
    next: IterAt,
    v: Value,
) -> Result<NextAction, OutOfMemory>
    ensures next { IfOk result (λ d. todo d m.new ≡ store target.value v (site_now m.old) (state_of m.old) (λ o. on_next o (machine_rest m.old) (λ s. world.behind_target (ForOf target.value body.value) (core_block_body [] body.value) next (site_now m.old) s (machine_rest m.old)))) }
    ensures left { m.new.left ≡ m.old.left }
{
    let again = target.clone()?;
    let frame = FlowFrame::Taken(again, body, next);
    m.stack.push(Frame::Flow(frame))?;
    store_target(m, &target, v)
}

ghost use Rattle.std.specs.Prelude.{[]};

/// Takes the element that is made.
fn take_element(
    m: &mut Machine,
    target: Rc<CoreTarget>,
    body: Rc<CoreBlock>,
    at: IterAt,
    made: Effect,
) -> Result<NextAction, OutOfMemory>
    requires { items.HasRoom at.next (Some made) }
    ensures next { IfOk result (λ d. todo d m.new ≡ world.turn_with (ForOf target.value body.value) (store target.value) (core_block_body [] body.value) at (Some made) (site_now m.old) (state_of m.old) (machine_rest m.old)) }
    ensures left { m.new.left ≡ m.old.left }
{
    let next = place_behind(at, &made);
    match made {
        Effect::Give(v, _) => store_element(m, target, body, next, v),
        Effect::New(obj, _) => {
            let id = m.heap.add(obj)?;
            store_element(m, target, body, next, Value::Ref(id))
        }
        Effect::Put(id, change, v, _) => {
            m.heap.change(id, change)?;
            store_element(m, target, body, next, v)
        }
        Effect::Fail(raise, _) => m.raise(raise, Origin::Code),
    }
}

/// Makes the element of a turn, whose step is taken.
fn make_element(
    m: &mut Machine,
    target: Rc<CoreTarget>,
    body: Rc<CoreBlock>,
    at: IterAt,
) -> Result<NextAction, OutOfMemory>
    ensures next { IfOk result (λ d. todo d m.new ≡ world.for_turn (ForOf target.value body.value) (store target.value) (core_block_body [] body.value) at (site_now m.old) (state_of m.old) (machine_rest m.old)) }
    ensures left { m.new.left ≡ m.old.left }
{
    match turn_made(m.alloc, &m.heap, at)? {
        Some(made) => take_element(m, target, body, at, made),
        None => Ok(NextAction::Back(End::Next)),
    }
}

/// A turn begins, which takes a step before its element is made.
fn begin_turn(
    m: &mut Machine,
    target: Rc<CoreTarget>,
    body: Rc<CoreBlock>,
    at: IterAt,
) -> Result<TurnEnd, OutOfMemory>
    ensures next { IfOk result (λ t. Follows t m.new m.old.left (asked (ForOf target.value body.value at) (site_now m.old) (state_of m.old) (machine_rest m.old))) }
    ensures work { IfOk result (λ t. (work : ℕ) → Falls t m.new m.old.left work) }
{
    if !m.spend() {
        return Ok(TurnEnd::Exhausted(m.trace(Origin::Code)?));
    }
    Ok(TurnEnd::Go(make_element(m, target, body, at)?))
}

/// What the look for the next element tells.
#[derive(Drop)]
enum Look {
    /// There is none.
    Over,
    There,
    /// The look raises.
    Failed(Raise),
}

/// Looks whether there is an element at a place.
fn look_for(m: &Machine, at: IterAt) -> Result<Look, OutOfMemory>
    ensures { IfOk result (λ l. l ≡ look_of (items.turn_of m.now.heap at)) }
{
    match turn_made(m.alloc, &m.heap, at)? {
        None => Ok(Look::Over),
        Some(Effect::Give(_, _)) => Ok(Look::There),
        Some(Effect::New(_, _)) => Ok(Look::There),
        Some(Effect::Put(_, _, _, _)) => Ok(Look::There),
        Some(Effect::Fail(raise, _)) => Ok(Look::Failed(raise)),
    }
}

/// Goes on with a `for` from a place on.
#[tactic(auto, using(crate::proofs::Elements::over_ends, crate::proofs::Elements::failed_raises))]
fn go_on(
    m: &mut Machine,
    target: Rc<CoreTarget>,
    body: Rc<CoreBlock>,
    at: IterAt,
) -> Result<TurnEnd, OutOfMemory>
    ensures next { IfOk result (λ t. Follows t m.new m.old.left (world.for_from (ForOf target.value body.value) at (site_now m.old) (state_of m.old) (machine_rest m.old))) }
    ensures work { IfOk result (λ t. Falls t m.new m.old.left (1 + stack_work m.old)) }
{
    let seen = look_for(m, at)?;
    match seen {
        Look::Over => Ok(TurnEnd::Go(NextAction::Back(End::Next))),
        Look::There => begin_turn(m, target, body, at),
        Look::Failed(raise) => Ok(TurnEnd::Go(m.raise(raise, Origin::Code)?)),
    }
}

/// Begins the turns over a value.
fn go_over(
    m: &mut Machine,
    target: Rc<CoreTarget>,
    body: Rc<CoreBlock>,
    v: Value,
) -> Result<TurnEnd, OutOfMemory>
    ensures next { IfOk result (λ t. Follows t m.new m.old.left (world.iterated (ForOf target.value body.value) v (items.iterate m.old.heap v) (site_now m.old) (state_of m.old) (machine_rest m.old))) }
    ensures work { IfOk result (λ t. Falls t m.new m.old.left (1 + stack_work m.old)) }
{
    match iterate(&m.heap, v) {
        Some(at) => go_on(m, target, body, at),
        None => {
            let raise = not_iterable(m.alloc, &m.heap, v)?;
            Ok(TurnEnd::Go(m.raise(raise, Origin::Code)?))
        }
    }
}

/// Goes on behind what a `for` goes over.
pub fn take_iterable(
    m: &mut Machine,
    target: Rc<CoreTarget>,
    body: Rc<CoreBlock>,
    end: End,
) -> Result<TurnEnd, OutOfMemory>
    ensures next { IfOk result (λ t. Follows t m.new m.old.left (on_flow (FlowFrame.Iterable target body) (layers_of m.old.stack.own) (site_now m.old) (outcome end (state_of m.old)) (machine_rest m.old))) }
    ensures work { IfOk result (λ t. Falls t m.new m.old.left (flow_work (FlowFrame.Iterable target body) + stack_work m.old)) }
{
    match end {
        End::Value(v) => go_over(m, target, body, v),
        End::Next => Ok(TurnEnd::Go(NextAction::Back(End::Next))),
        End::Returned(v) => Ok(TurnEnd::Go(NextAction::Back(End::Returned(v)))),
        End::Broke => Ok(TurnEnd::Go(NextAction::Back(End::Broke))),
        End::Continued => Ok(TurnEnd::Go(NextAction::Back(End::Continued))),
        End::Raised(e, trace) => Ok(TurnEnd::Go(NextAction::Back(End::Raised(e, trace)))),
    }
}

/// Begins the block of a turn whose target has its value.
fn begin_body(
    m: &mut Machine,
    target: Rc<CoreTarget>,
    body: Rc<CoreBlock>,
    next: IterAt,
) -> Result<NextAction, OutOfMemory>
    ensures next { IfOk result (λ d. todo d m.new ≡ world.behind_target (ForOf target.value body.value) (core_block_body [] body.value) next (site_now m.old) (state_of m.old) (machine_rest m.old)) }
    ensures left { m.new.left ≡ m.old.left }
    ensures work { IfOk result (λ d. doing_work d + stack_work m.new ≡ block_work (stmts_in body.value) + 1 + stack_work m.old) }
{
    let again = body.clone()?;
    let frame = FlowFrame::ForTurn(target, again, next, m.here.line);
    m.stack.push(Frame::Flow(frame))?;
    begin_block(m, body)
}

ghost use Rattle.machine_state.specs.Work.{block_work};
ghost use Rattle.py_core.specs.Blocks.{stmts_in};

/// Goes on behind the target of a turn.
pub fn take_taken(
    m: &mut Machine,
    target: Rc<CoreTarget>,
    body: Rc<CoreBlock>,
    next: IterAt,
    end: End,
) -> Result<TurnEnd, OutOfMemory>
    ensures next { IfOk result (λ t. Follows t m.new m.old.left (on_flow (FlowFrame.Taken target body next) (layers_of m.old.stack.own) (site_now m.old) (outcome end (state_of m.old)) (machine_rest m.old))) }
    ensures work { IfOk result (λ t. Falls t m.new m.old.left (flow_work (FlowFrame.Taken target body next) + stack_work m.old)) }
{
    match end {
        End::Next => Ok(TurnEnd::Go(begin_body(m, target, body, next)?)),
        End::Value(v) => Ok(TurnEnd::Go(NextAction::Back(End::Value(v)))),
        End::Returned(v) => Ok(TurnEnd::Go(NextAction::Back(End::Returned(v)))),
        End::Broke => Ok(TurnEnd::Go(NextAction::Back(End::Broke))),
        End::Continued => Ok(TurnEnd::Go(NextAction::Back(End::Continued))),
        End::Raised(e, trace) => Ok(TurnEnd::Go(NextAction::Back(End::Raised(e, trace)))),
    }
}

/// Goes on behind a turn of a `for`.
pub fn take_for_turn(
    m: &mut Machine,
    target: Rc<CoreTarget>,
    body: Rc<CoreBlock>,
    next: IterAt,
    end: End,
) -> Result<TurnEnd, OutOfMemory>
    ensures next { IfOk result (λ t. Follows t m.new m.old.left (on_flow (FlowFrame.ForTurn target body next 0) (layers_of m.old.stack.own) (site_now m.old) (outcome end (state_of m.old)) (machine_rest m.old))) }
    ensures work { IfOk result (λ t. Falls t m.new m.old.left (flow_work (FlowFrame.ForTurn target body next 0) + stack_work m.old)) }
{
    match end {
        End::Next => go_on(m, target, body, next),
        End::Continued => go_on(m, target, body, next),
        End::Broke => Ok(TurnEnd::Go(NextAction::Back(End::Next))),
        End::Value(v) => Ok(TurnEnd::Go(NextAction::Back(End::Value(v)))),
        End::Returned(v) => Ok(TurnEnd::Go(NextAction::Back(End::Returned(v)))),
        End::Raised(e, trace) => Ok(TurnEnd::Go(NextAction::Back(End::Raised(e, trace)))),
    }
}
