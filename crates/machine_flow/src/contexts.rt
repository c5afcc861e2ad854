// Contexts (Language Reference, the with statement).

ghost use Rattle.std.specs.Prelude.{◌≡◌, ◌+◌, ◌<◌, [], length, IfOk, OnOk, Some};
ghost use Rattle.py_core.specs.Blocks.{stmts_in};
ghost use Rattle.py_items.specs.Items.{object_at};
ghost use Rattle.py_world.specs.Contexts as world;
ghost use Rattle.py_world.specs.Outcome.{raised_at};
ghost use Rattle.pytest_calls.specs.Swallowing as swallowing;
ghost use Rattle.machine_state.specs.core_meaning.Expressions.{eval};
ghost use Rattle.machine_state.specs.core_meaning.Statements.{core_block_body};
ghost use Rattle.machine_state.specs.Places.{outcome};
ghost use Rattle.machine_state.specs.Frames.{layers_of, on_flow, machine_rest, site_now, state_of, todo, Follows};
ghost use Rattle.machine_state.specs.Work.{block_work, doing_work, flow_work, stack_work, Falls};

use machine_assign::{begin_block, bind, descend};
use machine_state::frame::{End, FlowFrame, Frame, SimpleFrame};
use machine_state::machine::{Machine, NextAction, Origin, TurnEnd};
use py_core::{CoreBlock, CoreExpr, SrcText};
use py_items::subscript::object_at;
use py_kinds::classes::is_a;
use py_values::change::Change;
use py_values::class::ExcClass;
use py_values::end::{Effect, Raise};
use py_values::heap::Heap;
use py_values::object::{InfoObj, Obj, RaisesObj};
use py_values::value::{ObjId, Value};
use py_world::Trace;
use pytest_calls::swallowing::{did_not_raise, pattern_end};
use seq::{OutOfMemory, PyText};
use std::alloc::Global;
use std::rc::Rc;

/// The same name.
fn copy_name(name: &Option<SrcText>) -> Result<Option<SrcText>, OutOfMemory>
    ensures { IfOk result (λ n. n ≡ name.now) }
{
    match name {
        Some(name) => Ok(Some(name.clone()?)),
        None => Ok(None),
    }
}

/// Begins a `with` with its context.
pub fn begin_with(
    m: &mut Machine,
    e: &Rc<CoreExpr>,
    name: &Option<SrcText>,
    body: &Rc<CoreBlock>,
) -> Result<NextAction, OutOfMemory>
    ensures next { IfOk result (λ d. todo d m.new ≡ world.with_statement (eval e.now.value) name.now (core_block_body [] body.now.value) (site_now m.old) (state_of m.old) (machine_rest m.old)) }
    ensures left { m.new.left ≡ m.old.left }
{
    let kept = copy_name(name)?;
    let block = body.clone()?;
    descend(m, Frame::Flow(FlowFrame::Context(kept, block)), e)
}

/// The same pattern.
fn copy_pattern(alloc: Global, pattern: &Option<PyText>) -> Result<Option<PyText>, OutOfMemory>
    ensures { IfOk result (λ p. p ≡ pattern.now) }
{
    match pattern {
        Some(pattern) => Ok(Some(PyText::from_chars(alloc, pattern.chars())?)),
        None => Ok(None),
    }
}

/// The same arguments of `raises`.
fn copy_raises(alloc: Global, raises: &RaisesObj) -> Result<RaisesObj, OutOfMemory>
    ensures { IfOk result (λ r. r ≡ raises.now) }
{
    let classes = raises.classes;
    let pattern = copy_pattern(alloc, &raises.pattern)?;
    Ok(RaisesObj { classes, pattern })
}

/// What a context expects, where it is one.
fn context_of(alloc: Global, heap: &Heap, v: Value) -> Result<Option<RaisesObj>, OutOfMemory>
    ensures { IfOk result (λ r. r ≡ world.context_of (object_at heap.now v)) }
{
    match object_at(heap, v) {
        Some(Obj::Raises(raises)) => Ok(Some(copy_raises(alloc, raises)?)),
        Some(
            Obj::Text(_)
            | Obj::List(_)
            | Obj::Tuple(_)
            | Obj::Dict(_)
            | Obj::Range(_)
            | Obj::Function(_)
            | Obj::Method(_)
            | Obj::Builtin(_)
            | Obj::Class(_)
            | Obj::Instance(_)
            | Obj::Exception(_)
            | Obj::Module(_)
            | Obj::Fixture(_)
            | Obj::MarkMaker
            | Obj::Mark(_)
            | Obj::Hook(_)
            | Obj::Param(_)
            | Obj::Request(_)
            | Obj::Info(_)
            | Obj::Item(_),
        )
        | None => Ok(None),
    }
}

/// Binds the name behind `as` to an info object.
fn name_info(m: &mut Machine, name: &Option<SrcText>, id: ObjId) -> Result<(), OutOfMemory>
    ensures state { OnOk result (state_of m.new ≡ world.info_named name.now (val.Ref id) (site_now m.old).scene (state_of m.old)) }
    ensures left { m.new.left ≡ m.old.left }
    ensures stack { m.new.stack ≡ m.old.stack }
    ensures here { m.new.here ≡ m.old.here }
{
    if let Some(name) = name {
        return bind(m, name, Value::Ref(id));
    }
    Ok(())
}

ghost use Rattle.py_values.specs.declared.value.Value.TheVariants as val;

/// Makes the info object of a context, and binds the name behind `as` to it.
#[tactic(auto, using(crate::proofs::Entering::info_made))]
fn make_info(m: &mut Machine, name: &Option<SrcText>) -> Result<ObjId, OutOfMemory>
    ensures place { IfOk result (λ id. id.at ≡ length m.old.heap) }
    ensures state { OnOk result (state_of m.new ≡ world.with_info name.now (site_now m.old).scene (state_of m.old)) }
    ensures left { m.new.left ≡ m.old.left }
    ensures stack { m.new.stack ≡ m.old.stack }
    ensures here { m.new.here ≡ m.old.here }
{
    let id = m.heap.add(Obj::Info(InfoObj { value: None }))?;
    name_info(m, name, id)?;
    Ok(id)
}

/// Enters a context that expects an exception.
#[tactic(auto, using(crate::proofs::Entering::context_begins))]
fn enter_raises(
    m: &mut Machine,
    name: &Option<SrcText>,
    body: Rc<CoreBlock>,
    raises: RaisesObj,
) -> Result<NextAction, OutOfMemory>
    ensures next { IfOk result (λ d. todo d m.new ≡ world.context_entered (Some raises) name.now (core_block_body [] body.value) (site_now m.old) (state_of m.old) (machine_rest m.old)) }
    ensures left { m.new.left ≡ m.old.left }
    ensures work { IfOk result (λ d. doing_work d + stack_work m.new ≡ block_work (stmts_in body.value) + 2 + stack_work m.old) }
{
    let info = make_info(m, name)?;
    let frame = FlowFrame::Raises(raises, info, m.here.line);
    m.stack.push(Frame::Flow(frame))?;
    begin_block(m, body)
}

/// Enters a context.
fn enter(
    m: &mut Machine,
    name: &Option<SrcText>,
    body: Rc<CoreBlock>,
    v: Value,
) -> Result<NextAction, OutOfMemory>
    ensures next { IfOk result (λ d. todo d m.new ≡ world.context_entered (world.context_of (object_at m.old.heap v)) name.now (core_block_body [] body.value) (site_now m.old) (state_of m.old) (machine_rest m.old)) }
    ensures left { m.new.left ≡ m.old.left }
    ensures work { IfOk result (λ d. doing_work d + stack_work m.new < block_work (stmts_in body.value) + 3 + stack_work m.old) }
{
    match context_of(m.alloc, &m.heap, v)? {
        Some(raises) => enter_raises(m, name, body, raises),
        None => {
            let raise = Raise::from_ascii(m.alloc, ExcClass::TypeError, "bad context")?;
            m.raise(raise, Origin::Code)
        }
    }
}

/// Goes on behind the context of a `with`.
pub fn take_context(
    m: &mut Machine,
    name: Option<SrcText>,
    body: Rc<CoreBlock>,
    end: End,
) -> Result<TurnEnd, OutOfMemory>
    ensures next { IfOk result (λ t. Follows t m.new m.old.left (on_flow (FlowFrame.Context name body) (layers_of m.old.stack.own) (site_now m.old) (outcome end (state_of m.old)) (machine_rest m.old))) }
    ensures work { IfOk result (λ t. Falls t m.new m.old.left (flow_work (FlowFrame.Context name body) + stack_work m.old)) }
{
    match end {
        End::Value(v) => Ok(TurnEnd::Go(enter(m, &name, body, v)?)),
        End::Next => Ok(TurnEnd::Go(NextAction::Back(End::Next))),
        End::Returned(v) => Ok(TurnEnd::Go(NextAction::Back(End::Returned(v)))),
        End::Broke => Ok(TurnEnd::Go(NextAction::Back(End::Broke))),
        End::Continued => Ok(TurnEnd::Go(NextAction::Back(End::Continued))),
        End::Raised(e, trace) => Ok(TurnEnd::Go(NextAction::Back(End::Raised(e, trace)))),
    }
}

/// Fails a block that has raised nothing.
fn fail_quiet(m: &mut Machine, raises: &RaisesObj) -> Result<NextAction, OutOfMemory>
    ensures next { IfOk result (λ d. todo d m.new ≡ machine_rest m.old (raised_at (swallowing.did_not_raise m.old.heap raises.now.classes) (site_now m.old) (state_of m.old))) }
    ensures left { m.new.left ≡ m.old.left }
    ensures work { IfOk result (λ d. doing_work d ≡ 0) }
    ensures stack { m.new.stack ≡ m.old.stack }
{
    let raise = did_not_raise(m.alloc, &m.heap, raises.classes)?;
    m.raise(raise, Origin::Code)
}

/// What the search of the pattern makes, within the steps that are left.
fn pattern_made(
    m: &Machine,
    pattern: &Option<PyText>,
    e: Value,
) -> Result<Option<Effect>, OutOfMemory>
    ensures { IfOk result (λ made. made ≡ payable m.now.left (swallowing.pattern_end m.now.heap pattern.now e)) }
{
    match pattern {
        Some(text) => pattern_end(m.alloc, &m.heap, Some(text), e, m.left),
        None => pattern_end(m.alloc, &m.heap, None, e, m.left),
    }
}

ghost use Rattle.py_values.specs.Ends.{payable};

/// Searches the pattern in the message of an exception that is taken.
#[tactic(auto, using(crate::proofs::Entering::searches))]
fn search(m: &mut Machine, pattern: &Option<PyText>, e: Value) -> Result<TurnEnd, OutOfMemory>
    ensures next { IfOk result (λ t. Follows t m.new m.old.left (world.searched pattern.now e (site_now m.old) (state_of m.old) (machine_rest m.old))) }
    ensures work { IfOk result (λ t. Falls t m.new m.old.left (2 + stack_work m.old)) }
{
    m.stack.push(Frame::Simple(SimpleFrame::Forget))?;
    let made = pattern_made(m, pattern, e)?;
    m.pay(made, Origin::Code)
}

/// Gives the info object an exception that is taken, whose trace is kept.
fn keep_taken(m: &mut Machine, info: ObjId, e: Value, trace: Trace) -> Result<(), OutOfMemory>
    ensures state { OnOk result (state_of m.new ≡ world.info_taken info e (with_trace e trace (state_of m.old))) }
    ensures left { m.new.left ≡ m.old.left }
    ensures stack { m.new.stack ≡ m.old.stack }
    ensures here { m.new.here ≡ m.old.here }
{
    m.keep_trace(e, trace)?;
    let taken = Obj::Info(InfoObj { value: Some(e) });
    m.heap.change(info, Change::Whole(taken))
}

ghost use Rattle.py_world.specs.World.{with_trace};

/// Goes on behind an exception of a block that expects one.
#[tactic(auto, using(crate::proofs::Entering::taken_goes, crate::proofs::Entering::other_goes))]
fn take_raised(
    m: &mut Machine,
    raises: &RaisesObj,
    info: ObjId,
    e: Value,
    trace: Trace,
) -> Result<TurnEnd, OutOfMemory>
    ensures next { IfOk result (λ t. Follows t m.new m.old.left (world.taken_or (is_of m.old.heap e raises.now.classes) raises.now info e trace (site_now m.old) (state_of m.old) (machine_rest m.old))) }
    ensures work { IfOk result (λ t. Falls t m.new m.old.left (2 + stack_work m.old)) }
{
    if is_a(&m.heap, e, raises.classes) {
        keep_taken(m, info, e, trace)?;
        return search(m, &raises.pattern, e);
    }
    Ok(TurnEnd::Go(NextAction::Back(End::Raised(e, trace))))
}

ghost use Rattle.py_kinds.specs.Classes.{is_a as is_of};

/// Goes on behind the block of a `with` that expects an exception.
pub fn take_raises(
    m: &mut Machine,
    raises: &RaisesObj,
    info: ObjId,
    end: End,
) -> Result<TurnEnd, OutOfMemory>
    ensures next { IfOk result (λ t. Follows t m.new m.old.left (world.context_left raises.now info (site_now m.old) (outcome end (state_of m.old)) (machine_rest m.old))) }
    ensures work { IfOk result (λ t. Falls t m.new m.old.left (2 + stack_work m.old)) }
{
    match end {
        End::Raised(e, trace) => take_raised(m, raises, info, e, trace),
        End::Value(_) => Ok(TurnEnd::Go(fail_quiet(m, raises)?)),
        End::Next => Ok(TurnEnd::Go(fail_quiet(m, raises)?)),
        End::Returned(_) => Ok(TurnEnd::Go(fail_quiet(m, raises)?)),
        End::Broke => Ok(TurnEnd::Go(fail_quiet(m, raises)?)),
        End::Continued => Ok(TurnEnd::Go(fail_quiet(m, raises)?)),
    }
}
