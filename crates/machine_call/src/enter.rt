// Functions of the sources are entered.

ghost use Rattle.std.specs.Prelude.{◌≡◌, ◌≤◌, [], Some, Ok, IfOk, slice_get, MatchOption, nat_lt, true, false};
ghost use Rattle.py_kinds.specs.Kinds.{kind_name};
ghost use Rattle.machine_state.specs.py_world.Calls as world;
ghost use Rattle.machine_state.specs.py_world.Outcome.{call_end, raised};
ghost use Rattle.machine_state.specs.py_world.Site.{trace_of};
ghost use Rattle.machine_state.specs.py_world.World.{state};
ghost use Rattle.machine_state.specs.core_meaning.Statements.{entry};
ghost use Rattle.machine_state.specs.Frames.{around_by, handled_exception, machine_rest, site_now, state_of, todo, world_of, Follows};
ghost use Rattle.machine_call.specs.Depth.{code_called, depth_by, Ready};

use machine_state::code::Code;
use machine_state::frame::{CallerFrame, End, FlowFrame, Frame};
use machine_state::locals::Locals;
use machine_state::machine::{Machine, NextAction, Origin, TurnEnd};
use machine_state::place::{Location, Place};
use py_kinds::kinds::push_kind;
use py_values::class::ExcClass;
use py_values::end::{Raise, push_ascii};
use py_values::heap::Heap;
use py_values::value::Value;
use seq::OutOfMemory;
use std::alloc::Global;
use std::mem;

/// How many functions are open around a new one, where one more may be.
fn room(m: &Machine, origin: Origin) -> Option<usize>
    ensures { MatchOption result (nat_lt (depth_by origin m.now) world.most_open ≡ false) (λ n. (n ≡ depth_by origin m.now) × (nat_lt (depth_by origin m.now) world.most_open ≡ true)) }
{
    match origin {
        Origin::Code => m.here.room(),
        Origin::Runner => Some(0),
    }
}

/// Opens a call: a function with its names, over where the machine was.
fn open(
    m: &mut Machine,
    code: Code,
    names: Locals,
    around: usize,
) -> Result<CallerFrame, OutOfMemory>
    ensures caller { IfOk result (λ c. c ≡ record { from = Some m.old.here; locals = m.old.locals; temps = m.old.temps }) }
    ensures opened { IfOk result (λ c. (m.new.temps.items ≡ []) × (m.new ≡ record m.old { here = record { place = Place.Function code; around = around; line = 0 }; locals = names; temps = m.new.temps })) }
    ensures left { m.new.left ≡ m.old.left }
{
    let here = Location {
        place: Place::Function(code),
        around,
        line: 0,
    };
    let none = Vec::new(m.alloc);
    let here = mem::replace(&mut m.here, here);
    let locals = mem::replace(&mut m.locals, names);
    let temps = mem::replace(&mut m.temps, none);
    Ok(CallerFrame {
        from: Some(here),
        locals,
        temps,
    })
}

/// Enters a function that code calls.
fn enter_by_code(
    m: &mut Machine,
    code: Code,
    names: Locals,
    around: usize,
) -> Result<NextAction, OutOfMemory>
    ensures next { IfOk result (λ d. todo d m.new ≡ (entry code.code).body (world.scene_of entry code (record { trace = trace_of (site_now m.old); depth = around; handling = handled_exception m.old.stack.own })) (state names [] (world_of m.old)) (λ o. machine_rest m.old (call_end (state_of m.old) o))) }
    ensures left { m.new.left ≡ m.old.left }
{
    let body = code.body()?;
    let caller = open(m, code, names, around)?;
    m.stack.push(Frame::Caller(caller))?;
    m.stack.push(Frame::Flow(FlowFrame::Block(body, 0, 0)))?;
    Ok(NextAction::Back(End::Next))
}

/// Enters a function that the runner calls.
fn enter_by_runner(m: &mut Machine, code: Code, names: Locals) -> Result<NextAction, OutOfMemory>
    requires { Ready Origin.Runner m.old }
    ensures next { IfOk result (λ d. todo d m.new ≡ (entry code.code).body (world.scene_of entry code (around_by Origin.Runner m.old)) (state names [] (world_of m.old)) (λ o. machine_rest m.old (call_end (state_of m.old) o))) }
    ensures left { m.new.left ≡ m.old.left }
{
    let body = code.body()?;
    let caller = open(m, code, names, 0)?;
    let caller = CallerFrame {
        from: None,
        locals: caller.locals,
        temps: caller.temps,
    };
    m.stack.push(Frame::Caller(caller))?;
    m.stack.push(Frame::Flow(FlowFrame::Block(body, 0, 0)))?;
    Ok(NextAction::Back(End::Next))
}

/// Enters a function with its names, where one more may be open.
fn enter(
    m: &mut Machine,
    code: Code,
    names: Locals,
    around: usize,
    origin: Origin,
) -> Result<NextAction, OutOfMemory>
    requires ready { Ready origin m.old }
    requires depth { around ≡ depth_by origin m.old }
    ensures next { IfOk result (λ d. todo d m.new ≡ (entry code.code).body (world.scene_of entry code (around_by origin m.old)) (state names [] (world_of m.old)) (λ o. machine_rest m.old (call_end (state_of m.old) o))) }
    ensures left { m.new.left ≡ m.old.left }
{
    match origin {
        Origin::Code => enter_by_code(m, code, names, around),
        Origin::Runner => enter_by_runner(m, code, names),
    }
}

/// Raises an error of a call.
#[tactic(auto, using(crate::proofs::Calling::around_trace))]
pub(crate) fn refuse(
    m: &mut Machine,
    raise: Raise,
    origin: Origin,
) -> Result<NextAction, OutOfMemory>
    ensures next { IfOk result (λ d. todo d m.new ≡ machine_rest m.old (call_end (state_of m.old) (raised raise (around_by origin m.old).trace (state_of m.old)))) }
    ensures left { m.new.left ≡ m.old.left }
{
    m.raise(raise, origin)
}

/// A raise for one function too many that is open.
fn too_deep(alloc: Global) -> Result<Raise, OutOfMemory>
    ensures { IfOk result (λ r. r ≡ world.too_deep) }
{
    let raise = Raise::from_ascii(alloc, ExcClass::RecursionError, "call depth exceeded")?;
    Ok(raise)
}

/// Enters a function of the sources whose arguments fit, where one more may be open.
pub fn call_fitting(
    m: &mut Machine,
    code: Code,
    names: Locals,
    origin: Origin,
) -> Result<NextAction, OutOfMemory>
    requires { Ready origin m.old }
    ensures next { IfOk result (λ d. todo d m.new ≡ world.entered entry code (Ok names) (around_by origin m.old) (state_of m.old) (λ o. machine_rest m.old (call_end (state_of m.old) o))) }
    ensures left { m.new.left ≡ m.old.left }
{
    match room(m, origin) {
        Some(around) => enter(m, code, names, around, origin),
        None => {
            let raise = too_deep(m.alloc)?;
            refuse(m, raise, origin)
        }
    }
}

/// Calls a function of the sources with its local names, or raises what stands in their place.
fn call_code(
    m: &mut Machine,
    code: Code,
    names: Result<Locals, Raise>,
    origin: Origin,
) -> Result<NextAction, OutOfMemory>
    requires { Ready origin m.old }
    ensures next { IfOk result (λ d. todo d m.new ≡ world.entered entry code names (around_by origin m.old) (state_of m.old) (λ o. machine_rest m.old (call_end (state_of m.old) o))) }
    ensures left { m.new.left ≡ m.old.left }
{
    match names {
        Ok(names) => call_fitting(m, code, names, origin),
        Err(raise) => refuse(m, raise, origin),
    }
}

/// A raise for what can't be called.
fn no_callable(alloc: Global, heap: &Heap, callee: Value) -> Result<Raise, OutOfMemory>
    ensures { IfOk result (λ r. r ≡ world.not_callable (kind_name heap.now callee)) }
{
    let mut text = Vec::new(alloc);
    push_ascii(&mut text, "'")?;
    push_kind(&mut text, heap, callee)?;
    push_ascii(&mut text, "' object is not callable")?;
    let raise = Raise::from_chars(alloc, ExcClass::TypeError, &text)?;
    Ok(raise)
}

/// Refuses to call what can't be called.
pub(crate) fn not_callable(
    m: &mut Machine,
    callee: Value,
    origin: Origin,
) -> Result<NextAction, OutOfMemory>
    ensures next { IfOk result (λ d. todo d m.new ≡ machine_rest m.old (call_end (state_of m.old) (raised (world.not_callable (kind_name m.old.heap callee)) (around_by origin m.old).trace (state_of m.old)))) }
    ensures left { m.new.left ≡ m.old.left }
{
    let raise = no_callable(m.alloc, &m.heap, callee)?;
    refuse(m, raise, origin)
}

/// The code of this number.
fn code_at(codes: &[Code], at: usize) -> Result<Option<Code>, OutOfMemory>
    ensures { IfOk result (λ code. code ≡ slice_get codes.now at) }
{
    match codes.get(at) {
        Some(code) => {
            let code = code.share()?;
            Ok(Some(code))
        }
        None => Ok(None),
    }
}

/// Calls the function with the code of this number, with its local names.
pub(crate) fn invoke_code(
    m: &mut Machine,
    callee: Value,
    at: usize,
    names: Result<Locals, Raise>,
    origin: Origin,
) -> Result<TurnEnd, OutOfMemory>
    requires { Ready origin m.old }
    ensures next { IfOk result (λ t. Follows t m.new m.old.left (code_called (slice_get m.old.codes.items at) names (world.not_callable (kind_name m.old.heap callee)) (around_by origin m.old) (state_of m.old) (λ o. machine_rest m.old (call_end (state_of m.old) o)))) }
    ensures left { m.new.left ≤ m.old.left }
{
    let found = code_at(&m.codes, at)?;
    match found {
        Some(code) => Ok(TurnEnd::Go(call_code(m, code, names, origin)?)),
        None => Ok(TurnEnd::Go(not_callable(m, callee, origin)?)),
    }
}
