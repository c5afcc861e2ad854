// What a `raise` raises (Language Reference, the raise statement).

ghost use Rattle.std.specs.Prelude.{◌≡◌, ◌+◌, IfOk};
ghost use Rattle.machine_state.specs.py_world.Exceptions as world;
ghost use Rattle.machine_state.specs.py_world.Outcome.{raised_at};
ghost use Rattle.machine_state.specs.py_world.Raising as raising;
ghost use Rattle.machine_state.specs.py_world.Site.{trace_of};
ghost use Rattle.machine_state.specs.py_world.World.{trace_at};
ghost use Rattle.machine_state.specs.core_meaning.Statements.{entry};
ghost use Rattle.machine_state.specs.Frames.{handled_exception, machine_rest, site_now, state_of, todo, Follows};
ghost use Rattle.machine_state.specs.Work.{doing_work, stack_work, Falls};

use machine_items::Trace;
use machine_items::exceptions::{RaiseKind, raisable, raise_init};
use machine_state::arguments::CallArguments;
use machine_state::frame::{End, Frame, SimpleFrame};
use machine_state::machine::{Entry, Machine, NextAction, Origin, TurnEnd};
use machine_state::traces::copy_trace;
use py_values::class::{ClassRef, ExcClass};
use py_values::end::Raise;
use py_values::rows::Values;
use py_values::throw::throw_with;
use py_values::value::{ObjId, Value};
use seq::OutOfMemory;

/// The trace with which an exception was first raised, or else that of the place where the machine is.
fn trace_for(m: &Machine, id: ObjId) -> Result<Trace, OutOfMemory>
    ensures { IfOk result (λ t. t ≡ world.first_trace (trace_at id.at m.now.traces) (trace_of (site_now m.now))) }
{
    match m.first_trace(id)? {
        Some(trace) => Ok(trace),
        None => m.trace(Origin::Code),
    }
}

/// Raises an exception of the heap, whose first trace is kept.
fn raise_object(m: &mut Machine, id: ObjId) -> Result<NextAction, OutOfMemory>
    ensures next { IfOk result (λ d. todo d m.new ≡ machine_rest m.old (world.raised_by (world.Exception_of id) (site_now m.old) (state_of m.old))) }
    ensures left { m.new.left ≡ m.old.left }
    ensures work { IfOk result (λ d. doing_work d ≡ 0) }
    ensures stack { m.new.stack ≡ m.old.stack }
{
    let trace = trace_for(m, id)?;
    let kept = copy_trace(m.alloc, &trace)?;
    m.keep_trace(Value::Ref(id), kept)?;
    Ok(NextAction::Back(End::Raised(Value::Ref(id), trace)))
}

/// Raises a new exception of a class, which costs no step.
fn raise_class(m: &mut Machine, class: ClassRef) -> Result<NextAction, OutOfMemory>
    ensures next { IfOk result (λ d. todo d m.new ≡ machine_rest m.old (world.raised_by (world.Class_of class) (site_now m.old) (state_of m.old))) }
    ensures left { m.new.left ≡ m.old.left }
    ensures work { IfOk result (λ d. doing_work d ≡ 0) }
    ensures stack { m.new.stack ≡ m.old.stack }
{
    let trace = m.trace(Origin::Code)?;
    let args = Values::new(m.alloc);
    let exc = throw_with(m.alloc, &mut m.heap, class, args)?;
    Ok(NextAction::Back(End::Raised(exc, trace)))
}

/// Says that a value is no exception and no class of them.
pub fn refuse(m: &mut Machine) -> Result<NextAction, OutOfMemory>
    ensures next { IfOk result (λ d. todo d m.new ≡ machine_rest m.old (raised_at world.no_exception (site_now m.old) (state_of m.old))) }
    ensures left { m.new.left ≡ m.old.left }
    ensures work { IfOk result (λ d. doing_work d ≡ 0) }
    ensures stack { m.new.stack ≡ m.old.stack }
{
    let raise = Raise::from_ascii(
        m.alloc,
        ExcClass::TypeError,
        "exceptions must derive from BaseException",
    )?;
    m.raise(raise, Origin::Code)
}

/// Raises a value as it is: an exception of the heap keeps the trace of its first raise, and of a class one is made.
pub fn raise_it(m: &mut Machine, v: Value) -> Result<NextAction, OutOfMemory>
    ensures next { IfOk result (λ d. todo d m.new ≡ raising.raise_it v (site_now m.old) (state_of m.old) (machine_rest m.old)) }
    ensures left { m.new.left ≡ m.old.left }
    ensures work { IfOk result (λ d. doing_work d ≡ 0) }
    ensures stack { m.new.stack ≡ m.old.stack }
{
    match raisable(&m.heap, v) {
        RaiseKind::Exception(id) => raise_object(m, id),
        RaiseKind::Class(class) => raise_class(m, class),
        RaiseKind::Neither => refuse(m),
    }
}

/// Raises what code hands to `raise`: of a class of exceptions with an `__init__` the instance that a call of it makes, which takes no
/// step, and else the value as it is.
pub fn raise_value(m: &mut Machine, v: Value) -> Result<TurnEnd, OutOfMemory>
    ensures next { IfOk result (λ t. Follows t m.new m.old.left (raising.raise_on entry (raising.raise_init m.old.heap v) v (site_now m.old) (state_of m.old) (machine_rest m.old))) }
    ensures work { IfOk result (λ t. Falls t m.new m.old.left (1 + stack_work m.old)) }
{
    match raise_init(m.alloc, &m.heap, v)? {
        Some(_) => {
            m.stack.push(Frame::Simple(SimpleFrame::Throw))?;
            let none = CallArguments::plain(m.alloc, Vec::new(m.alloc));
            Ok(TurnEnd::Enter(Entry::Call(v, none)))
        }
        None => Ok(TurnEnd::Go(raise_it(m, v)?)),
    }
}

/// Raises the exception that is being handled again, with its trace.
pub fn raise_again(m: &mut Machine) -> Result<NextAction, OutOfMemory>
    ensures next { IfOk result (λ d. todo d m.new ≡ machine_rest m.old (world.raised_again (handled_exception m.old.stack.own) (site_now m.old) (state_of m.old))) }
    ensures left { m.new.left ≡ m.old.left }
    ensures work { IfOk result (λ d. doing_work d ≡ 0) }
    ensures stack { m.new.stack ≡ m.old.stack }
{
    match m.stack.handled(m.alloc)? {
        Some(thrown) => Ok(NextAction::Back(End::Raised(thrown.exc, thrown.trace))),
        None => {
            let raise = Raise::from_ascii(
                m.alloc,
                ExcClass::RuntimeError,
                "no exception to raise",
            )?;
            m.raise(raise, Origin::Code)
        }
    }
}
