// Calls.

ghost use Rattle.std.specs.Prelude.{◌≡◌, ◌≤◌, ℕ, IfOk};
ghost use Rattle.machine_state.specs.py_world.Calls as world;
ghost use Rattle.machine_state.specs.py_world.Calls.{init_end};
ghost use Rattle.machine_state.specs.py_world.Expressions as expression;
ghost use Rattle.machine_state.specs.py_world.Outcome.{call_end};
ghost use Rattle.machine_state.specs.core_meaning.Statements.{entry};
ghost use Rattle.machine_state.specs.declared.machine.Machine.{Machine};
ghost use Rattle.machine_state.specs.Places.{arguments_in, outcome};
ghost use Rattle.machine_state.specs.Frames.{after_stack, around_by, on_caller, here_from, machine_rest, site_now, state_of, todo, todo_entry, Follows};
ghost use Rattle.machine_state.specs.Work.{doing_work, Falls};
ghost use Rattle.machine_call.specs.Depth.{Ready};
ghost use Rattle.machine_call.specs.Called.{call_rest, Calls};

use crate::class::{CallProgress, call_at, is_function};
use crate::enter::not_callable;
use crate::objects::call_function;
use machine_state::arguments::CallArguments;
use machine_state::frame::{CallerFrame, End};
use machine_state::machine::{Machine, NextAction, Origin, TurnEnd};
use machine_state::place::Location;
use py_values::value::Value;
use seq::OutOfMemory;

/// A call, up to a class that is the `__init__` of a new instance.
fn call_once(
    m: &mut Machine,
    callee: Value,
    args: &CallArguments,
    origin: Origin,
) -> Result<CallProgress, OutOfMemory>
    requires { Ready origin m.old }
    ensures next { IfOk result (λ c. Calls c origin (arguments_in args.now) m.new m.old.left (world.invoke entry callee (arguments_in args.now) (around_by origin m.old) (state_of m.old) (call_rest m.old))) }
    ensures left { m.new.left ≤ m.old.left }
{
    match callee {
        Value::Ref(id) => call_at(m, id, args, origin),
        Value::None | Value::Bool(_) | Value::Int(_) => {
            let doing = not_callable(m, callee, origin)?;
            Ok(CallProgress::Over(TurnEnd::Go(doing)))
        }
    }
}

/// A call whose step is taken (Language Reference, calls).
pub fn invoke(
    m: &mut Machine,
    callee: Value,
    args: &CallArguments,
    origin: Origin,
) -> Result<TurnEnd, OutOfMemory>
    requires { Ready origin m.old }
    ensures next { IfOk result (λ t. Follows t m.new m.old.left (world.invoke entry callee (arguments_in args.now) (around_by origin m.old) (state_of m.old) (λ o. machine_rest m.old (call_end (state_of m.old) o)))) }
    ensures left { m.new.left ≤ m.old.left }
{
    let mut callee = callee;
    'inits: loop {
        match call_once(m, callee, args, origin)? {
            CallProgress::Over(turn) => return Ok(turn),
            CallProgress::Again(init) => {
                if !m.spend() {
                    return Ok(TurnEnd::Exhausted(m.trace(origin)?));
                }
                callee = init;
            }
        }
    }
}

/// A call by the code without its step.
pub fn enter_call(
    m: &mut Machine,
    callee: Value,
    args: CallArguments,
) -> Result<TurnEnd, OutOfMemory>
    ensures next { IfOk result (λ t. Follows t m.new m.old.left (todo_entry (Entry.Call callee args) m.old)) }
    ensures left { m.new.left ≤ m.old.left }
{
    invoke(m, callee, &args, Origin::Code)
}

ghost use Rattle.machine_state.specs.declared.machine.Entry.TheVariants as Entry;

/// A call by the code without its step: a function is called at once.
#[tactic(auto, using(crate::proofs::Calling::called_at_once))]
fn call_now(m: &mut Machine, callee: Value, args: &CallArguments) -> Result<TurnEnd, OutOfMemory>
    ensures next { IfOk result (λ t. Follows t m.new m.old.left (world.invoke entry callee (arguments_in args.now) (around_by Origin.Code m.old) (state_of m.old) (λ o. machine_rest m.old (call_end (state_of m.old) o)))) }
    ensures left { m.new.left ≤ m.old.left }
{
    if let Value::Ref(id) = callee {
        if is_function(&m.heap, id) {
            return call_function(m, callee, id, args, Origin::Code);
        }
    }
    invoke(m, callee, args, Origin::Code)
}

/// A call: its step, and then the call.
pub fn apply(m: &mut Machine, callee: Value, args: CallArguments) -> Result<TurnEnd, OutOfMemory>
    ensures next { IfOk result (λ t. Follows t m.new m.old.left (expression.called callee (arguments_in args) (site_now m.old) (state_of m.old) (machine_rest m.old))) }
    ensures work { IfOk result (λ t. (work : ℕ) → Falls t m.new m.old.left work) }
{
    if !m.spend() {
        return Ok(TurnEnd::Exhausted(m.trace(Origin::Code)?));
    }
    call_now(m, callee, &args)
}

/// Goes on in the caller.
pub fn take_caller(m: &mut Machine, caller: CallerFrame, end: End) -> NextAction
    ensures next { todo result m.new ≡ on_caller caller (outcome end (state_of m.old)) (after_stack m.old.stack.own (here_from caller.from m.old.here)) }
    ensures left { m.new.left ≡ m.old.left }
    ensures work { doing_work result ≡ 0 }
    ensures stack { m.new.stack ≡ m.old.stack }
{
    let CallerFrame {
        from,
        locals,
        temps,
    } = caller;
    m.locals = locals;
    m.temps = temps;
    go_back(m, from);
    match end {
        End::Value(v) => NextAction::Back(End::Value(v)),
        End::Returned(v) => NextAction::Back(End::Value(v)),
        End::Next => NextAction::Back(End::Value(Value::None)),
        End::Broke => NextAction::Back(End::Value(Value::None)),
        End::Continued => NextAction::Back(End::Value(Value::None)),
        End::Raised(e, trace) => NextAction::Back(End::Raised(e, trace)),
    }
}

fn go_back(m: &mut Machine, from: Option<Location>)
    ensures { m.new ≡ record m.old { here = here_from from m.old.here } }
{
    if let Some(here) = from {
        m.here = here;
    }
}

/// Goes on behind the `__init__` of a new instance, which is given whatever that gives.
pub fn take_new(v: Value, end: End) -> NextAction
    ensures next { (m : Machine) → todo result m ≡ machine_rest m (init_end v (outcome end (state_of m))) }
    ensures work { doing_work result ≡ 0 }
{
    match end {
        End::Value(_) => NextAction::Back(End::Value(v)),
        End::Returned(_) => NextAction::Back(End::Value(v)),
        End::Next => NextAction::Back(End::Value(v)),
        End::Broke => NextAction::Back(End::Value(v)),
        End::Continued => NextAction::Back(End::Value(v)),
        End::Raised(e, trace) => NextAction::Back(End::Raised(e, trace)),
    }
}
