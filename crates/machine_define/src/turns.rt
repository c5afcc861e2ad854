// A definition goes on behind its parts.

ghost use Rattle.std.specs.Prelude.{◌≡◌, ◌+◌, ◌<◌, IfOk};
ghost use Rattle.machine_state.specs.py_world.Outcome.{on_value};
ghost use Rattle.machine_state.specs.Definings.{on_define};
ghost use Rattle.machine_state.specs.Frames.{machine_rest, site_now, state_of, todo};
ghost use Rattle.machine_state.specs.Places.{outcome};
ghost use Rattle.machine_state.specs.Work.{define_work, doing_work, stack_work};

use crate::decorate::define_as;
use crate::{class, function};
use machine_state::frame::{DefineFrame, End};
use machine_state::machine::{Machine, NextAction};
use py_values::value::{ObjId, Value};
use seq::OutOfMemory;

/// Values with one more behind them.
fn more(values: Vec<Value>, v: Value) -> Result<Vec<Value>, OutOfMemory>
    ensures { IfOk result (λ vs. vs.items ≡ values.items ++ v ∷ []) }
{
    let mut values = values;
    values.push(v)?;
    Ok(values)
}

ghost use Rattle.std.specs.Prelude.{◌++◌, ◌∷◌, []};

/// Goes on with the value of a part of a definition.
fn take_value(m: &mut Machine, frame: DefineFrame, v: Value) -> Result<NextAction, OutOfMemory>
    ensures next { IfOk result (λ d. todo d m.new ≡ on_define frame (site_now m.old) v (state_of m.old) (machine_rest m.old)) }
    ensures left { m.new.left ≡ m.old.left }
    ensures work { IfOk result (λ d. doing_work d + stack_work m.new < define_work frame + stack_work m.old) }
{
    match frame {
        DefineFrame::Decorator(ds, es, function, so_far) => {
            let values = more(so_far, v)?;
            function::next_decorator(m, ds, es, function, values)
        }
        DefineFrame::Default(ds, es, function, so_far) => {
            let values = more(so_far, v)?;
            function::next_default(m, ds, es, function, values)
        }
        DefineFrame::ClassDecorator(ds, base, class, so_far) => {
            let values = more(so_far, v)?;
            class::next_decorator(m, ds, base, class, values)
        }
        DefineFrame::Base(ds, class) => class::take_base(m, &class, ds, v),
        DefineFrame::Body(ds, name, at) => define_as(m, &ds, &name, Value::Ref(ObjId { at })),
    }
}

/// Goes on behind a part of a definition.
pub fn take_define(m: &mut Machine, frame: DefineFrame, end: End) -> Result<NextAction, OutOfMemory>
    ensures next { IfOk result (λ d. todo d m.new ≡ on_value (outcome end (state_of m.old)) (machine_rest m.old) (λ v s. on_define frame (site_now m.old) v s (machine_rest m.old))) }
    ensures left { m.new.left ≡ m.old.left }
    ensures work { IfOk result (λ d. doing_work d + stack_work m.new < define_work frame + stack_work m.old) }
{
    match end {
        End::Value(v) => take_value(m, frame, v),
        End::Next => Ok(NextAction::Back(End::Next)),
        End::Returned(v) => Ok(NextAction::Back(End::Returned(v))),
        End::Broke => Ok(NextAction::Back(End::Broke)),
        End::Continued => Ok(NextAction::Back(End::Continued)),
        End::Raised(exc, trace) => Ok(NextAction::Back(End::Raised(exc, trace))),
    }
}
