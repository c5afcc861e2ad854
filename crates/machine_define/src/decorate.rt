// What is defined is decorated and bound.

ghost use Rattle.std.specs.Prelude.{◌≡◌, IfOk};
ghost use Rattle.machine_state.specs.py_world.Definitions as world;
ghost use Rattle.machine_state.specs.py_world.Outcome.{raised_at};
ghost use Rattle.machine_state.specs.Frames.{machine_rest, site_now, state_of, todo};
ghost use Rattle.machine_state.specs.Work.{doing_work};

use machine_decorate::decorate::decorate_all;
use machine_state::machine::{Machine, NextAction, Origin};
use machine_unwind::store;
use py_core::SrcText;
use py_values::class::ExcClass;
use py_values::end::Raise;
use py_values::value::Value;
use seq::OutOfMemory;

/// Says that a value is no decorator of what it decorates.
fn refuse(m: &mut Machine) -> Result<NextAction, OutOfMemory>
    ensures next { IfOk result (λ d. todo d m.new ≡ machine_rest m.old (raised_at world.bad_decorator (site_now m.old) (state_of m.old))) }
    ensures left { m.new.left ≡ m.old.left }
    ensures work { IfOk result (λ d. doing_work d ≡ 0) }
    ensures stack { m.new.stack ≡ m.old.stack }
{
    let raise = Raise::from_ascii(m.alloc, ExcClass::TypeError, "bad decorator")?;
    m.raise(raise, Origin::Code)
}

/// Binds what is defined to its name behind its decorators, which apply from the bottom to the top.
pub fn define_as(
    m: &mut Machine,
    ds: &[Value],
    name: &SrcText,
    v: Value,
) -> Result<NextAction, OutOfMemory>
    ensures next { IfOk result (λ d. todo d m.new ≡ world.define_as ds.now name.now v (site_now m.old) (state_of m.old) (machine_rest m.old)) }
    ensures left { m.new.left ≡ m.old.left }
    ensures work { IfOk result (λ d. doing_work d ≡ 0) }
    ensures stack { m.new.stack ≡ m.old.stack }
{
    match decorate_all(m.alloc, &mut m.heap, ds, v)? {
        Some(v) => store(m, name, v),
        None => refuse(m),
    }
}
