// The failure of an assert.

ghost use Rattle.std.specs.Prelude.{◌≡◌, ◌+◌, ◌<◌, IfOk};
ghost use Rattle.machine_unwind.specs.core_meaning.Statements as meaning;
ghost use Rattle.machine_unwind.specs.machine_state.Frames.{machine_rest, site_now, state_of, todo};
ghost use Rattle.machine_unwind.specs.machine_state.Work.{doing_work, stack_work};
ghost use Rattle.machine_simple.specs.Failing.{failure_work};
ghost use Rattle.py_tree.specs.Trees.{tree};
ghost use Rattle.assert_explain.specs.py_world.Explained.{explanation};
ghost use Rattle.assert_explain.specs.py_world.Outcome.{raised_at};
ghost use Rattle.assert_explain.specs.py_world.Statements as world;

use assert_explain::explain as explained_text;
use machine_store::descend;
use machine_unwind::{Frame, Machine, NextAction, Origin, SimpleFrame};
use py_core::{CoreExpr, Expr, Template};
use py_values::class::ExcClass;
use py_values::end::Raise;
use py_values::object::Obj;
use py_values::value::Value;
use seq::{OutOfMemory, PyText};
use std::rc::Rc;

/// Raises the `AssertionError` of a failed assert, with its message where there is one.
pub fn fail(m: &mut Machine, message: Option<Value>) -> Result<NextAction, OutOfMemory>
    ensures next { IfOk result (λ d. todo d m.new ≡ machine_rest m.old (raised_at (world.assertion message) (site_now m.old) (state_of m.old))) }
    ensures left { m.new.left ≡ m.old.left }
    ensures work { IfOk result (λ d. doing_work d ≡ 0) }
    ensures stack { m.new.stack ≡ m.old.stack }
{
    let text = PyText::from_chars(m.alloc, &[])?;
    let raise = Raise {
        class: ExcClass::AssertionError,
        text,
        arg: message,
    };
    m.raise(raise, Origin::Code)
}

/// Begins the failure of an assert.
pub fn begin_failure(
    m: &mut Machine,
    template: &Template,
    message: &Option<Rc<CoreExpr>>,
) -> Result<NextAction, OutOfMemory>
    ensures next { IfOk result (λ d. todo d m.new ≡ meaning.failure template.now message.now (site_now m.old) (state_of m.old) (machine_rest m.old)) }
    ensures left { m.new.left ≡ m.old.left }
    ensures work { IfOk result (λ d. doing_work d + stack_work m.new < failure_work message.now + stack_work m.old) }
{
    match (template, message) {
        (Template::Plain, Some(e)) => descend(m, Frame::Simple(SimpleFrame::Fail), e),
        (Template::Plain, None) => fail(m, None),
        (Template::Explain(shown), Some(e)) => {
            let frame = SimpleFrame::Explain(shown.clone()?);
            descend(m, Frame::Simple(frame), e)
        }
        (Template::Explain(shown), None) => explain(m, shown, None),
    }
}

/// Raises the `AssertionError` of a failed assert whose condition is explained.
pub fn explain(
    m: &mut Machine,
    shown: &Expr,
    message: Option<Value>,
) -> Result<NextAction, OutOfMemory>
    ensures next { IfOk result (λ d. todo d m.new ≡ machine_rest m.old (world.failed_with (explanation (tree shown.now) m.old.temps.items message m.old.heap) (site_now m.old) (state_of m.old))) }
    ensures left { m.new.left ≡ m.old.left }
    ensures work { IfOk result (λ d. doing_work d ≡ 0) }
    ensures stack { m.new.stack ≡ m.old.stack }
{
    let text = explained_text(m.alloc, shown, &m.temps, message, &m.heap)?;
    let id = m.heap.add(Obj::Text(text))?;
    fail(m, Some(Value::Ref(id)))
}
