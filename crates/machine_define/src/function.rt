// Functions are defined (Language Reference, function definitions).

ghost use Rattle.std.specs.Prelude.{◌≡◌, ◌+◌, ◌≤◌, IfOk, length};
ghost use Rattle.machine_state.specs.py_world.Definitions as world;
ghost use Rattle.machine_state.specs.py_world.Expressions as expressions;
ghost use Rattle.py_core.specs.declared.stmt.CoreFn.{out-CoreFn};
ghost use Rattle.machine_state.specs.core_meaning.Expressions.{parts_of};
ghost use Rattle.machine_state.specs.core_meaning.Statements as meaning;
ghost use Rattle.machine_state.specs.Definings.{fn_behind, fn_made};
ghost use Rattle.machine_state.specs.Frames.{machine_rest, site_now, state_of, todo};
ghost use Rattle.machine_state.specs.Places.{own_in, parts_from};
ghost use Rattle.machine_state.specs.Work.{doing_work, stack_work, weight_from};

use crate::decorate::define_as;
use crate::parameters::params_of;
use machine_immediate::part::next_argument;
use machine_state::code::Code;
use machine_state::frame::{DefineFrame, Frame};
use machine_state::machine::{Machine, NextAction};
use py_core::{CoreExpr, CoreFn};
use py_values::object::{FunctionObj, Obj};
use py_values::rows::{Params, Values};
use py_values::value::{ObjId, Value};
use seq::{OutOfMemory, PyText};
use std::rc::Rc;

/// The class in whose body a function is defined.
fn class_of(m: &Machine) -> Option<ObjId>
    ensures { result ≡ world.class_in (own_in m.now.here.place) }
{
    match m.here.class_at() {
        Some(at) => Some(ObjId { at }),
        None => None,
    }
}

/// The code of a function that is defined here.
fn code_of(m: &Machine, function: &Rc<CoreFn>) -> Result<Code, OutOfMemory>
    ensures { IfOk result (λ code. code ≡ world.stored_code function.now.value (site_now m.now).scene) }
{
    let path = PyText::from_chars(m.alloc, m.here.path().chars())?;
    Code::new(m.alloc, path, m.here.home(), function.clone()?)
}

/// The object of a function that is defined here, whose code has this number.
fn object_of(
    m: &Machine,
    function: &Rc<CoreFn>,
    params: Params,
    code: usize,
) -> Result<Obj, OutOfMemory>
    ensures { IfOk result (λ o. o ≡ world.function_object (out-CoreFn function.now.value).name (out-CoreFn function.now.value).at.line params (out-CoreFn function.now.value).yields code (site_now m.now).scene) }
{
    let path = PyText::from_chars(m.alloc, m.here.path().chars())?;
    let name = PyText::from_chars(m.alloc, function.name.chars())?;
    Ok(Obj::Function(FunctionObj {
        path,
        name,
        line: function.at.line,
        params,
        yields: function.yields,
        marks: Values::new(m.alloc),
        class: class_of(m),
        code,
    }))
}

/// Makes a function with the values of its decorators and its defaults.
fn make_function(
    m: &mut Machine,
    function: &Rc<CoreFn>,
    ds: &[Value],
    defaults: &[Value],
) -> Result<NextAction, OutOfMemory>
    ensures next { IfOk result (λ d. todo d m.new ≡ fn_made function.now.value ds.now defaults.now (site_now m.old) (state_of m.old) (machine_rest m.old)) }
    ensures left { m.new.left ≡ m.old.left }
    ensures work { IfOk result (λ d. doing_work d ≡ 0) }
    ensures stack { m.new.stack ≡ m.old.stack }
{
    let at = m.codes.len();
    let code = code_of(m, function)?;
    let params = params_of(m.alloc, &function.params, defaults)?;
    let object = object_of(m, function, params, at)?;
    m.codes.push(code)?;
    let id = m.heap.add(object)?;
    define_as(m, ds, &function.name, Value::Ref(id))
}

/// Goes on with the defaults behind those whose values are there.
pub fn next_default(
    m: &mut Machine,
    ds: Vec<Value>,
    es: Rc<Vec<Rc<CoreExpr>>>,
    function: Rc<CoreFn>,
    so_far: Vec<Value>,
) -> Result<NextAction, OutOfMemory>
    ensures next { IfOk result (λ d. todo d m.new ≡ expressions.arguments (parts_from (length so_far.items) es) so_far.items (site_now m.old) (state_of m.old) (machine_rest m.old)
        (λ vs s. fn_made function.value ds.items vs (site_now m.old) s (machine_rest m.old))) }
    ensures left { m.new.left ≡ m.old.left }
    ensures work { IfOk result (λ d. doing_work d + stack_work m.new ≤ weight_from (length so_far.items) es + stack_work m.old) }
{
    match next_argument(&es, &so_far)? {
        Some(e) => {
            let frame = DefineFrame::Default(ds, es, function, so_far);
            m.stack.push(Frame::Define(frame))?;
            Ok(NextAction::Evaluate(e))
        }
        None => make_function(m, &function, &ds, &so_far),
    }
}

/// Goes on with the decorators behind those whose values are there, from top to bottom, and then the defaults.
pub fn next_decorator(
    m: &mut Machine,
    ds: Rc<Vec<Rc<CoreExpr>>>,
    es: Rc<Vec<Rc<CoreExpr>>>,
    function: Rc<CoreFn>,
    so_far: Vec<Value>,
) -> Result<NextAction, OutOfMemory>
    ensures next { IfOk result (λ d. todo d m.new ≡ expressions.arguments (parts_from (length so_far.items) ds) so_far.items (site_now m.old) (state_of m.old) (machine_rest m.old)
        (λ vs s. fn_behind (parts_from 0 es) function.value vs (site_now m.old) s (machine_rest m.old))) }
    ensures left { m.new.left ≡ m.old.left }
    ensures work { IfOk result (λ d. doing_work d + stack_work m.new ≤ weight_from (length so_far.items) ds + weight_from 0 es + stack_work m.old) }
{
    match next_argument(&ds, &so_far)? {
        Some(e) => {
            let frame = DefineFrame::Decorator(ds, es, function, so_far);
            m.stack.push(Frame::Define(frame))?;
            Ok(NextAction::Evaluate(e))
        }
        None => {
            let none = Vec::new(m.alloc);
            next_default(m, so_far, es, function, none)
        }
    }
}

/// Begins the definition of a function.
pub fn begin_def(
    m: &mut Machine,
    ds: &Rc<Vec<Rc<CoreExpr>>>,
    es: &Rc<Vec<Rc<CoreExpr>>>,
    function: &Rc<CoreFn>,
) -> Result<NextAction, OutOfMemory>
    ensures next { IfOk result (λ d. todo d m.new ≡ meaning.define_fn (parts_of ds.now.value.items) (parts_of es.now.value.items) function.now.value (site_now m.old) (state_of m.old) (machine_rest m.old)) }
    ensures left { m.new.left ≡ m.old.left }
{
    let decorators = ds.clone()?;
    let defaults = es.clone()?;
    let again = function.clone()?;
    let none = Vec::new(m.alloc);
    next_decorator(m, decorators, defaults, again, none)
}
