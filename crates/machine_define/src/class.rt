// Classes are defined (Language Reference, class definitions).

ghost use Rattle.std.specs.Prelude.{◌≡◌, ◌+◌, ◌<◌, ◌≤◌, IfOk, length};
ghost use Rattle.py_core.specs.declared.stmt.CoreClass.{out-CoreClass};
ghost use Rattle.machine_state.specs.py_world.Definitions as world;
ghost use Rattle.py_kinds.specs.Classes.{is_exc_class};
ghost use Rattle.machine_state.specs.py_world.Expressions as expressions;
ghost use Rattle.machine_state.specs.core_meaning.Expressions.{parts_of};
ghost use Rattle.machine_state.specs.core_meaning.Statements as meaning;
ghost use Rattle.machine_define.specs.Bases.{base_found};
ghost use Rattle.machine_state.specs.Definings.{core_class_behind, core_class_made};
ghost use Rattle.machine_state.specs.Frames.{machine_rest, site_now, state_of, todo};
ghost use Rattle.machine_state.specs.Places.{home_in, parts_from, path_in};
ghost use Rattle.machine_state.specs.Work.{class_work, doing_work, some_weight, stack_work, weight_from};

use machine_immediate::part::next_argument;
use machine_state::frame::{DefineFrame, Frame};
use machine_state::machine::{Machine, NextAction};
use machine_state::place::Place;
use machine_unwind::{begin_body, raise};
use py_core::{CoreClass, CoreExpr};
use py_kinds::classes;
use py_values::class::ClassForm;
use py_values::heap::Heap;
use py_values::names::Names;
use py_values::object::{ClassObj, Obj};
use py_values::rows::Values;
use py_values::value::{ObjId, Value};
use seq::{OutOfMemory, PyText};
use std::rc::Rc;

/// The object of a class that is defined here, without names.
fn object_of(m: &Machine, class: &CoreClass, base: Option<ObjId>) -> Result<Obj, OutOfMemory>
    ensures { IfOk result (λ o. o ≡ world.source_class (out-CoreClass class.now).name (out-CoreClass class.now).at.line base (site_now m.now).scene) }
{
    let path = PyText::from_chars(m.alloc, m.here.path().chars())?;
    let name = PyText::from_chars(m.alloc, class.name.chars())?;
    Ok(Obj::Class(ClassObj {
        path,
        name,
        line: class.at.line,
        form: ClassForm::Source,
        base,
        marks: Values::new(m.alloc),
        names: Names::new(m.alloc),
    }))
}

/// The place of a class's body, whose object stands at a place of the heap.
fn place_of(m: &Machine, class: &CoreClass, at: usize) -> Result<Place, OutOfMemory>
    ensures { IfOk result (λ p. p ≡ Place.Class (path_in m.now.here.place) (out-CoreClass class.now).name (home_in m.now.here.place) at) }
{
    let path = PyText::from_chars(m.alloc, m.here.path().chars())?;
    let name = class.name.clone()?;
    Ok(Place::Class(path, name, m.here.home(), at))
}

/// Makes a class, and begins its body.
fn make_class(
    m: &mut Machine,
    class: &CoreClass,
    ds: Vec<Value>,
    base: Option<ObjId>,
) -> Result<NextAction, OutOfMemory>
    ensures next { IfOk result (λ d. todo d m.new ≡ core_class_made class.now ds.items base (site_now m.old) (state_of m.old) (machine_rest m.old)) }
    ensures left { m.new.left ≡ m.old.left }
    ensures work { IfOk result (λ d. doing_work d + stack_work m.new < class_work class.now + stack_work m.old) }
{
    let object = object_of(m, class, base)?;
    let id = m.heap.add(object)?;
    let place = place_of(m, class, id.at)?;
    let body = class.body.clone()?;
    let name = class.name.clone()?;
    let frame = DefineFrame::Body(ds, name, id.at);
    m.stack.push(Frame::Define(frame))?;
    begin_body(m, place, body)
}

/// The base that a value is, where it is a class of exceptions.
fn base_of(heap: &Heap, v: Value) -> Option<ObjId>
    ensures { result ≡ base_found (is_exc_class heap.now v) v }
{
    match v {
        Value::Ref(id) => {
            if classes::is_exc_class(heap, v) {
                Some(id)
            } else {
                None
            }
        }
        Value::None | Value::Bool(_) | Value::Int(_) => None,
    }
}

/// Makes a class on its base, which must be a class of exceptions.
pub fn take_base(
    m: &mut Machine,
    class: &CoreClass,
    ds: Vec<Value>,
    base: Value,
) -> Result<NextAction, OutOfMemory>
    ensures next { IfOk result (λ d. todo d m.new ≡ world.based_on (is_exc_class m.old.heap base) base (site_now m.old) (state_of m.old) (machine_rest m.old)
        (λ b s. core_class_made class.now ds.items b (site_now m.old) s (machine_rest m.old))) }
    ensures left { m.new.left ≡ m.old.left }
    ensures work { IfOk result (λ d. doing_work d + stack_work m.new < class_work class.now + stack_work m.old) }
{
    match base_of(&m.heap, base) {
        Some(id) => make_class(m, class, ds, Some(id)),
        None => raise::refuse(m),
    }
}

/// Goes on behind the decorators of a class: the base comes next, where there is one.
fn begin_base(
    m: &mut Machine,
    base: Option<Rc<CoreExpr>>,
    class: Rc<CoreClass>,
    ds: Vec<Value>,
) -> Result<NextAction, OutOfMemory>
    ensures next { IfOk result (λ d. todo d m.new ≡ core_class_behind (meaning.some_part base) class.value ds.items (site_now m.old) (state_of m.old) (machine_rest m.old)) }
    ensures left { m.new.left ≡ m.old.left }
    ensures work { IfOk result (λ d. doing_work d + stack_work m.new ≤ some_weight base + class_work class.value + stack_work m.old) }
{
    match base {
        Some(e) => {
            let frame = DefineFrame::Base(ds, class);
            m.stack.push(Frame::Define(frame))?;
            Ok(NextAction::Evaluate(e))
        }
        None => make_class(m, &class, ds, None),
    }
}

/// Goes on with the decorators behind those whose values are there, from top to bottom, and then the base.
pub fn next_decorator(
    m: &mut Machine,
    ds: Rc<Vec<Rc<CoreExpr>>>,
    base: Option<Rc<CoreExpr>>,
    class: Rc<CoreClass>,
    so_far: Vec<Value>,
) -> Result<NextAction, OutOfMemory>
    ensures next { IfOk result (λ d. todo d m.new ≡ expressions.arguments (parts_from (length so_far.items) ds) so_far.items (site_now m.old) (state_of m.old) (machine_rest m.old)
        (λ vs s. core_class_behind (meaning.some_part base) class.value vs (site_now m.old) s (machine_rest m.old))) }
    ensures left { m.new.left ≡ m.old.left }
    ensures work { IfOk result (λ d. doing_work d + stack_work m.new ≤ weight_from (length so_far.items) ds + some_weight base + class_work class.value + stack_work m.old) }
{
    match next_argument(&ds, &so_far)? {
        Some(e) => {
            let frame = DefineFrame::ClassDecorator(ds, base, class, so_far);
            m.stack.push(Frame::Define(frame))?;
            Ok(NextAction::Evaluate(e))
        }
        None => begin_base(m, base, class, so_far),
    }
}

/// The same base, where there is one.
fn copy_base(base: &Option<Rc<CoreExpr>>) -> Result<Option<Rc<CoreExpr>>, OutOfMemory>
    ensures { IfOk result (λ b. meaning.some_part b ≡ meaning.some_part base.now) }
{
    match base {
        Some(e) => Ok(Some(e.clone()?)),
        None => Ok(None),
    }
}

/// Begins the definition of a class.
pub fn begin_class(
    m: &mut Machine,
    ds: &Rc<Vec<Rc<CoreExpr>>>,
    base: &Option<Rc<CoreExpr>>,
    class: &Rc<CoreClass>,
) -> Result<NextAction, OutOfMemory>
    ensures next { IfOk result (λ d. todo d m.new ≡ meaning.define_class (parts_of ds.now.value.items) (meaning.some_part base.now) class.now.value (site_now m.old) (state_of m.old) (machine_rest m.old)) }
    ensures left { m.new.left ≡ m.old.left }
{
    let decorators = ds.clone()?;
    let copied = copy_base(base)?;
    let again = class.clone()?;
    let none = Vec::new(m.alloc);
    next_decorator(m, decorators, copied, again, none)
}
