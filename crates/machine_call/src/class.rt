// Calls of classes: an instance is made, and its `__init__` is called.

ghost use Rattle.std.specs.Prelude.{◌≡◌, ◌≤◌, IfOk, is_some, option_copied, slice_get};
ghost use Rattle.py_kinds.specs.Kinds.{kind_name};
ghost use Rattle.py_values.specs.declared.value.Value.TheVariants as val;
ghost use Rattle.machine_state.specs.py_world.Calls as world;
ghost use Rattle.machine_state.specs.py_world.World.{with_heap};
ghost use Rattle.machine_state.specs.core_meaning.Statements.{entry};
ghost use Rattle.machine_state.specs.Places.{arguments_in};
ghost use Rattle.machine_state.specs.Frames.{around_by, machine_rest, state_of, todo};
ghost use Rattle.machine_call.specs.Depth.{Ready};
ghost use Rattle.machine_call.specs.Called.{bare_called, bare_misfit, call_rest, called_class, Calls};

use crate::enter::{not_callable, refuse};
use crate::objects::{call_object, call_with};
use machine_arguments::arguments::raise_misfit;
use machine_items::exceptions::class_by;
use machine_state::arguments::CallArguments;
use machine_state::frame::{End, Frame};
use machine_state::machine::{Machine, NextAction, Origin, TurnEnd};
use py_attributes::classes::init_of;
use py_kinds::classes::is_exc_class;
use py_values::class::ClassForm;
use py_values::end::Raise;
use py_values::heap::Heap;
use py_values::names::Names;
use py_values::object::{ClassObj, InstanceObj, Obj};
use py_values::rows::Values;
use py_values::throw::throw_with;
use py_values::value::{ObjId, Value};
use seq::OutOfMemory;
use std::alloc::Global;

/// How far a call is.
#[derive(Drop)]
pub enum CallProgress {
    /// A turn goes on with it.
    Over(TurnEnd),
    /// This class is its `__init__`, which is called with a step.
    Again(Value),
}

/// The class of this form, where it is one of the sources or of exceptions.
fn by_form(class: &ClassObj) -> Option<&ClassObj>
    ensures { option_copied result ≡ called_class (Some (obj.Class class.now)) }
{
    match class.form {
        ClassForm::Source => Some(class),
        ClassForm::Exception(_) => Some(class),
        ClassForm::Kind(_) => None,
    }
}

ghost use Rattle.std.specs.Prelude.{Some};
ghost use Rattle.py_values.specs.declared.object.Obj.TheVariants as obj;

/// The class at a place, where it is one of the sources or of exceptions.
fn class_in(heap: &Heap, id: ObjId) -> Option<&ClassObj>
    ensures { option_copied result ≡ called_class (slice_get heap.now id.at) }
{
    match heap.get(id) {
        Some(Obj::Class(class)) => by_form(class),
        Some(
            Obj::Text(_)
            | Obj::List(_)
            | Obj::Tuple(_)
            | Obj::Dict(_)
            | Obj::Range(_)
            | Obj::Function(_)
            | Obj::Method(_)
            | Obj::Builtin(_)
            | Obj::Instance(_)
            | Obj::Exception(_)
            | Obj::Module(_)
            | Obj::Fixture(_)
            | Obj::MarkMaker
            | Obj::Mark(_)
            | Obj::Hook(_)
            | Obj::Param(_)
            | Obj::Request(_)
            | Obj::Raises(_)
            | Obj::Info(_)
            | Obj::Item(_),
        )
        | None => None,
    }
}

/// Whether a function is at a place.
pub(crate) fn is_function(heap: &Heap, id: ObjId) -> bool
    ensures { result ≡ is_some (world.function_of_object (slice_get heap.now id.at)) }
{
    match heap.get(id) {
        Some(Obj::Function(_)) => true,
        Some(
            Obj::Text(_)
            | Obj::List(_)
            | Obj::Tuple(_)
            | Obj::Dict(_)
            | Obj::Range(_)
            | Obj::Method(_)
            | Obj::Builtin(_)
            | Obj::Class(_)
            | Obj::Instance(_)
            | Obj::Exception(_)
            | Obj::Module(_)
            | Obj::Fixture(_)
            | Obj::MarkMaker
            | Obj::Mark(_)
            | Obj::Hook(_)
            | Obj::Param(_)
            | Obj::Request(_)
            | Obj::Raises(_)
            | Obj::Info(_)
            | Obj::Item(_),
        )
        | None => false,
    }
}

/// Makes an instance of a class; an exception has the arguments by position.
fn new_instance(
    alloc: Global,
    heap: &mut Heap,
    is_exc: bool,
    id: ObjId,
    form: ClassForm,
    args: &[Value],
) -> Result<Value, OutOfMemory>
    ensures { IfOk result (λ v. (v, heap.new) ≡ world.new_instance is_exc id form args.now heap.old) }
{
    if is_exc {
        let mut all = Vec::new(alloc);
        all.extend_from_slice(args)?;
        return throw_with(alloc, heap, class_by(id, form), Values::from_vec(all));
    }
    let instance = InstanceObj {
        class: id,
        names: Names::new(alloc),
    };
    let made = heap.add(Obj::Instance(instance))?;
    Ok(Value::Ref(made))
}

/// Whether a class without `__init__` takes these arguments: a class of exceptions those by position, another one none.
fn class_takes(is_exc: bool, args: &CallArguments) -> bool
    ensures { result ≡ world.class_takes is_exc (arguments_in args.now) }
{
    if is_exc {
        return args.named.is_empty();
    }
    args.plain.is_empty() && args.named.is_empty()
}

/// What is raised where a class without `__init__` doesn't take its arguments.
fn misfit(
    alloc: Global,
    class: &ClassObj,
    is_exc: bool,
    args: &CallArguments,
) -> Result<Option<Raise>, OutOfMemory>
    ensures { IfOk result (λ r. r ≡ bare_misfit (world.class_takes is_exc (arguments_in args.now)) class.now.name) }
{
    if class_takes(is_exc, args) {
        return Ok(None);
    }
    let raise = raise_misfit(alloc, &class.name)?;
    Ok(Some(raise))
}

/// Calls a class without `__init__`.
fn call_bare(
    m: &mut Machine,
    id: ObjId,
    form: ClassForm,
    is_exc: bool,
    misfit: Option<Raise>,
    args: &[Value],
    origin: Origin,
) -> Result<NextAction, OutOfMemory>
    ensures next { IfOk result (λ d. todo d m.new ≡ bare_called misfit (world.new_instance is_exc id form args.now m.old.heap) (around_by origin m.old) (state_of m.old) (call_rest m.old)) }
    ensures left { m.new.left ≡ m.old.left }
{
    match misfit {
        Some(raise) => refuse(m, raise, origin),
        None => {
            let v = new_instance(m.alloc, &mut m.heap, is_exc, id, form, args)?;
            Ok(NextAction::Back(End::Value(v)))
        }
    }
}

/// Calls the object that is the `__init__` of a new instance: a function has the instance before the arguments, all else has the
/// arguments alone.
fn init_object(
    m: &mut Machine,
    id: ObjId,
    v: Value,
    args: &CallArguments,
    origin: Origin,
) -> Result<CallProgress, OutOfMemory>
    requires { Ready origin m.old }
    ensures next { IfOk result (λ c. Calls c origin (arguments_in args.now) m.new m.old.left (world.init_object entry (world.function_of_object (slice_get m.old.heap id.at)) id v (world.not_callable (kind_name m.old.heap (val.Ref id))) (arguments_in args.now) (around_by origin m.old) (state_of m.old) (call_rest m.old))) }
    ensures left { m.new.left ≤ m.old.left }
{
    if is_function(&m.heap, id) {
        let turn = call_with(m, Value::Ref(id), id, v, args, origin)?;
        return Ok(CallProgress::Over(turn));
    }
    match class_in(&m.heap, id) {
        Some(_) => Ok(CallProgress::Again(Value::Ref(id))),
        None => {
            let turn = call_object(m, id, args, origin)?;
            Ok(CallProgress::Over(turn))
        }
    }
}

/// Calls the `__init__` of a new instance.
fn call_init(
    m: &mut Machine,
    init: Value,
    v: Value,
    args: &CallArguments,
    origin: Origin,
) -> Result<CallProgress, OutOfMemory>
    requires { Ready origin m.old }
    ensures next { IfOk result (λ c. Calls c origin (arguments_in args.now) m.new m.old.left (world.init_called entry init v (world.not_callable (kind_name m.old.heap init)) (arguments_in args.now) (around_by origin m.old) (state_of m.old) (call_rest m.old))) }
    ensures left { m.new.left ≤ m.old.left }
{
    match init {
        Value::Ref(id) => init_object(m, id, v, args, origin),
        Value::None | Value::Bool(_) | Value::Int(_) => {
            let doing = not_callable(m, init, origin)?;
            Ok(CallProgress::Over(TurnEnd::Go(doing)))
        }
    }
}

/// Calls a class with an `__init__`.
fn call_with_init(
    m: &mut Machine,
    id: ObjId,
    form: ClassForm,
    is_exc: bool,
    init: Value,
    args: &CallArguments,
    origin: Origin,
) -> Result<CallProgress, OutOfMemory>
    requires { Ready origin m.old }
    ensures next { IfOk result (λ c. Calls c origin (arguments_in args.now) m.new m.old.left (with_init init (world.new_instance is_exc id form args.now.plain.items m.old.heap) (arguments_in args.now) (around_by origin m.old) (state_of m.old) (call_rest m.old))) }
    ensures left { m.new.left ≤ m.old.left }
{
    let v = new_instance(m.alloc, &mut m.heap, is_exc, id, form, &args.plain)?;
    m.stack.push(Frame::New(v))?;
    call_init(m, init, v, args, origin)
}

ghost use Rattle.machine_call.specs.Called.{with_init};

/// Calls the object at a place.
pub(crate) fn call_at(
    m: &mut Machine,
    id: ObjId,
    args: &CallArguments,
    origin: Origin,
) -> Result<CallProgress, OutOfMemory>
    requires { Ready origin m.old }
    ensures next { IfOk result (λ c. Calls c origin (arguments_in args.now) m.new m.old.left (world.invoke entry (val.Ref id) (arguments_in args.now) (around_by origin m.old) (state_of m.old) (call_rest m.old))) }
    ensures left { m.new.left ≤ m.old.left }
{
    match class_in(&m.heap, id) {
        Some(class) => {
            let form = class.form;
            let is_exc = is_exc_class(&m.heap, Value::Ref(id));
            match init_of(m.alloc, &m.heap, id)? {
                Some(init) => call_with_init(m, id, form, is_exc, init, args, origin),
                None => {
                    let misfit = misfit(m.alloc, class, is_exc, args)?;
                    let doing = call_bare(m, id, form, is_exc, misfit, &args.plain, origin)?;
                    Ok(CallProgress::Over(TurnEnd::Go(doing)))
                }
            }
        }
        None => {
            let turn = call_object(m, id, args, origin)?;
            Ok(CallProgress::Over(turn))
        }
    }
}
