// What decorators make (which values are decorators is pytest's).

ghost use Rattle.std.specs.Prelude.{◌≡◌, IfOk, OnOk, codes};
ghost use Rattle.py_items.specs.Items as items;
ghost use Rattle.py_values.specs.Names.{name_eq};
ghost use Rattle.py_world.specs.Definitions as world;
ghost use Rattle.machine_decorate.specs.Decorations.{decorable_of, decoration_of};

use py_items::subscript::object_at;
use py_values::builtin::{Builtin, PytestCall};
use py_values::heap::Heap;
use py_values::object::{FixtureObj, FixtureScope, MarkObj, Obj};
use py_values::rows::Values;
use py_values::value::Value;
use seq::{OutOfMemory, PyText};
use std::alloc::Global;

/// What is decorated.
#[derive(Clone, Copy, PartialEq, Eq)]
enum Decorable {
    Function,
    Class,
    Fixture,
    Other,
}

/// What a decorator makes of a value.
#[derive(Drop)]
pub enum Decoration {
    /// A new object.
    Replaced(Obj),
    /// The same value, with the decorator among its marks.
    Marked,
    Same,
    Refused,
}

fn kind_of(heap: &Heap, v: Value) -> Decorable
    ensures { decorable_of result ≡ world.decorable (items.object_at heap.now v) }
{
    match object_at(heap, v) {
        Some(Obj::Function(_)) => Decorable::Function,
        Some(Obj::Class(_)) => Decorable::Class,
        Some(Obj::Fixture(_)) => Decorable::Fixture,
        Some(
            Obj::Text(_)
            | Obj::List(_)
            | Obj::Tuple(_)
            | Obj::Dict(_)
            | Obj::Range(_)
            | Obj::Method(_)
            | Obj::Builtin(_)
            | Obj::Instance(_)
            | Obj::Exception(_)
            | Obj::Module(_)
            | Obj::MarkMaker
            | Obj::Mark(_)
            | Obj::Hook(_)
            | Obj::Param(_)
            | Obj::Request(_)
            | Obj::Raises(_)
            | Obj::Info(_)
            | Obj::Item(_),
        )
        | None => Decorable::Other,
    }
}

fn copy_values(alloc: Global, values: &Option<Values>) -> Result<Option<Values>, OutOfMemory>
    ensures { IfOk result (λ vs. vs ≡ values.now) }
{
    match values {
        Some(values) => {
            let mut all = Vec::new(alloc);
            all.extend_from_slice(values.items())?;
            Ok(Some(Values::from_vec(all)))
        }
        None => Ok(None),
    }
}

fn copy_name(alloc: Global, name: &Option<PyText>) -> Result<Option<PyText>, OutOfMemory>
    ensures { IfOk result (λ n. n ≡ name.now) }
{
    match name {
        Some(name) => Ok(Some(PyText::from_chars(alloc, name.chars())?)),
        None => Ok(None),
    }
}

/// A fixture with this function, where it is one.
fn fixture_of(alloc: Global, fixture: &FixtureObj, v: Value) -> Result<Obj, OutOfMemory>
    ensures { IfOk result (λ o. o ≡ world.fixture_of v fixture.now) }
{
    let function = match v {
        Value::Ref(id) => Some(id),
        Value::None | Value::Bool(_) | Value::Int(_) => fixture.function,
    };
    Ok(Obj::Fixture(FixtureObj {
        function,
        scope: fixture.scope,
        params: copy_values(alloc, &fixture.params)?,
        autouse: fixture.autouse,
        ids: copy_values(alloc, &fixture.ids)?,
        name: copy_name(alloc, &fixture.name)?,
    }))
}

/// A fixture that was applied to no function yet takes one.
fn by_fixture(
    alloc: Global,
    fixture: &FixtureObj,
    v: Value,
    kind: Decorable,
) -> Result<Decoration, OutOfMemory>
    ensures { IfOk result (λ d. decoration_of d ≡ world.by_fixture fixture.now.function fixture.now v (decorable_of kind)) }
{
    if fixture.function.is_some() {
        return Ok(Decoration::Refused);
    }
    match kind {
        Decorable::Function => Ok(Decoration::Replaced(fixture_of(alloc, fixture, v)?)),
        Decorable::Class | Decorable::Fixture | Decorable::Other => Ok(Decoration::Refused),
    }
}

fn is_parametrize(name: &PyText) -> bool
    ensures { result ≡ name_eq name.now (codes "parametrize") }
{
    name.chars() == ['p', 'a', 'r', 'a', 'm', 'e', 't', 'r', 'i', 'z', 'e'].as_slice()
}

fn is_skipif(name: &PyText) -> bool
    ensures { result ≡ name_eq name.now (codes "skipif") }
{
    name.chars() == ['s', 'k', 'i', 'p', 'i', 'f'].as_slice()
}

/// Whether a mark lacks the arguments that it needs.
fn is_bare(mark: &MarkObj) -> bool
    ensures { result ≡ world.is_bare mark.now }
{
    if mark.called {
        return false;
    }
    is_parametrize(&mark.name) || is_skipif(&mark.name)
}

fn by_mark(bare: bool, kind: Decorable) -> Decoration
    ensures { decoration_of result ≡ world.by_mark bare (decorable_of kind) }
{
    if bare {
        return Decoration::Refused;
    }
    match kind {
        Decorable::Function | Decorable::Class => Decoration::Marked,
        Decorable::Fixture => Decoration::Same,
        Decorable::Other => Decoration::Refused,
    }
}

fn by_hook(kind: Decorable) -> Decoration
    ensures { decoration_of result ≡ world.by_hook (decorable_of kind) }
{
    match kind {
        Decorable::Function => Decoration::Marked,
        Decorable::Class | Decorable::Fixture | Decorable::Other => Decoration::Refused,
    }
}

/// What `fixture` makes of a value without a call.
fn by_bare_fixture(alloc: Global, v: Value, kind: Decorable) -> Result<Decoration, OutOfMemory>
    ensures { IfOk result (λ d. decoration_of d ≡ world.by_fixture None world.bare_fixture v (decorable_of kind)) }
{
    let fixture = FixtureObj {
        function: None,
        scope: FixtureScope::Function,
        params: None,
        autouse: false,
        ids: None,
        name: None,
    };
    by_fixture(alloc, &fixture, v, kind)
}

ghost use Rattle.std.specs.Prelude.{None};

/// What a function of pytest makes of a value without a call.
fn by_pytest(
    alloc: Global,
    which: PytestCall,
    v: Value,
    kind: Decorable,
) -> Result<Decoration, OutOfMemory>
    ensures { IfOk result (λ d. decoration_of d ≡ world.by_pytest which v (decorable_of kind)) }
{
    match which {
        PytestCall::Fixture => by_bare_fixture(alloc, v, kind),
        PytestCall::Fail
        | PytestCall::HookImpl
        | PytestCall::Param
        | PytestCall::Raises
        | PytestCall::Skip => Ok(Decoration::Refused),
    }
}

/// What a built-in function makes of a value without a call.
fn by_builtin(
    alloc: Global,
    which: Builtin,
    v: Value,
    kind: Decorable,
) -> Result<Decoration, OutOfMemory>
    ensures { IfOk result (λ d. decoration_of d ≡ world.by_builtin which v (decorable_of kind)) }
{
    match which {
        Builtin::Pytest(which) => by_pytest(alloc, which, v, kind),
        Builtin::Print
        | Builtin::Len
        | Builtin::Str
        | Builtin::Sequence(_)
        | Builtin::Number(_)
        | Builtin::Object(_)
        | Builtin::Text(_)
        | Builtin::List(_)
        | Builtin::Tuple(_)
        | Builtin::Dict(_)
        | Builtin::AddFinalizer => Ok(Decoration::Refused),
    }
}

/// What a decorator makes of a value of this kind.
fn decoration_by(
    alloc: Global,
    heap: &Heap,
    d: Value,
    v: Value,
    kind: Decorable,
) -> Result<Decoration, OutOfMemory>
    ensures { IfOk result (λ x. decoration_of x ≡ world.decoration_by (items.object_at heap.now d) v (decorable_of kind)) }
{
    match object_at(heap, d) {
        Some(Obj::Builtin(x)) => by_builtin(alloc, x.which, v, kind),
        Some(Obj::Fixture(x)) => by_fixture(alloc, x, v, kind),
        Some(Obj::Mark(x)) => Ok(by_mark(is_bare(x), kind)),
        Some(Obj::Hook(_)) => Ok(by_hook(kind)),
        Some(
            Obj::Text(_)
            | Obj::List(_)
            | Obj::Tuple(_)
            | Obj::Dict(_)
            | Obj::Range(_)
            | Obj::Function(_)
            | Obj::Method(_)
            | Obj::Class(_)
            | Obj::Instance(_)
            | Obj::Exception(_)
            | Obj::Module(_)
            | Obj::MarkMaker
            | Obj::Param(_)
            | Obj::Request(_)
            | Obj::Raises(_)
            | Obj::Info(_)
            | Obj::Item(_),
        )
        | None => Ok(Decoration::Refused),
    }
}

/// What a decorator makes of a value.
#[tactic(auto, unfolding(py_world::specs::Definitions::decoration))]
pub fn decoration_for(
    alloc: Global,
    heap: &Heap,
    d: Value,
    v: Value,
) -> Result<Decoration, OutOfMemory>
    ensures { IfOk result (λ x. decoration_of x ≡ world.decoration heap.now d v) }
{
    decoration_by(alloc, heap, d, v, kind_of(heap, v))
}

/// Puts a mark behind those of a function or a class.
fn mark_of(obj: &mut Obj, d: Value) -> Result<(), OutOfMemory>
    ensures { OnOk result (obj.new ≡ world.with_added_mark d obj.old) }
{
    match obj {
        Obj::Function(x) => x.marks.push(d),
        Obj::Class(x) => x.marks.push(d),
        _ => Ok(()),
    }
}

/// Puts a mark behind those of the function or class that a value is.
pub fn mark(heap: &mut Heap, d: Value, v: Value) -> Result<(), OutOfMemory>
    ensures { OnOk result (heap.new ≡ world.marked_at d v heap.old) }
{
    let Value::Ref(id) = v else {
        return Ok(());
    };
    if id.at >= heap.len() {
        return Ok(());
    }
    mark_of(heap.obj_mut(id), d)
}
