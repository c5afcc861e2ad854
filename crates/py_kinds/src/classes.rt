// Classes, and what is an instance of which.

ghost use Rattle.std.specs.Prelude.{◌≡◌, length, slice_get, option_copied};
ghost use Rattle.std.specs.List.{list_any, list_all};
ghost use Rattle.py_values.specs.declared.value.Value.TheVariants as val;
ghost use Rattle.py_kinds.specs.Classes as classes;

use py_values::builtin::{Builtin, NumberCall, SequenceCall};
use py_values::class::{ClassForm, ClassRef, ExcClass};
use py_values::heap::Heap;
use py_values::object::Obj;
use py_values::value::{ObjId, Value};

/// The base of a built-in class of exceptions.
pub fn exc_base(class: ExcClass) -> Option<ExcClass>
    ensures { result ≡ classes.exc_base class }
{
    match class {
        ExcClass::BaseException => None,
        ExcClass::Exception | ExcClass::Skipped | ExcClass::Failed | ExcClass::StepLimit => {
            Some(ExcClass::BaseException)
        }
        ExcClass::OverflowError | ExcClass::ZeroDivisionError => Some(ExcClass::ArithmeticError),
        ExcClass::ModuleNotFoundError => Some(ExcClass::ImportError),
        ExcClass::IndexError | ExcClass::KeyError => Some(ExcClass::LookupError),
        ExcClass::UnboundLocalError => Some(ExcClass::NameError),
        ExcClass::NotImplementedError | ExcClass::RecursionError => Some(ExcClass::RuntimeError),
        ExcClass::ArithmeticError
        | ExcClass::AssertionError
        | ExcClass::AttributeError
        | ExcClass::ImportError
        | ExcClass::LookupError
        | ExcClass::MemoryError
        | ExcClass::NameError
        | ExcClass::RuntimeError
        | ExcClass::SyntaxError
        | ExcClass::TypeError
        | ExcClass::ValueError => Some(ExcClass::Exception),
    }
}

/// Whether a built-in class of exceptions is another, or stands on it.
#[tactic(auto, using(crate::proofs::Walking::exc_step))]
pub fn exc_below(class: ExcClass, other: ExcClass) -> bool
    ensures { result ≡ classes.exc_below class other }
{
    let mut at = class;
    for _ in 0..4usize {
        if at == other {
            return true;
        }
        match exc_base(at) {
            Some(next) => at = next,
            None => return false,
        }
    }
    false
}

/// The base of a class of the heap.
pub fn base_of(obj: Option<&Obj>) -> Option<ObjId>
    ensures { result ≡ classes.base_of (option_copied obj.entry) }
{
    match obj {
        Some(Obj::Class(c)) => c.base,
        _ => None,
    }
}

fn form_of(obj: Option<&Obj>) -> Option<ClassForm>
    ensures { result ≡ classes.form_of (option_copied obj.entry) }
{
    match obj {
        Some(Obj::Class(c)) => Some(c.form),
        _ => None,
    }
}

/// Whether a class of the heap is another, or stands on it.
#[tactic(auto, using(crate::proofs::Walking::stands_step))]
pub fn stands_on(heap: &Heap, class: ObjId, other: ObjId) -> bool
    ensures { result ≡ classes.stands_on (length heap.now) heap.now class other }
{
    let mut at = class;
    for _ in 0..heap.len() {
        if at.at == other.at {
            return true;
        }
        match base_of(heap.get(at)) {
            Some(next) => at = next,
            None => return false,
        }
    }
    false
}

fn exc_form(form: Option<ClassForm>) -> Option<ExcClass>
    ensures { result ≡ classes.exc_form form }
{
    match form {
        Some(ClassForm::Exception(c)) => Some(c),
        Some(ClassForm::Source | ClassForm::Kind(_)) | None => None,
    }
}

#[tactic(auto, using(crate::proofs::Walking::root_step))]
fn root_from(heap: &Heap, class: ObjId) -> Option<ExcClass>
    ensures { result ≡ classes.root_within (length heap.now) heap.now class }
{
    let mut at = class;
    for _ in 0..heap.len() {
        if let Some(c) = exc_form(form_of(heap.get(at))) {
            return Some(c);
        }
        match base_of(heap.get(at)) {
            Some(next) => at = next,
            None => return None,
        }
    }
    None
}

/// The built-in class of exceptions that a class is or stands on; none for a class that is no class of exceptions.
pub fn root_of(heap: &Heap, class: ClassRef) -> Option<ExcClass>
    ensures { result ≡ classes.root_of heap.now class }
{
    match class {
        ClassRef::Builtin(c) => Some(c),
        ClassRef::Defined(id) => root_from(heap, id),
    }
}

/// The class of a built-in kind of objects.
fn kind_class(obj: Option<&Obj>) -> Option<Builtin>
    ensures { result ≡ classes.kind_class (option_copied obj.entry) }
{
    match obj {
        Some(Obj::Text(_)) => Some(Builtin::Str),
        Some(Obj::List(_)) => Some(Builtin::Sequence(SequenceCall::List)),
        Some(Obj::Tuple(_)) => Some(Builtin::Sequence(SequenceCall::Tuple)),
        Some(Obj::Dict(_)) => Some(Builtin::Sequence(SequenceCall::Dict)),
        Some(
            Obj::Range(_)
            | Obj::Function(_)
            | Obj::Method(_)
            | Obj::Builtin(_)
            | Obj::Class(_)
            | Obj::Instance(_)
            | Obj::Exception(_)
            | Obj::Module(_)
            | Obj::Fixture(_)
            | Obj::MarkMaker
            | Obj::Mark(_)
            | Obj::Hook(_)
            | Obj::Param(_)
            | Obj::Request(_)
            | Obj::Raises(_)
            | Obj::Info(_)
            | Obj::Item(_),
        )
        | None => None,
    }
}

fn is_class_of(which: Builtin, class: Option<Builtin>) -> bool
    ensures { result ≡ classes.is_class_of which class }
{
    match class {
        Some(class) => class == which,
        None => false,
    }
}

fn is_int(which: Builtin) -> bool
    ensures { result ≡ classes.is_int which }
{
    Builtin::Number(NumberCall::Int) == which
}

/// Whether a value's kind is a built-in one.
fn is_kind(heap: &Heap, which: Builtin, v: Value) -> bool
    ensures { result ≡ classes.is_kind heap.now which v }
{
    match v {
        Value::Ref(id) => is_class_of(which, kind_class(heap.get(id))),
        Value::None => false,
        Value::Bool(_) => Builtin::Number(NumberCall::Bool) == which || is_int(which),
        Value::Int(_) => is_int(which),
    }
}

fn below_form(form: Option<ClassForm>, class: ExcClass) -> bool
    ensures { result ≡ classes.below_form form class }
{
    match form {
        Some(ClassForm::Exception(other)) => exc_below(class, other),
        Some(ClassForm::Source | ClassForm::Kind(_)) | None => false,
    }
}

/// Whether an exception's class is a class of the heap, or stands on it.
pub fn class_below(heap: &Heap, class: ClassRef, other: ObjId) -> bool
    ensures { result ≡ classes.class_below heap.now class other }
{
    match class {
        ClassRef::Builtin(c) => below_form(form_of(heap.get(other)), c),
        ClassRef::Defined(id) => stands_on(heap, id, other),
    }
}

fn kind_form(heap: &Heap, form: Option<ClassForm>, v: Value) -> bool
    ensures { result ≡ classes.kind_form heap.now form v }
{
    match form {
        Some(ClassForm::Kind(which)) => is_kind(heap, which, v),
        Some(ClassForm::Source | ClassForm::Exception(_)) | None => false,
    }
}

fn is_of(heap: &Heap, v: Value, class: ObjId) -> bool
    ensures { result ≡ classes.is_of heap.now v class }
{
    if let Value::Ref(id) = v {
        match heap.get(id) {
            Some(Obj::Instance(x)) => return stands_on(heap, x.class, class),
            Some(Obj::Exception(x)) => return class_below(heap, x.class, class),
            _ => {}
        }
    }
    kind_form(heap, form_of(heap.get(class)), v)
}

#[tactic(auto, unfolding(crate::specs::Classes::is_of_value))]
fn is_of_value(heap: &Heap, v: Value, class: Value) -> bool
    ensures { result ≡ classes.is_of_value heap.now v class }
{
    match class {
        Value::Ref(id) => is_of(heap, v, id),
        Value::None | Value::Bool(_) | Value::Int(_) => false,
    }
}

fn is_of_some(heap: &Heap, v: Value, many: &[Value]) -> bool
    ensures { result ≡ list_any (classes.is_of_value heap.now v) many.now }
{
    many.iter().any(|c| is_of_value(heap, v, *c))
}

/// Whether a value is an instance of a class, or of one of the classes of a tuple (Python library reference, `isinstance`).
#[tactic(auto, unfolding(crate::specs::Classes::is_a))]
pub fn is_a(heap: &Heap, v: Value, class: Value) -> bool
    ensures { result ≡ classes.is_a heap.now v class }
{
    if let Value::Ref(id) = class {
        if let Some(Obj::Tuple(cs)) = heap.get(id) {
            return is_of_some(heap, v, cs.items());
        }
    }
    is_of_value(heap, v, class)
}

/// Whether a value is a class of exceptions.
#[tactic(auto, unfolding(crate::specs::Classes::is_exc_class))]
pub fn is_exc_class(heap: &Heap, v: Value) -> bool
    ensures { result ≡ classes.is_exc_class heap.now v }
{
    match v {
        Value::Ref(id) => root_of(heap, ClassRef::Defined(id)).is_some(),
        Value::None | Value::Bool(_) | Value::Int(_) => false,
    }
}

/// Whether all of these are classes of exceptions.
fn all_exc_classes(heap: &Heap, cs: &[Value]) -> bool
    ensures { result ≡ list_all (classes.is_exc_class heap.now) cs.now }
{
    cs.iter().all(|c| is_exc_class(heap, *c))
}

fn tuple_or(heap: &Heap, id: ObjId) -> bool
    ensures { result ≡ classes.tuple_or heap.now (val.Ref id) (slice_get heap.now id.at) }
{
    match heap.get(id) {
        Some(Obj::Tuple(cs)) => all_exc_classes(heap, cs.items()),
        Some(
            Obj::Text(_)
            | Obj::List(_)
            | Obj::Dict(_)
            | Obj::Range(_)
            | Obj::Function(_)
            | Obj::Method(_)
            | Obj::Builtin(_)
            | Obj::Class(_)
            | Obj::Instance(_)
            | Obj::Exception(_)
            | Obj::Module(_)
            | Obj::Fixture(_)
            | Obj::MarkMaker
            | Obj::Mark(_)
            | Obj::Hook(_)
            | Obj::Param(_)
            | Obj::Request(_)
            | Obj::Raises(_)
            | Obj::Info(_)
            | Obj::Item(_),
        )
        | None => is_exc_class(heap, Value::Ref(id)),
    }
}

/// Whether a value is what an `except` and `raises` may take: a class of exceptions, or a tuple of them.
#[tactic(auto, unfolding(crate::specs::Classes::are_exc_classes))]
pub fn are_exc_classes(heap: &Heap, v: Value) -> bool
    ensures { result ≡ classes.are_exc_classes heap.now v }
{
    match v {
        Value::Ref(id) => tuple_or(heap, id),
        Value::None | Value::Bool(_) | Value::Int(_) => false,
    }
}
