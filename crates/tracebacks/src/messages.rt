// The texts of exceptions.

ghost use Rattle.std.specs.Prelude.{◌≡◌, ◌++◌, IfOk, codes, take, encode_utf8_all};
ghost use Rattle.tracebacks.specs.Texts as texts;

use py_kinds::kinds::kind_name;
use py_repr::repr::message;
use py_repr::shown::Shown;
use py_values::class::{ClassRef, ExcClass};
use py_values::end::push_ascii;
use py_values::heap::Heap;
use py_values::object::Obj;
use py_values::value::Value;
use report_parts::Text;
use seq::{OutOfMemory, PyText};
use std::alloc::Global;

/// The characters of a message that are shown, and those that are left where it is cut.
const MOST: usize = 65_536;

const LEFT: usize = MOST - 3;

/// A message that is longer than what is shown of it.
fn shortened(text: Vec<char>) -> Result<Vec<char>, OutOfMemory>
    ensures { IfOk result (λ t. t.items ≡ take texts.left_told text.items ++ codes "...") }
{
    let mut text = text;
    text.truncate(LEFT);
    push_ascii(&mut text, "...")?;
    Ok(text)
}

/// A message as it is shown.
fn message_text(alloc: Global, shown: &Shown) -> Result<Vec<char>, OutOfMemory>
    ensures { IfOk result (λ t. t.items ≡ texts.message_text shown.now) }
{
    let text = Vec::from_slice(alloc, shown.text.chars())?;
    if shown.cut {
        return shortened(text);
    }
    Ok(text)
}

/// The class of an exception; none of what is no exception.
fn class_of(heap: &Heap, exc: Value) -> Option<ClassRef>
    ensures { result ≡ texts.class_of heap.now exc }
{
    let Value::Ref(id) = exc else {
        return None;
    };
    match heap.get(id) {
        Some(Obj::Exception(exception)) => Some(exception.class),
        Some(
            Obj::Text(_)
            | Obj::List(_)
            | Obj::Tuple(_)
            | Obj::Dict(_)
            | Obj::Range(_)
            | Obj::Function(_)
            | Obj::Method(_)
            | Obj::Builtin(_)
            | Obj::Class(_)
            | Obj::Instance(_)
            | Obj::Module(_)
            | Obj::Fixture(_)
            | Obj::MarkMaker
            | Obj::Mark(_)
            | Obj::Hook(_)
            | Obj::Param(_)
            | Obj::Request(_)
            | Obj::Raises(_)
            | Obj::Info(_)
            | Obj::Item(_),
        )
        | None => None,
    }
}

/// Whether the class is that of a failed assert.
fn is_assertion(class: Option<ClassRef>) -> bool
    ensures { result ≡ texts.is_assertion class }
{
    match class {
        Some(ClassRef::Builtin(c)) => c == ExcClass::AssertionError,
        Some(ClassRef::Defined(_)) | None => false,
    }
}

fn class_and_message(
    alloc: Global,
    name: &[char],
    assertion: bool,
    message: &[char],
) -> Result<PyText, OutOfMemory>
    ensures { IfOk result (λ t. t ≡ texts.class_and_message name.now assertion message.now) }
{
    if message.is_empty() {
        return PyText::from_chars(alloc, name);
    }
    if assertion && message.starts_with(&['a', 's', 's', 'e', 'r', 't', ' ']) {
        return PyText::from_chars(alloc, message);
    }
    let mut text = Vec::from_slice(alloc, name)?;
    push_ascii(&mut text, ": ")?;
    text.extend_from_slice(message)?;
    Ok(PyText::from_vec(text))
}

/// The text of an exception.
#[tactic(auto, unfolding(crate::specs::Texts::exception_text))]
pub fn exception_text(alloc: Global, heap: &Heap, exc: Value) -> Result<PyText, OutOfMemory>
    ensures { IfOk result (λ t. t ≡ texts.exception_text heap.now exc) }
{
    let shown = message(alloc, heap, exc, MOST)?;
    let message = message_text(alloc, &shown)?;
    let name = kind_name(alloc, heap, exc)?;
    let assertion = is_assertion(class_of(heap, exc));
    class_and_message(alloc, name.chars(), assertion, &message)
}

/// The text of the exception that an exhausted call has raised.
pub fn limit_text(alloc: Global, limit: u64) -> Result<PyText, OutOfMemory>
    ensures { IfOk result (λ t. t ≡ texts.limit_text limit) }
{
    let text = format!(in alloc; "StepLimit: step limit of {limit} reached")?;
    let mut chars = Vec::new(alloc);
    push_ascii(&mut chars, text.as_str())?;
    PyText::from_chars(alloc, &chars)
}
