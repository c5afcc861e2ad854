// `raises`, `skip` and `fail`.

ghost use Rattle.std.specs.Prelude.{◌≡◌, IfOk, option_copied};
ghost use Rattle.match_pattern.specs.Reading.{pattern_of};
ghost use Rattle.pytest_calls.specs.Raising as raising;

use call_products::product::{Product, failed, plain, wrong};
use match_pattern::{Pattern, PatternFault, read_pattern};
use py_kinds::classes::are_exc_classes;
use py_operands::texts::text_of;
use py_values::class::ExcClass;
use py_values::end::{Effect, Raise};
use py_values::heap::Heap;
use py_values::object::{Obj, RaisesObj};
use py_values::value::{ObjId, Value};
use py_values::{OutOfMemory, PyText};
use pytest_arguments::form::{Argument, bad, named_value};
use pytest_arguments::given::is_text_value;
use seq::Seq;
use std::alloc::Global;

/// The pattern that a text is, where it is one.
pub(crate) fn pattern_in(alloc: Global, text: &[char]) -> Result<Option<Pattern>, OutOfMemory>
    ensures { IfOk result (λ o. o ≡ pattern_of text.now) }
{
    match read_pattern(alloc, text) {
        Ok(pattern) => Ok(Some(pattern)),
        Err(PatternFault::Unsupported) => Ok(None),
        Err(PatternFault::OutOfMemory) => Err(OutOfMemory),
    }
}

fn raises_made(alloc: Global, classes: Value, pattern: Option<PyText>) -> Product
    ensures { result ≡ raising.raises_made classes pattern }
{
    plain(
        alloc,
        Effect::New(Obj::Raises(RaisesObj { classes, pattern }), 0),
    )
}

fn with_pattern(
    alloc: Global,
    classes: Value,
    text: &PyText,
    pattern: Option<Pattern>,
) -> Result<Product, OutOfMemory>
    ensures { IfOk result (λ p. p ≡ raising.with_pattern classes text.now pattern) }
{
    match pattern {
        Some(_) => {
            let text = PyText::from_chars(alloc, text.chars())?;
            Ok(raises_made(alloc, classes, Some(text)))
        }
        None => failed(alloc, ExcClass::ValueError, "unsupported pattern", 0),
    }
}

fn with_match(alloc: Global, classes: Value, text: Option<&PyText>) -> Result<Product, OutOfMemory>
    ensures { IfOk result (λ p. p ≡ raising.with_match classes (option_copied text.entry)) }
{
    match text {
        Some(text) => {
            let pattern = pattern_in(alloc, text.chars())?;
            with_pattern(alloc, classes, text, pattern)
        }
        None => bad(alloc, Argument::Match),
    }
}

fn match_given(
    alloc: Global,
    heap: &Heap,
    classes: Value,
    pattern: Option<Value>,
) -> Result<Product, OutOfMemory>
    ensures { IfOk result (λ p. p ≡ raising.match_given heap.now classes pattern) }
{
    match pattern {
        None | Some(Value::None) => Ok(raises_made(alloc, classes, None)),
        Some(Value::Bool(_) | Value::Int(_)) => bad(alloc, Argument::Match),
        Some(Value::Ref(id)) => with_match(alloc, classes, text_of(heap, Value::Ref(id))),
    }
}

/// A call of `raises` whose form fits (pytest's reference, `pytest.raises`).
pub(crate) fn raises_called(
    alloc: Global,
    heap: &Heap,
    args: &[Value],
    named: &[(PyText, Value)],
) -> Result<Product, OutOfMemory>
    ensures { IfOk result (λ p. p ≡ raising.raises_called heap.now args.now named.now) }
{
    let Some(classes) = args.first() else {
        return wrong(alloc, "raises", 0);
    };
    if are_exc_classes(heap, *classes) {
        match_given(alloc, heap, *classes, named_value(Argument::Match, named))
    } else {
        failed(
            alloc,
            ExcClass::TypeError,
            "exceptions must derive from BaseException",
            0,
        )
    }
}

fn raise_with(alloc: Global, class: ExcClass, v: Value) -> Result<Raise, OutOfMemory>
    ensures { IfOk result (λ r. r ≡ raising.raise_with class v) }
{
    let text = PyText::from_chars(alloc, &[])?;
    Ok(Raise {
        class,
        text,
        arg: Some(v),
    })
}

/// What is raised without a reason: the exception's argument is a new empty text.
fn unreasoned(alloc: Global, class: ExcClass, heap: &Heap) -> Result<Product, OutOfMemory>
    ensures { IfOk result (λ p. p ≡ raising.unreasoned class heap.now) }
{
    let text = PyText::from_chars(alloc, &[])?;
    let mut objects = Vec::new(alloc);
    objects.push(Obj::Text(text))?;
    let raise = raise_with(alloc, class, Value::Ref(ObjId { at: heap.len() }))?;
    Ok(Product {
        objects: Seq::from_vec(objects),
        made: Effect::Fail(raise, 0),
    })
}

/// A call of `skip` or `fail` whose form fits (pytest's reference, functions).
pub(crate) fn outcome_called(
    alloc: Global,
    class: ExcClass,
    heap: &Heap,
    args: &[Value],
) -> Result<Product, OutOfMemory>
    ensures { IfOk result (λ p. p ≡ raising.outcome_called class heap.now args.now) }
{
    let Some(v) = args.first() else {
        return unreasoned(alloc, class, heap);
    };
    if is_text_value(heap, *v) {
        let raise = raise_with(alloc, class, *v)?;
        Ok(plain(alloc, Effect::Fail(raise, 0)))
    } else {
        bad(alloc, Argument::Reason)
    }
}
