// The errors of operators.

ghost use Rattle.std.specs.Prelude.{◌≡◌, ◌++◌, IfOk, codes};
ghost use Rattle.py_kinds.specs.Kinds as kinds;
ghost use Rattle.py_values.specs.Raises.{text_raise};
ghost use Rattle.py_operands.specs.Faults as faults;
ghost use Rattle.py_operands.specs.Sequences as sequences;

use py_kinds::keys::KeyFault;
use py_kinds::kinds::kind_name;
use py_values::class::ExcClass;
use py_values::end::{Effect, Raise, push_ascii};
use py_values::heap::Heap;
use py_values::value::Value;
use py_values::{OutOfMemory, PyText};
use std::alloc::Global;

/// What fails with a text of ASCII characters, at no cost.
pub fn failed(alloc: Global, class: ExcClass, text: &str) -> Result<Effect, OutOfMemory>
    ensures { IfOk result (λ m. m ≡ Effect.Fail (text_raise class text.now) 0) }
{
    let raise = Raise::from_ascii(alloc, class, text)?;
    Ok(Effect::Fail(raise, 0))
}

/// A `TypeError` that names an operator and the kinds of its operands.
pub fn kinds_error(
    alloc: Global,
    front: &str,
    op: &str,
    between: &str,
    a: &[char],
    b: &[char],
) -> Result<Raise, OutOfMemory>
    ensures { IfOk result (λ r. r ≡ text_raise ExcClass.TypeError
        (front.now ++ (op.now ++ (between.now ++ (a.now ++ (codes "' and '" ++ (b.now ++ codes "'"))))))) }
{
    let mut text = Vec::new(alloc);
    push_ascii(&mut text, front)?;
    push_ascii(&mut text, op)?;
    push_ascii(&mut text, between)?;
    text.extend_from_slice(a)?;
    push_ascii(&mut text, "' and '")?;
    text.extend_from_slice(b)?;
    push_ascii(&mut text, "'")?;
    let raise = Raise::from_chars(alloc, ExcClass::TypeError, &text)?;
    Ok(raise)
}

/// The error of two values that have no order.
pub fn not_supported(
    alloc: Global,
    heap: &Heap,
    op: &str,
    a: Value,
    b: Value,
) -> Result<Raise, OutOfMemory>
    ensures { IfOk result (λ r. r ≡ faults.not_supported op.now (kinds.kind_name heap.now a) (kinds.kind_name heap.now b)) }
{
    let left = kind_name(alloc, heap, a)?;
    let right = kind_name(alloc, heap, b)?;
    kinds_error(
        alloc,
        "'",
        op,
        "' not supported between instances of '",
        left.chars(),
        right.chars(),
    )
}

/// A `TypeError` that names an operator and the kind of its operand.
pub fn kind_error(
    alloc: Global,
    front: &str,
    op: &str,
    between: &str,
    a: &[char],
) -> Result<Raise, OutOfMemory>
    ensures { IfOk result (λ r. r ≡ text_raise ExcClass.TypeError (front.now ++ (op.now ++ (between.now ++ (a.now ++ codes "'"))))) }
{
    let mut text = Vec::new(alloc);
    push_ascii(&mut text, front)?;
    push_ascii(&mut text, op)?;
    push_ascii(&mut text, between)?;
    text.extend_from_slice(a)?;
    push_ascii(&mut text, "'")?;
    let raise = Raise::from_chars(alloc, ExcClass::TypeError, &text)?;
    Ok(raise)
}

/// A `TypeError` whose text is the kind of a value between two others.
fn about_kind(
    alloc: Global,
    heap: &Heap,
    front: &str,
    v: Value,
    back: &str,
) -> Result<Raise, OutOfMemory>
    ensures { IfOk result (λ r. r ≡ text_raise ExcClass.TypeError (front.now ++ (kinds.kind_name heap.now v ++ back.now))) }
{
    let mut text = Vec::new(alloc);
    push_ascii(&mut text, front)?;
    let kind = kind_name(alloc, heap, v)?;
    text.extend_from_slice(kind.chars())?;
    push_ascii(&mut text, back)?;
    let raise = Raise::from_chars(alloc, ExcClass::TypeError, &text)?;
    Ok(raise)
}

/// The `RecursionError` of what lies too deep.
pub fn too_deep(alloc: Global) -> Result<Raise, OutOfMemory>
    ensures { IfOk result (λ r. r ≡ faults.too_deep) }
{
    Raise::from_ascii(alloc, ExcClass::RecursionError, "nesting too deep")
}

/// The `TypeError` of a value that is iterated over and can't be.
pub fn not_iterable(alloc: Global, heap: &Heap, v: Value) -> Result<Raise, OutOfMemory>
    ensures { IfOk result (λ r. r ≡ faults.not_iterable (kinds.kind_name heap.now v)) }
{
    about_kind(alloc, heap, "'", v, "' object is not iterable")
}

/// The `TypeError` of a value that has no subscripts.
pub fn not_subscriptable(alloc: Global, heap: &Heap, v: Value) -> Result<Raise, OutOfMemory>
    ensures { IfOk result (λ r. r ≡ faults.not_subscriptable (kinds.kind_name heap.now v)) }
{
    about_kind(alloc, heap, "'", v, "' object is not subscriptable")
}

/// Why a value is no key.
pub fn key_fault(alloc: Global, heap: &Heap, fault: KeyFault) -> Result<Raise, OutOfMemory>
    ensures { IfOk result (λ r. r ≡ faults.key_fault heap.now fault) }
{
    match fault {
        KeyFault::Unhashable(v) => about_kind(alloc, heap, "unhashable type: '", v, "'"),
        KeyFault::TooDeep => too_deep(alloc),
    }
}

/// A key that a dict hasn't is the exception's argument.
pub fn no_key(alloc: Global, key: Value) -> Result<Raise, OutOfMemory>
    ensures { IfOk result (λ r. r ≡ faults.no_key key) }
{
    Ok(Raise {
        class: ExcClass::KeyError,
        text: PyText::from_chars(alloc, &[])?,
        arg: Some(key),
    })
}

/// The `IndexError` of an index past a sequence's ends, at no cost.
pub fn out_of_range(alloc: Global) -> Result<Effect, OutOfMemory>
    ensures { IfOk result (λ m. m ≡ Effect.Fail faults.out_of_range 0) }
{
    failed(alloc, ExcClass::IndexError, "index out of range")
}

/// The `TypeError` of a subscript that is neither a whole number nor a slice, at no cost.
pub fn no_index(alloc: Global) -> Result<Effect, OutOfMemory>
    ensures { IfOk result (λ m. m ≡ Effect.Fail faults.no_index 0) }
{
    failed(alloc, ExcClass::TypeError, "index must be a number")
}

/// The error that a sequence would be too long, behind so many steps.
pub fn too_long(alloc: Global, cost: u64) -> Result<Effect, OutOfMemory>
    ensures { IfOk result (λ m. m ≡ sequences.too_long cost) }
{
    let raise = Raise::from_ascii(alloc, ExcClass::MemoryError, "sequence too long")?;
    Ok(Effect::Fail(raise, cost))
}
