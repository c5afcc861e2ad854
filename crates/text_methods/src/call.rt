// Calls of the methods of texts.

ghost use Rattle.std.specs.Prelude.{◌≡◌, ◌+◌, IfOk, length, map, option_copied};
ghost use Rattle.py_values.specs.declared.object.Obj.TheVariants as obj;
ghost use Rattle.call_products.specs.py_kinds.Kinds as kinds;
ghost use Rattle.text_methods.specs.Joins as joins;
ghost use Rattle.text_methods.specs.Methods as methods;
ghost use Rattle.text_methods.specs.Pieces as pieces;

use crate::chars::{is_digits, lower, stripped, upper};
use crate::joined::{Joined, join_elements};
use crate::pieces::{joined, pieces, words};
use call_products::arguments::{has_none, pair, sole, sole_text};
use call_products::product::{Product, failed, plain, refs, too_long, wrong};
use py_kinds::builtins::text_method_name;
use py_operands::faults::not_iterable;
use py_operands::search::first_place;
use py_operands::texts::text_of;
use py_values::builtin::TextMethod;
use py_values::class::ExcClass;
use py_values::end::Effect;
use py_values::heap::Heap;
use py_values::limits::MOST_ELEMENTS;
use py_values::object::Obj;
use py_values::rows::Values;
use py_values::value::Value;
use py_values::{OutOfMemory, PyText};
use seq::Seq;
use std::alloc::Global;

fn given(alloc: Global, cost: usize, v: Value) -> Product
    ensures { result ≡ methods.given cost v }
{
    plain(alloc, Effect::Give(v, cost as u64))
}

fn new_text(alloc: Global, cost: usize, text: &[char]) -> Result<Product, OutOfMemory>
    ensures { IfOk result (λ p. p ≡ methods.new_text cost text.now) }
{
    let steps = steps_of(cost, text.len())?;
    let made = Effect::New(Obj::Text(PyText::from_chars(alloc, text)?), steps);
    Ok(plain(alloc, made))
}

/// The steps of a text's length and that of what is given. No memory holds both where the sum is no number.
fn steps_of(cost: usize, len: usize) -> Result<u64, OutOfMemory>
    ensures { IfOk result (λ n. n ≡ cost + len) }
{
    match cost.checked_add(len) {
        Some(steps) => Ok(steps as u64),
        None => Err(OutOfMemory),
    }
}

fn text_or_long(alloc: Global, cost: usize, text: Option<PyText>) -> Result<Product, OutOfMemory>
    ensures { IfOk result (λ p. p ≡ methods.text_or_long cost text) }
{
    match text {
        Some(text) => new_text(alloc, cost, text.chars()),
        None => too_long(alloc, cost),
    }
}

fn text_objects(alloc: Global, texts: Vec<PyText>) -> Result<Vec<Obj>, OutOfMemory>
    ensures { IfOk result (λ v. v.items ≡ map obj.Text texts.items) }
{
    let mut objects = Vec::new(alloc);
    for text in texts {
        objects.push(Obj::Text(text))?;
    }
    Ok(objects)
}

fn text_list(
    alloc: Global,
    heap: &Heap,
    cost: usize,
    texts: Vec<PyText>,
) -> Result<Product, OutOfMemory>
    ensures { IfOk result (λ p. p ≡ methods.text_list (length heap.now) cost texts.items) }
{
    let len = texts.len();
    if len > MOST_ELEMENTS {
        return too_long(alloc, cost);
    }
    let steps = steps_of(cost, len)?;
    let values = refs(alloc, heap.len(), len)?;
    let objects = text_objects(alloc, texts)?;
    Ok(Product {
        objects: Seq::from_vec(objects),
        made: Effect::New(Obj::List(Values::from_vec(values)), steps),
    })
}

fn split_by(alloc: Global, heap: &Heap, text: &[char], sep: &[char]) -> Result<Product, OutOfMemory>
    ensures { IfOk result (λ p. p ≡ methods.split_by (length heap.now) text.now sep.now) }
{
    if sep.is_empty() {
        return failed(
            alloc,
            ExcClass::ValueError,
            "value not found",
            text.len() as u64,
        );
    }
    let texts = pieces(alloc, sep, text)?;
    text_list(alloc, heap, text.len(), texts)
}

fn split(
    alloc: Global,
    heap: &Heap,
    text: &[char],
    args: &[Value],
    named: &[(PyText, Value)],
) -> Result<Product, OutOfMemory>
    ensures { IfOk result (λ p. p ≡ methods.split_of heap.now text.now args.now named.now) }
{
    if has_none(args, named) {
        let texts = words(alloc, text)?;
        return text_list(alloc, heap, text.len(), texts);
    }
    match sole_text(heap, args, named) {
        Some(sep) => split_by(alloc, heap, text, sep.chars()),
        None => wrong(alloc, "split", text.len() as u64),
    }
}

fn replace_texts(
    alloc: Global,
    text: &[char],
    old: Option<&PyText>,
    new: Option<&PyText>,
) -> Result<Product, OutOfMemory>
    ensures { IfOk result (λ p. p ≡ methods.replaced text.now (option_copied old.entry) (option_copied new.entry)) }
{
    match (old, new) {
        (Some(old), Some(new)) => {
            let texts = pieces(alloc, old.chars(), text)?;
            let replaced = joined(alloc, new.chars(), &texts)?;
            text_or_long(alloc, text.len(), replaced)
        }
        _ => wrong(alloc, "replace", text.len() as u64),
    }
}

fn replace(
    alloc: Global,
    heap: &Heap,
    text: &[char],
    args: Option<(Value, Value)>,
) -> Result<Product, OutOfMemory>
    ensures { IfOk result (λ p. p ≡ methods.replace_of heap.now text.now args) }
{
    match args {
        Some((old, new)) => replace_texts(alloc, text, text_of(heap, old), text_of(heap, new)),
        None => wrong(alloc, "replace", text.len() as u64),
    }
}

/// What a call of `join` makes of elements that were joined.
fn join_made(
    alloc: Global,
    heap: &Heap,
    v: Value,
    text: &[char],
    all: Joined,
) -> Result<Product, OutOfMemory>
    ensures { IfOk result (λ p. p ≡ joins.join_made (kinds.kind_name heap.now v) text.now all) }
{
    match all {
        Joined::Text(all) => new_text(alloc, text.len(), all.chars()),
        Joined::TooLong => too_long(alloc, text.len()),
        Joined::OtherElements => wrong(alloc, "join", text.len() as u64),
        Joined::NoElements => {
            let raise = not_iterable(alloc, heap, v)?;
            Ok(plain(alloc, Effect::Fail(raise, text.len() as u64)))
        }
    }
}

#[tactic(auto, using(crate::proofs::Joining::join_told))]
fn join(
    alloc: Global,
    heap: &Heap,
    text: &[char],
    arg: Option<Value>,
) -> Result<Product, OutOfMemory>
    ensures { IfOk result (λ p. p ≡ methods.join_of heap.now text.now arg) }
{
    let Some(v) = arg else {
        return wrong(alloc, "join", text.len() as u64);
    };
    let all = join_elements(alloc, heap, text, v)?;
    join_made(alloc, heap, v, text, all)
}

fn place_value(at: Option<usize>) -> Value
    ensures { result ≡ methods.place_value at }
{
    match at {
        Some(at) => Value::Int(at as i128),
        None => Value::Int(-1),
    }
}

fn occurrences(alloc: Global, part: &[char], text: &[char]) -> Result<usize, OutOfMemory>
    ensures { IfOk result (λ n. n ≡ pieces.occurrences part.now text.now) }
{
    let texts = pieces(alloc, part, text)?;
    Ok(texts.len().saturating_sub(1))
}

fn count(alloc: Global, text: &[char], part: Option<&PyText>) -> Result<Product, OutOfMemory>
    ensures { IfOk result (λ p. p ≡ methods.count_of text.now (option_copied part.entry)) }
{
    match part {
        Some(part) => {
            let v = Value::Int(occurrences(alloc, part.chars(), text)? as i128);
            Ok(given(alloc, text.len(), v))
        }
        None => wrong(alloc, "count", text.len() as u64),
    }
}

fn find(alloc: Global, text: &[char], part: Option<&PyText>) -> Result<Product, OutOfMemory>
    ensures { IfOk result (λ p. p ≡ methods.find_of text.now (option_copied part.entry)) }
{
    match part {
        Some(part) => {
            let v = place_value(first_place(alloc, part.chars(), text)?);
            Ok(given(alloc, text.len(), v))
        }
        None => wrong(alloc, "find", text.len() as u64),
    }
}

fn startswith(alloc: Global, text: &[char], part: Option<&PyText>) -> Result<Product, OutOfMemory>
    ensures { IfOk result (λ p. p ≡ methods.startswith_of text.now (option_copied part.entry)) }
{
    match part {
        Some(part) => {
            let v = Value::Bool(text.starts_with(part.chars()));
            Ok(given(alloc, text.len(), v))
        }
        None => wrong(alloc, "startswith", text.len() as u64),
    }
}

fn endswith(alloc: Global, text: &[char], part: Option<&PyText>) -> Result<Product, OutOfMemory>
    ensures { IfOk result (λ p. p ≡ methods.endswith_of text.now (option_copied part.entry)) }
{
    match part {
        Some(part) => {
            let v = Value::Bool(text.ends_with(part.chars()));
            Ok(given(alloc, text.len(), v))
        }
        None => wrong(alloc, "endswith", text.len() as u64),
    }
}

fn isdigit(alloc: Global, text: &[char], alone: bool) -> Result<Product, OutOfMemory>
    ensures { IfOk result (λ p. p ≡ methods.isdigit_of text.now alone) }
{
    if !alone {
        return wrong(alloc, "isdigit", text.len() as u64);
    }
    Ok(given(alloc, text.len(), Value::Bool(is_digits(text))))
}

fn lower_text(alloc: Global, text: &[char], alone: bool) -> Result<Product, OutOfMemory>
    ensures { IfOk result (λ p. p ≡ methods.str_lower text.now alone) }
{
    if !alone {
        return wrong(alloc, "lower", text.len() as u64);
    }
    let chars = lower(alloc, text)?;
    new_text(alloc, text.len(), &chars)
}

fn upper_text(alloc: Global, text: &[char], alone: bool) -> Result<Product, OutOfMemory>
    ensures { IfOk result (λ p. p ≡ methods.upper_of text.now alone) }
{
    if !alone {
        return wrong(alloc, "upper", text.len() as u64);
    }
    let chars = upper(alloc, text)?;
    new_text(alloc, text.len(), &chars)
}

fn strip(alloc: Global, text: &[char], alone: bool) -> Result<Product, OutOfMemory>
    ensures { IfOk result (λ p. p ≡ methods.strip_of text.now alone) }
{
    if !alone {
        return wrong(alloc, "strip", text.len() as u64);
    }
    new_text(alloc, text.len(), stripped(text))
}

/// A call of a method of a text.
fn text_called(
    alloc: Global,
    heap: &Heap,
    which: TextMethod,
    text: &[char],
    args: &[Value],
    named: &[(PyText, Value)],
) -> Result<Product, OutOfMemory>
    ensures { IfOk result (λ p. p ≡ methods.text_called heap.now which text.now args.now named.now) }
{
    match which {
        TextMethod::Count => count(alloc, text, sole_text(heap, args, named)),
        TextMethod::EndsWith => endswith(alloc, text, sole_text(heap, args, named)),
        TextMethod::Find => find(alloc, text, sole_text(heap, args, named)),
        TextMethod::IsDigit => isdigit(alloc, text, has_none(args, named)),
        TextMethod::Join => join(alloc, heap, text, sole(args, named)),
        TextMethod::Lower => lower_text(alloc, text, has_none(args, named)),
        TextMethod::Replace => replace(alloc, heap, text, pair(args, named)),
        TextMethod::Split => split(alloc, heap, text, args, named),
        TextMethod::StartsWith => startswith(alloc, text, sole_text(heap, args, named)),
        TextMethod::Strip => strip(alloc, text, has_none(args, named)),
        TextMethod::Upper => upper_text(alloc, text, has_none(args, named)),
    }
}

/// A call of a method that was read through a text (Python library reference, string methods).
#[tactic(auto, unfolding(crate::specs::Methods::text_method_of))]
pub fn text_method(
    alloc: Global,
    heap: &Heap,
    which: TextMethod,
    receiver: Value,
    args: &[Value],
    named: &[(PyText, Value)],
) -> Result<Product, OutOfMemory>
    ensures { IfOk result (λ p. p ≡ methods.text_method_of heap.now which receiver args.now named.now) }
{
    match text_of(heap, receiver) {
        Some(text) => text_called(alloc, heap, which, text.chars(), args, named),
        None => wrong(alloc, text_method_name(which), 0),
    }
}
