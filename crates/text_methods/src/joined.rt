// What `join` gives.

ghost use Rattle.std.specs.Prelude.{◌≡◌, ◌++◌, IfOk, map, slice_get, if◌then◌else◌};
ghost use Rattle.std.specs.List.{list_all};
ghost use Rattle.text_methods.specs.Joins as joins;
ghost use Rattle.text_methods.specs.Methods as methods;
ghost use Rattle.text_methods.specs.Pieces as pieces;

use crate::pieces::{has_room, joined, singles};
use call_products::elements::keys_of;
use py_operands::texts::text_of;
use py_values::heap::Heap;
use py_values::object::Obj;
use py_values::value::{ObjId, Value};
use py_values::{OutOfMemory, PyText};
use std::alloc::Global;

/// The elements of a value joined: a text, or why there is none: it is too long, not each element is a text, or there are no elements.
#[derive(Drop)]
pub enum Joined {
    Text(PyText),
    TooLong,
    OtherElements,
    NoElements,
}

fn by_length(text: Option<PyText>) -> Joined
    ensures { result ≡ joins.by_length text }
{
    match text {
        Some(text) => Joined::Text(text),
        None => Joined::TooLong,
    }
}

fn is_text(heap: &Heap, v: Value) -> bool
    ensures { result ≡ joins.is_text heap.now v }
{
    text_of(heap, v).is_some()
}

/// Whether values are all texts.
fn are_texts(heap: &Heap, values: &[Value]) -> bool
    ensures { result ≡ list_all (joins.is_text heap.now) values.now }
{
    values.iter().all(|v| is_text(heap, *v))
}

/// Puts a separator and a piece behind others, where they stay short.
fn push_piece(chars: &mut Vec<char>, sep: &[char], piece: &[char]) -> Result<bool, OutOfMemory>
    ensures room { IfOk result (λ b. b ≡ pieces.has_room chars.old.items sep.now piece.now) }
    ensures more { IfOk result (λ b. chars.new.items ≡ (if b then chars.old.items ++ (sep.now ++ piece.now) else chars.old.items)) }
{
    if !has_room(chars, sep, piece) {
        return Ok(false);
    }
    chars.extend_from_slice(sep)?;
    chars.extend_from_slice(piece)?;
    Ok(true)
}

/// Puts a separator and the characters of a value behind others, where they stay short; what is no text has none.
fn push_value(
    heap: &Heap,
    chars: &mut Vec<char>,
    sep: &[char],
    v: Value,
) -> Result<bool, OutOfMemory>
    ensures room { IfOk result (λ b. b ≡ pieces.has_room chars.old.items sep.now (joins.chars_of heap.now v)) }
    ensures more { IfOk result (λ b. chars.new.items ≡ (if b then chars.old.items ++ (sep.now ++ joins.chars_of heap.now v) else chars.old.items)) }
{
    match text_of(heap, v) {
        Some(text) => push_piece(chars, sep, text.chars()),
        None => push_piece(chars, sep, &[]),
    }
}

/// The characters of values joined behind those of another, where they aren't too long.
fn values_behind(
    alloc: Global,
    heap: &Heap,
    first: Value,
    sep: &[char],
    rest: &[Value],
) -> Result<Option<PyText>, OutOfMemory>
    ensures { IfOk result (λ o. o ≡ pieces.short_text (joins.chars_of heap.now first ++ pieces.joined_behind sep.now (map (joins.chars_of heap.now) rest.now))) }
{
    let mut chars = Vec::new(alloc);
    let begun = push_value(heap, &mut chars, &[], first)?;
    if !begun {
        return Ok(None);
    }
    for v in rest {
        let fits = push_value(heap, &mut chars, sep, *v)?;
        if !fits {
            return Ok(None);
        }
    }
    Ok(Some(PyText::from_chars(alloc, &chars)?))
}

/// The characters of values with a separator between them, where they aren't too long.
fn values_joined(
    alloc: Global,
    heap: &Heap,
    sep: &[char],
    values: &[Value],
) -> Result<Option<PyText>, OutOfMemory>
    ensures { IfOk result (λ o. o ≡ pieces.short_text (pieces.joined sep.now (map (joins.chars_of heap.now) values.now))) }
{
    match values.split_first() {
        Some((first, rest)) => values_behind(alloc, heap, *first, sep, rest),
        None => Ok(Some(PyText::from_chars(alloc, &[])?)),
    }
}

/// Values joined. That each is a text is looked at first, and no text is copied by itself: what is made is the text that is given.
fn join_values(
    alloc: Global,
    heap: &Heap,
    sep: &[char],
    values: &[Value],
) -> Result<Joined, OutOfMemory>
    ensures { IfOk result (λ j. j ≡ joins.joined_by sep.now (methods.texts_to_join (methods.texts_of heap.now values.now))) }
{
    if !are_texts(heap, values) {
        return Ok(Joined::OtherElements);
    }
    let text = values_joined(alloc, heap, sep, values)?;
    Ok(by_length(text))
}

/// The characters of a text joined.
fn join_chars(alloc: Global, sep: &[char], text: &[char]) -> Result<Joined, OutOfMemory>
    ensures { IfOk result (λ j. j ≡ joins.joined_by sep.now (methods.Texts (pieces.singles text.now))) }
{
    let mut texts = Vec::new(alloc);
    singles(alloc, &mut texts, text)?;
    let all = joined(alloc, sep, &texts)?;
    Ok(by_length(all))
}

fn join_object(alloc: Global, heap: &Heap, sep: &[char], id: ObjId) -> Result<Joined, OutOfMemory>
    ensures { IfOk result (λ j. j ≡ joins.joined_by sep.now (methods.parts_in heap.now (slice_get heap.now id.at))) }
{
    match heap.get(id) {
        Some(Obj::Text(text)) => join_chars(alloc, sep, text.chars()),
        Some(Obj::List(vs) | Obj::Tuple(vs)) => join_values(alloc, heap, sep, vs.items()),
        Some(Obj::Dict(dict)) => {
            let keys = keys_of(alloc, dict)?;
            join_values(alloc, heap, sep, &keys)
        }
        Some(Obj::Range(range)) => {
            if range.length == 0 {
                return Ok(Joined::Text(PyText::from_chars(alloc, &[])?));
            }
            Ok(Joined::OtherElements)
        }
        _ => Ok(Joined::NoElements),
    }
}

/// The elements of a value joined with a separator between them.
pub fn join_elements(
    alloc: Global,
    heap: &Heap,
    sep: &[char],
    v: Value,
) -> Result<Joined, OutOfMemory>
    ensures { IfOk result (λ j. j ≡ joins.joined_by sep.now (methods.parts_of_value heap.now v)) }
{
    match v {
        Value::Ref(id) => join_object(alloc, heap, sep, id),
        Value::None | Value::Bool(_) | Value::Int(_) => Ok(Joined::NoElements),
    }
}
