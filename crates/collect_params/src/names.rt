// The names of a `parametrize`.

ghost use Rattle.std.specs.Prelude.{◌≡◌, ◌++◌, ◌∷◌, ◌<◌, ◌+◌, [], IfOk, MatchOption, OnOk, drop, length, map, option_copied, position, take};
ghost use Rattle.std.specs.List.{filter_map, list_any, slice_split};
ghost use Rattle.pytest_arguments.specs.Given.{row_at};
ghost use Rattle.pytest_arguments.specs.py_operands.Texts.{text_of};
ghost use Rattle.text_methods.specs.Characters.{stripped};
ghost use Rattle.collect_params.specs.Given as given;

use py_operands::texts::text_of;
use py_values::heap::Heap;
use py_values::rows::Values;
use py_values::value::Value;
use pytest_arguments::given::row_at;
use seq::{OutOfMemory, PyText, Seq};
use std::alloc::Global;
use text_methods::chars::stripped;

/// Where the first comma of a text stands.
fn comma_place(text: &[char]) -> Option<usize>
    ensures { result ≡ position given.is_comma text.now }
{
    text.iter().position(|letter| *letter == ',')
}

/// Where the first part of a text ends, if there are more.
fn part_end(text: &[char]) -> Option<usize>
    ensures { MatchOption result (slice_split given.is_comma text.now ≡ text.now ∷ []) (λ at. (at < length text.now) × (slice_split given.is_comma text.now ≡ take at text.now ∷ slice_split given.is_comma (drop (at + 1) text.now))) }
{
    comma_place(text)
}

/// What stands behind a place of a text.
fn behind(text: &[char], at: usize) -> &[char]
    requires { at < length text.now }
    ensures { result.now ≡ drop (at + 1) text.now }
{
    &text[at + 1..]
}

fn push_stripped(alloc: Global, names: &mut Seq<PyText>, part: &[char]) -> Result<(), OutOfMemory>
    ensures { OnOk result (names.new ≡ names.old ++ stripped part.now ∷ []) }
{
    let name = PyText::from_chars(alloc, stripped(part))?;
    names.push(name)
}

/// The names of a text stand between commas.
fn names_parted(alloc: Global, text: &[char]) -> Result<Seq<PyText>, OutOfMemory>
    ensures { IfOk result (λ names. names ≡ given.names_parted text.now) }
{
    let mut names = Seq::new(alloc);
    let mut rest = text;
    while let Some(at) = part_end(rest) {
        push_stripped(alloc, &mut names, &rest[..at])?;
        rest = behind(rest, at);
    }
    push_stripped(alloc, &mut names, rest)?;
    Ok(names)
}

fn push_text(
    alloc: Global,
    names: &mut Seq<PyText>,
    heap: &Heap,
    v: Value,
) -> Result<(), OutOfMemory>
    ensures { OnOk result (names.new ≡ names.old ++ filter_map (text_of heap.now) (v ∷ [])) }
{
    match text_of(heap, v) {
        Some(text) => {
            let name = PyText::from_chars(alloc, text.chars())?;
            names.push(name)
        }
        None => Ok(()),
    }
}

fn texts_among(alloc: Global, heap: &Heap, values: &[Value]) -> Result<Seq<PyText>, OutOfMemory>
    ensures { IfOk result (λ names. names ≡ filter_map (text_of heap.now) values.now) }
{
    let mut names = Seq::new(alloc);
    for v in values {
        push_text(alloc, &mut names, heap, *v)?;
    }
    Ok(names)
}

fn names_in_row(
    alloc: Global,
    heap: &Heap,
    row: Option<&Values>,
) -> Result<Seq<PyText>, OutOfMemory>
    ensures { IfOk result (λ names. names ≡ given.names_in_row heap.now (option_copied row.entry)) }
{
    match row {
        Some(values) => texts_among(alloc, heap, values.items()),
        None => Ok(Seq::new(alloc)),
    }
}

/// The names that a value gives: a text of names, or texts in a row.
pub fn names_given(alloc: Global, heap: &Heap, v: Value) -> Result<Seq<PyText>, OutOfMemory>
    ensures { IfOk result (λ names. names ≡ given.names_given heap.now v) }
{
    match text_of(heap, v) {
        Some(text) => names_parted(alloc, text.chars()),
        None => names_in_row(alloc, heap, row_at(heap, v)),
    }
}

fn has_comma(text: &[char]) -> bool
    ensures { result ≡ list_any given.is_comma text.now }
{
    text.iter().any(|letter| *letter == ',')
}

/// Whether names are given by a text that is one name.
pub fn is_single(heap: &Heap, v: Value) -> bool
    ensures { result ≡ given.is_single (text_of heap.now v) }
{
    match text_of(heap, v) {
        Some(text) => !has_comma(text.chars()),
        None => false,
    }
}
