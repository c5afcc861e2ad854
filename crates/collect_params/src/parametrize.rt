// What `parametrize` marks give.

ghost use Rattle.std.specs.Prelude.{◌≡◌, ◌++◌, ◌∷◌, [], IfOk, OnOk, codes, map, option_copied};
ghost use Rattle.std.specs.List.{filter, flat_map};
ghost use Rattle.collect_marks.specs.Names.{marks_in};
ghost use Rattle.collect_marks.specs.Says.{is_called};
ghost use Rattle.pytest_arguments.specs.Given.{row_at};
ghost use Rattle.pytest_arguments.specs.py_operands.Texts.{text_of};
ghost use Rattle.py_values.specs.Names.{find_name};
ghost use Rattle.collect_params.specs.Given as given;

use crate::given::Parametrization;
use crate::names::{is_single, names_given};
use crate::sets::{sets_of, texts_at};
use collect_marks::given::mark_in;
use param_rows::ParamSets;
use py_values::heap::Heap;
use py_values::names::Name;
use py_values::object::MarkObj;
use py_values::rows::Values;
use py_values::value::Value;
use pytest_arguments::given::row_at;
use seq::{OutOfMemory, PyText, Seq};
use std::alloc::Global;

fn named_ids(alloc: Global, mark: &MarkObj) -> Result<Option<Value>, OutOfMemory>
    ensures { IfOk result (λ v. v ≡ find_name (codes "ids") mark.now.named) }
{
    let name = Name::from_chars(alloc, &['i', 'd', 's'])?;
    Ok(mark.named.find(&name))
}

fn ids_in_row(
    alloc: Global,
    heap: &Heap,
    row: Option<&Values>,
) -> Result<Vec<Option<PyText>>, OutOfMemory>
    ensures { IfOk result (λ ids. ids.items ≡ map (text_of heap.now) (given.values_in_row (option_copied row.entry))) }
{
    match row {
        Some(values) => texts_at(alloc, heap, values.items()),
        None => Ok(Vec::new(alloc)),
    }
}

/// The ids that a `parametrize` gives its rows.
fn ids_given(alloc: Global, heap: &Heap, mark: &MarkObj) -> Result<Vec<Option<PyText>>, OutOfMemory>
    ensures { IfOk result (λ ids. ids.items ≡ given.ids_given heap.now mark.now) }
{
    match named_ids(alloc, mark)? {
        Some(v) => ids_in_row(alloc, heap, row_at(heap, v)),
        None => Ok(Vec::new(alloc)),
    }
}

fn sets_in_row(
    alloc: Global,
    heap: &Heap,
    single: bool,
    ids: &[Option<PyText>],
    row: Option<&Values>,
) -> Result<ParamSets<Value>, OutOfMemory>
    ensures { IfOk result (λ sets. sets ≡ given.sets_from heap.now single ids.now 0 (given.values_in_row (option_copied row.entry))) }
{
    match row {
        Some(values) => sets_of(alloc, heap, single, ids, values.items()),
        None => Ok(Seq::new(alloc)),
    }
}

fn parametrized_by(
    alloc: Global,
    heap: &Heap,
    names: Value,
    rows: Value,
    mark: &MarkObj,
) -> Result<Parametrization, OutOfMemory>
    ensures { IfOk result (λ p. p ≡ given.parametrized_by heap.now names rows mark.now) }
{
    let single = is_single(heap, names);
    let ids = ids_given(alloc, heap, mark)?;
    let sets = sets_in_row(alloc, heap, single, &ids, row_at(heap, rows))?;
    Ok(Parametrization {
        names: names_given(alloc, heap, names)?,
        sets,
    })
}

/// Pushes what a mark with these arguments gives.
fn push_parametrized(
    alloc: Global,
    found: &mut Vec<Parametrization>,
    heap: &Heap,
    mark: &MarkObj,
    args: &[Value],
) -> Result<(), OutOfMemory>
    ensures { OnOk result (found.new.items ≡ found.old.items ++ given.by_arguments heap.now mark.now args.now) }
{
    let [names, rows, ..] = args else {
        return Ok(());
    };
    let one = parametrized_by(alloc, heap, *names, *rows, mark)?;
    found.push(one)?;
    Ok(())
}

fn is_parametrize(mark: &MarkObj) -> bool
    ensures { result ≡ is_called (codes "parametrize") mark.now }
{
    is_named(
        &['p', 'a', 'r', 'a', 'm', 'e', 't', 'r', 'i', 'z', 'e'],
        mark,
    )
}

fn is_named(letters: &[char], mark: &MarkObj) -> bool
    ensures { result ≡ is_called letters.now mark.now }
{
    letters == mark.name.chars()
}

/// Pushes what a value gives, where it is a `parametrize` mark.
fn push_value(
    alloc: Global,
    found: &mut Vec<Parametrization>,
    heap: &Heap,
    v: Value,
) -> Result<(), OutOfMemory>
    ensures { OnOk result (found.new.items ≡ found.old.items ++ flat_map (given.parametrized heap.now) (filter (is_called (codes "parametrize")) (marks_in heap.now (v ∷ [])))) }
{
    let Some(mark) = mark_in(heap, v) else {
        return Ok(());
    };
    if !is_parametrize(mark) {
        return Ok(());
    }
    push_parametrized(alloc, found, heap, mark, mark.args.items())
}

/// What the `parametrize` marks among some values give, in order.
#[tactic(auto, unfolding(crate::specs::Given::parametrizations))]
pub fn parametrizations(
    alloc: Global,
    heap: &Heap,
    marks: &[Value],
) -> Result<Vec<Parametrization>, OutOfMemory>
    ensures { IfOk result (λ found. found.items ≡ given.parametrizations heap.now marks.now) }
{
    let mut found = Vec::new(alloc);
    for v in marks {
        push_value(alloc, &mut found, heap, *v)?;
    }
    Ok(found)
}
