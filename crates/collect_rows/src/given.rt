// What rows give items.

ghost use Rattle.std.specs.Prelude.{◌≡◌, ◌++◌, [], IfOk, OnOk, map, option_copied};
ghost use Rattle.std.specs.List.{flat_map};
ghost use Rattle.collect_rows.specs.Rows as rows;
ghost use Rattle.collect_rows.specs.Seen.{seen_list};

use crate::row::ItemRow;
use collection_nodes::Mentions;
use fixture_definitions::Definition;
use param_rows::{ParamRow, ParamSet, PyId};
use py_values::value::Value;
use report_parts::Text;
use seq::{OutOfMemory, PyText, Seq, encoded};
use session_types::DefId;
use std::alloc::Global;
use test_suite::{BoundArgument, FixtureParam};

fn bound_by(
    alloc: Global,
    names: &Mentions,
    number: u32,
    value: Value,
) -> Result<BoundArgument, OutOfMemory>
    ensures { IfOk result (λ b. b ≡ rows.bound_by names.now (number, value)) }
{
    Ok(BoundArgument {
        name: PyText::from_chars(alloc, names.text(number))?,
        number,
        value,
    })
}

fn all_bound(
    alloc: Global,
    names: &Mentions,
    pairs: &[(u32, Value)],
) -> Result<Seq<BoundArgument>, OutOfMemory>
    ensures { IfOk result (λ bound. bound ≡ map (rows.bound_by names.now) pairs.now) }
{
    let mut bound = Seq::new(alloc);
    for (number, value) in pairs {
        let one = bound_by(alloc, names, *number, *value)?;
        bound.push(one)?;
    }
    Ok(bound)
}

/// The set of a definition with a number.
fn set_at(definitions: &[Definition], def: u32, number: u32) -> Option<&ParamSet<Value>>
    ensures { option_copied result ≡ rows.set_at definitions.now (def, number) }
{
    match definitions.get(def as usize) {
        Some(one) => set_in(&one.params, number),
        None => None,
    }
}

fn set_in(params: &Option<Seq<ParamSet<Value>>>, number: u32) -> Option<&ParamSet<Value>>
    ensures { option_copied result ≡ rows.set_in params.now number }
{
    match params {
        Some(sets) => sets.items().get(number as usize),
        None => None,
    }
}

fn first_value(values: &[Value]) -> Value
    ensures { result ≡ rows.first_value values.now }
{
    match values {
        [v, ..] => *v,
        [] => Value::None,
    }
}

fn value_of_set(set: Option<&ParamSet<Value>>) -> Value
    ensures { result ≡ rows.value_of_set (option_copied set.entry) }
{
    match set {
        Some(set) => first_value(set.values.items()),
        None => Value::None,
    }
}

ghost use Rattle.std.specs.Prelude.{encode_utf8_all};

fn id_or_empty(alloc: Global, id: Option<&PyId>) -> Result<Text, OutOfMemory>
    ensures { IfOk result (λ t. t ≡ encode_utf8_all (rows.id_or_empty (option_copied id.entry))) }
{
    match id {
        Some(id) => encoded(alloc, id.chars()),
        None => encoded(alloc, &[]),
    }
}

fn id_at(ids: &[PyId], number: u32) -> Option<&PyId>
    ensures { option_copied result ≡ slice_get ids.now number }
{
    ids.get(number as usize)
}

ghost use Rattle.std.specs.Prelude.{slice_get};

/// The id of a parameter among the lists.
fn id_among(
    alloc: Global,
    lists: &[(u32, Vec<PyId>)],
    def: u32,
    number: u32,
) -> Result<Text, OutOfMemory>
    ensures { IfOk result (λ t. t ≡ encode_utf8_all (rows.id_among (map seen_list lists.now) def number)) }
{
    for (one, ids) in lists {
        if def == *one {
            return id_or_empty(alloc, id_at(ids, number));
        }
    }
    encoded(alloc, &[])
}

fn param_given(
    alloc: Global,
    definitions: &[Definition],
    lists: &[(u32, Vec<PyId>)],
    def: u32,
    number: u32,
) -> Result<FixtureParam, OutOfMemory>
    ensures { IfOk result (λ p. p ≡ rows.param_given definitions.now (map seen_list lists.now) (def, number)) }
{
    let id = id_among(alloc, lists, def, number)?;
    Ok(FixtureParam {
        def: DefId::new(def),
        number,
        value: value_of_set(set_at(definitions, def, number)),
        id,
    })
}

fn all_params(
    alloc: Global,
    definitions: &[Definition],
    lists: &[(u32, Vec<PyId>)],
    pairs: &[(u32, u32)],
) -> Result<Seq<FixtureParam>, OutOfMemory>
    ensures { IfOk result (λ params. params ≡ map (rows.param_given definitions.now (map seen_list lists.now)) pairs.now) }
{
    let mut params = Seq::new(alloc);
    for (def, number) in pairs {
        let one = param_given(alloc, definitions, lists, *def, *number)?;
        params.push(one)?;
    }
    Ok(params)
}

fn push_marks(marks: &mut Vec<Value>, set: Option<&ParamSet<Value>>) -> Result<(), OutOfMemory>
    ensures { OnOk result (marks.new.items ≡ marks.old.items ++ rows.marks_of_set (option_copied set.entry)) }
{
    if let Some(set) = set {
        marks.extend_from_slice(set.marks.items())?;
    }
    Ok(())
}

fn push_given(
    marks: &mut Vec<Value>,
    definitions: &[Definition],
    pairs: &[(u32, u32)],
) -> Result<(), OutOfMemory>
    ensures { OnOk result (marks.new.items ≡ marks.old.items ++ flat_map (rows.marks_given definitions.now) pairs.now) }
{
    for (def, number) in pairs {
        push_marks(marks, set_at(definitions, *def, *number))?;
    }
    Ok(())
}

/// The marks of a row: those of its parameters, then those of its sets.
fn all_marks(
    alloc: Global,
    definitions: &[Definition],
    row: &ParamRow<Value>,
) -> Result<Seq<Value>, OutOfMemory>
    ensures { IfOk result (λ marks. marks ≡ flat_map (rows.marks_given definitions.now) row.now.fixture_params ++ row.now.marks) }
{
    let mut marks = Vec::new(alloc);
    push_given(&mut marks, definitions, row.fixture_params.items())?;
    marks.extend_from_slice(row.marks.items())?;
    Ok(Seq::from_vec(marks))
}

fn copied(alloc: Global, id: &Option<PyId>) -> Result<Option<PyText>, OutOfMemory>
    ensures { IfOk result (λ copy. copy ≡ id.now) }
{
    match id {
        Some(id) => Ok(Some(PyText::from_chars(alloc, id.chars())?)),
        None => Ok(None),
    }
}

fn row_given(
    alloc: Global,
    names: &Mentions,
    definitions: &[Definition],
    lists: &[(u32, Vec<PyId>)],
    row: &ParamRow<Value>,
) -> Result<ItemRow, OutOfMemory>
    ensures { IfOk result (λ r. r ≡ rows.row_given names.now definitions.now (map seen_list lists.now) row.now) }
{
    let bound = all_bound(alloc, names, row.bound.items())?;
    let params = all_params(alloc, definitions, lists, row.fixture_params.items())?;
    let marks = all_marks(alloc, definitions, row)?;
    Ok(ItemRow {
        bound,
        params,
        marks,
        id: copied(alloc, &row.id)?,
        empty: false,
    })
}

/// What the rows of these lists give items.
pub fn rows_given(
    alloc: Global,
    names: &Mentions,
    definitions: &[Definition],
    lists: &[(u32, Vec<PyId>)],
    made: &[ParamRow<Value>],
) -> Result<Seq<ItemRow>, OutOfMemory>
    ensures { IfOk result (λ r. r ≡ map (rows.row_given names.now definitions.now (map seen_list lists.now)) made.now) }
{
    let mut given = Seq::new(alloc);
    for row in made {
        let one = row_given(alloc, names, definitions, lists, row)?;
        given.push(one)?;
    }
    Ok(given)
}

fn bound_to_none(
    alloc: Global,
    names: &Mentions,
    numbers: &[u32],
) -> Result<Seq<BoundArgument>, OutOfMemory>
    ensures { IfOk result (λ bound. bound ≡ map (rows.bound_to_none names.now) numbers.now) }
{
    let mut bound = Seq::new(alloc);
    for number in numbers {
        let one = bound_by(alloc, names, *number, Value::None)?;
        bound.push(one)?;
    }
    Ok(bound)
}

/// What stands for an empty list.
fn empty_row(alloc: Global, names: &Mentions, bound: &[u32]) -> Result<ItemRow, OutOfMemory>
    ensures { IfOk result (λ r. r ≡ rows.empty_row names.now bound.now) }
{
    let bound = bound_to_none(alloc, names, bound)?;
    let id = PyText::from_chars(alloc, &['N', 'O', 'T', 'S', 'E', 'T'])?;
    Ok(ItemRow {
        bound,
        params: Seq::new(alloc),
        marks: Seq::new(alloc),
        id: Some(id),
        empty: true,
    })
}

/// Rows, or what stands for an empty list.
pub fn rows_or_empty(
    alloc: Global,
    names: &Mentions,
    bound: &[u32],
    given: Seq<ItemRow>,
) -> Result<Seq<ItemRow>, OutOfMemory>
    ensures { IfOk result (λ r. r ≡ rows.rows_or_empty names.now bound.now given) }
{
    if !given.is_empty() {
        return Ok(given);
    }
    let one = empty_row(alloc, names, bound)?;
    let mut all = Seq::new(alloc);
    all.push(one)?;
    Ok(all)
}
