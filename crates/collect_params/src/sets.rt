// Sets of values.

ghost use Rattle.std.specs.Prelude.{◌≡◌, ◌++◌, ◌∷◌, [], IfOk, OnOk, map, option_copied};
ghost use Rattle.std.specs.Option.{option_or};
ghost use Rattle.collect_marks.specs.collect_names.Objects.{object_in};
ghost use Rattle.pytest_arguments.specs.Given.{row_at};
ghost use Rattle.pytest_arguments.specs.py_operands.Texts.{text_of};
ghost use Rattle.collect_params.specs.Given as given;

use collect_names::objects::object_in;
use param_rows::{ParamSet, ParamSets};
use py_operands::texts::text_of;
use py_values::heap::Heap;
use py_values::object::{FixtureObj, Obj, ParamObj};
use py_values::rows::Values;
use py_values::value::Value;
use pytest_arguments::given::row_at;
use seq::{OutOfMemory, PyText, Seq};
use std::alloc::Global;

/// What `param` made, where an object is that.
fn param_in<'a>(obj: Option<&'a Obj>) -> Option<&'a ParamObj>
    ensures { option_copied result ≡ given.param_in (option_copied obj.entry) }
{
    match obj {
        Some(Obj::Param(param)) => Some(param),
        Some(
            Obj::Text(_)
            | Obj::List(_)
            | Obj::Tuple(_)
            | Obj::Dict(_)
            | Obj::Range(_)
            | Obj::Function(_)
            | Obj::Method(_)
            | Obj::Builtin(_)
            | Obj::Class(_)
            | Obj::Instance(_)
            | Obj::Exception(_)
            | Obj::Module(_)
            | Obj::Fixture(_)
            | Obj::MarkMaker
            | Obj::Mark(_)
            | Obj::Hook(_)
            | Obj::Request(_)
            | Obj::Raises(_)
            | Obj::Info(_)
            | Obj::Item(_),
        )
        | None => None,
    }
}

/// A copy of an id, where there is one.
fn copied(alloc: Global, id: &Option<PyText>) -> Result<Option<PyText>, OutOfMemory>
    ensures { IfOk result (λ copy. copy ≡ id.now) }
{
    match id {
        Some(id) => Ok(Some(PyText::from_chars(alloc, id.chars())?)),
        None => Ok(None),
    }
}

fn plain_set(
    alloc: Global,
    id: Option<PyText>,
    values: &[Value],
) -> Result<ParamSet<Value>, OutOfMemory>
    ensures { IfOk result (λ set. set ≡ given.plain_set id values.now) }
{
    let values = Seq::from_slice(alloc, values)?;
    Ok(ParamSet {
        values,
        id,
        marks: Seq::new(alloc),
    })
}

/// A set of one value.
fn lone_set(alloc: Global, id: Option<PyText>, v: Value) -> Result<ParamSet<Value>, OutOfMemory>
    ensures { IfOk result (λ set. set ≡ given.plain_set id (v ∷ [])) }
{
    let mut values = Seq::new(alloc);
    values.push(v)?;
    Ok(ParamSet {
        values,
        id,
        marks: Seq::new(alloc),
    })
}

/// The set of a row: of a list or a tuple its elements, unless there is one name by a text.
fn row_set(
    alloc: Global,
    heap: &Heap,
    single: bool,
    id: Option<PyText>,
    v: Value,
) -> Result<ParamSet<Value>, OutOfMemory>
    ensures { IfOk result (λ set. set ≡ given.row_set single id v (row_at heap.now v)) }
{
    if single {
        return lone_set(alloc, id, v);
    }
    match row_at(heap, v) {
        Some(values) => plain_set(alloc, id, values.items()),
        None => lone_set(alloc, id, v),
    }
}

/// The first of two ids that is there.
fn sooner_id(
    alloc: Global,
    own: &Option<PyText>,
    id: Option<PyText>,
) -> Result<Option<PyText>, OutOfMemory>
    ensures { IfOk result (λ sooner. sooner ≡ option_or own.now id) }
{
    match own {
        Some(own) => Ok(Some(PyText::from_chars(alloc, own.chars())?)),
        None => Ok(id),
    }
}

/// The set of what `param` made.
fn param_set(
    alloc: Global,
    id: Option<PyText>,
    param: &ParamObj,
) -> Result<ParamSet<Value>, OutOfMemory>
    ensures { IfOk result (λ set. set ≡ given.param_set id param.now) }
{
    let id = sooner_id(alloc, &param.id, id)?;
    let values = Seq::from_slice(alloc, param.values.items())?;
    let marks = Seq::from_slice(alloc, param.marks.items())?;
    Ok(ParamSet { values, id, marks })
}

/// The set of a row, with the id that `ids` has for it.
fn set_given(
    alloc: Global,
    heap: &Heap,
    single: bool,
    id: Option<PyText>,
    v: Value,
) -> Result<ParamSet<Value>, OutOfMemory>
    ensures { IfOk result (λ set. set ≡ given.set_given heap.now single id v) }
{
    match param_in(object_in(heap, v)) {
        Some(param) => param_set(alloc, id, param),
        None => row_set(alloc, heap, single, id, v),
    }
}

/// The id at a place of `ids`.
fn id_at(alloc: Global, ids: &[Option<PyText>], place: usize) -> Result<Option<PyText>, OutOfMemory>
    ensures { IfOk result (λ id. id ≡ given.id_at ids.now place) }
{
    match ids.get(place) {
        Some(id) => copied(alloc, id),
        None => Ok(None),
    }
}

fn push_set(
    alloc: Global,
    sets: &mut ParamSets<Value>,
    heap: &Heap,
    single: bool,
    ids: &[Option<PyText>],
    place: usize,
    v: Value,
) -> Result<(), OutOfMemory>
    ensures { OnOk result (sets.new ≡ sets.old ++ given.set_given heap.now single (given.id_at ids.now place) v ∷ []) }
{
    let id = id_at(alloc, ids, place)?;
    let set = set_given(alloc, heap, single, id, v)?;
    sets.push(set)
}

/// The sets of rows, with the ids of `ids`.
pub fn sets_of(
    alloc: Global,
    heap: &Heap,
    single: bool,
    ids: &[Option<PyText>],
    rows: &[Value],
) -> Result<ParamSets<Value>, OutOfMemory>
    ensures { IfOk result (λ sets. sets ≡ given.sets_from heap.now single ids.now 0 rows.now) }
{
    let mut sets = Seq::new(alloc);
    for place in 0..rows.len() {
        push_set(alloc, &mut sets, heap, single, ids, place, rows[place])?;
    }
    Ok(sets)
}

/// A copy of a text, where there is one.
fn text_copied(alloc: Global, text: Option<&PyText>) -> Result<Option<PyText>, OutOfMemory>
    ensures { IfOk result (λ t. t ≡ option_copied text.entry) }
{
    match text {
        Some(text) => Ok(Some(PyText::from_chars(alloc, text.chars())?)),
        None => Ok(None),
    }
}

/// The texts that values are; what is none gives none.
pub fn texts_at(
    alloc: Global,
    heap: &Heap,
    values: &[Value],
) -> Result<Vec<Option<PyText>>, OutOfMemory>
    ensures { IfOk result (λ ids. ids.items ≡ map (text_of heap.now) values.now) }
{
    let mut ids = Vec::new(alloc);
    for v in values {
        let id = text_copied(alloc, text_of(heap, *v))?;
        ids.push(id)?;
    }
    Ok(ids)
}

/// The ids that a fixture gives its parameters.
fn fixture_ids(
    alloc: Global,
    heap: &Heap,
    ids: &Option<Values>,
) -> Result<Vec<Option<PyText>>, OutOfMemory>
    ensures { IfOk result (λ texts. texts.items ≡ map (text_of heap.now) (given.values_in_row ids.now)) }
{
    match ids {
        Some(ids) => texts_at(alloc, heap, ids.items()),
        None => Ok(Vec::new(alloc)),
    }
}

/// The sets of the parameters of a fixture, where it has any.
#[tactic(auto, unfolding(crate::specs::Given::fixture_params))]
pub fn fixture_params(
    alloc: Global,
    heap: &Heap,
    fixture: &FixtureObj,
) -> Result<Option<ParamSets<Value>>, OutOfMemory>
    ensures { IfOk result (λ params. params ≡ given.fixture_params heap.now fixture.now) }
{
    let Some(values) = &fixture.params else {
        return Ok(None);
    };
    let ids = fixture_ids(alloc, heap, &fixture.ids)?;
    let sets = sets_of(alloc, heap, true, &ids, values.items())?;
    Ok(Some(sets))
}
