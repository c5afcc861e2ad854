// The lists of a test.

ghost use Rattle.std.specs.Prelude.{◌≡◌, ◌++◌, ◌∷◌, ◌<◌, [], IfOk, OnOk, length, map, option_copied};
ghost use Rattle.std.specs.List.{flat_map};
ghost use Rattle.fixture_table.specs.Nearest.{def_at};
ghost use Rattle.collect_rows.specs.Rows as rows;
ghost use Rattle.collect_rows.specs.Seen.{seen_list};

use collect_fixtures::asked_numbers;
use collect_params::{Parametrization, param_ids, set_ids};
use collection_nodes::Mentions;
use fixture_definitions::{Definition, FoundTest};
use fixture_table::Table;
use param_rows::{ParamMark, ParamSet, ParamSets, PyId};
use py_values::heap::Heap;
use py_values::value::Value;
use seq::{OutOfMemory, PyText, Seq};
use session_types::DefId;
use std::alloc::Global;

fn with_id(alloc: Global, set: &ParamSet<Value>, id: &PyId) -> Result<ParamSet<Value>, OutOfMemory>
    ensures { IfOk result (λ s. s ≡ rows.with_id set.now id.now) }
{
    let values = set.values.copied(alloc)?;
    let marks = set.marks.copied(alloc)?;
    let id = PyText::from_chars(alloc, id.chars())?;
    Ok(ParamSet {
        values,
        id: Some(id),
        marks,
    })
}

fn push_with_id(
    alloc: Global,
    sets: &mut ParamSets<Value>,
    set: &ParamSet<Value>,
    id: &PyId,
) -> Result<(), OutOfMemory>
    ensures { OnOk result (sets.new ≡ sets.old ++ rows.with_id set.now id.now ∷ []) }
{
    let one = with_id(alloc, set, id)?;
    sets.push(one)
}

/// Sets with these ids.
pub fn with_ids(
    alloc: Global,
    sets: &[ParamSet<Value>],
    ids: &[PyId],
) -> Result<ParamSets<Value>, OutOfMemory>
    ensures { IfOk result (λ s. s ≡ rows.with_ids sets.now ids.now) }
{
    let mut all = Seq::new(alloc);
    for at in 0..sets.len().min(ids.len()) {
        push_with_id(alloc, &mut all, &sets[at], &ids[at])?;
    }
    Ok(all)
}

/// A `parametrize`, its names by number and its sets with their ids.
pub fn mark_of(
    alloc: Global,
    heap: &Heap,
    names: &Mentions,
    one: &Parametrization,
) -> Result<ParamMark<Value>, OutOfMemory>
    ensures { IfOk result (λ mark. mark ≡ rows.mark_of heap.now names.now one.now) }
{
    let ids = set_ids(alloc, heap, one.names.items(), one.sets.items())?;
    let numbers = names.numbers(alloc, one.names.items())?;
    Ok(ParamMark {
        names: numbers,
        sets: with_ids(alloc, one.sets.items(), &ids)?,
    })
}

/// The `parametrize` marks of a test.
pub fn marks_of(
    alloc: Global,
    heap: &Heap,
    names: &Mentions,
    parametrized: &[Parametrization],
) -> Result<Vec<ParamMark<Value>>, OutOfMemory>
    ensures { IfOk result (λ marks. marks.items ≡ map (rows.mark_of heap.now names.now) parametrized.now) }
{
    let mut marks = Vec::new(alloc);
    for one in parametrized {
        let mark = mark_of(alloc, heap, names, one)?;
        marks.push(mark)?;
    }
    Ok(marks)
}

/// Pushes the ids of the parameters of a definition, where it has any.
fn push_ids(
    alloc: Global,
    lists: &mut Vec<(u32, Vec<PyId>)>,
    heap: &Heap,
    def: DefId,
    definition: Option<&Definition>,
) -> Result<(), OutOfMemory>
    ensures { OnOk result (map seen_list lists.new.items ≡ map seen_list lists.old.items ++ rows.ids_of_definition heap.now def (option_copied definition.entry)) }
{
    let Some(definition) = definition else {
        return Ok(());
    };
    let Some(sets) = &definition.params else {
        return Ok(());
    };
    let ids = param_ids(alloc, heap, &definition.fixture.name, sets.items())?;
    lists.push((def.number(), ids))?;
    Ok(())
}

fn push_ids_at(
    alloc: Global,
    lists: &mut Vec<(u32, Vec<PyId>)>,
    heap: &Heap,
    definitions: &[Definition],
    def: DefId,
) -> Result<(), OutOfMemory>
    ensures { OnOk result (map seen_list lists.new.items ≡ map seen_list lists.old.items ++ rows.ids_at heap.now definitions.now def) }
{
    push_ids(
        alloc,
        lists,
        heap,
        def,
        definitions.get(def.number() as usize),
    )
}

fn lists_among(
    alloc: Global,
    heap: &Heap,
    definitions: &[Definition],
    closure: &[DefId],
) -> Result<Vec<(u32, Vec<PyId>)>, OutOfMemory>
    ensures { IfOk result (λ lists. map seen_list lists.items ≡ flat_map (rows.ids_at heap.now definitions.now) closure.now) }
{
    let mut lists = Vec::new(alloc);
    for def in closure {
        push_ids_at(alloc, &mut lists, heap, definitions, *def)?;
    }
    Ok(lists)
}

/// The parametrised definitions of a closure, each with the ids of its parameters.
pub fn fixture_lists(
    alloc: Global,
    heap: &Heap,
    definitions: &[Definition],
    closure: &Option<Seq<DefId>>,
) -> Result<Vec<(u32, Vec<PyId>)>, OutOfMemory>
    ensures { IfOk result (λ lists. map seen_list lists.items ≡ rows.fixture_lists heap.now definitions.now closure.now) }
{
    match closure {
        Some(closure) => lists_among(alloc, heap, definitions, closure.items()),
        None => Ok(Vec::new(alloc)),
    }
}

/// What a test uses, and its arguments.
fn own_names(alloc: Global, names: &Mentions, test: &FoundTest) -> Result<Vec<u32>, OutOfMemory>
    ensures { IfOk result (λ known. known.items ≡ rows.own_names names.now test.now) }
{
    let uses = names.numbers(alloc, test.uses.items())?;
    let args = asked_numbers(alloc, names, test.arguments.items())?;
    let mut known = Vec::from_slice(alloc, uses.items())?;
    known.extend_from_slice(args.items())?;
    Ok(known)
}

/// Pushes the name of a definition, where it is for all that see it and the item sees it.
fn push_autouse(
    known: &mut Vec<u32>,
    table: &Table,
    item: u32,
    def: DefId,
) -> Result<(), OutOfMemory>
    requires def { def < length table.now.defs }
    requires item { item < length table.now.nodes }
    ensures { OnOk result (known.new.items ≡ known.old.items ++ rows.autouse_name table.now item (def_at table.now.defs def)) }
{
    let one = table.def(def);
    if one.autouse && table.visible(def, item) {
        known.push(one.name)?;
    }
    Ok(())
}

/// The number of a definition.
fn numbered(number: usize) -> Result<DefId, OutOfMemory>
    ensures { IfOk result (λ def. def ≡ number) }
{
    match u32::try_from(number) {
        Ok(number) => Ok(DefId::new(number)),
        // No table has so many.
        Err(_) => Err(OutOfMemory),
    }
}

fn push_all_autouse(
    known: &mut Vec<u32>,
    table: &Table,
    count: usize,
    item: u32,
) -> Result<(), OutOfMemory>
    requires count { count ≡ length table.now.defs }
    requires item { item < length table.now.nodes }
    ensures { OnOk result (known.new.items ≡ known.old.items ++ flat_map (rows.autouse_name table.now item) table.now.defs) }
{
    for number in 0..count {
        push_autouse(known, table, item, numbered(number)?)?;
    }
    Ok(())
}

fn push_asked_by(known: &mut Vec<u32>, table: &Table, def: DefId) -> Result<(), OutOfMemory>
    requires { def < length table.now.defs }
    ensures { OnOk result (known.new.items ≡ known.old.items ++ rows.names_asked_by table.now def) }
{
    known.extend_from_slice(table.def(def).args.items())?;
    Ok(())
}

fn push_all_asked(
    known: &mut Vec<u32>,
    table: &Table,
    count: usize,
    closure: &[DefId],
) -> Result<(), OutOfMemory>
    requires { count ≡ length table.now.defs }
    ensures { OnOk result (known.new.items ≡ known.old.items ++ flat_map (rows.names_asked_by table.now) closure.now) }
{
    for def in closure {
        if def.number() as usize >= count {
            // A closure has definitions of its table.
            return Err(OutOfMemory);
        }
        push_asked_by(known, table, *def)?;
    }
    Ok(())
}

/// The names that may be bound.
pub fn names_known(
    alloc: Global,
    table: &Table,
    count: usize,
    names: &Mentions,
    item: u32,
    test: &FoundTest,
    closure: &Option<Seq<DefId>>,
) -> Result<Vec<u32>, OutOfMemory>
    requires count { count ≡ length table.now.defs }
    requires item { item < length table.now.nodes }
    ensures { IfOk result (λ known. known.items ≡ rows.names_known table.now names.now item test.now closure.now) }
{
    let mut known = own_names(alloc, names, test)?;
    if let Some(closure) = closure {
        push_all_autouse(&mut known, table, count, item)?;
        push_all_asked(&mut known, table, count, closure.items())?;
    }
    Ok(known)
}
