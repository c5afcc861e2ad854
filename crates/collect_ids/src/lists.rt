// The lists of a test: its `parametrize` marks and the parametrised fixtures of its closure.

ghost use Rattle.std.specs.Prelude.{◌≡◌, ◌++◌, IfOk, map, option_copied, slice_get};
ghost use Rattle.collect_rows.specs.Rows as rows;
ghost use Rattle.collect_rows.specs.Seen.{seen_list};
ghost use Rattle.hook_order.specs.HookOrder.{InHookOrder};
ghost use Rattle.collect_ids.specs.Asking as asking;
ghost use Rattle.collect_ids.specs.Told.{lists_told, told};
ghost use Rattle.runtest_rules.specs.tracebacks.source_meaning.Meaning.{SourceWorld};

use crate::values::{params_asked, sets_asked};
use collect_params::{Parametrization, param_ids, set_ids};
use collect_rows::{RowsFault, with_ids};
use collection_nodes::Mentions;
use fixture_definitions::{Definition, FoundTest};
use hook_order::Impl;
use param_rows::{ParamMark, ParamSet, PyId};
use py_values::heap::Heap;
use py_values::value::Value;
use runtest_rules::{World, heap};
use seq::{OutOfMemory, PyText, Seq};
use session_types::DefId;
use std::alloc::Global;
use test_suite::HookTable;

/// A `parametrize` whose sets have these ids.
fn mark_with(
    alloc: Global,
    heap: &Heap,
    names: &Mentions,
    one: &Parametrization,
    ids: &[PyId],
) -> Result<ParamMark<Value>, OutOfMemory>
    ensures { IfOk result (λ mark. mark ≡ rows.mark_of heap.now names.now (record { names = one.now.names; sets = rows.with_ids one.now.sets ids.now })) }
{
    let sets = with_ids(alloc, one.sets.items(), ids)?;
    let ids = set_ids(alloc, heap, one.names.items(), sets.items())?;
    let numbers = names.numbers(alloc, one.names.items())?;
    Ok(ParamMark {
        names: numbers,
        sets: with_ids(alloc, sets.items(), &ids)?,
    })
}

/// Asks for the ids of a `parametrize`.
fn mark_asked(
    alloc: Global,
    world: &mut World,
    limit: u64,
    hooks: &HookTable,
    impls: &[Impl],
    names: &Mentions,
    test: &FoundTest,
    one: &Parametrization,
) -> Result<Result<ParamMark<Value>, RowsFault>, OutOfMemory>
    requires order { InHookOrder impls.now }
    ensures { IfOk result (λ mark. (mark, world.new) ≡ asking.mark_asked limit hooks.now impls.now test.now names.now one.now world.old) }
{
    let sets = one.sets.items();
    match sets_asked(
        alloc,
        world,
        limit,
        hooks,
        impls,
        test,
        one.names.items(),
        sets,
    )? {
        Ok(ids) => {
            let mark = mark_with(alloc, heap(world), names, one, ids.items())?;
            Ok(Ok(mark))
        }
        Err(fault) => Ok(Err(fault)),
    }
}

fn push_mark(
    marks: &mut Seq<ParamMark<Value>>,
    mark: Result<ParamMark<Value>, RowsFault>,
) -> Result<Option<RowsFault>, OutOfMemory>
    ensures { IfOk result (λ fault. (w : SourceWorld) → told fault marks.new w ≡ asking.asked_behind marks.old (asking.one_asked (mark, w))) }
{
    match mark {
        Ok(mark) => {
            marks.push(mark)?;
            Ok(None)
        }
        Err(fault) => Ok(Some(fault)),
    }
}

/// Asks for the ids of the `parametrize` marks of a test.
pub(crate) fn marks_asked(
    alloc: Global,
    world: &mut World,
    limit: u64,
    hooks: &HookTable,
    impls: &[Impl],
    names: &Mentions,
    test: &FoundTest,
) -> Result<Result<Seq<ParamMark<Value>>, RowsFault>, OutOfMemory>
    requires order { InHookOrder impls.now }
    ensures { IfOk result (λ marks. (marks, world.new) ≡ asking.marks_asked limit hooks.now impls.now test.now names.now test.now.parametrized world.old) }
{
    let mut marks = Seq::new(alloc);
    for one in test.parametrized.items() {
        let mark = mark_asked(alloc, world, limit, hooks, impls, names, test, one)?;
        let fault = push_mark(&mut marks, mark)?;
        if let Some(fault) = fault {
            return Ok(Err(fault));
        }
    }
    Ok(Ok(marks))
}

/// Puts the parameters of a fixture behind the other lists, with these ids.
fn push_list(
    alloc: Global,
    lists: &mut Vec<(u32, Vec<PyId>)>,
    heap: &Heap,
    def: DefId,
    name: &PyText,
    sets: &[ParamSet<Value>],
    ids: &[PyId],
) -> Result<(), OutOfMemory>
    ensures { OnOk result (map seen_list lists.new.items ≡ map seen_list lists.old.items ++ (def, param_ids heap.now name.now (rows.with_ids sets.now ids.now)) ∷ []) }
{
    let sets = with_ids(alloc, sets, ids)?;
    let ids = param_ids(alloc, heap, name, sets.items())?;
    lists.push((def.number(), ids))?;
    Ok(())
}

ghost use Rattle.std.specs.Prelude.{◌∷◌, [], OnOk};
ghost use Rattle.collect_params.specs.Values.{param_ids};

/// Asks for the ids of the parameters of a fixture, and puts them behind the other lists.
fn ask_params(
    alloc: Global,
    world: &mut World,
    limit: u64,
    hooks: &HookTable,
    impls: &[Impl],
    test: &FoundTest,
    lists: &mut Vec<(u32, Vec<PyId>)>,
    def: DefId,
    name: &PyText,
    sets: &[ParamSet<Value>],
) -> Result<Option<RowsFault>, OutOfMemory>
    requires order { InHookOrder impls.now }
    ensures { IfOk result (λ fault. told fault (map seen_list lists.new.items) world.new ≡ asking.asked_behind (map seen_list lists.old.items) (asking.list_if limit hooks.now impls.now test.now def name.now (Some sets.now) world.old)) }
{
    match params_asked(alloc, world, limit, hooks, impls, test, name, sets)? {
        Ok(ids) => {
            push_list(alloc, lists, heap(world), def, name, sets, ids.items())?;
            Ok(None)
        }
        Err(fault) => Ok(Some(fault)),
    }
}

ghost use Rattle.std.specs.Prelude.{Some};

/// Asks for the ids of the parameters of a definition, where it has any, and puts them behind the other lists.
fn ask_definition(
    alloc: Global,
    world: &mut World,
    limit: u64,
    hooks: &HookTable,
    impls: &[Impl],
    test: &FoundTest,
    lists: &mut Vec<(u32, Vec<PyId>)>,
    def: DefId,
    definition: Option<&Definition>,
) -> Result<Option<RowsFault>, OutOfMemory>
    requires order { InHookOrder impls.now }
    ensures { IfOk result (λ fault. told fault (map seen_list lists.new.items) world.new ≡ asking.asked_behind (map seen_list lists.old.items) (asking.list_of limit hooks.now impls.now test.now def (option_copied definition.entry) world.old)) }
{
    let Some(definition) = definition else {
        return Ok(None);
    };
    let Some(sets) = &definition.params else {
        return Ok(None);
    };
    let name = &definition.fixture.name;
    ask_params(
        alloc,
        world,
        limit,
        hooks,
        impls,
        test,
        lists,
        def,
        name,
        sets.items(),
    )
}

/// The same of a definition with a number.
fn ask_at(
    alloc: Global,
    world: &mut World,
    limit: u64,
    hooks: &HookTable,
    impls: &[Impl],
    test: &FoundTest,
    lists: &mut Vec<(u32, Vec<PyId>)>,
    definitions: &[Definition],
    def: DefId,
) -> Result<Option<RowsFault>, OutOfMemory>
    requires order { InHookOrder impls.now }
    ensures { IfOk result (λ fault. told fault (map seen_list lists.new.items) world.new ≡ asking.asked_behind (map seen_list lists.old.items) (asking.list_of limit hooks.now impls.now test.now def (slice_get definitions.now def) world.old)) }
{
    let definition = definitions.get(def.number() as usize);
    ask_definition(
        alloc, world, limit, hooks, impls, test, lists, def, definition,
    )
}

/// Asks for the ids of the parametrised fixtures among these.
fn lists_among(
    alloc: Global,
    world: &mut World,
    limit: u64,
    hooks: &HookTable,
    impls: &[Impl],
    test: &FoundTest,
    definitions: &[Definition],
    closure: &[DefId],
) -> Result<Result<Vec<(u32, Vec<PyId>)>, RowsFault>, OutOfMemory>
    requires order { InHookOrder impls.now }
    ensures { IfOk result (λ lists. (lists_told lists, world.new) ≡ asking.lists_asked limit hooks.now impls.now test.now definitions.now closure.now world.old) }
{
    let mut lists = Vec::new(alloc);
    for def in closure {
        let fault = ask_at(
            alloc,
            world,
            limit,
            hooks,
            impls,
            test,
            &mut lists,
            definitions,
            *def,
        )?;
        if let Some(fault) = fault {
            return Ok(Err(fault));
        }
    }
    Ok(Ok(lists))
}

/// Asks for the ids of the parametrised fixtures of a closure.
pub(crate) fn lists_asked(
    alloc: Global,
    world: &mut World,
    limit: u64,
    hooks: &HookTable,
    impls: &[Impl],
    test: &FoundTest,
    definitions: &[Definition],
    closure: &Option<Seq<DefId>>,
) -> Result<Result<Vec<(u32, Vec<PyId>)>, RowsFault>, OutOfMemory>
    requires order { InHookOrder impls.now }
    ensures { IfOk result (λ lists. (lists_told lists, world.new) ≡ asking.lists_asked limit hooks.now impls.now test.now definitions.now (rows.closure_or_none closure.now) world.old) }
{
    match closure {
        Some(closure) => lists_among(
            alloc,
            world,
            limit,
            hooks,
            impls,
            test,
            definitions,
            closure.items(),
        ),
        None => Ok(Ok(Vec::new(alloc))),
    }
}
