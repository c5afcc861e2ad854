// The rows of a test.

ghost use Rattle.std.specs.Prelude.{◌≡◌, ◌<◌, IfOk, length, map};
ghost use Rattle.collect_rows.specs.Seen.{seen_list};
ghost use Rattle.hook_order.specs.HookOrder.{InHookOrder};
ghost use Rattle.collect_ids.specs.Asking as asking;

use crate::lists::{lists_asked, marks_asked};
use collect_fixtures::closure_unless_fault;
use collect_rows::{
    RowsFault, TestRows, marks_fault, marks_of, names_known, numbers_bound, rows_of_lists,
};
use collection_nodes::Mentions;
use fixture_definitions::{Definition, FoundTest};
use fixture_table::Table;
use hook_order::Impl;
use param_rows::PyId;
use py_values::heap::Heap;
use runtest_rules::{World, heap};
use seq::{OutOfMemory, PyText, Seq};
use session_types::DefId;
use std::alloc::Global;
use test_suite::HookTable;

/// The text of the first fault of the `parametrize` marks of a test.
fn fault_of_marks(
    alloc: Global,
    heap: &Heap,
    names: &Mentions,
    known: &[u32],
    test: &FoundTest,
) -> Result<Option<PyText>, OutOfMemory>
    ensures { IfOk result (λ fault. fault ≡ option_map (fault_text names.now) (row_faults.marks_fault known.now [] (map (mark_of heap.now names.now) test.now.parametrized))) }
{
    let marks = marks_of(alloc, heap, names, test.parametrized.items())?;
    marks_fault(alloc, names, known, &marks)
}

ghost use Rattle.std.specs.Prelude.{[], option_map};
ghost use Rattle.collect_rows.specs.Rows.{fault_text, mark_of};
ghost use Rattle.param_rows.specs.Faults as row_faults;

/// Asks for the ids of the `parametrize` marks of a test; its rows behind these lists of fixtures.
fn marks_then_rows(
    alloc: Global,
    world: &mut World,
    limit: u64,
    hooks: &HookTable,
    impls: &[Impl],
    table: &Table,
    names: &Mentions,
    definitions: &[Definition],
    test: &FoundTest,
    bound: &[u32],
    known: &[u32],
    lists: &[(u32, Vec<PyId>)],
) -> Result<Result<TestRows, RowsFault>, OutOfMemory>
    requires order { InHookOrder impls.now }
    ensures { IfOk result (λ rows. (rows, world.new) ≡ asking.marks_then_rows limit hooks.now impls.now table.now names.now definitions.now test.now bound.now known.now (map seen_list lists.now) world.old) }
{
    match marks_asked(alloc, world, limit, hooks, impls, names, test)? {
        Ok(marks) => {
            let rows = rows_of_lists(
                alloc,
                names,
                definitions,
                bound,
                known,
                lists,
                marks.items(),
            )?;
            Ok(Ok(rows))
        }
        Err(fault) => Ok(Err(fault)),
    }
}

/// Asks for the ids of the lists of a test; its rows.
fn rows_by_asking(
    alloc: Global,
    world: &mut World,
    limit: u64,
    hooks: &HookTable,
    impls: &[Impl],
    table: &Table,
    names: &Mentions,
    definitions: &[Definition],
    test: &FoundTest,
    bound: &[u32],
    known: &[u32],
    closure: &Option<Seq<DefId>>,
) -> Result<Result<TestRows, RowsFault>, OutOfMemory>
    requires order { InHookOrder impls.now }
    ensures { IfOk result (λ rows. (rows, world.new) ≡ asking.rows_unless_faulty limit hooks.now impls.now table.now names.now definitions.now test.now bound.now known.now closure.now None world.old) }
{
    match lists_asked(
        alloc,
        world,
        limit,
        hooks,
        impls,
        test,
        definitions,
        closure,
    )? {
        Ok(lists) => marks_then_rows(
            alloc,
            world,
            limit,
            hooks,
            impls,
            table,
            names,
            definitions,
            test,
            bound,
            known,
            &lists,
        ),
        Err(fault) => Ok(Err(fault)),
    }
}

ghost use Rattle.std.specs.Prelude.{None};

/// The rows of a test with this closure, by asking unless its marks have a fault.
fn rows_under(
    alloc: Global,
    world: &mut World,
    limit: u64,
    hooks: &HookTable,
    impls: &[Impl],
    table: &Table,
    names: &Mentions,
    definitions: &[Definition],
    node: u32,
    test: &FoundTest,
    bound: &[u32],
    closure: &Option<Seq<DefId>>,
) -> Result<Result<TestRows, RowsFault>, OutOfMemory>
    requires order { InHookOrder impls.now }
    requires same { length definitions.now ≡ length table.now.defs }
    requires node { node < length table.now.nodes }
    ensures { IfOk result (λ rows. (rows, world.new) ≡ asking.rows_under limit hooks.now impls.now table.now names.now definitions.now node test.now bound.now closure.now world.old) }
{
    let known = names_known(alloc, table, definitions.len(), names, node, test, closure)?;
    match fault_of_marks(alloc, heap(world), names, &known, test)? {
        Some(text) => Ok(Ok(TestRows::Fault(text))),
        None => rows_by_asking(
            alloc,
            world,
            limit,
            hooks,
            impls,
            table,
            names,
            definitions,
            test,
            bound,
            &known,
            closure,
        ),
    }
}

/// The rows of the test at a node, with the ids for which these implementations are asked; or the fault that ended it.
#[tactic(auto, unfolding(crate::specs::Asking::rows_asked))]
pub(crate) fn rows_asked(
    alloc: Global,
    world: &mut World,
    limit: u64,
    hooks: &HookTable,
    impls: &[Impl],
    table: &Table,
    names: &Mentions,
    definitions: &[Definition],
    node: u32,
    test: &FoundTest,
) -> Result<Result<TestRows, RowsFault>, OutOfMemory>
    requires order { InHookOrder impls.now }
    requires same { length definitions.now ≡ length table.now.defs }
    requires node { node < length table.now.nodes }
    ensures { IfOk result (λ rows. (rows, world.new) ≡ asking.rows_asked limit hooks.now impls.now table.now names.now definitions.now node test.now world.old) }
{
    let bound = numbers_bound(alloc, names, test)?;
    let uses = test.uses.items();
    let arguments = test.arguments.items();
    let closure = closure_unless_fault(alloc, table, names, node, bound.items(), uses, arguments)?;
    rows_under(
        alloc,
        world,
        limit,
        hooks,
        impls,
        table,
        names,
        definitions,
        node,
        test,
        bound.items(),
        &closure,
    )
}
