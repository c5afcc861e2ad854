// The items of the tests of a file.

ghost use Rattle.std.specs.Prelude.{◌≡◌, ◌+◌, ◌<◌, ◌≤◌, IfOk, length};
ghost use Rattle.collect_items.specs.Items.{fixtures_with};
ghost use Rattle.hook_order.specs.HookOrder.{InHookOrder};
ghost use Rattle.runtest_rules.specs.tracebacks.source_meaning.Meaning.{SourceWorld};
ghost use Rattle.collect_ids.specs.Asking as asking;
ghost use Rattle.collect_ids.specs.Files as by_file;
ghost use Rattle.collect_ids.specs.Files.{FileAsked};
ghost use Rattle.collect_ids.specs.Told.{items_told};

use crate::rows::rows_asked;
use collect_rows::{FileItems, FoundItem, RowsFault, TestRows, fault_at_def, push_items};
use collection_nodes::{Mentions, plus};
use fixture_definitions::{Definition, FoundTest};
use fixture_table::Table;
use hook_order::Impl;
use runtest_rules::{World, heap};
use seq::{OutOfMemory, Seq};
use std::alloc::Global;
use test_suite::HookTable;

/// Pushes the items of a test with these rows, or gives its fault.
fn push_rows(
    alloc: Global,
    world: &World,
    found: &mut Seq<FoundItem>,
    test: &FoundTest,
    rows: Result<TestRows, RowsFault>,
) -> Result<Option<RowsFault>, OutOfMemory>
    ensures { IfOk result (λ fault. (others : SourceWorld → FileAsked) → items_told fault found.new others world.now ≡ by_file.before_others found.old (by_file.items_behind test.now (rows, world.now) others)) }
{
    match rows {
        Ok(TestRows::Rows(rows)) => {
            push_items(alloc, found, test, rows)?;
            Ok(None)
        }
        Ok(TestRows::Fault(text)) => {
            let fault = fault_at_def(alloc, heap(world), test, text)?;
            Ok(Some(fault))
        }
        Err(fault) => Ok(Some(fault)),
    }
}

/// Pushes the items of the test at a node, or gives its fault.
fn push_test(
    alloc: Global,
    world: &mut World,
    limit: u64,
    hooks: &HookTable,
    impls: &[Impl],
    found: &mut Seq<FoundItem>,
    table: &Table,
    names: &Mentions,
    definitions: &[Definition],
    node: u32,
    test: &FoundTest,
) -> Result<Option<RowsFault>, OutOfMemory>
    requires order { InHookOrder impls.now }
    requires same { length definitions.now ≡ length table.now.defs }
    requires node { node < length table.now.nodes }
    ensures { IfOk result (λ fault. (others : SourceWorld → FileAsked) → items_told fault found.new others world.new ≡ by_file.before_others found.old (by_file.items_behind test.now (asking.rows_asked limit hooks.now impls.now table.now names.now definitions.now node test.now world.old) others)) }
{
    let rows = rows_asked(
        alloc,
        world,
        limit,
        hooks,
        impls,
        table,
        names,
        definitions,
        node,
        test,
    )?;
    push_rows(alloc, world, found, test, rows)
}

/// The items of tests whose nodes follow one another from this one on, or the first fault of their rows.
pub(crate) fn tests_asked(
    alloc: Global,
    world: &mut World,
    limit: u64,
    hooks: &HookTable,
    impls: &[Impl],
    table: &Table,
    names: &Mentions,
    definitions: &[Definition],
    first: u32,
    tests: &[FoundTest],
) -> Result<FileItems, OutOfMemory>
    requires order { InHookOrder impls.now }
    requires same { length definitions.now ≡ length table.now.defs }
    requires nodes { first + length tests.now ≤ length table.now.nodes }
    ensures { IfOk result (λ items. (items, world.new) ≡ by_file.tests_asked limit hooks.now (fixtures_with table.now names.now definitions.now) impls.now first tests.now world.old) }
{
    let mut found = Seq::new(alloc);
    let mut node = first;
    for test in tests {
        let fault = push_test(
            alloc,
            world,
            limit,
            hooks,
            impls,
            &mut found,
            table,
            names,
            definitions,
            node,
            test,
        )?;
        if let Some(fault) = fault {
            return Ok(FileItems::Fault(fault));
        }
        let behind = plus(node, 1)?;
        node = behind;
    }
    Ok(FileItems::Items(found))
}
