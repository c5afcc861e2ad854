// A table and a stack beside a world, and two items that run one behind the other there.

ghost use Rattle.std.specs.Prelude.{◌≡◌, ◌<◌, [], length, IfOk, OnOk};
ghost use Rattle.setup_stack.specs.Asking.{AreReady, IsReady};
ghost use Rattle.fixture_instances.specs.Items.{item_for_session};
ghost use Rattle.demand_tests.specs.Logs.{FramesAreOut, IsBench, logging, two_items};

use crate::logs::{Cause, Log, LogEntry, Part, Script, Way};
use fixture_instances::{ItemParam, ItemRef};
use fixture_table::{CollectionNode, CollectionTree, FixtureDef, NodeKind, Table};
use seq::{CharText, OutOfMemory, Seq};
use session_types::{DefId, Scope};
use setup_stack::{SetupError, SetupStack};
use std::alloc::Global;

/// A definition, whose name is its number; what it asks for, and what its function does.
#[derive(Clone, Copy)]
pub struct Row<'r> {
    pub args: &'r [u32],
    pub part: Part,
}

/// Whether a closure is demanded in one call.
#[derive(Clone, Copy)]
pub enum Asking {
    OneByOne,
    AtOnce,
}

/// What the test of an item asks for, how that is demanded, and whether the test raises.
#[derive(Clone, Copy)]
pub struct TestDemand<'h> {
    pub args: &'h [u32],
    pub asking: Asking,
    pub raises: bool,
}

/// A table and a stack beside a world and what the functions do there.
pub struct Bench {
    pub script: Script,
    pub world: Log,
    pub table: Table,
    pub stack: SetupStack<u32, Cause, u32>,
}

/// A fixture that asks for others by their numbers and acts in a way.
pub fn row_of<'r>(scope: Scope, args: &'r [u32], way: Way) -> Row<'r> {
    Row {
        args,
        part: Part {
            scope,
            way,
            fails: false,
        },
    }
}

fn node(kind: NodeKind, parent: u32) -> CollectionNode
    ensures { result ≡ record { kind = kind; parent = parent } }
{
    CollectionNode { kind, parent }
}

/// A file, and the items 2 and 3 in it.
fn two_items(alloc: Global) -> Result<Table, OutOfMemory>
    ensures { IfOk result (λ table. table ≡ record { nodes = two_items; defs = [] }) }
{
    let mut nodes = Vec::new(alloc);
    nodes.push(node(NodeKind::Session, 0))?;
    nodes.push(node(NodeKind::File, 0))?;
    nodes.push(node(NodeKind::Item, 1))?;
    nodes.push(node(NodeKind::Item, 1))?;
    Table::new(alloc, CollectionTree::from_vec(nodes))
}

fn add_row(
    alloc: Global,
    table: &mut Table,
    script: &mut Script,
    row: Row,
) -> Result<(), OutOfMemory>
    requires { IsBench script.old table.old }
    ensures { OnOk result (IsBench script.new table.new) }
{
    if script.parts.len() > u32::MAX as usize {
        return Err(OutOfMemory);
    }
    let name = script.parts.len() as u32;
    table.add(FixtureDef {
        name,
        scope: row.part.scope,
        autouse: false,
        params: 0,
        args: Seq::from_slice(alloc, row.args)?,
        node: 0,
        code: 0,
    })?;
    script.parts.push(row.part)?;
    Ok(())
}

fn stacked(alloc: Global, table: Table, script: Script) -> Result<Bench, OutOfMemory>
    requires { IsBench script table }
    ensures bench { IfOk result (λ bench. IsBench bench.script bench.table) }
    ensures frames { IfOk result (λ bench. FramesAreOut bench.script bench.world bench.stack) }
{
    let stack = SetupStack::new(alloc)?;
    let lines = Seq::new(alloc);
    let frames = Seq::new(alloc);
    let world = Log {
        alloc,
        lines,
        frames,
        last: None,
        before: None,
    };
    Ok(Bench {
        script,
        world,
        table,
        stack,
    })
}

/// A bench with these definitions.
pub fn bench_of(alloc: Global, rows: &[Row]) -> Result<Bench, OutOfMemory>
    ensures bench { IfOk result (λ bench. IsBench bench.script bench.table) }
    ensures frames { IfOk result (λ bench. FramesAreOut bench.script bench.world bench.stack) }
{
    let mut table = two_items(alloc)?;
    let mut script = Script {
        alloc,
        parts: Seq::new(alloc),
    };
    for row in rows {
        add_row(alloc, &mut table, &mut script, *row)?;
    }
    stacked(alloc, table, script)
}

/// So many definitions, each of which asks for the one behind it.
pub fn deep(alloc: Global, count: u32) -> Result<Bench, OutOfMemory>
    requires { count < 100000 }
    ensures bench { IfOk result (λ bench. IsBench bench.script bench.table) }
    ensures frames { IfOk result (λ bench. FramesAreOut bench.script bench.world bench.stack) }
{
    let mut table = two_items(alloc)?;
    let mut script = Script {
        alloc,
        parts: Seq::new(alloc),
    };
    for name in 0..count {
        let next = [name + 1];
        let args: &[u32] = if name + 1 < count { &next } else { &[] };
        add_row(
            alloc,
            &mut table,
            &mut script,
            row_of(Scope::Function, args, Way::YieldsOnce),
        )?;
    }
    stacked(alloc, table, script)
}

/// What was done on a bench, in order.
pub fn end(bench: Bench) -> Log {
    let Bench {
        script: _script,
        mut world,
        table: _table,
        mut stack,
    } = bench;
    stack.abandon_all(&mut world);
    stack.close();
    world
}

/// A definition is demanded. Its exceptions, where it is refused.
fn demand(bench: &mut Bench, item: &ItemRef<u32>, def: DefId) -> Result<Seq<Cause>, OutOfMemory>
    requires bench { IsBench bench.old.script bench.old.table }
    requires node { item.now.node < 4 }
    requires ready { IsReady (logging bench.old.script) (item_for_session bench.old.table item.now) (length bench.old.table.defs) (length bench.old.script.parts) def }
    requires frames { FramesAreOut bench.old.script bench.old.world bench.old.stack }
    ensures script { bench.new.script ≡ bench.old.script }
    ensures table { bench.new.table ≡ bench.old.table }
    ensures frames { OnOk result (FramesAreOut bench.new.script bench.new.world bench.new.stack) }
{
    match bench.stack.demand(
        bench.script.alloc,
        &mut bench.world,
        &bench.script,
        &bench.table,
        item,
        def,
    ) {
        Ok(_) => Ok(Seq::new(bench.script.alloc)),
        Err(SetupError::Told(raised)) => Ok(raised),
        Err(SetupError::OutOfMemory) => Err(OutOfMemory),
    }
}

/// These definitions are demanded one by one, up to the first that is refused.
fn demand_each(
    bench: &mut Bench,
    item: &ItemRef<u32>,
    defs: &[DefId],
) -> Result<Seq<Cause>, OutOfMemory>
    requires bench { IsBench bench.old.script bench.old.table }
    requires node { item.now.node < 4 }
    requires ready { AreReady (logging bench.old.script) (item_for_session bench.old.table item.now) (length bench.old.table.defs) (length bench.old.script.parts) defs.now }
    requires frames { FramesAreOut bench.old.script bench.old.world bench.old.stack }
    ensures script { OnOk result (bench.new.script ≡ bench.old.script) }
    ensures table { OnOk result (bench.new.table ≡ bench.old.table) }
    ensures frames { OnOk result (FramesAreOut bench.new.script bench.new.world bench.new.stack) }
{
    let mut rest = defs;
    'defs: while let Some((def, others)) = rest.split_first() {
        let raised = demand(bench, item, *def)?;
        if !raised.is_empty() {
            return Ok(raised);
        }
        rest = others;
    }
    Ok(Seq::new(bench.script.alloc))
}

/// These definitions are demanded in one call.
fn demand_all(
    bench: &mut Bench,
    item: &ItemRef<u32>,
    defs: &[DefId],
) -> Result<Seq<Cause>, OutOfMemory>
    requires bench { IsBench bench.old.script bench.old.table }
    requires node { item.now.node < 4 }
    requires ready { AreReady (logging bench.old.script) (item_for_session bench.old.table item.now) (length bench.old.table.defs) (length bench.old.script.parts) defs.now }
    requires frames { FramesAreOut bench.old.script bench.old.world bench.old.stack }
    ensures script { bench.new.script ≡ bench.old.script }
    ensures table { bench.new.table ≡ bench.old.table }
    ensures frames { OnOk result (FramesAreOut bench.new.script bench.new.world bench.new.stack) }
{
    bench.stack.demand_all(
        bench.script.alloc,
        &mut bench.world,
        &bench.script,
        &bench.table,
        item,
        defs,
    )
}

/// An item's closure is demanded in order.
fn set_up(
    bench: &mut Bench,
    item: &ItemRef<u32>,
    args: &[u32],
    asking: Asking,
) -> Result<Seq<Cause>, OutOfMemory>
    requires bench { IsBench bench.old.script bench.old.table }
    requires node { item.now.node < 4 }
    requires bound { item.now.bound ≡ [] }
    requires frames { FramesAreOut bench.old.script bench.old.world bench.old.stack }
    ensures bench { OnOk result (IsBench bench.new.script bench.new.table) }
    ensures frames { OnOk result (FramesAreOut bench.new.script bench.new.world bench.new.stack) }
{
    match bench.table.closure(item.node, &[], &[], args) {
        // No table of these tests has a fault.
        Err(_fault) => Err(OutOfMemory),
        Ok(ids) => match asking {
            Asking::OneByOne => demand_each(bench, item, &ids),
            Asking::AtOnce => demand_all(bench, item, &ids),
        },
    }
}

/// An item's test is called. What it raised.
fn call(bench: &mut Bench, item: &ItemRef<u32>, raises: bool) -> Result<Seq<Cause>, OutOfMemory>
    requires frames { FramesAreOut bench.old.script bench.old.world bench.old.stack }
    ensures script { bench.new.script ≡ bench.old.script }
    ensures table { bench.new.table ≡ bench.old.table }
    ensures frames { OnOk result (FramesAreOut bench.new.script bench.new.world bench.new.stack) }
{
    let mut raised = Seq::new(bench.script.alloc);
    bench.stack.call_begins(bench.script.alloc, item)?;
    bench.world.lines.push(LogEntry::Called(item.node))?;
    if raises {
        raised.push(Cause::InTest(item.node))?;
    }
    bench.stack.call_ends(item)?;
    Ok(raised)
}

/// An item's closure is demanded in order, and its test is called, unless something is refused.
pub fn run(
    bench: &mut Bench,
    item: &ItemRef<u32>,
    how: TestDemand,
) -> Result<Seq<Cause>, OutOfMemory>
    requires bench { IsBench bench.old.script bench.old.table }
    requires node { item.now.node < 4 }
    requires bound { item.now.bound ≡ [] }
    requires frames { FramesAreOut bench.old.script bench.old.world bench.old.stack }
    ensures bench { OnOk result (IsBench bench.new.script bench.new.table) }
    ensures frames { OnOk result (FramesAreOut bench.new.script bench.new.world bench.new.stack) }
{
    let refused = set_up(bench, item, how.args, how.asking)?;
    if !refused.is_empty() {
        return Ok(refused);
    }
    call(bench, item, how.raises)
}

/// What the next item doesn't need goes down.
fn go_on(bench: &mut Bench, next: &ItemRef<u32>) -> Result<Seq<Cause>, OutOfMemory>
    requires bench { IsBench bench.old.script bench.old.table }
    requires node { next.now.node < 4 }
    requires frames { FramesAreOut bench.old.script bench.old.world bench.old.stack }
    ensures bench { OnOk result (IsBench bench.new.script bench.new.table) }
    ensures frames { OnOk result (FramesAreOut bench.new.script bench.new.world bench.new.stack) }
{
    bench.stack.leave(
        bench.script.alloc,
        &mut bench.world,
        &bench.script,
        &bench.table,
        Some(next),
    )
}

/// All goes down.
fn end_all(bench: &mut Bench) -> Result<Seq<Cause>, OutOfMemory>
    requires bench { IsBench bench.old.script bench.old.table }
    requires frames { FramesAreOut bench.old.script bench.old.world bench.old.stack }
    ensures bench { OnOk result (IsBench bench.new.script bench.new.table) }
    ensures frames { OnOk result (FramesAreOut bench.new.script bench.new.world bench.new.stack) }
{
    bench.stack.leave(
        bench.script.alloc,
        &mut bench.world,
        &bench.script,
        &bench.table,
        None,
    )
}

/// An item that asks for one node, with nothing bound.
pub fn item(alloc: Global, node: u32) -> ItemRef<u32>
    ensures node { result.node ≡ node }
    ensures bound { result.bound ≡ [] }
{
    ItemRef {
        node,
        own: None,
        bound: Seq::new(alloc),
        params: Seq::new(alloc),
    }
}

/// An item with this parameter of definition 0.
pub fn with_parameter(alloc: Global, node: u32, number: u32) -> Result<ItemRef<u32>, OutOfMemory>
    ensures node { IfOk result (λ item. item.node ≡ node) }
    ensures bound { IfOk result (λ item. item.bound ≡ []) }
{
    let mut params = Seq::new(alloc);
    params.push(ItemParam {
        def: DefId::new(0),
        number,
        value: number,
        id: CharText::new(alloc),
    })?;
    Ok(ItemRef {
        node,
        own: None,
        bound: Seq::new(alloc),
        params,
    })
}

/// The items 2 and 3 run one behind the other; what was raised in each phase, in order.
pub fn both(
    bench: &mut Bench,
    one: &ItemRef<u32>,
    other: &ItemRef<u32>,
    how: TestDemand,
) -> Result<Seq<Cause>, OutOfMemory>
    requires bench { IsBench bench.old.script bench.old.table }
    requires one { one.now.node ≡ 2 }
    requires other { other.now.node ≡ 3 }
    requires one_bound { one.now.bound ≡ [] }
    requires other_bound { other.now.bound ≡ [] }
    requires frames { FramesAreOut bench.old.script bench.old.world bench.old.stack }
{
    let mut raised = run(bench, one, how)?;
    add_all(&mut raised, go_on(bench, other)?)?;
    add_all(&mut raised, run(bench, other, how)?)?;
    add_all(&mut raised, end_all(bench)?)?;
    Ok(raised)
}

fn add_all(out: &mut Seq<Cause>, more: Seq<Cause>) -> Result<(), OutOfMemory> {
    for one in more.items() {
        out.push(*one)?;
    }
    Ok(())
}

/// What was done and what was raised, where the items 2 and 3 run over these definitions.
#[derive(Drop)]
pub struct BenchOutcome {
    pub world: Log,
    pub raised: Seq<Cause>,
}

/// What comes of a demand over a tree of fixtures, told in a row.
pub fn told_of(alloc: Global, rows: &[Row], how: TestDemand) -> Result<BenchOutcome, OutOfMemory> {
    let mut made = bench_of(alloc, rows)?;
    let done = both(&mut made, &item(alloc, 2), &item(alloc, 3), how);
    let world = end(made);
    let raised = done?;
    Ok(BenchOutcome { world, raised })
}
