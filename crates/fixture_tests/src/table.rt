ghost use Rattle.std.specs.Prelude.{◌≡◌, ◌<◌, ◌+◌, ℕ, length, IfOk};

use fixture_table::{
    CollectionNode, CollectionTree, FixtureDef, FixtureFault, FixtureNames, NodeKind, Table,
};
use seq::OutOfMemory;
use session_types::{DefId, Scope};
use std::alloc::Global;

#[derive(Clone, Copy)]
struct Row<'r> {
    name: u32,
    scope: Scope,
    autouse: bool,
    args: &'r [u32],
    node: u32,
}

fn names(alloc: Global, items: &[u32]) -> Result<FixtureNames, OutOfMemory> {
    let mut list = Vec::new(alloc);
    for item in items {
        list.push(*item)?;
    }
    Ok(FixtureNames::from_vec(list))
}

fn root(alloc: Global) -> Result<Table, OutOfMemory>
    ensures { IfOk result (λ t. length t.nodes ≡ 1) }
{
    let mut nodes = Vec::new(alloc);
    nodes.push(CollectionNode {
        kind: NodeKind::Session,
        parent: 0,
    })?;
    Table::new(alloc, CollectionTree::from_vec(nodes))
}

/// A node under each of these nodes.
fn tree(alloc: Global, parents: &[u32]) -> Result<Table, OutOfMemory>
    requires { length parents.now < 1000 }
    ensures { IfOk result (λ t. length t.nodes ≡ length parents.now + 1) }
{
    let mut table = root(alloc)?;
    for place in 0..parents.len() {
        let parent = parents[place];
        let parent = if parent as usize <= place { parent } else { 0 };
        table.add_node(CollectionNode {
            kind: NodeKind::Directory,
            parent,
        })?;
    }
    Ok(table)
}

fn add_row(alloc: Global, table: &mut Table, row: Row) -> Result<DefId, OutOfMemory>
    requires { row.node < length table.old.nodes }
    ensures { length table.new.nodes ≡ length table.old.nodes }
{
    table.add(FixtureDef {
        name: row.name,
        scope: row.scope,
        autouse: row.autouse,
        params: 0,
        args: names(alloc, row.args)?,
        node: row.node,
        code: 0,
    })
}

#[derive(Clone, Copy)]
struct Case<'c> {
    rows: &'c [Row<'c>],
    item: u32,
    bound: &'c [u32],
    uses: &'c [u32],
    args: &'c [u32],
}

/// The closure over folders 1 in 0, file 2 in 1, class 3 in 2, item 4 in 3, and another item 5 in 0.
fn closed(alloc: Global, case: Case) -> Result<Vec<DefId>, FixtureFault> {
    let mut table = tree(alloc, &[0, 1, 2, 3, 0])?;
    for row in case.rows {
        let node = if row.node < 6 { row.node } else { 0 };
        add_row(alloc, &mut table, Row { node, ..*row })?;
    }
    let item = if case.item < 6 { case.item } else { 0 };
    table.closure(item, case.bound, case.uses, case.args)
}

fn one(name: u32, args: &[u32], node: u32) -> Row
    ensures { result.node ≡ node }
{
    Row {
        name,
        scope: Scope::Function,
        autouse: false,
        args,
        node,
    }
}

fn auto(name: u32, node: u32) -> Row<'static> {
    Row {
        name,
        scope: Scope::Function,
        autouse: true,
        args: &[],
        node,
    }
}

fn scoped(name: u32, scope: Scope, args: &[u32]) -> Row {
    Row {
        name,
        scope,
        autouse: false,
        args,
        node: 0,
    }
}

fn same(alloc: Global, case: Case, places: &[u32]) -> bool {
    match closed(alloc, case) {
        Err(_) => false,
        Ok(ids) => {
            if ids.len() != places.len() {
                return false;
            }
            for at in 0..places.len() {
                if ids.get(at) != Some(&DefId::new(places[at])) {
                    return false;
                }
            }
            true
        }
    }
}

fn asks<'a>(
    rows: &'a [Row<'a>],
    item: u32,
    bound: &'a [u32],
    uses: &'a [u32],
    args: &'a [u32],
) -> Case<'a> {
    Case {
        rows,
        item,
        bound,
        uses,
        args,
    }
}

fn fault(alloc: Global, case: Case) -> Option<FixtureFault> {
    closed(alloc, case).err()
}

#[test]
fn closures_are_in_order(rt: HostRuntime) {
    let alloc = rt.alloc();
    let overriding = [one(1, &[], 0), one(1, &[1], 1), one(1, &[1], 2)];
    let twice = [one(1, &[], 0), one(1, &[], 0)];
    let twice_own = [one(1, &[], 0), one(1, &[1], 0)];
    let autos = [
        auto(1, 2),
        auto(2, 0),
        auto(3, 1),
        one(4, &[], 0),
        one(5, &[], 0),
        auto(6, 1),
    ];
    let scopes = [
        scoped(1, Scope::Function, &[]),
        scoped(2, Scope::Session, &[]),
        scoped(3, Scope::Function, &[2]),
        scoped(4, Scope::Session, &[]),
        scoped(5, Scope::Class, &[]),
        scoped(6, Scope::Module, &[]),
    ];
    let shared = [one(1, &[3, 2], 0), one(2, &[3], 0), one(3, &[], 0)];
    let cases: [(Case, &[u32]); 10] = [
        (asks(&overriding, 4, &[], &[], &[1]), &[2, 1, 0]),
        (asks(&overriding, 1, &[], &[], &[1]), &[1, 0]),
        (asks(&overriding, 5, &[], &[1], &[1]), &[0]),
        (asks(&twice, 4, &[], &[], &[1]), &[1]),
        (asks(&twice_own, 4, &[], &[], &[1]), &[1, 0]),
        (asks(&autos, 4, &[], &[5], &[4]), &[1, 2, 5, 0, 4, 3]),
        (asks(&autos, 5, &[], &[], &[]), &[1]),
        (
            asks(&scopes, 4, &[], &[], &[1, 5, 3, 4, 6]),
            &[3, 1, 5, 4, 0, 2],
        ),
        (asks(&shared, 4, &[], &[], &[1]), &[0, 2, 1]),
        (asks(&shared, 4, &[3], &[3], &[1, 3]), &[0, 1]),
    ];
    for (case, places) in cases {
        assert!(rt; same(alloc, case, places));
    }
}

#[test]
fn the_first_fault_is_named(rt: HostRuntime) {
    let alloc = rt.alloc();
    let below = [one(1, &[], 1)];
    let lost = [scoped(1, Scope::Session, &[9])];
    let own = [one(1, &[1], 0)];
    let ring = [one(1, &[2], 0), one(2, &[3], 0), one(3, &[1], 0)];
    let tail = [one(1, &[2], 0), one(2, &[3], 0), one(3, &[2], 0)];
    let narrow = [
        scoped(1, Scope::Session, &[3, 2]),
        scoped(2, Scope::Module, &[]),
        scoped(3, Scope::Session, &[]),
    ];
    let both = [
        scoped(1, Scope::Session, &[2]),
        scoped(2, Scope::Function, &[1]),
    ];
    let first = [
        scoped(1, Scope::Class, &[9, 2]),
        scoped(2, Scope::Function, &[]),
    ];
    let cases = [
        (asks(&below, 5, &[], &[], &[1]), FixtureFault::Unknown(1)),
        (asks(&below, 4, &[], &[8], &[9]), FixtureFault::Unknown(8)),
        (asks(&lost, 4, &[], &[], &[1]), FixtureFault::Unknown(9)),
        (asks(&own, 4, &[], &[], &[1]), FixtureFault::Recursive(1)),
        (asks(&ring, 4, &[], &[], &[2]), FixtureFault::Recursive(2)),
        (asks(&tail, 4, &[], &[], &[1]), FixtureFault::Recursive(2)),
        (
            asks(&narrow, 4, &[], &[], &[1]),
            FixtureFault::ScopeMismatch(DefId::new(0), 2),
        ),
        (
            asks(&narrow, 4, &[3], &[], &[1]),
            FixtureFault::ScopeMismatch(DefId::new(0), 3),
        ),
        (asks(&narrow, 4, &[], &[7], &[1]), FixtureFault::Unknown(7)),
        (
            asks(&narrow, 4, &[], &[1], &[7]),
            FixtureFault::ScopeMismatch(DefId::new(0), 2),
        ),
        (asks(&both, 4, &[], &[], &[1]), FixtureFault::Recursive(1)),
        (
            asks(&first, 4, &[], &[], &[1]),
            FixtureFault::ScopeMismatch(DefId::new(0), 2),
        ),
    ];
    for (case, expected) in cases {
        assert!(rt; fault(alloc, case) == Some(expected));
    }
}

/// So many definitions, each of the first ones asking for the one behind it, and the last of those for this one.
fn long(alloc: Global, count: u32, chain: u32, last: u32) -> Result<Vec<DefId>, FixtureFault>
    requires { count < 100000 }
{
    let mut table = root(alloc)?;
    for name in 0..count {
        let next = [if name == chain { last } else { name + 1 }];
        let args: &[u32] = if name <= chain { &next } else { &[] };
        add_row(alloc, &mut table, one(name, args, 0))?;
    }
    table.closure(0, &[], &[], &[0])
}

/// The last of 200 that ask one for another, at the root; the others stand in 500 files, twenty in each.
fn spread(alloc: Global, count: u32) -> Result<Vec<DefId>, FixtureFault>
    requires { count < 100000 }
{
    let mut table = tree(alloc, &[0; 500])?;
    for name in 0..count {
        let node = if name < 200 { 0 } else { 1 + name % 500 };
        let next = [name + 1];
        let args: &[u32] = if name < 199 { &next } else { &[] };
        add_row(alloc, &mut table, one(name, args, node))?;
    }
    table.closure(1, &[], &[], &[0])
}

/// Whether a chain of 200 is followed to its end, at the root and among other files, and its fault is named.
fn are_long_chains_answered(alloc: Global) -> Result<bool, FixtureFault> {
    let plain = long(alloc, 10000, 200, 300)?;
    let is_plain = plain.len() == 202 && plain.last() == Some(&DefId::new(300));
    let is_spread = spread(alloc, 10000)?.len() == 200;
    Ok(
        is_plain
            && is_spread
            && long(alloc, 10000, 200, 0).err() == Some(FixtureFault::Recursive(0))
            && long(alloc, 10000, 200, 10000).err() == Some(FixtureFault::Unknown(10000)),
    )
}

#[test]
fn long_chains_are_answered(rt: HostRuntime) {
    assert!(rt; matches!(are_long_chains_answered(rt.alloc()), Ok(true)));
}
