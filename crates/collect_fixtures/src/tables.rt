// The table of fixtures.

ghost use Rattle.std.specs.Prelude.{◌≡◌, ◌<◌, ◌+◌, ◌++◌, ◌∷◌, [], ℕ, IfOk, OnOk, fold, length, map};
ghost use Rattle.collection_nodes.specs.Texts.{number_among, with_mentions};
ghost use Rattle.fixture_definitions.specs.Arguments.{but_request};
ghost use Rattle.fixture_table.specs.Tree.{IsTree};
ghost use Rattle.collect_fixtures.specs.Tables as tables;

use collection_nodes::{Mentions, plus};
use fixture_definitions::{Definition, FoundTest, but_request};
use fixture_table::{CollectionNode, CollectionTree, FixtureDef, NodeKind, Table};
use param_rows::ParamSets;
use py_values::value::Value;
use seq::{OutOfMemory, PyText, Seq};
use std::alloc::Global;

/// Mentions the names of a definition.
fn mention_definition(
    alloc: Global,
    names: &mut Mentions,
    one: &Definition,
) -> Result<(), OutOfMemory>
    ensures { OnOk result (names.new ≡ tables.with_definition names.old one.now) }
{
    let arguments = but_request(alloc, one.fixture.arguments.items())?;
    names.mention(alloc, one.fixture.name.chars())?;
    names.mention_all(alloc, arguments.items())
}

fn push_names(alloc: Global, names: &mut Seq<PyText>, some: &[PyText]) -> Result<(), OutOfMemory>
    ensures { OnOk result (names.new ≡ names.old ++ some.now) }
{
    for name in some {
        let copy = PyText::from_chars(alloc, name.chars())?;
        names.push(copy)?;
    }
    Ok(())
}

/// The names that the `parametrize` marks of a test bind.
pub fn names_bound(alloc: Global, test: &FoundTest) -> Result<Seq<PyText>, OutOfMemory>
    ensures { IfOk result (λ names. names ≡ tables.names_bound test.now) }
{
    let mut names = Seq::new(alloc);
    for one in test.parametrized.items() {
        push_names(alloc, &mut names, one.names.items())?;
    }
    Ok(names)
}

/// Mentions the names of a test.
fn mention_test(alloc: Global, names: &mut Mentions, one: &FoundTest) -> Result<(), OutOfMemory>
    ensures { OnOk result (names.new ≡ tables.with_test names.old one.now) }
{
    let arguments = but_request(alloc, one.arguments.items())?;
    let bound = names_bound(alloc, one)?;
    names.mention_all(alloc, one.uses.items())?;
    names.mention_all(alloc, arguments.items())?;
    names.mention_all(alloc, bound.items())
}

fn mention_definitions(
    alloc: Global,
    names: &mut Mentions,
    definitions: &[Definition],
) -> Result<(), OutOfMemory>
    ensures { OnOk result (names.new ≡ fold tables.with_definition names.old definitions.now) }
{
    for one in definitions {
        mention_definition(alloc, names, one)?;
    }
    Ok(())
}

fn mention_tests(
    alloc: Global,
    names: &mut Mentions,
    tests: &[FoundTest],
) -> Result<(), OutOfMemory>
    ensures { OnOk result (names.new ≡ fold tables.with_test names.old tests.now) }
{
    for one in tests {
        mention_test(alloc, names, one)?;
    }
    Ok(())
}

/// The names of fixtures, those of the definitions and then those of the tests, each once.
#[tactic(auto, unfolding(crate::specs::Tables::all_names))]
pub fn all_names(
    alloc: Global,
    definitions: &[Definition],
    tests: &[FoundTest],
) -> Result<Mentions, OutOfMemory>
    ensures { IfOk result (λ names. names ≡ tables.all_names definitions.now tests.now) }
{
    let mut names = Mentions::new(alloc);
    mention_definitions(alloc, &mut names, definitions)?;
    mention_tests(alloc, &mut names, tests)?;
    Ok(names)
}

/// The numbers of the names for which fixtures are looked for.
pub fn asked_numbers(
    alloc: Global,
    names: &Mentions,
    some: &[PyText],
) -> Result<Seq<u32>, OutOfMemory>
    ensures { IfOk result (λ numbers. numbers ≡ tables.all_numbers names.now (but_request some.now)) }
{
    let some = but_request(alloc, some)?;
    names.numbers(alloc, some.items())
}

/// How many parameters there are.
fn params_count(params: &Option<ParamSets<Value>>) -> Result<u32, OutOfMemory>
    ensures { IfOk result (λ count. count ≡ tables.params_count params.now) }
{
    let Some(sets) = params else {
        return Ok(0);
    };
    match u32::try_from(sets.len()) {
        Ok(count) => Ok(count),
        // No memory holds so many.
        Err(_) => Err(OutOfMemory),
    }
}

/// A definition in the table, with a number.
fn table_def(
    alloc: Global,
    names: &Mentions,
    number: u32,
    one: &Definition,
) -> Result<FixtureDef, OutOfMemory>
    ensures { IfOk result (λ def. def ≡ tables.table_def names.now number one.now) }
{
    let name = names.number(alloc, one.fixture.name.chars())?;
    let args = asked_numbers(alloc, names, one.fixture.arguments.items())?;
    Ok(FixtureDef {
        name,
        scope: one.fixture.scope,
        autouse: one.autouse,
        params: params_count(&one.params)?,
        args,
        node: one.node,
        code: number,
    })
}

/// Appends a definition to a table with so many nodes.
fn add_def(table: &mut Table, count: usize, def: FixtureDef) -> Result<(), OutOfMemory>
    requires { length table.old.nodes ≡ count }
    ensures { OnOk result (table.new ≡ record { nodes = table.old.nodes; defs = table.old.defs ++ def ∷ [] }) }
{
    if def.node as usize >= count {
        drop(def);
        // Definitions stand at nodes.
        return Err(OutOfMemory);
    }
    table.add(def)?;
    Ok(())
}

fn add_one(
    alloc: Global,
    table: &mut Table,
    count: usize,
    names: &Mentions,
    number: u32,
    one: &Definition,
) -> Result<(), OutOfMemory>
    requires { length table.old.nodes ≡ count }
    ensures { OnOk result (table.new ≡ record { nodes = table.old.nodes; defs = table.old.defs ++ tables.table_def names.now number one.now ∷ [] }) }
{
    let def = table_def(alloc, names, number, one)?;
    add_def(table, count, def)
}

/// Appends definitions to a table with so many nodes.
fn add_all(
    alloc: Global,
    table: &mut Table,
    count: usize,
    names: &Mentions,
    definitions: &[Definition],
) -> Result<(), OutOfMemory>
    requires { length table.old.nodes ≡ count }
    ensures { OnOk result (table.new ≡ record { nodes = table.old.nodes; defs = table.old.defs ++ tables.table_defs names.now 0 definitions.now }) }
{
    let mut number = 0;
    for one in definitions {
        add_one(alloc, table, count, names, number, one)?;
        let behind = plus(number, 1)?;
        number = behind;
    }
    Ok(())
}

/// Whether a node stands behind its parent.
fn stands_behind(at: usize, node: CollectionNode) -> bool
    ensures { result ≡ nat_lt node.parent at }
{
    (node.parent as usize) < at
}

ghost use Rattle.std.specs.Prelude.{nat_lt};

/// Whether node 0 is there, and each other node stands behind its parent.
fn check_tree(nodes: &[CollectionNode]) -> Result<(), OutOfMemory>
    ensures { OnOk result (IsTree nodes.now) }
{
    if nodes.is_empty() {
        // There is a root.
        return Err(OutOfMemory);
    }
    for at in 1..nodes.len() {
        if !stands_behind(at, nodes[at]) {
            // Folders, files and classes stand in front of what they hold.
            return Err(OutOfMemory);
        }
    }
    Ok(())
}

fn tree_of(nodes: Vec<CollectionNode>) -> Result<CollectionTree, OutOfMemory>
    ensures same { IfOk result (λ tree. tree ≡ nodes.items) }
    ensures tree { IfOk result IsTree }
{
    match check_tree(&nodes) {
        Ok(()) => Ok(CollectionTree::from_vec(nodes)),
        Err(fault) => {
            drop(nodes);
            Err(fault)
        }
    }
}

/// Pushes the nodes of items with these parents.
fn push_items(nodes: &mut Vec<CollectionNode>, parents: &[u32]) -> Result<(), OutOfMemory>
    ensures { OnOk result (nodes.new.items ≡ nodes.old.items ++ map tables.item_node parents.now) }
{
    for parent in parents {
        nodes.push(CollectionNode {
            kind: NodeKind::Item,
            parent: *parent,
        })?;
    }
    Ok(())
}

/// The table of these definitions, with the nodes of items with these parents behind the others.
#[tactic(auto, unfolding(crate::specs::Tables::table_of), using(crate::proofs::Counts::defs_count))]
pub fn table_of(
    alloc: Global,
    outer: Vec<CollectionNode>,
    names: &Mentions,
    definitions: &[Definition],
    parents: &[u32],
) -> Result<Table, OutOfMemory>
    ensures table { IfOk result (λ table. table ≡ tables.table_of outer.items names.now definitions.now parents.now) }
    ensures defs { IfOk result (λ table. length definitions.now ≡ length table.defs) }
    ensures nodes { IfOk result (λ table. length table.nodes ≡ length outer.items + length parents.now) }
    ensures tree { IfOk result (λ table. IsTree table.nodes) }
{
    let mut nodes = outer;
    push_items(&mut nodes, parents)?;
    let count = nodes.len();
    let mut table = Table::new(alloc, tree_of(nodes)?)?;
    match add_all(alloc, &mut table, count, names, definitions) {
        Ok(()) => Ok(table),
        Err(fault) => {
            drop(table);
            Err(fault)
        }
    }
}
