ghost use Rattle.std.specs.Prelude.{◌≡◌, ℕ, ◌<◌, ◌++◌, List, [], ◌∷◌, length, None, Some, IfOk, IfSome, OnOk};
ghost use Rattle.std.specs.Option.{option_to_list};
ghost use Rattle.session_types.specs.Members.{IsMember};
ghost use Rattle.session_types.specs.Numbers.{among};
ghost use Rattle.fixture_table.specs.Tree.{IsTree, iter_parents, node_at};
ghost use Rattle.fixture_table.specs.Nearest.{def_at};
ghost use Rattle.fixture_instances.specs.Items.{bound_names, inmost, is_class, is_file, parameter_in, def_scope_node, requested, requests_in, scope_node};

use fixture_table::{NodeKind, Table};
use seq::{CharText, OutOfMemory, Seq};
use session_types::{DefId, Scope};
use std::alloc::Global;

/// A value that a row binds to a name.
#[derive(Drop)]
pub struct BoundValue<V> {
    pub name: u32,
    pub value: V,
}

/// The parameter that an item has for a parametrised definition.
#[derive(Drop)]
pub struct ItemParam<V> {
    pub def: DefId,
    /// Its number among the definition's parameters.
    pub number: u32,
    pub value: V,
    pub id: CharText,
}

/// An item, as its set-up sees it.
#[derive(Drop)]
pub struct ItemRef<V> {
    pub node: u32,
    /// The instance of its class, where it has one.
    pub own: Option<V>,
    /// The values that its row binds.
    pub bound: Seq<BoundValue<V>>,
    pub params: Seq<ItemParam<V>>,
}

/// The number of the parameter that stands there for a definition.
pub fn parameter_in<V>(params: &[ItemParam<V>], def: DefId) -> Option<u32>
    ensures { result ≡ parameter_in params.now def }
{
    for param in params {
        if def.number() == param.def.number() {
            return Some(param.number);
        }
    }
    None
}

/// Whether a row binds a name.
fn is_bound<V>(bound: &[BoundValue<V>], name: u32) -> bool
    ensures { result ≡ among name (bound_names bound.now) }
{
    for one in bound {
        if one.name == name {
            return true;
        }
    }
    false
}

/// The definition that an argument stands for, unless its name is bound or has none.
fn request<V>(table: &Table, item: &ItemRef<V>, def: DefId, name: u32) -> Option<DefId>
    requires def { def < length table.now.defs }
    requires node { item.now.node < length table.now.nodes }
    ensures { result ≡ requested table.now.nodes table.now.defs item.now.node (bound_names item.now.bound) def name }
{
    if is_bound(item.bound.items(), name) {
        return None;
    }
    if name == table.def(def).name {
        table.nearest(name, item.node, Some(def))
    } else {
        table.nearest(name, item.node, None)
    }
}

/// Appends a definition, where there is one.
fn push_request(out: &mut Seq<DefId>, one: Option<DefId>) -> Result<(), OutOfMemory>
    ensures { OnOk result (out.new ≡ out.old ++ option_to_list one) }
{
    match one {
        None => Ok(()),
        Some(def) => out.push(def),
    }
}

/// The definitions that a definition asks for in an item, in order.
pub fn requests_of<V>(
    alloc: Global,
    table: &Table,
    item: &ItemRef<V>,
    def: DefId,
) -> Result<Seq<DefId>, OutOfMemory>
    requires def { def < length table.now.defs }
    requires node { item.now.node < length table.now.nodes }
    ensures { IfOk result (λ defs. defs ≡ requests_in table.now item.now def) }
{
    let mut out = Seq::new(alloc);
    for name in table.def(def).args.items() {
        push_request(&mut out, request(table, item, def, *name))?;
    }
    Ok(out)
}

fn is_file(kind: NodeKind) -> bool
    ensures { result ≡ is_file kind }
{
    match kind {
        NodeKind::Session => false,
        NodeKind::Directory => false,
        NodeKind::File => true,
        NodeKind::Class => false,
        NodeKind::Item => false,
    }
}

fn is_class(kind: NodeKind) -> bool
    ensures { result ≡ is_class kind }
{
    match kind {
        NodeKind::Session => false,
        NodeKind::Directory => false,
        NodeKind::File => false,
        NodeKind::Class => true,
        NodeKind::Item => false,
    }
}

/// The item's file.
fn file_of(table: &Table, item: u32) -> u32
    requires tree { IsTree table.now.nodes }
    requires item { item < length table.now.nodes }
    ensures { result ≡ inmost is_file table.now.nodes item (iter_parents table.now.nodes item) }
{
    let mut at = item;
    'up: while !is_file(table.node(at).kind) {
        if at == 0 {
            return item;
        }
        at = table.node(at).parent;
    }
    at
}

/// The item's class, or the item outside of classes.
fn class_of(table: &Table, item: u32) -> u32
    requires tree { IsTree table.now.nodes }
    requires item { item < length table.now.nodes }
    ensures { result ≡ inmost is_class table.now.nodes item (iter_parents table.now.nodes item) }
{
    let mut at = item;
    'up: while !is_class(table.node(at).kind) {
        if at == 0 {
            return item;
        }
        at = table.node(at).parent;
    }
    at
}

fn scope_node(table: &Table, item: u32, scope: Scope) -> u32
    requires tree { IsTree table.now.nodes }
    requires item { item < length table.now.nodes }
    ensures { result ≡ scope_node table.now.nodes item scope }
{
    match scope {
        Scope::Session => 0,
        Scope::Module => file_of(table, item),
        Scope::Class => class_of(table, item),
        Scope::Function => item,
    }
}

/// The node on which an instance of a definition lives for an item.
#[tactic(auto, unfolding(crate::specs::Items::def_scope_node))]
pub fn place_of<V>(table: &Table, item: &ItemRef<V>, def: DefId) -> u32
    requires tree { IsTree table.now.nodes }
    requires def { def < length table.now.defs }
    requires node { item.now.node < length table.now.nodes }
    ensures { result ≡ def_scope_node table.now item.now def }
{
    scope_node(table, item.node, table.def(def).scope)
}

/// A node and those above it, inmost first.
pub fn chain_of(alloc: Global, table: &Table, item: u32) -> Result<Vec<u32>, OutOfMemory>
    requires tree { IsTree table.now.nodes }
    requires item { item < length table.now.nodes }
    ensures { IfOk result (λ chain. chain.items ≡ iter_parents table.now.nodes item) }
{
    let mut chain = Vec::new(alloc);
    let mut at = item;
    while at != 0 {
        chain.push(at)?;
        at = table.node(at).parent;
    }
    chain.push(at)?;
    Ok(chain)
}
