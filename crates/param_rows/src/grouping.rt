ghost use Rattle.std.specs.Prelude.{◌≡◌, ◌++◌, ◌<◌, ◌≤◌, [], length, IfOk, OnOk, slice_index_or, IsPermutation};
ghost use Rattle.std.specs.List.{range_with_len, position_or_len};
ghost use Rattle.std.specs.Cmp.Lexicographic.{pointwise};
ghost use Rattle.indexmap.specs.IndexSet.{insert_key};
ghost use Rattle.param_rows.specs.Grouping.{grouped, pair_of, key_of, keys_of, same_pair, same_key, same_class, same_node, are_neighbours, pass, regrouped};
ghost use Rattle.param_rows.specs.Cuts.{run_len};
ghost use Rattle.param_rows.specs.Gathering.{groups_of, with_member};

use crate::keys::ItemKeys;
use crate::param::Pairs;
use indexmap::IndexSet;
use seq::{OutOfMemory, Seq};
use session_types::Scope;
use std::alloc::Global;

fn push_pair(
    pairs: &mut Vec<(u32, u32)>,
    scope: Scope,
    param: (Scope, u32, u32),
) -> Result<(), OutOfMemory>
    ensures { OnOk result (pairs.new.items ≡ pairs.old.items ++ pair_of scope param) }
{
    if param.0.rank() == scope.rank() {
        pairs.push((param.1, param.2))?;
    }
    Ok(())
}

/// What an item with these parameters needs of a scope.
fn key_of(alloc: Global, scope: Scope, params: &[(Scope, u32, u32)]) -> Result<Pairs, OutOfMemory>
    ensures { IfOk result (λ key. key ≡ key_of scope params.now) }
{
    let mut pairs = Vec::new(alloc);
    for param in params {
        push_pair(&mut pairs, scope, *param)?;
    }
    Ok(Pairs::from_vec(pairs))
}

fn keys_of(alloc: Global, scope: Scope, items: &[ItemKeys]) -> Result<Vec<Pairs>, OutOfMemory>
    ensures { IfOk result (λ keys. keys.items ≡ keys_of scope items.now) }
{
    let mut keys = Vec::new(alloc);
    for item in items {
        keys.push(key_of(alloc, scope, item.params.items())?)?;
    }
    Ok(keys)
}

/// The key at a place, empty where there is none.
fn key_at(keys: &[Pairs], place: usize) -> &[(u32, u32)]
    ensures { result.now ≡ slice_index_or keys.now place [] }
{
    if place < keys.len() {
        keys[place].items()
    } else {
        &[]
    }
}

fn same_class(one: Option<u32>, other: Option<u32>) -> bool
    ensures { result ≡ same_class one other }
{
    match (one, other) {
        (Some(one), Some(other)) => one == other,
        (Some(_), None) => false,
        (None, _) => false,
    }
}

/// Whether two items are at one node of a scope.
fn same_node(scope: Scope, one: &ItemKeys, other: &ItemKeys) -> bool
    ensures { result ≡ same_node scope one.now other.now }
{
    match scope {
        Scope::Session => true,
        Scope::Module => one.file == other.file,
        Scope::Class => same_class(one.class, other.class),
        Scope::Function => false,
    }
}

fn are_neighbours(scope: Scope, items: &[ItemKeys], one: usize, other: usize) -> bool
    ensures { result ≡ are_neighbours scope items.now one other }
{
    match (items.get(one), items.get(other)) {
        (Some(one), Some(other)) => same_node(scope, one, other),
        (Some(_), None) => false,
        (None, _) => false,
    }
}

/// How many of the places make the first stretch at one node.
fn run_len(scope: Scope, items: &[ItemKeys], order: &[usize]) -> usize
    ensures value { result ≡ run_len (are_neighbours scope items.now) order.now }
    ensures within { result ≤ length order.now }
    ensures some { 0 < length order.now → 0 < result }
{
    for at in 1..order.len() {
        if !are_neighbours(scope, items, order[at - 1], order[at]) {
            return at;
        }
    }
    order.len()
}

/// Puts a place behind those of the group with this number, or into a new group.
fn push_member(
    alloc: Global,
    groups: &mut Vec<Seq<usize>>,
    at: usize,
    place: usize,
) -> Result<(), OutOfMemory>
    requires { at ≤ length groups.old.items }
    ensures { OnOk result (groups.new.items ≡ with_member at place groups.old.items) }
{
    if at == groups.len() {
        groups.push(Seq::from_slice(alloc, &[place])?)?;
    } else {
        groups[at].push(place)?;
    }
    Ok(())
}

/// The number of a key, the next one where it is new.
fn number_of(
    alloc: Global,
    keys: &mut IndexSet<Pairs>,
    key: &[(u32, u32)],
) -> Result<usize, OutOfMemory>
    ensures keys { OnOk result (keys.new.keys ≡ insert_key (pointwise same_pair) keys.old.keys key.now) }
    ensures number { IfOk result (λ at. at ≡ position_or_len (pointwise same_pair key.now) keys.old.keys) }
{
    let copy = Pairs::from_slice(alloc, key)?;
    let (at, _) = keys.insert_full(copy)?;
    Ok(at)
}

/// The places with each key, in order of first appearance.
fn groups_of(alloc: Global, keys: &[Pairs], order: &[usize]) -> Result<Vec<Seq<usize>>, OutOfMemory>
    ensures { IfOk result (λ groups. groups.items ≡ groups_of (same_key keys.now) order.now) }
{
    let mut numbers = IndexSet::new(alloc);
    let mut groups = Vec::new(alloc);
    for place in order {
        let at = number_of(alloc, &mut numbers, key_at(keys, *place))?;
        push_member(alloc, &mut groups, at, *place)?;
    }
    Ok(groups)
}

/// Appends the places of a stretch, grouped.
fn push_grouped(
    alloc: Global,
    new: &mut Vec<usize>,
    keys: &[Pairs],
    order: &[usize],
) -> Result<(), OutOfMemory>
    ensures { OnOk result (new.new.items ≡ new.old.items ++ grouped (same_key keys.now) order.now) }
{
    let groups = groups_of(alloc, keys, order)?;
    for group in &groups {
        new.extend_from_slice(group.items())?;
    }
    Ok(())
}

/// Within each stretch at one node of the scope, the places grouped by what their items need of it.
fn pass(
    alloc: Global,
    scope: Scope,
    items: &[ItemKeys],
    order: &[usize],
) -> Result<Vec<usize>, OutOfMemory>
    ensures { IfOk result (λ new. new.items ≡ pass scope items.now order.now) }
{
    let keys = keys_of(alloc, scope, items)?;
    let mut new = Vec::new(alloc);
    let mut rest = order;
    while !rest.is_empty() {
        let many = run_len(scope, items, rest);
        push_grouped(alloc, &mut new, &keys, &rest[..many])?;
        rest = &rest[many..];
    }
    Ok(new)
}

/// All places of a list, in order.
fn places(alloc: Global, many: usize) -> Result<Vec<usize>, OutOfMemory>
    ensures { IfOk result (λ places. places.items ≡ range_with_len 0 many) }
{
    let mut places = Vec::new(alloc);
    for place in 0..many {
        places.push(place)?;
    }
    Ok(places)
}

/// The places of the items in the order in which they run, those with the same parameters of a broad scope side by side.
pub fn regroup(alloc: Global, items: &[ItemKeys]) -> Result<Vec<usize>, OutOfMemory>
    ensures order { IfOk result (λ order. order.items ≡ regrouped items.now) }
    ensures permutation { IfOk result (λ order. IsPermutation (range_with_len 0 (length items.now)) order.items) }
{
    let order = places(alloc, items.len())?;
    let order = pass(alloc, Scope::Session, items, &order)?;
    let order = pass(alloc, Scope::Module, items, &order)?;
    pass(alloc, Scope::Class, items, &order)
}
