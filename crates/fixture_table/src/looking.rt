ghost use Rattle.std.specs.Prelude.{◌≡◌, ◌<◌, length, IfNone, IfSome, EachIndex, slice_index};
ghost use Rattle.std.specs.Option.{ForSome};
ghost use Rattle.fixture_table.specs.Tree.{IsTree, covers};
ghost use Rattle.fixture_table.specs.Nearest.{nearest_of, is_beyond, StandAtNodes, def_at};
ghost use Rattle.fixture_table.specs.Index.{HoldsOfNone, IsIndex, IsLast, is_called};

use crate::types::{CollectionNode, FixtureDef};
use seq::Seq;

/// Whether the one node is the other or above it.
pub fn covers(nodes: &[CollectionNode], outer: u32, inner: u32) -> bool
    requires tree { IsTree nodes.now }
    requires inner { inner < length nodes.now }
    ensures { result ≡ covers nodes.now outer inner }
{
    let mut at = inner;
    while at != outer {
        if at == 0 {
            return false;
        }
        at = nodes[at as usize].parent;
    }
    true
}

/// Whether this definition stands further out than the other.
fn is_beyond(
    nodes: &[CollectionNode],
    defs: &[FixtureDef],
    beyond: Option<usize>,
    place: usize,
) -> bool
    requires tree { IsTree nodes.now }
    requires stand { StandAtNodes nodes.now defs.now }
    requires beyond { ForSome beyond (λ b. b < length defs.now) }
    requires place { place < length defs.now }
    ensures { result ≡ is_beyond nodes.now defs.now beyond place (def_at defs.now place) }
{
    match beyond {
        None => true,
        Some(other) => {
            let node = defs[place].node;
            if node == defs[other].node {
                place < other
            } else {
                covers(nodes, node, defs[other].node)
            }
        }
    }
}

/// Whether this definition has the name, and stands further out than the other.
fn is_called(
    nodes: &[CollectionNode],
    defs: &[FixtureDef],
    name: u32,
    beyond: Option<usize>,
    place: usize,
) -> bool
    requires tree { IsTree nodes.now }
    requires stand { StandAtNodes nodes.now defs.now }
    requires beyond { ForSome beyond (λ b. b < length defs.now) }
    requires place { place < length defs.now }
    ensures { result ≡ is_called nodes.now defs.now name beyond place }
{
    defs[place].name == name && is_beyond(nodes, defs, beyond, place)
}

/// The last definition of a row that has the name, and stands further out than the other.
fn last_called(
    nodes: &[CollectionNode],
    defs: &[FixtureDef],
    row: &[u32],
    name: u32,
    beyond: Option<usize>,
) -> Option<usize>
    requires tree { IsTree nodes.now }
    requires stand { StandAtNodes nodes.now defs.now }
    requires beyond { ForSome beyond (λ b. b < length defs.now) }
    requires row { EachIndex row.now (λ q. slice_index row.now q < length defs.now) }
    ensures found { IfSome result (IsLast (is_called nodes.now defs.now name beyond) row.now) }
    ensures none { IfNone result (HoldsOfNone (is_called nodes.now defs.now name beyond) row.now) }
{
    let mut at = row.len();
    while at > 0 {
        at -= 1;
        let place = row[at] as usize;
        if is_called(nodes, defs, name, beyond, place) {
            return Some(place);
        }
    }
    None
}

/// The nearest definition of a name that the item sees: the last one at the inmost node that has one.
pub fn nearest(
    nodes: &[CollectionNode],
    defs: &[FixtureDef],
    at_nodes: &[Seq<u32>],
    name: u32,
    item: u32,
    beyond: Option<usize>,
) -> Option<usize>
    requires tree { IsTree nodes.now }
    requires stand { StandAtNodes nodes.now defs.now }
    requires index { IsIndex nodes.now defs.now at_nodes.now }
    requires item { item < length nodes.now }
    requires beyond { ForSome beyond (λ b. b < length defs.now) }
    ensures answer { result ≡ nearest_of nodes.now defs.now name item beyond }
    ensures within { IfSome result (λ d. d < length defs.now) }
{
    let mut at = item;
    while at != 0 {
        match last_called(nodes, defs, at_nodes[at as usize].items(), name, beyond) {
            Some(place) => return Some(place),
            None => at = nodes[at as usize].parent,
        }
    }
    last_called(nodes, defs, at_nodes[0].items(), name, beyond)
}
