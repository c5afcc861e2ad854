ghost use Rattle.std.specs.Prelude.{◌≡◌, ◌<◌, ◌++◌, ◌∷◌, [], ℕ, length, IfOk, IfErr, IfSome, OnOk, OnErr, ◌⊎◌, slice_set};
ghost use Rattle.std.specs.Option.{ForSome};
ghost use Rattle.fixture_table.specs.declared.fault.FixtureFault.TheVariants.{OutOfMemory as NoMemory};
ghost use Rattle.fixture_table.specs.Marks.{row_of};
ghost use Rattle.fixture_table.specs.Tree.{covers, node_at};
ghost use Rattle.session_types.specs.Members.{IsMember};
ghost use Rattle.fixture_table.specs.Nearest.{def_at, nearest_of};
ghost use Rattle.fixture_table.specs.Faults.{IsClosure, IsFault, CanBeSetUp};

use crate::closing::View;
use crate::fault::FixtureFault;
use crate::looking::{covers, nearest};
use crate::types::{CollectionNode, CollectionTree, FixtureDef};
use seq::{OutOfMemory, Seq};
use session_types::DefId;
use std::alloc::Global;
use std::marker::Model;

/// The nodes of a collection and the fixture definitions that stand at them.
pub struct Table {
    alloc: Global,
    nodes: Vec<CollectionNode>,
    defs: Vec<FixtureDef>,
    at_nodes: Vec<Seq<u32>>,
}

impl Drop for Table {
    fn drop(self) {
        let Table {
            alloc: _,
            nodes: _,
            defs: _,
            at_nodes: _,
        } = self;
    }
}

impl Model for Table {
    ghost use Rattle.std.specs.Prelude.{◌≤◌, ◌^◌, length};
    ghost use Rattle.fixture_table.specs.Tree.{IsTree};
    ghost use Rattle.fixture_table.specs.Nearest.{StandAtNodes};
    ghost use Rattle.fixture_table.specs.Index.{IsIndex};
    ghost use Rattle.fixture_table.specs.Tables.{TableValue};

    ghost Value = { TableValue };

    ghost view = { λ t. record { nodes = t.nodes.items; defs = t.defs.items } };

    ghost invariant = { λ t. record { tree : IsTree t.nodes.items; stand : StandAtNodes t.nodes.items t.defs.items; few : length t.defs.items ≤ 2 ^ 32; index : IsIndex t.nodes.items t.defs.items t.at_nodes.items } };
}

impl Table {
    /// A table with these nodes and no definition.
    pub fn new(alloc: Global, nodes: CollectionTree) -> Result<Self, OutOfMemory>
        ensures { IfOk result (λ table. table ≡ record { nodes = nodes; defs = [] }) }
    {
        let nodes = nodes.into_vec();
        let at_nodes = empty_rows(alloc, nodes.len())?;
        Ok(Table {
            alloc,
            nodes,
            defs: Vec::new(alloc),
            at_nodes,
        })
    }

    /// Appends a definition, and answers its number. After an error, want of memory or of 32 bits for its number, the table is as it was.
    pub fn add(&mut self, def: FixtureDef) -> Result<DefId, OutOfMemory>
        requires { def.node < length self.old.nodes }
        ensures id { IfOk result (λ id. id ≡ length self.old.defs) }
        ensures ok { OnOk result (self.new ≡ record { nodes = self.old.nodes; defs = self.old.defs ++ def ∷ [] }) }
        ensures err { OnErr result (self.new ≡ self.old) }
    {
        if self.defs.len() > u32::MAX as usize {
            return Err(OutOfMemory);
        }
        let number = self.defs.len() as u32;
        self.defs.reserve(1)?;
        push_at(&mut self.at_nodes, def.node as usize, number)?;
        self.defs.push(def).unwrap();
        Ok(DefId::new(number))
    }

    /// Appends a node, and answers its number. After an error, want of memory, the table is as it was.
    pub fn add_node(&mut self, node: CollectionNode) -> Result<u32, OutOfMemory>
        requires parent { node.parent < length self.old.nodes }
        requires few { length self.old.nodes < 4294967295 }
        ensures at { IfOk result (λ at. at ≡ length self.old.nodes) }
        ensures ok { OnOk result (self.new ≡ record { nodes = self.old.nodes ++ node ∷ []; defs = self.old.defs }) }
        ensures err { OnErr result (self.new ≡ self.old) }
    {
        let at = self.nodes.len() as u32;
        self.at_nodes.push(Seq::new(self.alloc))?;
        self.nodes.push(node)?;
        Ok(at)
    }

    /// The definition with a number.
    pub fn def(&self, id: DefId) -> &FixtureDef
        requires { id < length self.now.defs }
        ensures { result.now ≡ def_at self.now.defs id }
    {
        &self.defs[id.number() as usize]
    }

    /// The node with a number.
    pub fn node(&self, at: u32) -> &CollectionNode
        requires { at < length self.now.nodes }
        ensures { result.now ≡ node_at self.now.nodes at }
    {
        &self.nodes[at as usize]
    }

    /// Whether the definition's node is the item's or above it.
    pub fn visible(&self, def: DefId, item: u32) -> bool
        requires def { def < length self.now.defs }
        requires item { item < length self.now.nodes }
        ensures { result ≡ covers self.now.nodes (def_at self.now.defs def).node item }
    {
        covers(&self.nodes, self.defs[def.number() as usize].node, item)
    }

    /// The nearest definition of a name that the item sees, further out than another where that is given.
    pub fn nearest(&self, name: u32, item: u32, beyond: Option<DefId>) -> Option<DefId>
        requires item { item < length self.now.nodes }
        requires beyond { ForSome beyond (λ b. b < length self.now.defs) }
        ensures answer { result ≡ nearest_of self.now.nodes self.now.defs name item beyond }
        ensures within { IfSome result (λ id. id < length self.now.defs) }
    {
        let beyond = match beyond {
            None => None,
            Some(id) => Some(id.number() as usize),
        };
        match nearest(&self.nodes, &self.defs, &self.at_nodes, name, item, beyond) {
            None => None,
            Some(place) => Some(DefId::new(place as u32)),
        }
    }

    /// What an item needs, broad scopes first, or the first fault.
    pub fn closure(
        &self,
        item: u32,
        bound: &[u32],
        uses: &[u32],
        args: &[u32],
    ) -> Result<Vec<DefId>, FixtureFault>
        requires { item < length self.now.nodes }
        ensures within { IfOk result (λ ids. (d : ℕ) → IsMember d ids.items → d < length self.now.defs) }
        ensures closure { IfOk result (λ ids. IsClosure self.now.nodes self.now.defs item bound.now uses.now args.now ids.items) }
        ensures settled { IfOk result (λ ids. CanBeSetUp self.now.nodes self.now.defs item bound.now ids.items) }
        ensures fault { IfErr result (λ fault. fault ≡ NoMemory ⊎ IsFault self.now.nodes self.now.defs item bound.now uses.now args.now fault) }
    {
        let asking = View {
            nodes: &self.nodes,
            defs: &self.defs,
            at_nodes: &self.at_nodes,
            item,
            bound,
        };
        asking.closure(self.alloc, uses, args)
    }
}

/// So many empty rows.
fn empty_rows(alloc: Global, many: usize) -> Result<Vec<Seq<u32>>, OutOfMemory>
    ensures many { IfOk result (λ rows. length rows.items ≡ many) }
    ensures empty { IfOk result (λ rows. (d : ℕ) → row_of rows.items d ≡ []) }
{
    let mut rows = Vec::new(alloc);
    for _ in 0..many {
        rows.push(Seq::new(alloc))?;
    }
    Ok(rows)
}

/// Puts a number behind the others of a row. After an error the rows are as they were.
fn push_at(rows: &mut Vec<Seq<u32>>, at: usize, number: u32) -> Result<(), OutOfMemory>
    requires { at < length rows.old.items }
    ensures ok { OnOk result (rows.new.items ≡ slice_set rows.old.items at (row_of rows.old.items at ++ number ∷ [])) }
    ensures err { OnErr result (rows.new.items ≡ rows.old.items) }
{
    let row = &mut rows[at];
    row.push(number)
}
