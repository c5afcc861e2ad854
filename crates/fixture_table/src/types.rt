ghost use Rattle.std.specs.Prelude.{◌≡◌};
ghost use Rattle.fixture_table.specs.Tree.{IsTree};

use seq::Seq;
use session_types::Scope;
use std::marker::Model;

/// What a node of the collection tree is.
#[derive(Clone, Copy, PartialEq, Eq)]
pub enum NodeKind {
    Session,
    Directory,
    File,
    Class,
    Item,
}

/// A node of the collection tree. The root's parent means nothing.
#[derive(Clone, Copy, PartialEq, Eq)]
pub struct CollectionNode {
    pub kind: NodeKind,
    pub parent: u32,
}

/// A tree of nodes: node 0 is the root, and each other node stands behind its parent.
pub struct CollectionTree {
    items: Vec<CollectionNode>,
}

impl Drop for CollectionTree {
    fn drop(self) {
        let CollectionTree { items: _ } = self;
    }
}

impl Model for CollectionTree {
    ghost use Rattle.std.specs.Prelude.{List};
    ghost use Rattle.fixture_table.specs.declared.types.CollectionNode.{CollectionNode};
    ghost use Rattle.fixture_table.specs.Tree.{IsTree};

    ghost Value = { List CollectionNode };

    ghost view = { λ n. n.items.items };

    ghost invariant = { λ n. IsTree n.items.items };
}

impl CollectionTree {
    /// A tree of these nodes.
    pub fn from_vec(items: Vec<CollectionNode>) -> Self
        requires { IsTree items.items }
        ensures { result ≡ items.items }
    {
        CollectionTree { items }
    }

    /// Its nodes, by their numbers.
    pub fn items(&self) -> &[CollectionNode]
        ensures items { result.now ≡ self.now }
        ensures tree { IsTree result.now }
    {
        &self.items
    }

    pub(crate) fn into_vec(self) -> Vec<CollectionNode>
        ensures items { result.items ≡ self }
        ensures tree { IsTree result.items }
    {
        let CollectionTree { items } = self;
        items
    }
}

/// A list of names.
pub type FixtureNames = Seq<u32>;

/// A fixture definition. Names and codes are numbers of the collector's own.
pub struct FixtureDef {
    pub name: u32,
    pub scope: Scope,
    pub autouse: bool,
    /// How many parameters it has; 0 where it isn't parametrised or the list is empty.
    pub params: u32,
    /// The names that it asks for, in order.
    pub args: FixtureNames,
    /// The node at which it stands.
    pub node: u32,
    pub code: u32,
}

impl Drop for FixtureDef {
    fn drop(self) {
        let FixtureDef {
            name: _,
            scope: _,
            autouse: _,
            params: _,
            args: _,
            node: _,
            code: _,
        } = self;
    }
}
