ghost use Rattle.std.specs.Prelude.{◌≡◌, ◌<◌, max, IfOk};
ghost use Rattle.py_tree.specs.Trees.{tree, trees, Empty, More};
ghost use Rattle.py_expressions.specs.Values.{height as height_of, heights};

use py_tree::Expr;
use std::alloc::{AllocError, Global};
use std::rc::Rc;

/// An expression, and how deep expressions stand in one another in it, itself among them.
#[derive(Drop)]
pub struct Node {
    pub expr: Rc<Expr>,
    pub height: u32,
    pub ghost is_height: { height ≡ height_of (tree expr.value) },
    pub ghost some: { 0 < height },
}

/// Expressions side by side, and the height of the highest of them.
#[derive(Drop)]
pub struct Nodes {
    pub items: Vec<Rc<Expr>>,
    pub height: u32,
    pub ghost is_height: { height ≡ heights (trees items.items) },
}

/// No nodes, of height 0.
pub fn no_nodes(alloc: Global) -> Nodes
    ensures tree { trees result.items.items ≡ Empty }
    ensures height { result.height ≡ 0 }
{
    Nodes {
        items: Vec::new(alloc),
        height: 0,
    }
}

/// The nodes, and one more behind them.
#[tactic(auto, using(py_tree::proofs::Rows::trees_more))]
pub fn add_node(nodes: Nodes, node: Node) -> Result<Nodes, AllocError>
    ensures tree { IfOk result (λ all. trees all.items.items ≡ More (trees nodes.items.items) (tree node.expr.value)) }
    ensures height { IfOk result (λ all. all.height ≡ max nodes.height node.height) }
{
    let height = nodes.height.max(node.height);
    let mut items = nodes.items;
    items.push(node.expr)?;
    Ok(Nodes { items, height })
}
