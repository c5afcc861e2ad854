ghost use Rattle.std.specs.Prelude.{◌≡◌, max, IfOk};
ghost use Rattle.py_tree.specs.Trees.{tree};
ghost use Rattle.py_expressions.specs.Values.{row, item, close_row, no_args, plain_arg, named_arg, end_args, operand_chain, op_more, operand};
ghost use Rattle.py_nodes.specs.Parts.{row_of, pairs_of, args_of, chain_of, no_pairs, more_pairs, end_pairs, with_op};

use crate::node::{Node, Nodes, add_node, no_nodes};
use py_source::Pos;
use py_tree::{ArgName, CmpOp};
use std::alloc::{AllocError, Global};

/// Items with commas between them, and whether a comma ended them.
#[derive(Drop)]
pub struct Row {
    pub at: Pos,
    pub all: Nodes,
    pub ended: bool,
}

/// The keys and values of a dictionary, and whether a comma ended them.
#[derive(Drop)]
pub struct Pairs {
    pub at: Pos,
    pub names: Nodes,
    pub values: Nodes,
    pub ended: bool,
}

/// The arguments of a call, the name of each that has one, and whether a comma ended them.
#[derive(Drop)]
pub struct Arguments {
    pub all: Nodes,
    pub names: Vec<Option<ArgName>>,
    pub ended: bool,
}

/// Operands with operators between them, the first apart. Those of `and` and `or` are not kept.
#[derive(Drop)]
pub struct Chain {
    pub head: Node,
    pub ops: Vec<CmpOp>,
    pub more: Nodes,
}

/// What stands behind the first `:` of a slice.
#[derive(Drop)]
pub struct Bounds {
    pub to: Option<Node>,
    pub by: Option<Node>,
}

/// An empty row of items that begins at a place.
pub fn row_at(alloc: Global, at: Pos) -> Row
    ensures row { row_of result ≡ row at }
    ensures height { result.all.height ≡ 0 }
{
    Row {
        at,
        all: no_nodes(alloc),
        ended: false,
    }
}

/// A row with an item more behind it, as high as the highest.
pub fn add_item(row: Row, node: Node) -> Result<Row, AllocError>
    ensures row { IfOk result (λ more. row_of more ≡ item (row_of row) (tree node.expr.value)) }
    ensures height { IfOk result (λ more. more.all.height ≡ max row.all.height node.height) }
{
    Ok(Row {
        at: row.at,
        all: add_node(row.all, node)?,
        ended: false,
    })
}

/// The row, with a comma at its end.
pub fn end_row(row: Row) -> Row
    ensures row { row_of result ≡ close_row (row_of row) }
    ensures height { result.all.height ≡ row.all.height }
{
    Row {
        at: row.at,
        all: row.all,
        ended: true,
    }
}

/// No pairs of a dict display that begins at a place.
pub fn no_pairs(alloc: Global, at: Pos) -> Pairs
    ensures pairs { pairs_of result ≡ no_pairs at }
    ensures names { result.names.height ≡ 0 }
    ensures values { result.values.height ≡ 0 }
{
    Pairs {
        at,
        names: no_nodes(alloc),
        values: no_nodes(alloc),
        ended: false,
    }
}

/// Pairs with one more behind them: a key and a value.
pub fn add_pair(pairs: Pairs, name: Node, value: Node) -> Result<Pairs, AllocError>
    ensures pairs { IfOk result (λ more. pairs_of more ≡ more_pairs (pairs_of pairs) (tree name.expr.value) (tree value.expr.value)) }
    ensures names { IfOk result (λ more. more.names.height ≡ max pairs.names.height name.height) }
    ensures values { IfOk result (λ more. more.values.height ≡ max pairs.values.height value.height) }
{
    Ok(Pairs {
        at: pairs.at,
        names: add_node(pairs.names, name)?,
        values: add_node(pairs.values, value)?,
        ended: pairs.ended,
    })
}

/// The pairs, with a comma at their end.
pub fn end_pairs(pairs: Pairs) -> Pairs
    ensures pairs { pairs_of result ≡ end_pairs (pairs_of pairs) }
    ensures names { result.names.height ≡ pairs.names.height }
    ensures values { result.values.height ≡ pairs.values.height }
{
    Pairs {
        at: pairs.at,
        names: pairs.names,
        values: pairs.values,
        ended: true,
    }
}

/// No arguments of a call.
pub fn no_arguments(alloc: Global) -> Arguments
    ensures args { args_of result ≡ no_args }
    ensures height { result.all.height ≡ 0 }
{
    Arguments {
        all: no_nodes(alloc),
        names: Vec::new(alloc),
        ended: false,
    }
}

/// The arguments, and one without a name.
pub fn add_argument(arguments: Arguments, node: Node) -> Result<Arguments, AllocError>
    ensures args { IfOk result (λ more. args_of more ≡ plain_arg (args_of arguments, tree node.expr.value)) }
    ensures height { IfOk result (λ more. more.all.height ≡ max arguments.all.height node.height) }
{
    let mut names = arguments.names;
    names.push(None)?;
    Ok(Arguments {
        all: add_node(arguments.all, node)?,
        names,
        ended: false,
    })
}

/// The arguments, and one with a name.
pub fn add_named(arguments: Arguments, name: ArgName, node: Node) -> Result<Arguments, AllocError>
    ensures args { IfOk result (λ more. args_of more ≡ named_arg (args_of arguments, name) (tree node.expr.value)) }
    ensures height { IfOk result (λ more. more.all.height ≡ max arguments.all.height node.height) }
{
    let mut names = arguments.names;
    names.push(Some(name))?;
    Ok(Arguments {
        all: add_node(arguments.all, node)?,
        names,
        ended: false,
    })
}

/// The arguments, with a comma at their end.
pub fn end_arguments(arguments: Arguments) -> Arguments
    ensures args { args_of result ≡ end_args (args_of arguments) }
    ensures height { result.all.height ≡ arguments.all.height }
{
    Arguments {
        all: arguments.all,
        names: arguments.names,
        ended: true,
    }
}

/// A chain of operands that has its first alone.
pub fn chain_of(alloc: Global, head: Node) -> Chain
    ensures chain { chain_of result ≡ operand_chain (tree head.expr.value) }
    ensures head { result.head.height ≡ head.height }
    ensures more { result.more.height ≡ 0 }
{
    Chain {
        head,
        ops: Vec::new(alloc),
        more: no_nodes(alloc),
    }
}

/// The chain, and an operand behind it; its operator is kept where it is a comparison.
pub fn add_operand(chain: Chain, op: Option<CmpOp>, node: Node) -> Result<Chain, AllocError>
    ensures chain { IfOk result (λ more. chain_of more ≡ operand (with_op (chain_of chain) op) (tree node.expr.value)) }
    ensures head { IfOk result (λ more. more.head.height ≡ chain.head.height) }
    ensures more { IfOk result (λ more. more.more.height ≡ max chain.more.height node.height) }
{
    let mut ops = chain.ops;
    if let Some(op) = op {
        ops.push(op)?;
    }
    Ok(Chain {
        head: chain.head,
        ops,
        more: add_node(chain.more, node)?,
    })
}
