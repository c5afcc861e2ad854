//! Making the nodes of expressions: what each gives is said of plain trees, so no reader of a text meets how a tree lies in memory.
//!
//! # What it is for
//!
//! The parsers make the trees of expressions by these functions.
//!
//! # What is proved
//!
//! - Each node function gives the tree that it is named for, of the trees of its parts, at its first token (`tree`), one higher
//!   than the highest of its parts (`height`), unless memory ran out. That a node's height is its tree's holds of every
//!   [`Node`], by its type.
//! - Items, pairs, arguments and chains grow at their end, and keep what they had (`row`, `pairs`, `args`, `chain`).
//! - `name_in`, `single_in`: the name or the place that an expression is, or that it is none.
//!
//! # What tests alone show
//!
//! With ample memory each node is made.
#![tactic(auto)]

mod expressions;
mod node;
mod parts;
mod places;

pub use expressions::{
    and_node, attribute_node, binary_node, call_node, compare_node, dict_node, if_else_node,
    leaf_node, list_node, name_in, not_node, or_node, paren_node, slice_node, subscript_node,
    tuple_node, unary_node,
};
pub use node::{Node, Nodes, add_node, no_nodes};
pub use parts::{
    Arguments, Bounds, Chain, Pairs, Row, add_argument, add_item, add_named, add_operand, add_pair,
    chain_of, end_arguments, end_pairs, end_row, no_arguments, no_pairs, row_at,
};
pub use places::{SingleNode, TargetNode, single_in};
