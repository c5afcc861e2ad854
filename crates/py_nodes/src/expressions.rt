ghost use Rattle.std.specs.Prelude.{◌≡◌, ◌<◌, ◌+◌, max, IfOk};
ghost use Rattle.py_tree.specs.Trees.{tree, trees, some_tree, tree_at, Paren, Tuple, Listed, Dict, Attribute, Call, Subscript, Slice, Unary, Binary, Compare, Not, And, Or, IfElse};
ghost use Rattle.py_expressions.specs.Values.{height as height_of, high, at_of, call, name_in};
ghost use Rattle.py_nodes.specs.Parts.{args_of, maybe_of, high_of};

use crate::node::Node;
use crate::parts::{Arguments, Bounds, Chain, Pairs, Row};
use py_source::{Pos, SrcText};
use py_tree::{ArgName, BinOp, CmpOp, Expr, ExprKind, UnOp};
use std::alloc::{AllocError, Global};
use std::rc::Rc;

/// The node of an expression, which has so many levels.
fn made(alloc: Global, expr: Expr, height: u32) -> Result<Node, AllocError>
    requires is_height { height ≡ height_of (tree expr) }
    requires some { 0 < height }
    ensures tree { IfOk result (λ node. tree node.expr.value ≡ tree expr) }
    ensures height { IfOk result (λ node. node.height ≡ height) }
{
    let expr = Rc::new(alloc, expr)?;
    Ok(Node { expr, height })
}

/// Where an expression begins.
#[tactic(auto, using(crate::proofs::Forms::place_is))]
fn place_of(node: &Node) -> Pos
    ensures { result ≡ at_of (tree node.now.expr.value) }
{
    node.expr.at
}

/// A name, a number, a text or a constant.
pub fn leaf_node(alloc: Global, at: Pos, kind: ExprKind) -> Result<Node, AllocError>
    requires { height_of (tree_at at kind) ≡ 1 }
    ensures tree { IfOk result (λ node. tree node.expr.value ≡ tree_at at kind) }
    ensures height { IfOk result (λ node. node.height ≡ 1) }
{
    made(alloc, Expr { at, kind }, 1)
}

/// A parenthesis around a node, a level higher.
pub fn paren_node(alloc: Global, at: Pos, inner: Node) -> Result<Node, AllocError>
    requires { inner.height < u32.MAX }
    ensures tree { IfOk result (λ node. tree node.expr.value ≡ Paren at (tree inner.expr.value)) }
    ensures height { IfOk result (λ node. node.height ≡ 1 + inner.height) }
{
    let height = 1 + inner.height;
    let kind = ExprKind::Paren(inner.expr);
    made(alloc, Expr { at, kind }, height)
}

/// `-`, `+` or `~` before an operand, a level higher.
pub fn unary_node(alloc: Global, at: Pos, op: UnOp, operand: Node) -> Result<Node, AllocError>
    requires { operand.height < u32.MAX }
    ensures tree { IfOk result (λ node. tree node.expr.value ≡ Unary at op (tree operand.expr.value)) }
    ensures height { IfOk result (λ node. node.height ≡ 1 + operand.height) }
{
    let height = 1 + operand.height;
    let kind = ExprKind::Unary(op, operand.expr);
    made(alloc, Expr { at, kind }, height)
}

/// `not` before an operand, a level higher.
pub fn not_node(alloc: Global, at: Pos, operand: Node) -> Result<Node, AllocError>
    requires { operand.height < u32.MAX }
    ensures tree { IfOk result (λ node. tree node.expr.value ≡ Not at (tree operand.expr.value)) }
    ensures height { IfOk result (λ node. node.height ≡ 1 + operand.height) }
{
    let height = 1 + operand.height;
    let kind = ExprKind::Not(operand.expr);
    made(alloc, Expr { at, kind }, height)
}

/// An operator between two operands, at the first token of the left one.
#[tactic(auto, using(crate::proofs::Forms::place_is))]
pub fn binary_node(alloc: Global, left: Node, op: BinOp, right: Node) -> Result<Node, AllocError>
    requires left { left.height < u32.MAX }
    requires right { right.height < u32.MAX }
    ensures tree { IfOk result (λ node. tree node.expr.value ≡ Binary (at_of (tree left.expr.value)) (tree left.expr.value) op (tree right.expr.value)) }
    ensures height { IfOk result (λ node. node.height ≡ 1 + max left.height right.height) }
{
    let height = 1 + left.height.max(right.height);
    let at = place_of(&left);
    let kind = ExprKind::Binary(left.expr, op, right.expr);
    made(alloc, Expr { at, kind }, height)
}

/// `value if condition else other`
#[tactic(auto, using(crate::proofs::Forms::place_is))]
pub fn if_else_node(
    alloc: Global,
    value: Node,
    condition: Node,
    other: Node,
) -> Result<Node, AllocError>
    requires value { value.height < u32.MAX }
    requires condition { condition.height < u32.MAX }
    requires other { other.height < u32.MAX }
    ensures tree { IfOk result (λ node. tree node.expr.value ≡ IfElse (at_of (tree value.expr.value)) (tree value.expr.value) (tree condition.expr.value) (tree other.expr.value)) }
    ensures height { IfOk result (λ node. node.height ≡ 1 + max (max value.height condition.height) other.height) }
{
    let height = 1 + value.height.max(condition.height).max(other.height);
    let at = place_of(&value);
    let kind = ExprKind::IfElse(value.expr, condition.expr, other.expr);
    made(alloc, Expr { at, kind }, height)
}

/// The name that an expression is, which may name an argument.
pub fn name_in(expr: &Expr) -> Result<Option<ArgName>, AllocError>
    ensures { IfOk result (λ name. name_in (tree expr.now) ≡ name) }
{
    match &expr.kind {
        ExprKind::Name(name) => Ok(Some(ArgName {
            at: expr.at,
            name: name.clone()?,
        })),
        ExprKind::Number(_)
        | ExprKind::Text(_)
        | ExprKind::True
        | ExprKind::False
        | ExprKind::None
        | ExprKind::Paren(_)
        | ExprKind::Tuple(_)
        | ExprKind::List(_)
        | ExprKind::Dict(_, _)
        | ExprKind::Attribute(_, _)
        | ExprKind::Call(_, _, _)
        | ExprKind::Subscript(_, _)
        | ExprKind::Slice(_, _, _, _)
        | ExprKind::Unary(_, _)
        | ExprKind::Binary(_, _, _)
        | ExprKind::Compare(_, _, _)
        | ExprKind::Not(_)
        | ExprKind::And(_, _)
        | ExprKind::Or(_, _)
        | ExprKind::IfElse(_, _, _) => Ok(None),
    }
}

/// A tuple's elements.
pub fn tuple_node(alloc: Global, row: Row) -> Result<Node, AllocError>
    requires { row.all.height < u32.MAX }
    ensures tree { IfOk result (λ node. tree node.expr.value ≡ Tuple row.at (trees row.all.items.items)) }
    ensures height { IfOk result (λ node. node.height ≡ 1 + row.all.height) }
{
    let height = 1 + row.all.height;
    let all = Rc::new(alloc, row.all.items)?;
    let kind = ExprKind::Tuple(all);
    made(alloc, Expr { at: row.at, kind }, height)
}

/// A list's elements.
pub fn list_node(alloc: Global, row: Row) -> Result<Node, AllocError>
    requires { row.all.height < u32.MAX }
    ensures tree { IfOk result (λ node. tree node.expr.value ≡ Listed row.at (trees row.all.items.items)) }
    ensures height { IfOk result (λ node. node.height ≡ 1 + row.all.height) }
{
    let height = 1 + row.all.height;
    let all = Rc::new(alloc, row.all.items)?;
    let kind = ExprKind::List(all);
    made(alloc, Expr { at: row.at, kind }, height)
}

/// A dictionary's keys and values.
pub fn dict_node(alloc: Global, pairs: Pairs) -> Result<Node, AllocError>
    requires names { pairs.names.height < u32.MAX }
    requires values { pairs.values.height < u32.MAX }
    ensures tree { IfOk result (λ node. tree node.expr.value ≡ Dict pairs.at (trees pairs.names.items.items) (trees pairs.values.items.items)) }
    ensures height { IfOk result (λ node. node.height ≡ 1 + max pairs.names.height pairs.values.height) }
{
    let height = 1 + pairs.names.height.max(pairs.values.height);
    let names = Rc::new(alloc, pairs.names.items)?;
    let values = Rc::new(alloc, pairs.values.items)?;
    let kind = ExprKind::Dict(names, values);
    made(alloc, Expr { at: pairs.at, kind }, height)
}

/// `of.name`, at the first token of what it is an attribute of.
#[tactic(auto, using(crate::proofs::Forms::place_is))]
pub fn attribute_node(alloc: Global, of: Node, name: SrcText) -> Result<Node, AllocError>
    requires { of.height < u32.MAX }
    ensures tree { IfOk result (λ node. tree node.expr.value ≡ Attribute (at_of (tree of.expr.value)) (tree of.expr.value) name) }
    ensures height { IfOk result (λ node. node.height ≡ 1 + of.height) }
{
    let height = 1 + of.height;
    let at = place_of(&of);
    let kind = ExprKind::Attribute(of.expr, name);
    made(alloc, Expr { at, kind }, height)
}

/// `of[index]`, at the first token of what it is a part of.
#[tactic(auto, using(crate::proofs::Forms::place_is))]
pub fn subscript_node(alloc: Global, of: Node, index: Node) -> Result<Node, AllocError>
    requires of { of.height < u32.MAX }
    requires index { index.height < u32.MAX }
    ensures tree { IfOk result (λ node. tree node.expr.value ≡ Subscript (at_of (tree of.expr.value)) (tree of.expr.value) (tree index.expr.value)) }
    ensures height { IfOk result (λ node. node.height ≡ 1 + max of.height index.height) }
{
    let height = 1 + of.height.max(index.height);
    let at = place_of(&of);
    let kind = ExprKind::Subscript(of.expr, index.expr);
    made(alloc, Expr { at, kind }, height)
}

/// The height of a part that may be absent.
fn height_of(part: &Option<Node>) -> u32
    ensures part { result ≡ high_of part.now }
    ensures tree { result ≡ high (maybe_of part.now) }
{
    match part {
        Some(node) => node.height,
        None => 0,
    }
}

fn expr_of(part: Option<Node>) -> Option<Rc<Expr>>
    ensures { some_tree result ≡ maybe_of part }
{
    match part {
        Some(node) => Some(node.expr),
        None => None,
    }
}

fn slice_form(
    at: Pos,
    of: Rc<Expr>,
    from: Option<Rc<Expr>>,
    to: Option<Rc<Expr>>,
    by: Option<Rc<Expr>>,
) -> Expr
    ensures { tree result ≡ Slice at (tree of.value) (some_tree from) (some_tree to) (some_tree by) }
{
    Expr {
        at,
        kind: ExprKind::Slice(of, from, to, by),
    }
}

/// `of[from:to:by]`, at the first token of what it is a part of.
#[tactic(auto, using(crate::proofs::Forms::place_is))]
pub fn slice_node(
    alloc: Global,
    of: Node,
    from: Option<Node>,
    bounds: Bounds,
) -> Result<Node, AllocError>
    requires of { of.height < u32.MAX }
    requires from { high_of from < u32.MAX }
    requires to { high_of bounds.to < u32.MAX }
    requires by { high_of bounds.by < u32.MAX }
    ensures tree { IfOk result (λ node. tree node.expr.value ≡ Slice (at_of (tree of.expr.value)) (tree of.expr.value) (maybe_of from) (maybe_of bounds.to) (maybe_of bounds.by)) }
    ensures height { IfOk result (λ node. node.height ≡ 1 + max (max of.height (high_of from)) (max (high_of bounds.to) (high_of bounds.by))) }
{
    let ends = height_of(&bounds.to).max(height_of(&bounds.by));
    let height = 1 + of.height.max(height_of(&from)).max(ends);
    let at = place_of(&of);
    let form = slice_form(
        at,
        of.expr,
        expr_of(from),
        expr_of(bounds.to),
        expr_of(bounds.by),
    );
    made(alloc, form, height)
}

/// A call, at its function's first token.
pub fn call_node(alloc: Global, function: Node, arguments: Arguments) -> Result<Node, AllocError>
    requires function { function.height < u32.MAX }
    requires arguments { arguments.all.height < u32.MAX }
    ensures tree { IfOk result (λ node. tree node.expr.value ≡ call (tree function.expr.value) (args_of arguments)) }
    ensures height { IfOk result (λ node. node.height ≡ 1 + max function.height arguments.all.height) }
{
    let height = 1 + function.height.max(arguments.all.height);
    let at = place_of(&function);
    let names = Rc::new(alloc, arguments.names)?;
    let all = Rc::new(alloc, arguments.all.items)?;
    let kind = ExprKind::Call(function.expr, all, names);
    made(alloc, Expr { at, kind }, height)
}

/// The comparison of operands.
pub fn compare_node(alloc: Global, chain: Chain) -> Result<Node, AllocError>
    requires head { chain.head.height < u32.MAX }
    requires more { chain.more.height < u32.MAX }
    ensures tree { IfOk result (λ node. tree node.expr.value ≡ Compare (at_of (tree chain.head.expr.value)) (tree chain.head.expr.value) chain.ops.items (trees chain.more.items.items)) }
    ensures height { IfOk result (λ node. node.height ≡ 1 + max chain.head.height chain.more.height) }
{
    let height = 1 + chain.head.height.max(chain.more.height);
    let at = place_of(&chain.head);
    let ops = Rc::new(alloc, chain.ops)?;
    let more = Rc::new(alloc, chain.more.items)?;
    let kind = ExprKind::Compare(chain.head.expr, ops, more);
    made(alloc, Expr { at, kind }, height)
}

/// Operands with `and` between them.
pub fn and_node(alloc: Global, chain: Chain) -> Result<Node, AllocError>
    requires head { chain.head.height < u32.MAX }
    requires more { chain.more.height < u32.MAX }
    ensures tree { IfOk result (λ node. tree node.expr.value ≡ And (at_of (tree chain.head.expr.value)) (tree chain.head.expr.value) (trees chain.more.items.items)) }
    ensures height { IfOk result (λ node. node.height ≡ 1 + max chain.head.height chain.more.height) }
{
    let height = 1 + chain.head.height.max(chain.more.height);
    let at = place_of(&chain.head);
    let more = Rc::new(alloc, chain.more.items)?;
    let kind = ExprKind::And(chain.head.expr, more);
    made(alloc, Expr { at, kind }, height)
}

/// Operands with `or` between them.
pub fn or_node(alloc: Global, chain: Chain) -> Result<Node, AllocError>
    requires head { chain.head.height < u32.MAX }
    requires more { chain.more.height < u32.MAX }
    ensures tree { IfOk result (λ node. tree node.expr.value ≡ Or (at_of (tree chain.head.expr.value)) (tree chain.head.expr.value) (trees chain.more.items.items)) }
    ensures height { IfOk result (λ node. node.height ≡ 1 + max chain.head.height chain.more.height) }
{
    let height = 1 + chain.head.height.max(chain.more.height);
    let at = place_of(&chain.head);
    let more = Rc::new(alloc, chain.more.items)?;
    let kind = ExprKind::Or(chain.head.expr, more);
    made(alloc, Expr { at, kind }, height)
}
