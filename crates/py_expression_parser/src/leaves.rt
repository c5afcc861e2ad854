ghost use Rattle.std.specs.Prelude.{◌≡◌, ◌<◌, ◌≤◌, ◌+◌, IfOk, IfSome};
ghost use Rattle.py_tree.specs.Trees.{tree, tree_at};
ghost use Rattle.py_cursor.specs.py_expressions.Values.{at_of, item, number_in, height, row};
ghost use Rattle.py_cursor.specs.token_kinds.Kinds.{text_of};
ghost use Rattle.py_cursor.specs.Parser.{Gives, Takes};
ghost use Rattle.py_nodes.specs.Parts.{row_of};
ghost use Rattle.py_expression_parser.specs.Pieces.{assigned_on, attribute_on, constant_on, leaf_on, name_on, texts_on, Finds, GivesMaybe};

use py_cursor::{Parser, Sign, chars_of};
use py_nodes::{Node, Row, add_item, attribute_node, leaf_node, name_in, row_at};
use py_source::SrcText;
use py_tokens::{Op, Token, TokenKind};
use py_tree::{ArgName, ExprKind};
use seq::OutOfMemory;
use std::alloc::{AllocError, Global};

/// The text of a name's token.
pub fn name_of(alloc: Global, token: &Token) -> Result<SrcText, OutOfMemory>
    ensures { IfOk result (λ name. name ≡ text_of token.now) }
{
    SrcText::from_chars(alloc, chars_of(token))
}

/// The number of a number's token.
fn number_of(token: &Token) -> i128
    ensures { result ≡ number_in token.now.kind }
{
    match &token.kind {
        TokenKind::Number(number) => *number,
        TokenKind::Name(_)
        | TokenKind::Text(_)
        | TokenKind::Op(_)
        | TokenKind::Newline
        | TokenKind::Indent
        | TokenKind::Dedent
        | TokenKind::End => 0,
    }
}

/// `True`, `False` or `None`.
fn constant<'t>(p: &mut Parser<'t>) -> Option<(&'t Token, ExprKind)>
    ensures takes { Takes (λ x. tree_at x.0.now.at x.1) (constant_on p.old.rest.now) result p.old p.new }
    ensures height { IfSome result (λ x. height (tree_at x.0.now.at x.1) ≡ 1) }
{
    if let Some(token) = p.take_op(Op::True) {
        return Some((token, ExprKind::True));
    }
    if let Some(token) = p.take_op(Op::False) {
        return Some((token, ExprKind::False));
    }
    match p.take_op(Op::None) {
        Some(token) => Some((token, ExprKind::None)),
        None => None,
    }
}

/// Texts side by side are one.
#[tactic(auto, using(crate::proofs::Texts::texts_over, py_cursor::proofs::Loops::first_takes))]
fn texts(p: &mut Parser<'_>) -> Option<Node>
    ensures reads { Gives (λ x. (tree x.expr.value, x.height)) result p.new (texts_on p.old.rest.now) }
    ensures fits { IfSome result (λ x. x.height ≤ 1) }
{
    let Some(first) = p.expect(Sign::Text) else {
        return None;
    };
    let Some(mut chars) = p.made(Vec::from_slice(p.alloc, chars_of(first))) else {
        return None;
    };
    while let Some(next) = p.take(Sign::Text) {
        let Some(_added) = p.made(chars.extend_from_slice(chars_of(next))) else {
            return None;
        };
    }
    let kind = ExprKind::Text(SrcText::from_vec(chars));
    p.made(leaf_node(p.alloc, first.at, kind))
}

/// A number, a constant, or texts side by side, where one stands first.
pub fn leaf(p: &mut Parser<'_>) -> Option<Option<Node>>
    ensures reads { GivesMaybe (λ x. (tree x.expr.value, x.height)) result p.old p.new (leaf_on p.old.rest.now) }
    ensures fits { IfSome result (λ found. IfSome found (λ x. x.height ≤ 1)) }
{
    let made = if let Some(number) = p.take(Sign::Number) {
        let kind = ExprKind::Number(number_of(number));
        p.made(leaf_node(p.alloc, number.at, kind))
    } else if let Some((token, kind)) = constant(p) {
        p.made(leaf_node(p.alloc, token.at, kind))
    } else if p.at(Sign::Text) {
        texts(p)
    } else {
        return Some(None);
    };
    match made {
        Some(node) => Some(Some(node)),
        None => None,
    }
}

/// A name's node.
pub fn name_leaf(p: &mut Parser<'_>, name: &Token) -> Option<Node>
    ensures reads { Gives (λ x. (tree x.expr.value, x.height)) result p.new (name_on name.now p.old.rest.now) }
    ensures fits { IfSome result (λ x. x.height ≡ 1) }
{
    let Some(text) = p.made(name_of(p.alloc, name)) else {
        return None;
    };
    p.made(leaf_node(p.alloc, name.at, ExprKind::Name(text)))
}

/// The attribute of a value, behind `.`.
pub fn attribute(p: &mut Parser<'_>, of: Node) -> Option<Node>
    requires { of.height < u32.MAX }
    ensures reads { Gives (λ x. (tree x.expr.value, x.height)) result p.new (attribute_on (tree of.expr.value, of.height) p.old.rest.now) }
    ensures fits { IfSome result (λ x. x.height ≡ 1 + of.height) }
{
    let Some(name) = p.expect(Sign::Name) else {
        return None;
    };
    let Some(text) = p.made(name_of(p.alloc, name)) else {
        return None;
    };
    p.made(attribute_node(p.alloc, of, text))
}

/// Takes the `=` behind a value that is a name: the name.
pub fn assigned(p: &mut Parser<'_>, value: &Node) -> Option<Option<ArgName>>
    ensures { Finds (assigned_on (tree value.now.expr.value) p.old.rest.now) result p.old p.new }
{
    if !p.at_op(Op::Equal) {
        return Some(None);
    }
    let Some(found) = p.made(name_in(&value.expr)) else {
        return None;
    };
    let Some(name) = found else {
        return Some(None);
    };
    match p.take_op(Op::Equal) {
        Some(_equal) => Some(Some(name)),
        None => Some(None),
    }
}

/// The first of items with commas between them.
#[tactic(auto, using(py_nodes::proofs::Forms::place_is))]
pub fn first_item(alloc: Global, first: Node) -> Result<Row, AllocError>
    ensures row { IfOk result (λ all. row_of all ≡ item (row (at_of (tree first.expr.value))) (tree first.expr.value)) }
    ensures height { IfOk result (λ all. all.all.height ≡ first.height) }
{
    add_item(row_at(alloc, first.expr.at), first)
}
