ghost use Rattle.std.specs.Prelude.{◌≡◌, ◌≤◌, ◌<◌, ◌+◌, max, false, IfSome};
ghost use Rattle.py_source.specs.Limits.{most_levels};
ghost use Rattle.py_tree.specs.Trees.{tree};
ghost use Rattle.py_cursor.specs.py_expressions.Sorts.{other, atom, arguments, slice, primary, power, unary, negation, expr, exprs};
ghost use Rattle.py_nodes.specs.Parts.{row_of, pairs_of, args_of, chain_of, maybe_of, high_of};
ghost use Rattle.py_cursor.specs.Parser.{Gives};
ghost use Rattle.py_expression_parser.specs.Reads.{reads, ranked};
ghost use Rattle.py_expression_parser.specs.Pieces.{linkage, operand_of, links_more, trailer_on, index_on, slice_more, arg_on, args_more, group_on, list_on, items, pair_on, pairs_more, dict_on};

use crate::leaves::{assigned, attribute, first_item, leaf, name_leaf};
use crate::links::{Link, begins_link, chain_node, link_at};
use crate::marks::{begins_expression, begins_trailer, lacks_bound, no_expression, no_other};
use crate::ranks::{Rank, lower, take_operator, take_prefix};
use py_cursor::{Parser, Sign};
use py_nodes::{
    Arguments, Bounds, Chain, Node, Pairs, Row, add_argument, add_item, add_named, add_operand,
    add_pair, binary_node, call_node, chain_of, dict_node, end_arguments, end_pairs, end_row,
    if_else_node, list_node, no_arguments, no_pairs, not_node, paren_node, row_at, slice_node,
    subscript_node, tuple_node, unary_node,
};
use py_source::Pos;
use py_tokens::Op;
use py_tree::BinOp;

/// Expressions with commas between them, or one.
#[tactic(auto, using(crate::proofs::Shapes::exprs_rules))]
#[cycle(expression)]
pub fn expressions(p: &mut Parser<'_>, levels: u32) -> Option<Node>
    requires { levels ≤ most_levels }
    ensures reads { Gives (λ x. (tree x.expr.value, x.height)) result p.new (reads levels exprs p.old.rest.now) }
    ensures fits { IfSome result (λ x. x.height ≤ levels) }
{
    if levels == 0 {
        no_expression(p);
        return None;
    }
    let Some(first) = expression(p, levels) else {
        return None;
    };
    if !p.at_op(Op::Comma) {
        return Some(first);
    }
    if first.height >= levels {
        p.stop_deep(p.rest);
        return None;
    }
    let Some(row) = p.made(first_item(p.alloc, first)) else {
        return None;
    };
    let Some(row) = items(p, levels, row) else {
        return None;
    };
    p.made(tuple_node(p.alloc, row))
}

/// Items behind the first, with commas between them, and maybe one at the end.
#[tactic(auto, using(crate::proofs::Items::row_over))]
#[cycle(expression)]
fn items(p: &mut Parser<'_>, levels: u32, row: Row) -> Option<Row>
    requires some { 0 < levels }
    requires few { levels ≤ most_levels }
    requires open { row.ended ≡ false }
    requires low { row.all.height < levels }
    ensures reads { Gives (λ x. (row_of x, x.all.height)) result p.new (items levels (row_of row, row.all.height) p.old.rest.now) }
    ensures fits { IfSome result (λ x. x.all.height < levels) }
{
    let mut row = row;
    while let Some(_comma) = p.take_op(Op::Comma) {
        if !begins_expression(p) {
            return Some(end_row(row));
        }
        let Some(next) = expression(p, levels - 1) else {
            return None;
        };
        let Some(more) = p.made(add_item(row, next)) else {
            return None;
        };
        row = more;
    }
    Some(row)
}

/// An expression, with at most so many levels, its own among them.
#[tactic(auto, using(crate::proofs::Shapes::expr_rules))]
#[cycle(expression)]
pub fn expression(p: &mut Parser<'_>, levels: u32) -> Option<Node>
    requires { levels ≤ most_levels }
    ensures reads { Gives (λ x. (tree x.expr.value, x.height)) result p.new (reads levels expr p.old.rest.now) }
    ensures fits { IfSome result (λ x. x.height ≤ levels) }
{
    if levels == 0 {
        no_expression(p);
        return None;
    }
    let Some(value) = chained(p, Link::Or, levels) else {
        return None;
    };
    let before = p.rest;
    let Some(_if) = p.take_op(Op::If) else {
        return Some(value);
    };
    if value.height >= levels {
        p.stop_deep(before);
        return None;
    }
    let Some(condition) = chained(p, Link::Or, levels - 1) else {
        return None;
    };
    let Some(_else) = p.expect_op(Op::Else) else {
        return None;
    };
    let Some(other) = expression(p, levels - 1) else {
        return None;
    };
    p.made(if_else_node(p.alloc, value, condition, other))
}

/// Operands with links between them, or one.
#[tactic(auto, using(crate::proofs::Chains::chained_rules))]
#[cycle(expression)]
fn chained(p: &mut Parser<'_>, link: Link, levels: u32) -> Option<Node>
    requires some { 0 < levels }
    requires few { levels ≤ most_levels }
    ensures reads { Gives (λ x. (tree x.expr.value, x.height)) result p.new (linkage levels link p.old.rest.now) }
    ensures fits { IfSome result (λ x. x.height ≤ levels) }
{
    let Some(first) = operand(p, link, levels) else {
        return None;
    };
    if !begins_link(p, link) {
        return Some(first);
    }
    if first.height >= levels {
        p.stop_deep(p.rest);
        return None;
    }
    let Some(chain) = further(p, link, levels, chain_of(p.alloc, first)) else {
        return None;
    };
    p.made(chain_node(p.alloc, link, chain))
}

/// Links and operands behind a chain.
#[tactic(auto, using(crate::proofs::Chains::links_over))]
#[cycle(expression)]
fn further(p: &mut Parser<'_>, link: Link, levels: u32, chain: Chain) -> Option<Chain>
    requires some { 0 < levels }
    requires few { levels ≤ most_levels }
    requires low { max chain.head.height chain.more.height < levels }
    ensures reads { Gives (λ x. (chain_of x, max x.head.height x.more.height)) result p.new (links_more levels link (chain_of chain, max chain.head.height chain.more.height) p.old.rest.now) }
    ensures fits { IfSome result (λ x. max x.head.height x.more.height < levels) }
{
    let mut chain = chain;
    while begins_link(p, link) {
        let Some(op) = link_at(p, link) else {
            return None;
        };
        let Some(next) = operand(p, link, levels - 1) else {
            return None;
        };
        let Some(more) = p.made(add_operand(chain, op, next)) else {
            return None;
        };
        chain = more;
    }
    Some(chain)
}

/// What links stand between.
#[cycle(expression)]
fn operand(p: &mut Parser<'_>, link: Link, levels: u32) -> Option<Node>
    requires some { 0 < levels }
    requires few { levels ≤ most_levels }
    ensures reads { Gives (λ x. (tree x.expr.value, x.height)) result p.new (operand_of levels link p.old.rest.now) }
    ensures fits { IfSome result (λ x. x.height ≤ levels) }
{
    match link {
        Link::Compare => binary(p, Rank::Or, levels),
        Link::And => negation(p, levels),
        Link::Or => chained(p, Link::And, levels),
    }
}

/// `not`, or a comparison.
#[tactic(auto, using(crate::proofs::Shapes::not_rules))]
#[cycle(expression)]
fn negation(p: &mut Parser<'_>, levels: u32) -> Option<Node>
    requires some { 0 < levels }
    requires few { levels ≤ most_levels }
    ensures reads { Gives (λ x. (tree x.expr.value, x.height)) result p.new (reads levels negation p.old.rest.now) }
    ensures fits { IfSome result (λ x. x.height ≤ levels) }
{
    let before = p.rest;
    let Some(not) = p.take_op(Op::Not) else {
        return chained(p, Link::Compare, levels);
    };
    if levels < 2 {
        p.stop_deep(before);
        return None;
    }
    let Some(inner) = negation(p, levels - 1) else {
        return None;
    };
    p.made(not_node(p.alloc, not.at, inner))
}

/// Operands with the operators of a rank between them.
#[tactic(auto, using(crate::proofs::Ladder::ladder_rules))]
#[cycle(expression)]
fn binary(p: &mut Parser<'_>, rank: Rank, levels: u32) -> Option<Node>
    requires some { 0 < levels }
    requires few { levels ≤ most_levels }
    ensures reads { Gives (λ x. (tree x.expr.value, x.height)) result p.new (ranked levels rank p.old.rest.now) }
    ensures fits { IfSome result (λ x. x.height ≤ levels) }
{
    if matches!(rank, Rank::Unary) {
        return unary(p, levels);
    }
    let Some(mut left) = binary(p, lower(rank), levels) else {
        return None;
    };
    loop {
        let before = p.rest;
        let Some((_token, op)) = take_operator(p, rank) else {
            return Some(left);
        };
        if left.height >= levels {
            p.stop_deep(before);
            return None;
        }
        let Some(right) = binary(p, lower(rank), levels - 1) else {
            return None;
        };
        let Some(whole) = p.made(binary_node(p.alloc, left, op, right)) else {
            return None;
        };
        left = whole;
    }
}

/// A sign and what it stands before, or a power.
#[tactic(auto, using(crate::proofs::Shapes::unary_rules))]
#[cycle(expression)]
fn unary(p: &mut Parser<'_>, levels: u32) -> Option<Node>
    requires some { 0 < levels }
    requires few { levels ≤ most_levels }
    ensures reads { Gives (λ x. (tree x.expr.value, x.height)) result p.new (reads levels unary p.old.rest.now) }
    ensures fits { IfSome result (λ x. x.height ≤ levels) }
{
    let before = p.rest;
    let Some((sign, op)) = take_prefix(p) else {
        return power(p, levels);
    };
    if levels < 2 {
        p.stop_deep(before);
        return None;
    }
    let Some(inner) = unary(p, levels - 1) else {
        return None;
    };
    p.made(unary_node(p.alloc, sign.at, op, inner))
}

/// A primary, or its power.
#[tactic(auto, using(crate::proofs::Shapes::power_rules))]
#[cycle(expression)]
fn power(p: &mut Parser<'_>, levels: u32) -> Option<Node>
    requires some { 0 < levels }
    requires few { levels ≤ most_levels }
    ensures reads { Gives (λ x. (tree x.expr.value, x.height)) result p.new (reads levels power p.old.rest.now) }
    ensures fits { IfSome result (λ x. x.height ≤ levels) }
{
    let Some(left) = primary(p, levels) else {
        return None;
    };
    let before = p.rest;
    let Some(_power) = p.take_op(Op::DoubleStar) else {
        return Some(left);
    };
    if left.height >= levels {
        p.stop_deep(before);
        return None;
    }
    let Some(right) = unary(p, levels - 1) else {
        return None;
    };
    p.made(binary_node(p.alloc, left, BinOp::Pow, right))
}

/// An atom, and attributes, calls and subscripts of it.
#[tactic(auto, using(crate::proofs::Trailers::primary_rules))]
#[cycle(expression)]
fn primary(p: &mut Parser<'_>, levels: u32) -> Option<Node>
    requires some { 0 < levels }
    requires few { levels ≤ most_levels }
    ensures reads { Gives (λ x. (tree x.expr.value, x.height)) result p.new (reads levels primary p.old.rest.now) }
    ensures fits { IfSome result (λ x. x.height ≤ levels) }
{
    let Some(mut left) = atom(p, levels) else {
        return None;
    };
    while begins_trailer(p) {
        if left.height >= levels {
            p.stop_deep(p.rest);
            return None;
        }
        let Some(whole) = trailer(p, levels, left) else {
            return None;
        };
        left = whole;
    }
    Some(left)
}

/// `.name`, `(arguments)` or `[index]` behind a value.
#[tactic(auto, using(crate::proofs::Trailers::trailer_shape))]
#[cycle(expression)]
fn trailer(p: &mut Parser<'_>, levels: u32, of: Node) -> Option<Node>
    requires few { levels ≤ most_levels }
    requires low { of.height < levels }
    ensures reads { Gives (λ x. (tree x.expr.value, x.height)) result p.new (trailer_on levels (tree of.expr.value, of.height) p.old.rest.now) }
    ensures fits { IfSome result (λ x. x.height ≤ levels) }
{
    if let Some(_dot) = p.take_op(Op::Dot) {
        return attribute(p, of);
    }
    if p.at_op(Op::LeftParen) {
        let Some(arguments) = arguments(p, levels) else {
            return None;
        };
        return p.made(call_node(p.alloc, of, arguments));
    }
    let Some(_open) = p.expect_op(Op::LeftBracket) else {
        return None;
    };
    subscript(p, levels, of)
}

/// The index of a value, behind `[`.
#[cycle(expression)]
fn subscript(p: &mut Parser<'_>, levels: u32, of: Node) -> Option<Node>
    requires few { levels ≤ most_levels }
    requires low { of.height < levels }
    ensures reads { Gives (λ x. (tree x.expr.value, x.height)) result p.new (index_on levels (tree of.expr.value, of.height) p.old.rest.now) }
    ensures fits { IfSome result (λ x. x.height ≤ levels) }
{
    if p.at_op(Op::Colon) {
        let Some(bounds) = slice(p, levels) else {
            return None;
        };
        return p.made(slice_node(p.alloc, of, None, bounds));
    }
    let Some(index) = expression(p, levels - 1) else {
        return None;
    };
    if let Some(_close) = p.take_op(Op::RightBracket) {
        return p.made(subscript_node(p.alloc, of, index));
    }
    let Some(bounds) = slice(p, levels) else {
        return None;
    };
    p.made(slice_node(p.alloc, of, Some(index), bounds))
}

/// What stands from the first `:` of a slice on.
#[tactic(auto, using(crate::proofs::Trailers::slice_shape))]
#[cycle(expression)]
pub fn slice(p: &mut Parser<'_>, levels: u32) -> Option<Bounds>
    requires some { 0 < levels }
    requires few { levels ≤ most_levels }
    ensures reads { Gives (λ x. ((maybe_of x.to, maybe_of x.by), 1 + max (high_of x.to) (high_of x.by))) result p.new (reads levels slice p.old.rest.now) }
    ensures fits { IfSome result (λ x. max (high_of x.to) (high_of x.by) < levels) }
{
    let Some(_colon) = p.expect_op(Op::Colon) else {
        return None;
    };
    if lacks_bound(p) {
        return bounds(p, levels, None);
    }
    let Some(to) = expression(p, levels - 1) else {
        return None;
    };
    bounds(p, levels, Some(to))
}

/// What stands behind the end of a slice.
#[tactic(auto, using(crate::proofs::Trailers::bounds_shape))]
#[cycle(expression)]
fn bounds(p: &mut Parser<'_>, levels: u32, to: Option<Node>) -> Option<Bounds>
    requires some { 0 < levels }
    requires few { levels ≤ most_levels }
    requires low { high_of to < levels }
    ensures reads { Gives (λ x. ((maybe_of x.to, maybe_of x.by), 1 + max (high_of x.to) (high_of x.by))) result p.new (slice_more levels (maybe_of to, high_of to) p.old.rest.now) }
    ensures fits { IfSome result (λ x. max (high_of x.to) (high_of x.by) < levels) }
{
    if let Some(_close) = p.take_op(Op::RightBracket) {
        return Some(Bounds { to, by: None });
    }
    let Some(_colon) = p.expect_op(Op::Colon) else {
        return None;
    };
    if let Some(_close) = p.take_op(Op::RightBracket) {
        return Some(Bounds { to, by: None });
    }
    let Some(by) = expression(p, levels - 1) else {
        return None;
    };
    let Some(_close) = p.expect_op(Op::RightBracket) else {
        return None;
    };
    Some(Bounds { to, by: Some(by) })
}

/// The arguments of a call, with their parentheses.
#[tactic(auto, using(crate::proofs::Items::arguments_shape))]
#[cycle(expression)]
pub fn arguments(p: &mut Parser<'_>, levels: u32) -> Option<Arguments>
    requires some { 0 < levels }
    requires few { levels ≤ most_levels }
    ensures reads { Gives (λ x. (args_of x, 1 + x.all.height)) result p.new (reads levels arguments p.old.rest.now) }
    ensures fits { IfSome result (λ x. x.all.height < levels) }
{
    let Some(_open) = p.expect_op(Op::LeftParen) else {
        return None;
    };
    let none = no_arguments(p.alloc);
    if let Some(_close) = p.take_op(Op::RightParen) {
        return Some(none);
    }
    let Some(first) = argument(p, levels, none) else {
        return None;
    };
    let Some(all) = more_arguments(p, levels, first) else {
        return None;
    };
    let Some(_close) = p.expect_op(Op::RightParen) else {
        return None;
    };
    Some(all)
}

/// Arguments behind the first, with commas between them, and maybe one at the end.
#[tactic(auto, using(crate::proofs::Items::args_over))]
#[cycle(expression)]
fn more_arguments(p: &mut Parser<'_>, levels: u32, first: Arguments) -> Option<Arguments>
    requires some { 0 < levels }
    requires few { levels ≤ most_levels }
    requires open { first.ended ≡ false }
    requires low { first.all.height < levels }
    ensures reads { Gives (λ x. (args_of x, x.all.height)) result p.new (args_more levels (args_of first, first.all.height) p.old.rest.now) }
    ensures fits { IfSome result (λ x. x.all.height < levels) }
{
    let mut all = first;
    while let Some(_comma) = p.take_op(Op::Comma) {
        if !begins_expression(p) {
            return Some(end_arguments(all));
        }
        let Some(more) = argument(p, levels, all) else {
            return None;
        };
        all = more;
    }
    Some(all)
}

/// An argument, with its name or without.
#[tactic(auto, using(crate::proofs::Items::arg_shape))]
#[cycle(expression)]
fn argument(p: &mut Parser<'_>, levels: u32, before: Arguments) -> Option<Arguments>
    requires some { 0 < levels }
    requires few { levels ≤ most_levels }
    requires low { before.all.height < levels }
    ensures reads { Gives (λ x. (args_of x, x.all.height)) result p.new (arg_on levels (args_of before, before.all.height) p.old.rest.now) }
    ensures fits { IfSome result (λ x. x.all.height < levels) }
    ensures open { IfSome result (λ x. x.ended ≡ false) }
{
    let Some(value) = expression(p, levels - 1) else {
        return None;
    };
    match assigned(p, &value) {
        None => None,
        Some(None) => p.made(add_argument(before, value)),
        Some(Some(name)) => {
            let Some(value) = expression(p, levels - 1) else {
                return None;
            };
            p.made(add_named(before, name, value))
        }
    }
}

/// A name, or another atom.
#[tactic(auto, using(crate::proofs::Shapes::atom_shape))]
#[cycle(expression)]
fn atom(p: &mut Parser<'_>, levels: u32) -> Option<Node>
    requires some { 0 < levels }
    requires few { levels ≤ most_levels }
    ensures reads { Gives (λ x. (tree x.expr.value, x.height)) result p.new (reads levels atom p.old.rest.now) }
    ensures fits { IfSome result (λ x. x.height ≤ levels) }
{
    match p.take(Sign::Name) {
        Some(name) => name_leaf(p, name),
        None => other_atom(p, levels),
    }
}

/// An atom that is no name.
#[tactic(auto, using(crate::proofs::Shapes::other_shape))]
#[cycle(expression)]
pub fn other_atom(p: &mut Parser<'_>, levels: u32) -> Option<Node>
    requires { levels ≤ most_levels }
    ensures reads { Gives (λ x. (tree x.expr.value, x.height)) result p.new (reads levels other p.old.rest.now) }
    ensures fits { IfSome result (λ x. x.height ≤ levels) }
{
    if levels == 0 {
        no_other(p);
        return None;
    }
    match leaf(p) {
        None => return None,
        Some(Some(node)) => return Some(node),
        Some(None) => {}
    }
    if let Some(open) = p.take_op(Op::LeftParen) {
        return group(p, levels, open.at);
    }
    if let Some(open) = p.take_op(Op::LeftBracket) {
        return list(p, levels, open.at);
    }
    let Some(open) = p.expect_op(Op::LeftBrace) else {
        return None;
    };
    dict(p, levels, open.at)
}

/// What stands behind `(`.
#[cycle(expression)]
fn group(p: &mut Parser<'_>, levels: u32, at: Pos) -> Option<Node>
    requires some { 0 < levels }
    requires few { levels ≤ most_levels }
    ensures reads { Gives (λ x. (tree x.expr.value, x.height)) result p.new (group_on levels at p.old.rest.now) }
    ensures fits { IfSome result (λ x. x.height ≤ levels) }
{
    if let Some(_close) = p.take_op(Op::RightParen) {
        return p.made(tuple_node(p.alloc, row_at(p.alloc, at)));
    }
    let Some(inner) = expressions(p, levels - 1) else {
        return None;
    };
    let Some(_close) = p.expect_op(Op::RightParen) else {
        return None;
    };
    p.made(paren_node(p.alloc, at, inner))
}

/// What stands behind `[` of a list.
#[cycle(expression)]
fn list(p: &mut Parser<'_>, levels: u32, at: Pos) -> Option<Node>
    requires some { 0 < levels }
    requires few { levels ≤ most_levels }
    ensures reads { Gives (λ x. (tree x.expr.value, x.height)) result p.new (list_on levels at p.old.rest.now) }
    ensures fits { IfSome result (λ x. x.height ≤ levels) }
{
    let row = row_at(p.alloc, at);
    if let Some(_close) = p.take_op(Op::RightBracket) {
        return p.made(list_node(p.alloc, row));
    }
    let Some(first) = expression(p, levels - 1) else {
        return None;
    };
    let Some(row) = p.made(add_item(row, first)) else {
        return None;
    };
    let Some(row) = items(p, levels, row) else {
        return None;
    };
    let Some(_close) = p.expect_op(Op::RightBracket) else {
        return None;
    };
    p.made(list_node(p.alloc, row))
}

/// What stands behind `{`.
#[cycle(expression)]
fn dict(p: &mut Parser<'_>, levels: u32, at: Pos) -> Option<Node>
    requires some { 0 < levels }
    requires few { levels ≤ most_levels }
    ensures reads { Gives (λ x. (tree x.expr.value, x.height)) result p.new (dict_on levels at p.old.rest.now) }
    ensures fits { IfSome result (λ x. x.height ≤ levels) }
{
    let none = no_pairs(p.alloc, at);
    if let Some(_close) = p.take_op(Op::RightBrace) {
        return p.made(dict_node(p.alloc, none));
    }
    let Some(first) = pair(p, levels, none) else {
        return None;
    };
    let Some(all) = more_pairs(p, levels, first) else {
        return None;
    };
    let Some(_close) = p.expect_op(Op::RightBrace) else {
        return None;
    };
    p.made(dict_node(p.alloc, all))
}

/// Pairs behind the first, with commas between them, and maybe one at the end.
#[tactic(auto, using(crate::proofs::Items::pairs_over))]
#[cycle(expression)]
fn more_pairs(p: &mut Parser<'_>, levels: u32, first: Pairs) -> Option<Pairs>
    requires some { 0 < levels }
    requires few { levels ≤ most_levels }
    requires open { first.ended ≡ false }
    requires low { max first.names.height first.values.height < levels }
    ensures reads { Gives (λ x. (pairs_of x, max x.names.height x.values.height)) result p.new (pairs_more levels (pairs_of first, max first.names.height first.values.height) p.old.rest.now) }
    ensures fits { IfSome result (λ x. max x.names.height x.values.height < levels) }
{
    let mut all = first;
    while let Some(_comma) = p.take_op(Op::Comma) {
        if !begins_expression(p) {
            return Some(end_pairs(all));
        }
        let Some(more) = pair(p, levels, all) else {
            return None;
        };
        all = more;
    }
    Some(all)
}

/// A key, `:` and a value.
#[cycle(expression)]
fn pair(p: &mut Parser<'_>, levels: u32, before: Pairs) -> Option<Pairs>
    requires some { 0 < levels }
    requires few { levels ≤ most_levels }
    requires low { max before.names.height before.values.height < levels }
    ensures reads { Gives (λ x. (pairs_of x, max x.names.height x.values.height)) result p.new (pair_on levels (pairs_of before, max before.names.height before.values.height) p.old.rest.now) }
    ensures fits { IfSome result (λ x. max x.names.height x.values.height < levels) }
    ensures open { IfSome result (λ x. x.ended ≡ before.ended) }
{
    let Some(name) = expression(p, levels - 1) else {
        return None;
    };
    let Some(_colon) = p.expect_op(Op::Colon) else {
        return None;
    };
    let Some(value) = expression(p, levels - 1) else {
        return None;
    };
    p.made(add_pair(before, name, value))
}
