ghost use Rattle.std.specs.Prelude.{◌≡◌, ◌<◌, ◌+◌, max, IfOk};
ghost use Rattle.py_tree.specs.Trees.{tree};
ghost use Rattle.grammar_code.specs.Walk.{starts_with};
ghost use Rattle.py_nodes.specs.Parts.{chain_of};
ghost use Rattle.py_cursor.specs.token_kinds.Kinds.{kind};
ghost use Rattle.py_cursor.specs.Cursor.{kinds_of};
ghost use Rattle.py_cursor.specs.Parser.{Gives};
ghost use Rattle.py_expression_parser.specs.Pieces.{comparison_on, link_on, links_of, chain_tree};

use py_cursor::{Parser, Sign};
use py_nodes::{Chain, Node, and_node, compare_node, or_node};
use py_tokens::Op;
use py_tree::CmpOp;
use std::alloc::{AllocError, Global};

/// What joins operands to a chain.
#[derive(Clone, Copy)]
pub enum Link {
    Compare,
    And,
    Or,
}

/// With which tokens a link begins.
fn link_signs(link: Link) -> &'static [Sign]
    ensures { kinds_of result.now ≡ links_of link }
{
    match link {
        Link::Compare => &[
            Sign::Op(Op::EqualEqual),
            Sign::Op(Op::NotEqual),
            Sign::Op(Op::Less),
            Sign::Op(Op::LessEqual),
            Sign::Op(Op::Greater),
            Sign::Op(Op::GreaterEqual),
            Sign::Op(Op::In),
            Sign::Op(Op::Not),
            Sign::Op(Op::Is),
        ],
        Link::And => &[Sign::Op(Op::And)],
        Link::Or => &[Sign::Op(Op::Or)],
    }
}

/// Whether a link begins with the first token.
pub fn begins_link(p: &Parser<'_>, link: Link) -> bool
    ensures { result ≡ starts_with kind (links_of link) p.now.rest.now }
{
    p.at_any(link_signs(link))
}

/// A comparison, of one word or two.
fn comparison(p: &mut Parser<'_>) -> Option<CmpOp>
    ensures { Gives (λ x. x) result p.new (comparison_on p.old.rest.now) }
{
    let rows = [
        (Op::EqualEqual, CmpOp::Equal),
        (Op::NotEqual, CmpOp::NotEqual),
        (Op::Less, CmpOp::Less),
        (Op::LessEqual, CmpOp::LessEqual),
        (Op::Greater, CmpOp::Greater),
        (Op::GreaterEqual, CmpOp::GreaterEqual),
        (Op::In, CmpOp::In),
    ];
    if let Some((_token, op)) = p.take_meant(&rows) {
        return Some(op);
    }
    if let Some(_not) = p.take_op(Op::Not) {
        let Some(_in) = p.expect_op(Op::In) else {
            return None;
        };
        return Some(CmpOp::NotIn);
    }
    let Some(_is) = p.expect_op(Op::Is) else {
        return None;
    };
    match p.take_op(Op::Not) {
        Some(_not) => Some(CmpOp::IsNot),
        None => Some(CmpOp::Is),
    }
}

/// What joins the next operand, and the comparison that it is.
pub fn link_at(p: &mut Parser<'_>, link: Link) -> Option<Option<CmpOp>>
    ensures { Gives (λ x. x) result p.new (link_on link p.old.rest.now) }
{
    let word = match link {
        Link::Compare => {
            let Some(op) = comparison(p) else {
                return None;
            };
            return Some(Some(op));
        }
        Link::And => Op::And,
        Link::Or => Op::Or,
    };
    let Some(_word) = p.expect_op(word) else {
        return None;
    };
    Some(None)
}

/// The node of a chain.
pub fn chain_node(alloc: Global, link: Link, chain: Chain) -> Result<Node, AllocError>
    requires head { chain.head.height < u32.MAX }
    requires more { chain.more.height < u32.MAX }
    ensures tree { IfOk result (λ node. tree node.expr.value ≡ chain_tree link (chain_of chain)) }
    ensures height { IfOk result (λ node. node.height ≡ 1 + max chain.head.height chain.more.height) }
{
    match link {
        Link::Compare => compare_node(alloc, chain),
        Link::And => and_node(alloc, chain),
        Link::Or => or_node(alloc, chain),
    }
}
