ghost use Rattle.std.specs.Prelude.{◌≡◌};
ghost use Rattle.grammar_code.specs.Walk.{first_meant};
ghost use Rattle.py_cursor.specs.token_kinds.Kinds.{kind};
ghost use Rattle.py_cursor.specs.py_expressions.Lines.{prefixes};
ghost use Rattle.py_cursor.specs.Cursor.{rows_of};
ghost use Rattle.py_cursor.specs.Parser.{Takes};
ghost use Rattle.py_expression_parser.specs.Reads.{operator_list, lower_of, operators_of};

use py_cursor::Parser;
use py_tokens::{Op, Token};
use py_tree::{BinOp, UnOp};

/// A rank of binary operators, from the tightest; what stands below them all is unary.
#[derive(Clone, Copy)]
pub enum Rank {
    Unary,
    Product,
    Sum,
    Shift,
    And,
    Xor,
    Or,
}

/// The rank whose operators bind next more tightly (Language Reference, 6.17 Operator precedence).
pub fn lower(rank: Rank) -> Rank
    ensures { result ≡ lower_of rank }
{
    match rank {
        Rank::Unary | Rank::Product => Rank::Unary,
        Rank::Sum => Rank::Product,
        Rank::Shift => Rank::Sum,
        Rank::And => Rank::Shift,
        Rank::Xor => Rank::And,
        Rank::Or => Rank::Xor,
    }
}

/// The operators of a rank.
fn operators(rank: Rank) -> &'static [(Op, BinOp)]
    ensures { rows_of result.now ≡ operators_of rank }
{
    match rank {
        Rank::Unary => &[],
        Rank::Product => &[
            (Op::Star, BinOp::Mul),
            (Op::DoubleSlash, BinOp::FloorDiv),
            (Op::Percent, BinOp::Mod),
        ],
        Rank::Sum => &[(Op::Plus, BinOp::Add), (Op::Minus, BinOp::Sub)],
        Rank::Shift => &[
            (Op::LeftShift, BinOp::LShift),
            (Op::RightShift, BinOp::RShift),
        ],
        Rank::And => &[(Op::Ampersand, BinOp::BitAnd)],
        Rank::Xor => &[(Op::Caret, BinOp::BitXor)],
        Rank::Or => &[(Op::Bar, BinOp::BitOr)],
    }
}

/// Takes the first token, where it is an operator of the rank: the token and the operator.
pub fn take_operator<'t>(p: &mut Parser<'t>, rank: Rank) -> Option<(&'t Token, BinOp)>
    ensures { Takes (λ x. (x.0.now, x.1)) (first_meant kind (operators_of rank) p.old.rest.now) result p.old p.new }
{
    p.take_meant(operators(rank))
}

/// Takes the first token, where it is a sign: the token and the sign.
pub fn take_prefix<'t>(p: &mut Parser<'t>) -> Option<(&'t Token, UnOp)>
    ensures { Takes (λ x. (x.0.now, x.1)) (first_meant kind (operator_list prefixes) p.old.rest.now) result p.old p.new }
{
    let signs = [
        (Op::Minus, UnOp::Minus),
        (Op::Plus, UnOp::Plus),
        (Op::Tilde, UnOp::Invert),
    ];
    p.take_meant(&signs)
}
