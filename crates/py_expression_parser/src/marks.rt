ghost use Rattle.std.specs.Prelude.{◌≡◌, ◌∷◌, []};
ghost use Rattle.grammar_code.specs.Walk.{starts_with};
ghost use Rattle.py_cursor.specs.token_kinds.Kinds.{kind};
ghost use Rattle.py_cursor.specs.token_kinds.Numbers as k;
ghost use Rattle.py_cursor.specs.py_expressions.Lines.{literal_begins, expr_begins};
ghost use Rattle.py_cursor.specs.Cursor.{IsBlocked};
ghost use Rattle.py_expression_parser.specs.Pieces.{trailer_marks};

use py_cursor::{Parser, Sign};
use py_tokens::Op;

/// With which tokens an atom begins that is no name.
pub const BEGINS_OTHER: [Sign; 8] = [
    Sign::Number,
    Sign::Op(Op::True),
    Sign::Op(Op::False),
    Sign::Op(Op::None),
    Sign::Text,
    Sign::Op(Op::LeftParen),
    Sign::Op(Op::LeftBracket),
    Sign::Op(Op::LeftBrace),
];

/// With which tokens a target begins.
pub const BEGINS_TARGET: [Sign; 9] = [
    Sign::Name,
    Sign::Number,
    Sign::Op(Op::True),
    Sign::Op(Op::False),
    Sign::Op(Op::None),
    Sign::Text,
    Sign::Op(Op::LeftParen),
    Sign::Op(Op::LeftBracket),
    Sign::Op(Op::LeftBrace),
];

/// With which tokens an expression begins.
pub const BEGINS_EXPRESSION: [Sign; 13] = [
    Sign::Op(Op::Not),
    Sign::Op(Op::Minus),
    Sign::Op(Op::Plus),
    Sign::Op(Op::Tilde),
    Sign::Name,
    Sign::Number,
    Sign::Op(Op::True),
    Sign::Op(Op::False),
    Sign::Op(Op::None),
    Sign::Text,
    Sign::Op(Op::LeftParen),
    Sign::Op(Op::LeftBracket),
    Sign::Op(Op::LeftBrace),
];

/// With which tokens an attribute, a call or a subscript begins.
pub const TRAILERS: [Sign; 3] = [
    Sign::Op(Op::Dot),
    Sign::Op(Op::LeftParen),
    Sign::Op(Op::LeftBracket),
];

/// Whether an expression begins with the first token.
pub fn begins_expression(p: &Parser<'_>) -> bool
    ensures { result ≡ starts_with kind expr_begins p.now.rest.now }
{
    p.at_any(&BEGINS_EXPRESSION)
}

/// Reading stops where an expression is wanted and no level is left.
pub fn no_expression(p: &mut Parser<'_>)
    ensures { IsBlocked (starts_with kind expr_begins p.old.rest.now) p.old.rest.now p.new.stop }
{
    p.stop_blocked(&BEGINS_EXPRESSION);
}

/// Reading stops where an atom that is no name is wanted and no level is left.
pub fn no_other(p: &mut Parser<'_>)
    ensures { IsBlocked (starts_with kind literal_begins p.old.rest.now) p.old.rest.now p.new.stop }
{
    p.stop_blocked(&BEGINS_OTHER);
}

/// Whether an attribute, a call or a subscript begins with the first token.
pub fn begins_trailer(p: &Parser<'_>) -> bool
    ensures { result ≡ starts_with kind trailer_marks p.now.rest.now }
{
    p.at_any(&TRAILERS)
}

/// Whether the first token shows that a bound of a slice is absent.
pub fn lacks_bound(p: &Parser<'_>) -> bool
    ensures { result ≡ starts_with kind (k.right_bracket ∷ k.colon ∷ []) p.now.rest.now }
{
    p.at_any(&[Sign::Op(Op::RightBracket), Sign::Op(Op::Colon)])
}
