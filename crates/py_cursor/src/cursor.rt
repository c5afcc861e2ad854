ghost use Rattle.std.specs.Prelude.{◌≡◌, ◌∷◌, [], MatchOption, None, Some};
ghost use Rattle.parsing.specs.Reading.{has};
ghost use Rattle.grammar_code.specs.Walk.{first_of, first_meant, starts_with};
ghost use Rattle.grammar.specs.Table.{lookup_key};
ghost use Rattle.py_expressions.specs.token_kinds.Kinds.{kind, op_number, text_of};
ghost use Rattle.py_cursor.specs.Cursor.{number_on, kinds_of, rows_of, IsBlocked};

use crate::stop::Stop;
use py_tokens::{Op, Token, TokenKind};

/// A kind of token. Sets of tokens are slices of these.
#[derive(Clone, Copy, Debug)]
pub enum Sign {
    Name,
    Number,
    Text,
    Newline,
    Indent,
    Dedent,
    End,
    Op(Op),
}

#[tactic(auto, using(crate::proofs::Ops::same_op, crate::proofs::Ops::no_op))]
fn op_is(op: Op, sign: Sign) -> bool
    ensures { result ≡ has (op_number op) (number_on sign ∷ []) }
{
    match sign {
        Sign::Op(wanted) => op == wanted,
        Sign::Name
        | Sign::Number
        | Sign::Text
        | Sign::Newline
        | Sign::Indent
        | Sign::Dedent
        | Sign::End => false,
    }
}

/// Whether a token is of a kind.
#[tactic(auto, using(crate::proofs::Ops::no_sign))]
fn is_of(token: &Token, sign: Sign) -> bool
    ensures { result ≡ has (kind token.now) (number_on sign ∷ []) }
{
    match &token.kind {
        TokenKind::Name(_) => matches!(sign, Sign::Name),
        TokenKind::Number(_) => matches!(sign, Sign::Number),
        TokenKind::Text(_) => matches!(sign, Sign::Text),
        TokenKind::Newline => matches!(sign, Sign::Newline),
        TokenKind::Indent => matches!(sign, Sign::Indent),
        TokenKind::Dedent => matches!(sign, Sign::Dedent),
        TokenKind::End => matches!(sign, Sign::End),
        TokenKind::Op(op) => op_is(*op, sign),
    }
}

/// Whether a token is of a kind in the set.
fn is_among(token: &Token, set: &[Sign]) -> bool
    ensures { result ≡ has (kind token.now) (kinds_of set.now) }
{
    for sign in set {
        if is_of(token, *sign) {
            return true;
        }
    }
    false
}

/// The first token, where it is of a kind in the set, and those behind it.
pub fn first_of<'t>(tokens: &'t [Token], set: &[Sign]) -> Option<(&'t Token, &'t [Token])>
    ensures { MatchOption result (first_of kind (kinds_of set.now) tokens.now ≡ None) (λ x. first_of kind (kinds_of set.now) tokens.now ≡ Some (x.0.now, x.1.now)) }
{
    match tokens {
        [first, rest @ ..] => {
            if is_among(first, set) {
                Some((first, rest))
            } else {
                None
            }
        }
        [] => None,
    }
}

/// Whether the first token is of a kind in the set.
pub fn begins(tokens: &[Token], set: &[Sign]) -> bool
    ensures { result ≡ starts_with kind (kinds_of set.now) tokens.now }
{
    match tokens {
        [first, ..] => is_among(first, set),
        [] => false,
    }
}

/// The fault where no level is left: the first token is too deep, where it is of a kind in the set.
pub fn blocked<'t>(tokens: &'t [Token], set: &[Sign]) -> Stop<'t>
    ensures { IsBlocked (starts_with kind (kinds_of set.now) tokens.now) tokens.now result }
{
    if begins(tokens, set) {
        Stop::Deep(tokens)
    } else {
        Stop::Bad(tokens)
    }
}

/// The characters of a name or of a text.
pub fn chars_of(token: &Token) -> &[char]
    ensures { result.now ≡ text_of token.now }
{
    match &token.kind {
        TokenKind::Name(name) => name.chars(),
        TokenKind::Text(text) => text.chars(),
        TokenKind::Number(_)
        | TokenKind::Op(_)
        | TokenKind::Newline
        | TokenKind::Indent
        | TokenKind::Dedent
        | TokenKind::End => &[],
    }
}

/// What a token stands for in a table of operators.
fn meaning_of<V: Copy>(token: &Token, rows: &[(Op, V)]) -> Option<V>
    ensures { result ≡ lookup_key (rows_of rows.now) (kind token.now) }
{
    for row in rows {
        if is_of(token, Sign::Op(row.0)) {
            return Some(row.1);
        }
    }
    None
}

/// The first token, where it stands for something in a table of operators, what it stands for, and the tokens behind it.
pub fn first_meant<'t, V: Copy>(
    tokens: &'t [Token],
    rows: &[(Op, V)],
) -> Option<(&'t Token, V, &'t [Token])>
    ensures { MatchOption result (first_meant kind (rows_of rows.now) tokens.now ≡ None) (λ x. first_meant kind (rows_of rows.now) tokens.now ≡ Some ((x.0.now, x.1), x.2.now)) }
{
    match tokens {
        [first, rest @ ..] => match meaning_of(first, rows) {
            Some(value) => Some((first, value, rest)),
            None => None,
        },
        [] => None,
    }
}
