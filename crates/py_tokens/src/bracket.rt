ghost use Rattle.std.specs.Prelude.{◌≡◌, ◌-◌, length};
ghost use Rattle.std.specs.List.{slice_get};
ghost use Rattle.py_tokens.specs.Layout.{operator_role, token_role, same_shape, has_shape, innermost, brackets_with};
ghost use Rattle.py_tokens.specs.Reading.{IsBracketsAnswer};

use crate::op::Op;
use crate::token::{LexFault, TokenKind};
use py_source::{LexKind, MOST_LEVELS, Pos};

/// The shape of a bracket.
#[derive(Clone, Copy, PartialEq, Eq)]
pub enum Shape {
    Round,
    Square,
    Curly,
}

/// What a token does with brackets.
#[derive(Clone, Copy, PartialEq, Eq)]
pub enum BracketRole {
    Opens(Shape),
    Closes(Shape),
    Neither,
}

/// An open bracket at its place.
#[derive(Clone, Copy, PartialEq, Eq)]
pub struct Bracket {
    pub shape: Shape,
    pub at: Pos,
}

fn operator_role(op: Op) -> BracketRole
    ensures { result ≡ operator_role op }
{
    match op {
        Op::LeftParen => BracketRole::Opens(Shape::Round),
        Op::LeftBracket => BracketRole::Opens(Shape::Square),
        Op::LeftBrace => BracketRole::Opens(Shape::Curly),
        Op::RightParen => BracketRole::Closes(Shape::Round),
        Op::RightBracket => BracketRole::Closes(Shape::Square),
        Op::RightBrace => BracketRole::Closes(Shape::Curly),
        _ => BracketRole::Neither,
    }
}

/// Whether a token opens a bracket or closes one, and of which shape (Language Reference, 2.6 Delimiters).
pub fn token_role(kind: &TokenKind) -> BracketRole
    ensures { result ≡ token_role kind.now }
{
    match kind {
        TokenKind::Op(op) => operator_role(*op),
        TokenKind::Name(_)
        | TokenKind::Number(_)
        | TokenKind::Text(_)
        | TokenKind::Newline
        | TokenKind::Indent
        | TokenKind::Dedent
        | TokenKind::End => BracketRole::Neither,
    }
}

fn same_shape(left: Shape, right: Shape) -> bool
    ensures { result ≡ same_shape left right }
{
    match left {
        Shape::Round => matches!(right, Shape::Round),
        Shape::Square => matches!(right, Shape::Square),
        Shape::Curly => matches!(right, Shape::Curly),
    }
}

fn closes_innermost(shape: Shape, brackets: &[Bracket]) -> bool
    ensures { result ≡ has_shape shape (innermost brackets.now) }
{
    match brackets.last() {
        Some(bracket) => same_shape(bracket.shape, shape),
        None => false,
    }
}

/// Opens or closes a bracket, of which no more than `MOST_LEVELS` are open.
pub fn take_bracket(role: BracketRole, at: Pos, brackets: &mut Vec<Bracket>) -> Result<(), LexFault>
    ensures { IsBracketsAnswer (brackets_with brackets.old.items at role) at brackets.new.items result }
{
    match role {
        BracketRole::Opens(_) if brackets.len() >= MOST_LEVELS => {
            Err(LexFault::Bad(at, LexKind::Nesting))
        }
        BracketRole::Opens(shape) => Ok(brackets.push(Bracket { shape, at })?),
        BracketRole::Closes(shape) => {
            if !closes_innermost(shape, brackets) {
                return Err(LexFault::Bad(at, LexKind::Mismatch));
            }
            let _ = brackets.pop();
            Ok(())
        }
        BracketRole::Neither => Ok(()),
    }
}
