ghost use Rattle.std.specs.Prelude.{◌≡◌, ◌+◌, [], min, IfOk, IfErr, MatchOption, None, Some};
ghost use Rattle.std.specs.Str.{chars};
ghost use Rattle.parsing.specs.Answer.{finish};
ghost use Rattle.parsing.specs.Reading.{strip};
ghost use Rattle.mark_expr.specs.Answer.{ParseResult, IsParseResult, IsCause, IsExpression, Gave, most_nested};
ghost use Rattle.mark_expr.specs.Expression.{Conjunction, Disjunction, joined_left, view};
ghost use Rattle.mark_expr.specs.Grammar.{MatchesRead, IsExact, parenthesized_at, has_kind, not_at, and_at, or_at};
ghost use Rattle.mark_expr.specs.Text.{column_of, start_of_rest};

use crate::fault::{ExprFault, Stop};
use crate::lexing::tokens;
use crate::token::{Kind, Token};
use crate::tree::{MarkExpr, PyName};
use seq::OutOfMemory;
use std::alloc::Global;

/// So many parentheses and `not`s may be open at once in an expression.
pub const MOST_NESTED: u32 = 100;

/// The `and` of the parts.
fn conjunction(first: Box<MarkExpr>, more: Vec<MarkExpr>) -> MarkExpr
    ensures { view result ≡ joined_left Conjunction (view first.value) more.items }
{
    if more.is_empty() {
        return Box::into_inner(first);
    }
    MarkExpr::And(first, more)
}

/// The `or` of the parts.
fn disjunction(first: Box<MarkExpr>, more: Vec<MarkExpr>) -> MarkExpr
    ensures { view result ≡ joined_left Disjunction (view first.value) more.items }
{
    if more.is_empty() {
        return Box::into_inner(first);
    }
    MarkExpr::Or(first, more)
}

/// The tokens behind an `and`.
fn after_and(tokens: &[Token]) -> Option<&[Token]>
    ensures { MatchOption result (strip (has_kind 1) tokens.now ≡ None) (λ rest. strip (has_kind 1) tokens.now ≡ Some rest.now) }
{
    match tokens {
        [
            Token {
                kind: Kind::And,
                ..
            },
            rest @ ..,
        ] => Some(rest),
        _ => None,
    }
}

/// The tokens behind an `or`.
fn after_or(tokens: &[Token]) -> Option<&[Token]>
    ensures { MatchOption result (strip (has_kind 0) tokens.now ≡ None) (λ rest. strip (has_kind 0) tokens.now ≡ Some rest.now) }
{
    match tokens {
        [Token { kind: Kind::Or, .. }, rest @ ..] => Some(rest),
        _ => None,
    }
}

/// The tokens behind a `)`.
fn after_close(tokens: &[Token]) -> Option<&[Token]>
    ensures { MatchOption result (strip (has_kind 4) tokens.now ≡ None) (λ rest. strip (has_kind 4) tokens.now ≡ Some rest.now) }
{
    match tokens {
        [
            Token {
                kind: Kind::Close,
                ..
            },
            rest @ ..,
        ] => Some(rest),
        _ => None,
    }
}

#[tactic(auto, unfolding(crate::specs::Grammar::not_at))]
#[cycle(expr)]
fn not_expr(alloc: Global, levels: u32, tokens: &[Token]) -> Result<(MarkExpr, &[Token]), Stop<'_>>
    ensures { MatchesRead (λ x. (view x.0, x.1.now)) result (not_at levels tokens.now) }
{
    match tokens {
        [
            Token {
                kind: Kind::Ident(name),
                ..
            },
            rest @ ..,
        ] => Ok((
            MarkExpr::Ident(PyName::from_chars(alloc, name.chars())?),
            rest,
        )),
        [
            Token {
                kind: Kind::Not,
                ..
            },
            rest @ ..,
        ] => {
            if levels == 0 {
                return Err(Stop::Deep(tokens));
            }
            let (inner, rest) = not_expr(alloc, levels - 1, rest)?;
            Ok((MarkExpr::Not(Box::new(alloc, inner)?), rest))
        }
        [
            Token {
                kind: Kind::Open,
                ..
            },
            rest @ ..,
        ] => {
            if levels == 0 {
                return Err(Stop::Deep(tokens));
            }
            parens(alloc, levels - 1, rest)
        }
        _ => Err(Stop::Bad(tokens)),
    }
}

/// What stands in parentheses, behind the first of them.
#[cycle(expr)]
fn parens(alloc: Global, levels: u32, tokens: &[Token]) -> Result<(MarkExpr, &[Token]), Stop<'_>>
    ensures { MatchesRead (λ x. (view x.0, x.1.now)) result (parenthesized_at levels tokens.now) }
{
    let (inner, rest) = or_expr(alloc, levels, tokens)?;
    match after_close(rest) {
        Some(rest) => Ok((inner, rest)),
        None => Err(Stop::Bad(rest)),
    }
}

#[tactic(auto, using(crate::proofs::Steps::and_steps))]
#[cycle(expr)]
fn and_expr(alloc: Global, levels: u32, tokens: &[Token]) -> Result<(MarkExpr, &[Token]), Stop<'_>>
    ensures { MatchesRead (λ x. (view x.0, x.1.now)) result (and_at levels tokens.now) }
{
    let (first, mut rest) = not_expr(alloc, levels, tokens)?;
    let first = Box::new(alloc, first)?;
    let mut more = Vec::new(alloc);
    while let Some(after) = after_and(rest) {
        let (next, after) = not_expr(alloc, levels, after)?;
        more.push(next)?;
        rest = after;
    }
    Ok((conjunction(first, more), rest))
}

#[tactic(auto, using(crate::proofs::Steps::or_steps))]
#[cycle(expr)]
fn or_expr(alloc: Global, levels: u32, tokens: &[Token]) -> Result<(MarkExpr, &[Token]), Stop<'_>>
    ensures { MatchesRead (λ x. (view x.0, x.1.now)) result (or_at levels tokens.now) }
{
    let (first, mut rest) = and_expr(alloc, levels, tokens)?;
    let first = Box::new(alloc, first)?;
    let mut more = Vec::new(alloc);
    while let Some(after) = after_or(rest) {
        let (next, after) = and_expr(alloc, levels, after)?;
        more.push(next)?;
        rest = after;
    }
    Ok((disjunction(first, more), rest))
}

/// The expression that all the tokens are.
fn whole_expr(alloc: Global, tokens: &[Token]) -> Result<MarkExpr, Stop<'_>>
    ensures { MatchesRead (λ expr. (view expr, [])) result (finish (or_at most_nested tokens.now)) }
{
    let (expr, rest) = or_expr(alloc, MOST_NESTED, tokens)?;
    if !rest.is_empty() {
        return Err(Stop::Bad(rest));
    }
    Ok(expr)
}

/// The column of the first of these tokens, in a text of this many characters.
fn column_of(length: usize, rest: &[Token]) -> u32
    ensures { result ≡ min (start_of_rest length rest.now + 1) u32.MAX }
{
    let place = rest.first().map_or(length, |token| token.at);
    u32::try_from(place).unwrap_or(u32::MAX).saturating_add(1)
}

/// The expression that the tokens are, of a text of this many characters.
fn read_tokens(alloc: Global, length: usize, tokens: &[Token]) -> Result<MarkExpr, ExprFault>
    ensures { IsExact length result (finish (or_at most_nested tokens.now)) }
{
    match whole_expr(alloc, tokens) {
        Ok(expr) => Ok(expr),
        Err(Stop::Bad(rest)) => Err(ExprFault::Bad(column_of(length, rest))),
        Err(Stop::Deep(_rest)) => Err(ExprFault::Nesting),
        Err(Stop::Memory) => Err(ExprFault::OutOfMemory),
    }
}

/// The expression that the text is (pytest's reference, "Command-line Flags", `-k` and `-m`).
pub fn read_expr(alloc: Global, text: &str) -> Result<MarkExpr, ExprFault>
    // What is read is the text's expression.
    ensures found { IfOk result (λ expr. IsExpression (chars text.now) (view expr)) }
    // What is refused is refused for its cause.
    ensures cause { IfErr result (IsCause (chars text.now)) }
    // A text has one answer at most, and where it has it, this is given, unless memory runs out.
    ensures only { (answer : ParseResult) → IsParseResult (chars text.now) answer → Gave result answer }
{
    let written = PyName::from_str(alloc, text)?;
    let tokens = tokens(alloc, written.chars())?;
    read_tokens(alloc, written.len(), tokens.as_slice())
}
