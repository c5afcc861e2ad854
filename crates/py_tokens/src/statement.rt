ghost use Rattle.std.specs.Prelude.{◌≡◌, ◌<◌, ◌≤◌, ◌++◌, ◌∷◌, [], length, OnOk, IfOk};
ghost use Rattle.py_literals.specs.Literals.{put_before};
ghost use Rattle.py_tokens.specs.Layout.{text_ends, innermost, token_at};
ghost use Rattle.py_tokens.specs.Reading.{IsAdded, IsLexemeAt, IsPart, IsStep, IsStatement, spot};
ghost use Rattle.py_literals.specs.Chars.{line_end as line_end_of};
ghost use Rattle.py_tokens.specs.Places.{gap_len};

use crate::bracket::{Bracket, take_bracket, token_role};
use crate::cursor::Cursor;
use crate::lexeme::{Lexeme, read_lexeme};
use crate::place::{Place, gap_len, place_behind};
use crate::token::{LexFault, Token, TokenKind};
use py_literals::{ReadFault, line_end_len};
use py_source::LexKind;
use seq::OutOfMemory;
use std::alloc::Global;

/// Adds a token between two places.
pub fn push_token(
    kind: TokenKind,
    from: Place,
    to: Place,
    tokens: &mut Vec<Token>,
) -> Result<(), OutOfMemory>
    ensures { OnOk result (tokens.new.items ≡ tokens.old.items ++ token_at kind from to ∷ []) }
{
    tokens.push(Token {
        kind,
        at: from.pos,
        start: from.offset,
        end: to.offset,
    })?;
    Ok(())
}

// The end of the text. A bracket that is open there is a fault.
fn end_text(at: Place, brackets: &[Bracket], tokens: &mut Vec<Token>) -> Result<(), LexFault>
    ensures { IsAdded (put_before tokens.old.items (text_ends at (innermost brackets.now))) tokens.new.items result }
{
    if let Some(bracket) = brackets.last() {
        return Err(LexFault::Bad(bracket.at, LexKind::Unclosed));
    }
    push_token(TokenKind::Newline, at, at, tokens)?;
    Ok(())
}

fn read_at(alloc: Global, cursor: &Cursor<'_>) -> Result<Lexeme, LexFault>
    ensures value { IsLexemeAt cursor.now.place cursor.now.rest.now result }
    ensures size { IfOk result (λ lexeme. 1 ≤ lexeme.len) }
{
    match read_lexeme(alloc, cursor.rest) {
        Ok(lexeme) => Ok(lexeme),
        Err(ReadFault::Bad(miss)) => Err(LexFault::Bad(
            place_behind(cursor.place, cursor.rest, miss.at).pos,
            miss.kind,
        )),
        Err(ReadFault::OutOfMemory) => Err(LexFault::OutOfMemory),
    }
}

// Reads a token, which may open or close a bracket.
fn spelled_step(
    alloc: Global,
    cursor: &mut Cursor<'_>,
    brackets: &mut Vec<Bracket>,
    tokens: &mut Vec<Token>,
) -> Result<(), LexFault>
    requires some { 0 < length cursor.old.rest.now }
    requires no_end { line_end_of cursor.old.rest.now ≡ 0 }
    requires no_gap { gap_len cursor.old.rest.now ≡ 0 }
    ensures { IsPart (spot tokens.old.items brackets.old.items cursor.old.place cursor.old.rest.now) (spot tokens.new.items brackets.new.items cursor.new.place cursor.new.rest.now) result }
{
    let lexeme = read_at(alloc, cursor)?;
    let from = cursor.place;
    take_bracket(token_role(&lexeme.kind), from.pos, brackets)?;
    cursor.pass(lexeme.len);
    push_token(lexeme.kind, from, cursor.place, tokens)?;
    Ok(())
}

// Passes a line end, which ends the statement outside brackets: whether the statement goes on.
fn line_end_step(
    line_end: usize,
    cursor: &mut Cursor<'_>,
    brackets: &[Bracket],
    tokens: &mut Vec<Token>,
) -> Result<bool, LexFault>
    requires some { 0 < line_end }
    requires text { 0 < length cursor.old.rest.now }
    requires found { line_end ≡ line_end_of cursor.old.rest.now }
    ensures { IsStep (spot tokens.old.items brackets.now cursor.old.place cursor.old.rest.now) (spot tokens.new.items brackets.now cursor.new.place cursor.new.rest.now) result }
{
    let from = cursor.place;
    cursor.pass(line_end);
    if !brackets.is_empty() {
        return Ok(true);
    }
    push_token(TokenKind::Newline, from, cursor.place, tokens)?;
    Ok(false)
}

// Reads what the text begins with: whether the statement goes on behind it.
fn statement_step(
    alloc: Global,
    cursor: &mut Cursor<'_>,
    brackets: &mut Vec<Bracket>,
    tokens: &mut Vec<Token>,
) -> Result<bool, LexFault>
    ensures { IsStep (spot tokens.old.items brackets.old.items cursor.old.place cursor.old.rest.now) (spot tokens.new.items brackets.new.items cursor.new.place cursor.new.rest.now) result }
{
    let line_end = line_end_len(cursor.rest);
    if line_end > 0 {
        return line_end_step(line_end, cursor, brackets, tokens);
    }
    let gap = gap_len(cursor.rest);
    if gap > 0 {
        cursor.pass(gap);
        return Ok(true);
    }
    if cursor.rest.is_empty() {
        end_text(cursor.place, brackets, tokens)?;
        return Ok(false);
    }
    spelled_step(alloc, cursor, brackets, tokens)?;
    Ok(true)
}

/// Reads the tokens of a line from its first one on, up to a line end outside brackets or the text's end.
pub fn read_statement(
    alloc: Global,
    cursor: &mut Cursor<'_>,
    tokens: &mut Vec<Token>,
) -> Result<(), LexFault>
    ensures { IsStatement (spot tokens.old.items [] cursor.old.place cursor.old.rest.now) (spot tokens.new.items [] cursor.new.place cursor.new.rest.now) result }
{
    let mut brackets = Vec::new(alloc);
    while statement_step(alloc, cursor, &mut brackets, tokens)? {}
    Ok(())
}
