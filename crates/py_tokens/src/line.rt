ghost use Rattle.std.specs.Prelude.{◌≡◌, ◌<◌, ◌≤◌, ◌++◌, [], length, replicate, OnOk};
ghost use Rattle.py_literals.specs.Literals.{put_before};
ghost use Rattle.py_tokens.specs.Layout.{top, deeper, token_at, indent_at, columns_with, closing_tokens, tab_of, lines_at};
ghost use Rattle.py_tokens.specs.Places.{gap_len};
ghost use Rattle.py_tokens.specs.Reading.{IsAdded, PassesGaps, IsLineRead, IsLine, lexer_state, first_line, is_blank};
ghost use Rattle.py_literals.specs.Chars.{line_end};
ghost use Rattle.std.specs.List.{prefix_len};

use crate::cursor::Cursor;
use crate::place::{Place, gap_len, next_place};
use crate::statement::{push_token, read_statement};
use crate::token::{LexFault, Token, TokenKind};
use py_literals::line_end_len;
use py_source::{LexKind, MOST_LEVELS, Pos};
use seq::OutOfMemory;
use std::alloc::Global;

// How many blanks a line begins with.
fn column_of(text: &[char]) -> usize
    ensures { result ≡ prefix_len is_blank text.now }
{
    text.iter()
        .take_while(|ch| matches!(**ch, ' ' | '\t'))
        .count()
}

// Where the first tab stands among the blanks that a line begins with.
fn first_tab(place: Place, text: &[char]) -> Option<Pos>
    ensures { result ≡ tab_of (first_line (lines_at place text.now)) }
{
    let mut here = place;
    let mut rest = text;
    while let [ch, others @ ..] = rest {
        if *ch == '\t' {
            return Some(here.pos);
        }
        if *ch != ' ' {
            return None;
        }
        here = next_place(here, ' ');
        rest = others;
    }
    None
}

// Passes the blanks, joints and comment that a line begins with.
fn pass_gaps(cursor: &mut Cursor<'_>)
    ensures passed { PassesGaps cursor.old.place cursor.old.rest.now cursor.new.place cursor.new.rest.now }
    ensures all { gap_len cursor.new.rest.now ≡ 0 }
{
    loop {
        let gap = gap_len(cursor.rest);
        if gap == 0 {
            return;
        }
        cursor.pass(gap);
    }
}

fn top(columns: &[usize]) -> usize
    ensures { result ≡ top columns.now }
{
    columns.last().copied().unwrap_or(0)
}

fn deeper(column: usize, columns: &[usize]) -> usize
    ensures value { result ≡ deeper column columns.now }
    ensures within { result ≤ length columns.now }
{
    columns
        .iter()
        .rev()
        .take_while(|open_column| **open_column > column)
        .count()
}

fn push_dedents(count: usize, at: Place, tokens: &mut Vec<Token>) -> Result<(), OutOfMemory>
    ensures { OnOk result (tokens.new.items ≡ tokens.old.items ++ replicate count (token_at TokenKind.Dedent at at)) }
{
    for _ in 0..count {
        push_token(TokenKind::Dedent, at, at, tokens)?;
    }
    Ok(())
}

// The tokens before the first one of a line, whose column opens a block or closes some.
fn indent(
    column: usize,
    at: Place,
    columns: &mut Vec<usize>,
    tokens: &mut Vec<Token>,
) -> Result<(), LexFault>
    ensures added { IsAdded (put_before tokens.old.items (indent_at columns.old.items column at)) tokens.new.items result }
    ensures columns { OnOk result (columns.new.items ≡ columns_with columns.old.items column) }
{
    if column > top(columns) {
        if columns.len() >= MOST_LEVELS {
            return Err(LexFault::Bad(at.pos, LexKind::Nesting));
        }
        columns.push(column)?;
        push_token(TokenKind::Indent, at, at, tokens)?;
        return Ok(());
    }
    let count = deeper(column, columns);
    columns.truncate(columns.len() - count);
    if top(columns) != column {
        return Err(LexFault::Bad(at.pos, LexKind::Dedent));
    }
    push_dedents(count, at, tokens)?;
    Ok(())
}

// Reads the line whose first token the text begins with.
fn read_tokens(
    alloc: Global,
    column: usize,
    cursor: &mut Cursor<'_>,
    columns: &mut Vec<usize>,
    tokens: &mut Vec<Token>,
) -> Result<(), LexFault>
    requires some { 0 < length cursor.old.rest.now }
    requires no_end { line_end cursor.old.rest.now ≡ 0 }
    requires no_gap { gap_len cursor.old.rest.now ≡ 0 }
    ensures { IsLineRead column (lexer_state tokens.old.items columns.old.items cursor.old.place cursor.old.rest.now) (lexer_state tokens.new.items columns.new.items cursor.new.place cursor.new.rest.now) result }
{
    indent(column, cursor.place, columns, tokens)?;
    read_statement(alloc, cursor, tokens)
}

/// Reads a logical line, which may be blank.
pub fn read_line(
    alloc: Global,
    cursor: &mut Cursor<'_>,
    columns: &mut Vec<usize>,
    tokens: &mut Vec<Token>,
) -> Result<(), LexFault>
    requires { 0 < length cursor.old.rest.now }
    ensures { IsLine (lexer_state tokens.old.items columns.old.items cursor.old.place cursor.old.rest.now) (lexer_state tokens.new.items columns.new.items cursor.new.place cursor.new.rest.now) result }
{
    let column = column_of(cursor.rest);
    let tab = first_tab(cursor.place, cursor.rest);
    pass_gaps(cursor);
    if cursor.rest.is_empty() {
        return Ok(());
    }
    let line_end = line_end_len(cursor.rest);
    if line_end > 0 {
        cursor.pass(line_end);
        return Ok(());
    }
    if let Some(tab) = tab {
        return Err(LexFault::Bad(tab, LexKind::Tab));
    }
    read_tokens(alloc, column, cursor, columns, tokens)
}

/// Closes the open columns at the text's end.
pub fn close(at: Place, columns: &[usize], tokens: &mut Vec<Token>) -> Result<(), OutOfMemory>
    ensures { OnOk result (tokens.new.items ≡ tokens.old.items ++ closing_tokens columns.now at) }
{
    push_dedents(columns.len().saturating_sub(1), at, tokens)?;
    push_token(TokenKind::End, at, at, tokens)
}
