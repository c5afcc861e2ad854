// Tokens of blocks in one another. A text has at most 99 indents, tokens may have more.

ghost use Rattle.std.specs.Prelude.{IfOk};
ghost use Rattle.py_tokens.specs.Layout.{EndsText};

use py_source::Pos;
use py_tokens::{Op, Token, TokenKind};
use std::alloc::{AllocError, Global};

/// Pushes a token that stands on a line, at the column of the same number.
fn push(all: &mut Vec<Token>, kind: TokenKind, line: u32) -> Result<(), AllocError> {
    all.push(Token {
        kind,
        at: Pos { line, column: line },
        start: 0,
        end: 0,
    })?;
    Ok(())
}

/// A line that begins a block, and the indent behind it.
fn begin(all: &mut Vec<Token>, word: Op, line: u32) -> Result<(), AllocError> {
    for op in &[word, Op::True, Op::Colon] {
        push(all, TokenKind::Op(*op), line)?;
    }
    push(all, TokenKind::Newline, line)?;
    push(all, TokenKind::Indent, line.saturating_add(1))
}

/// The tokens, and the end of a text behind them.
fn ended(tokens: Vec<Token>, line: u32) -> Result<Vec<Token>, AllocError>
    ensures { IfOk result (λ all. EndsText all.items) }
{
    let mut all = tokens;
    all.push(Token {
        kind: TokenKind::End,
        at: Pos { line, column: 1 },
        start: 0,
        end: 0,
    })?;
    Ok(all)
}

/// So many blocks in one another, each a column further to the right, with `pass` in the last.
pub fn block_tokens(alloc: Global, word: Op, depth: u32) -> Result<Vec<Token>, AllocError>
    ensures { IfOk result (λ all. EndsText all.items) }
{
    let mut all = Vec::new(alloc);
    for level in 0..depth {
        begin(&mut all, word, level.saturating_add(1))?;
    }
    let last = depth.saturating_add(1);
    push(&mut all, TokenKind::Op(Op::Pass), last)?;
    push(&mut all, TokenKind::Newline, last)?;
    for _ in 0..depth {
        push(&mut all, TokenKind::Dedent, last.saturating_add(1))?;
    }
    ended(all, last.saturating_add(1))
}
