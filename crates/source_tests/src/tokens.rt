use py_source::Pos;
use py_tokens::{LexFault, Token, TokenKind, tokens};
use std::alloc::{AllocError, Global};
use std::fmt::Write;

/// The part of the text that a token is, or its kind where it has none.
fn part<'a>(text: &'a str, token: &Token) -> &'a str {
    match token.kind {
        TokenKind::Newline => "NEWLINE",
        TokenKind::Indent => "INDENT",
        TokenKind::Dedent => "DEDENT",
        TokenKind::End => "END",
        _ => text.get(token.start..token.end).unwrap_or("?"),
    }
}

/// Each token with its place.
fn shown(alloc: Global, text: &str, tokens: &[Token]) -> Result<String, AllocError> {
    let mut out = String::new(alloc);
    for token in tokens {
        let Pos { line, column } = token.at;
        write!(out, "{}@{line}:{column} ", part(text, token))?;
    }
    Ok(out)
}

/// The tokens of a text, or its fault with its place.
pub fn told(alloc: Global, text: &str) -> Result<String, AllocError> {
    match tokens(alloc, text) {
        Ok(found) => shown(alloc, text, &found),
        Err(LexFault::Bad(Pos { line, column }, kind)) => {
            format!(in alloc; "{kind:?}@{line}:{column}")
        }
        Err(LexFault::OutOfMemory) => Err(AllocError),
    }
}

fn push_chars(out: &mut String, chars: &[char]) -> Result<(), AllocError> {
    for ch in chars {
        out.push(*ch)?;
    }
    Ok(())
}

fn push_text(out: &mut String, chars: &[char]) -> Result<(), AllocError> {
    out.push('\'')?;
    push_chars(out, chars)
}

/// What a token stands for.
fn push_kind(out: &mut String, token: &Token) -> Result<(), AllocError> {
    match &token.kind {
        TokenKind::Op(op) => write!(out, "{op:?}"),
        TokenKind::Number(value) => write!(out, "{value}"),
        TokenKind::Text(text) => push_text(out, text.chars()),
        TokenKind::Name(name) => push_chars(out, name.chars()),
        _ => Ok(()),
    }
}

fn kinds_shown(alloc: Global, tokens: &[Token]) -> Result<String, AllocError> {
    let mut out = String::new(alloc);
    for token in tokens {
        push_kind(&mut out, token)?;
        out.push(' ')?;
    }
    Ok(out)
}

/// What each token of a text stands for.
pub fn kinds(alloc: Global, text: &str) -> Result<String, AllocError> {
    match tokens(alloc, text) {
        Ok(found) => kinds_shown(alloc, &found),
        Err(_) => String::from_str(alloc, "a fault"),
    }
}

/// What is told of a text so many times in a row.
pub fn open_told(alloc: Global, text: &str, times: u32) -> Result<String, AllocError> {
    let mut all = String::new(alloc);
    for _ in 0..times {
        all.push_str(text)?;
    }
    told(alloc, all.as_str())
}

fn push_line(text: &mut String, margin: u32, line: &str) -> Result<(), AllocError> {
    for _ in 0..margin {
        text.push(' ')?;
    }
    text.push_str(line)
}

/// A hundred blocks, each in the one before it.
fn blocks(alloc: Global) -> Result<String, AllocError> {
    let mut text = String::new(alloc);
    for margin in 0..100 {
        push_line(&mut text, margin, "if x:\n")?;
    }
    Ok(text)
}

/// That a hundred blocks aren't read, or what is told of them with one line more in the last.
pub fn blocks_told(alloc: Global, line: &str) -> Result<String, AllocError> {
    let mut text = blocks(alloc)?;
    if tokens(alloc, text.as_str()).is_err() {
        return String::from_str(alloc, "a hundred aren't read");
    }
    push_line(&mut text, 100, line)?;
    told(alloc, text.as_str())
}
