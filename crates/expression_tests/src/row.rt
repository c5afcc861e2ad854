// What rows give.

ghost use Rattle.py_tokens.specs.Layout.{EndsText};

use crate::blocks::block_tokens;
use crate::statement::statements;
use crate::told::place;
use crate::writer::Writer;
use file_source::source_of;
use py_parse::{SyntaxFault, parse};
use py_source::{SourceFault, SyntaxKind};
use py_tokens::{Op, Token};
use std::alloc::Global;

fn fault(out: &mut Writer, fault: SourceFault) {
    out.put(fault.text());
    if let SourceFault::Syntax(at, _) = fault {
        place(out, at);
    }
}

/// What a text is: its statements, or only that it has a tree, or its first fault.
fn read(alloc: Global, text: &str, is_whole: bool) -> Writer {
    let mut out = Writer::new(alloc);
    match source_of(alloc, text.as_bytes()) {
        Ok(Ok(module)) if is_whole => statements(&mut out, &module.body),
        Ok(Ok(_module)) => out.put("a tree"),
        Ok(Err(why)) => fault(&mut out, why),
        Err(_) => out.put("no memory"),
    }
    out
}

/// The lines that a text spells, with `␊` for each line end.
fn lines(alloc: Global, spelled: &str) -> Writer {
    let mut out = Writer::new(alloc);
    for c in spelled.chars() {
        out.put_char(if c == '␊' { '\n' } else { c });
    }
    out
}

/// What `repeat` makes of a number and a text.
fn repeated(alloc: Global, times: &str, spelled: &str) -> Writer {
    let mut out = Writer::new(alloc);
    let lines = lines(alloc, spelled);
    out.put_times(lines.text(), number(times));
    out
}

/// The number that a text is, or zero.
fn number(text: &str) -> u32 {
    text.parse::<u32>().unwrap_or(0)
}

/// A line that begins a block, so many times in one another.
fn begin_blocks(out: &mut Writer, head: &str, blocks: u32) {
    for block in 0..blocks {
        out.put_times(" ", block);
        out.put(head);
        out.put("\n");
    }
    out.put_times(" ", blocks);
}

/// A name, with one text so many times before it and another as often behind it.
fn put_nested(out: &mut Writer, text: &str, levels: u32) {
    let (front, back) = text.split_once('…').unwrap_or((text, ""));
    out.put_times(front, levels);
    out.put("a");
    out.put_times(back, levels);
    out.put("\n");
}

/// What stands before the last line of a text, and this line.
fn last_line(text: &str) -> (&str, &str) {
    match text.rsplit_once('␊') {
        Some(parts) => parts,
        None => ("", text),
    }
}

/// What `nest` makes of a number, perhaps with `in` and another one behind it, and a text.
fn nested(alloc: Global, times: &str, text: &str) -> Writer {
    let (levels, blocks) = times.split_once(" in ").unwrap_or((times, "0"));
    let (before, inner) = last_line(text);
    let (head, line) = last_line(before);
    let mut out = Writer::new(alloc);
    begin_blocks(&mut out, head, number(blocks));
    out.put(line);
    put_nested(&mut out, inner, number(levels));
    out
}

/// The word that begins a block.
fn head(word: &str) -> Option<Op> {
    match word {
        "if" => Some(Op::If),
        "while" => Some(Op::While),
        "with" => Some(Op::With),
        _ => None,
    }
}

/// What tokens are: that they have a tree, or the first that is too deep.
fn parsed(out: &mut Writer, alloc: Global, tokens: &[Token])
    requires { EndsText tokens.now }
{
    match parse(alloc, tokens) {
        Ok(_module) => out.put("a tree"),
        Err(SyntaxFault::Nesting(at)) => fault(out, SourceFault::Syntax(at, SyntaxKind::Nesting)),
        Err(_) => out.put("another fault"),
    }
}

/// What the tokens of so many blocks in one another are.
fn parsed_blocks(alloc: Global, word: &str, depth: &str) -> Writer {
    let mut out = Writer::new(alloc);
    let Some(word) = head(word) else {
        out.put("no row");
        return out;
    };
    match block_tokens(alloc, word, number(depth)) {
        Ok(tokens) => parsed(&mut out, alloc, &tokens),
        Err(_) => out.put("no memory"),
    }
    out
}

/// What is given for what is done with a text.
pub fn given(alloc: Global, act: &str, text: &str) -> Writer {
    let act = act.strip_prefix("wrong ").unwrap_or(act);
    if act == "read" {
        return read(alloc, lines(alloc, text).text(), true);
    }
    if let Some(times) = act.strip_prefix("nest ") {
        return read(alloc, nested(alloc, times, text).text(), false);
    }
    if let Some(times) = act.strip_prefix("repeat ") {
        return read(alloc, repeated(alloc, times, text).text(), false);
    }
    if let Some(depth) = act.strip_prefix("blocks ") {
        return parsed_blocks(alloc, text, depth);
    }
    let mut out = Writer::new(alloc);
    out.put("no row");
    out
}
