ghost use Rattle.std.specs.Prelude.{◌≡◌, ◌+◌, ◌*◌, ◌<◌, ◌≤◌, ◌^◌, ◌&&◌, not, length, ◌++◌, Option, None, Some, IfSome, IfOk, IfErr, OnOk};
ghost use Rattle.std.specs.Option.{option_to_list};
ghost use Rattle.py_literals.specs.Chars.{begins_line_end};
ghost use Rattle.py_literals.specs.Literals.{has_three, closes, item_len, closing_from, text_from, literal_at, IsReading, IsMissWithin};

use crate::chars::{behind, line_end_len};
use crate::escape::read_item;
use py_source::{LexKind, SrcText};
use seq::OutOfMemory;
use std::alloc::Global;

/// A text literal at the head of a text.
#[derive(Drop)]
pub struct Literal {
    pub text: SrcText,
    /// How many characters spell it, from its opening quote on.
    pub len: usize,
}

/// A fault, so many characters behind the head of a text.
#[derive(Clone, Copy, Debug, PartialEq, Eq)]
pub struct Miss {
    pub at: usize,
    pub kind: LexKind,
}

/// Why no literal is read.
#[derive(Clone, Copy, Debug, PartialEq, Eq)]
pub enum ReadFault {
    Bad(Miss),
    OutOfMemory,
}

impl From<OutOfMemory> for ReadFault {
    ghost use Rattle.std.specs.Prelude.{◌≡◌};
    ghost use Rattle.py_literals.specs.declared.literal.ReadFault.TheVariants.{OutOfMemory};

    ghost from_gives = { λ _ fault. fault ≡ OutOfMemory };

    fn from(_error: OutOfMemory) -> ReadFault {
        ReadFault::OutOfMemory
    }
}

fn has_three(quote: char, text: &[char]) -> bool
    ensures { result ≡ has_three quote text.now }
{
    match text {
        [first, second, third, ..] => *first == quote && *second == quote && *third == quote,
        _ => false,
    }
}

fn closes(is_long: bool, quote: char, text: &[char]) -> bool
    ensures { result ≡ closes is_long quote text.now }
{
    if is_long {
        return has_three(quote, text);
    }
    match text {
        [first, ..] => *first == quote,
        [] => false,
    }
}

fn item_len(text: &[char]) -> usize
    ensures value { result ≡ item_len text.now }
    ensures low { 1 ≤ result }
    ensures high { result ≤ 3 }
{
    match text {
        ['\\', behind @ ..] => 1 + line_end_len(behind).max(1),
        _ => 1,
    }
}

// A short literal ends on its line.
fn ends_line(is_long: bool, text: &[char]) -> bool
    ensures { result ≡ (not is_long && begins_line_end text.now) }
{
    !is_long && line_end_len(text) > 0
}

// Where the closing quote stands.
fn closing_quote(is_long: bool, quote: char, text: &[char]) -> Option<usize>
    ensures value { result ≡ closing_from is_long quote 0 0 text.now }
    ensures within { IfSome result (λ at. at ≤ length text.now) }
{
    let mut at = 0;
    while at < text.len() {
        let rest = behind(text, at);
        if closes(is_long, quote, rest) {
            return Some(at);
        }
        if ends_line(is_long, rest) {
            return None;
        }
        at += item_len(rest);
    }
    None
}

fn push_char(text: &mut SrcText, ch: Option<char>) -> Result<(), OutOfMemory>
    ensures { OnOk result (text.new ≡ text.old ++ option_to_list ch) }
{
    if let Some(ch) = ch {
        text.push(ch)?;
    }
    Ok(())
}

// The characters that a body stands for.
fn body_text(alloc: Global, is_raw: bool, body: &[char]) -> Result<SrcText, ReadFault>
    ensures within { IfErr result (IsMissWithin (length body.now)) }
    ensures value { IsReading (text_from is_raw 0 0 body.now) result }
{
    let mut text = SrcText::new(alloc);
    let mut at = 0;
    while at < body.len() {
        let item = match read_item(is_raw, behind(body, at)) {
            Ok(item) => item,
            Err(kind) => return Err(ReadFault::Bad(Miss { at, kind })),
        };
        push_char(&mut text, item.stands_for)?;
        at += item.len;
    }
    Ok(text)
}

/// The literal whose opening quote the text begins with (Language Reference, string literals).
#[tactic(auto, unfolding(crate::specs::Literals::literal_at))]
pub fn read_literal(alloc: Global, is_raw: bool, text: &[char]) -> Result<Literal, ReadFault>
    ensures value { IsReading (literal_at is_raw text.now) result }
    ensures size { IfOk result (λ literal. (1 ≤ literal.len) × (literal.len ≤ length text.now + 3)) }
{
    let unterminated = ReadFault::Bad(Miss {
        at: 0,
        kind: LexKind::Unterminated,
    });
    let [quote, ..] = text else {
        return Err(unterminated);
    };
    let is_long = has_three(*quote, text);
    let quotes = if is_long { 3 } else { 1 };
    let rest = behind(text, quotes);
    let Some(len) = closing_quote(is_long, *quote, rest) else {
        return Err(unterminated);
    };
    match body_text(alloc, is_raw, &rest[..len]) {
        Ok(text) => Ok(Literal {
            text,
            len: quotes + (len + quotes),
        }),
        Err(ReadFault::Bad(miss)) => Err(ReadFault::Bad(Miss {
            at: quotes + miss.at,
            kind: miss.kind,
        })),
        Err(ReadFault::OutOfMemory) => Err(ReadFault::OutOfMemory),
    }
}
