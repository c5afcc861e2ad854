ghost use Rattle.std.specs.Prelude.{◌≡◌, ◌≤◌, ◌+◌, ◌||◌, ◌==◌, ◌^◌, ◌<◌, length, Ok, IfOk};
ghost use Rattle.unicode_normalization.specs.Forms.{is_in_form};
ghost use Rattle.py_literals.specs.Literals.{IsReading};
ghost use Rattle.py_tokens.specs.Lexemes.{prefix_of, kind_of_word, named, name_at, prefixed_lexeme, literal_lexeme, number_lexeme, operator_lexeme, lexeme_at, is_quote};
ghost use Rattle.py_literals.specs.Chars.{begins_with};
ghost use Rattle.py_literals.specs.Numbers.{number_at, is_digit_of};
ghost use Rattle.py_tokens.specs.Words.{operator_at, keyword_of};

use crate::op::Op;
use crate::token::TokenKind;
use crate::word::{keyword_of, operator_at};
use py_literals::{
    Literal, Miss, ReadFault, behind, is_name_start, read_literal, read_number, word_len,
};
use py_source::{LexKind, SrcText};
use seq::OutOfMemory;
use std::alloc::Global;
use unicode_normalization::{Form, slice};

/// A token at the head of a text.
#[derive(Drop)]
pub struct Lexeme {
    pub kind: TokenKind,
    /// How many characters spell it.
    pub len: usize,
}

/// What a name right before a quote means.
#[derive(Clone, Copy, PartialEq, Eq)]
pub enum Prefix {
    Raw,
    /// A prefix that the language does not have.
    Foreign,
    /// No prefix: the name is a token of its own.
    Missing,
}

fn prefix_of(word: &[char]) -> Prefix
    ensures { result ≡ prefix_of word.now }
{
    match word {
        ['r' | 'R'] => Prefix::Raw,
        ['b' | 'B' | 'u' | 'U' | 'f' | 'F'] => Prefix::Foreign,
        ['b' | 'B' | 'f' | 'F', 'r' | 'R'] => Prefix::Foreign,
        ['r' | 'R', 'b' | 'B' | 'f' | 'F'] => Prefix::Foreign,
        _ => Prefix::Missing,
    }
}

fn is_normal(alloc: Global, word: &[char]) -> Result<bool, OutOfMemory>
    ensures { IfOk result (λ normal. normal ≡ is_in_form Form.Nfkc word.now) }
{
    let mut normal = Vec::new(alloc);
    slice::extend_nfkc(&mut normal, word)?;
    Ok(normal.as_slice() == word)
}

fn wrong(kind: LexKind) -> ReadFault
    ensures { result ≡ ReadFault.Bad (record { at = 0; kind = kind }) }
{
    ReadFault::Bad(Miss { at: 0, kind })
}

fn kind_of_word(alloc: Global, word: &[char]) -> Result<TokenKind, OutOfMemory>
    ensures { IfOk result (λ kind. kind ≡ kind_of_word word.now (keyword_of word.now)) }
{
    match keyword_of(word) {
        Some(keyword) => Ok(TokenKind::Op(keyword)),
        None => Ok(TokenKind::Name(SrcText::from_chars(alloc, word)?)),
    }
}

fn read_named(alloc: Global, word: &[char]) -> Result<Lexeme, ReadFault>
    requires { 1 ≤ length word.now }
    ensures value { IsReading (named word.now) result }
    ensures size { IfOk result (λ lexeme. 1 ≤ lexeme.len) }
{
    if !is_normal(alloc, word)? {
        return Err(wrong(LexKind::NotNfkc));
    }
    let kind = kind_of_word(alloc, word)?;
    Ok(Lexeme {
        kind,
        len: word.len(),
    })
}

fn literal_lexeme(prefix: usize, literal: Literal) -> Lexeme
    requires { prefix + literal.len < 2 ^ 64 }
    ensures { Ok result ≡ literal_lexeme prefix (Ok literal) }
{
    Lexeme {
        kind: TokenKind::Text(literal.text),
        len: prefix + literal.len,
    }
}

fn read_quoted(alloc: Global, word: &[char], rest: &[char]) -> Result<Lexeme, ReadFault>
    requires { 1 ≤ length word.now }
    ensures value { IsReading (prefixed_lexeme (prefix_of word.now) word.now rest.now) result }
    ensures size { IfOk result (λ lexeme. 1 ≤ lexeme.len) }
{
    match prefix_of(word) {
        Prefix::Raw => Ok(literal_lexeme(word.len(), read_literal(alloc, true, rest)?)),
        Prefix::Foreign => Err(wrong(LexKind::Unsupported)),
        Prefix::Missing => read_named(alloc, word),
    }
}

fn begins_with_quote(text: &[char]) -> bool
    ensures { result ≡ begins_with is_quote text.now }
{
    matches!(text, ['\'' | '"', ..])
}

fn begins_with_digit(text: &[char]) -> bool
    ensures { result ≡ begins_with (is_digit_of 10) text.now }
{
    match text {
        [first, ..] => first.is_digit(10),
        [] => false,
    }
}

#[tactic(auto, unfolding(crate::specs::Lexemes::name_at))]
fn read_name(alloc: Global, text: &[char]) -> Result<Lexeme, ReadFault>
    requires { 1 ≤ length text.now }
    ensures value { IsReading (name_at text.now) result }
    ensures size { IfOk result (λ lexeme. 1 ≤ lexeme.len) }
{
    let len = 1 + word_len(behind(text, 1));
    let word = &text[..len];
    let rest = behind(text, len);
    if begins_with_quote(rest) {
        read_quoted(alloc, word, rest)
    } else {
        read_named(alloc, word)
    }
}

fn read_number_lexeme(text: &[char]) -> Result<Lexeme, ReadFault>
    ensures value { IsReading (number_lexeme (number_at text.now)) result }
    ensures size { IfOk result (λ lexeme. 1 ≤ lexeme.len) }
{
    match read_number(text) {
        Ok(number) => Ok(Lexeme {
            kind: TokenKind::Number(number.value),
            len: number.len,
        }),
        Err(kind) => Err(wrong(kind)),
    }
}

fn read_operator(text: &[char]) -> Result<Lexeme, ReadFault>
    ensures value { IsReading (operator_lexeme (operator_at text.now)) result }
    ensures size { IfOk result (λ lexeme. 1 ≤ lexeme.len) }
{
    match operator_at(text) {
        Some((len, op)) => Ok(Lexeme {
            kind: TokenKind::Op(op),
            len,
        }),
        None => Err(wrong(LexKind::Character)),
    }
}

/// The token at the head of a text that begins with no blank, comment or line end.
#[tactic(auto, unfolding(crate::specs::Lexemes::lexeme_at))]
pub fn read_lexeme(alloc: Global, text: &[char]) -> Result<Lexeme, ReadFault>
    ensures value { IsReading (lexeme_at text.now) result }
    ensures size { IfOk result (λ lexeme. 1 ≤ lexeme.len) }
{
    let [first, others @ ..] = text else {
        return Err(wrong(LexKind::Character));
    };
    if is_name_start(*first) {
        return read_name(alloc, text);
    }
    if first.is_digit(10) {
        return read_number_lexeme(text);
    }
    if begins_with_quote(text) {
        return Ok(literal_lexeme(0, read_literal(alloc, false, text)?));
    }
    if *first == '.' && begins_with_digit(others) {
        return Err(wrong(LexKind::Unsupported));
    }
    read_operator(text)
}
