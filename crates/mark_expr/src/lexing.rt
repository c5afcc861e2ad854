ghost use Rattle.std.specs.Prelude.{◌≡◌, ◌∷◌, List, ℕ, IfOk, MatchOption, take_while};
ghost use Rattle.mark_expr.specs.Text.{is_ident, is_inline_space, begins, word_kind, sign_kind, kind_at, tokens_of};

use crate::token::{Kind, Token};
use crate::tree::PyName;
use seq::OutOfMemory;
use std::alloc::{AllocError, Global};

/// Whether the character may stand in an ident.
fn is_ident(c: char) -> bool
    ensures { result ≡ is_ident c }
{
    c.is_ascii_alphanumeric() || matches!(c, '_' | ':' | '+' | '-' | '.' | '[' | ']' | '\\' | '/')
}

/// Whether a token begins at the character; `inside` says whether the one before it stands in a word.
fn begins(inside: bool, c: char) -> bool
    ensures { result ≡ begins inside c }
{
    let is_blank = c == ' ' || c == '\t';
    !is_blank && !(inside && is_ident(c))
}

/// The keyword that the word is.
fn keyword(word: &[char]) -> Option<Kind>
    ensures { MatchOption result (word_kind word.now ≡ Kind.Ident word.now) (λ kind. kind ≡ word_kind word.now) }
{
    match word {
        ['o', 'r'] => Some(Kind::Or),
        ['a', 'n', 'd'] => Some(Kind::And),
        ['n', 'o', 't'] => Some(Kind::Not),
        _ => None,
    }
}

/// The word with which the characters begin.
fn first_word(alloc: Global, chars: &[char]) -> Result<Vec<char>, AllocError>
    ensures { IfOk result (λ word. word.items ≡ take_while is_ident chars.now) }
{
    chars
        .iter()
        .copied()
        .take_while(|c| is_ident(*c))
        .collect(alloc)
}

/// What the word is with which the characters begin.
fn word_kind(alloc: Global, chars: &[char]) -> Result<Kind, OutOfMemory>
    ensures { IfOk result (λ kind. kind ≡ word_kind (take_while is_ident chars.now)) }
{
    let word = first_word(alloc, chars)?;
    match keyword(word.as_slice()) {
        Some(kind) => Ok(kind),
        None => Ok(Kind::Ident(PyName::from_vec(word))),
    }
}

/// What a character is that stands in no word.
fn sign_kind(c: char) -> Kind
    ensures { result ≡ sign_kind c }
{
    match c {
        '(' => Kind::Open,
        ')' => Kind::Close,
        _ => Kind::Other,
    }
}

/// What begins with the first of these characters, which is `first`.
fn kind_at(alloc: Global, first: char, chars: &[char]) -> Result<Kind, OutOfMemory>
    ensures { (rest : List ℕ) → chars.now ≡ first ∷ rest → IfOk result (λ kind. kind ≡ kind_at first rest) }
{
    if is_ident(first) {
        return word_kind(alloc, chars);
    }
    Ok(sign_kind(first))
}

/// The tokens of the text with these characters.
pub fn tokens(alloc: Global, chars: &[char]) -> Result<Vec<Token>, OutOfMemory>
    ensures { IfOk result (λ tokens. tokens.items ≡ tokens_of chars.now) }
{
    let mut tokens = Vec::new(alloc);
    let mut inside = false;
    for (at, &c) in chars.iter().enumerate() {
        if begins(inside, c) {
            let kind = kind_at(alloc, c, &chars[at..])?;
            tokens.push(Token { at, kind })?;
        }
        inside = is_ident(c);
    }
    Ok(tokens)
}
