// A text read as a pattern.

ghost use Rattle.std.specs.Prelude.{◌≡◌, Some, None, IfOk, IsErrOf, MatchOption, length};
ghost use Rattle.match_pattern.specs.declared.pattern.Pattern.{Pattern as PatternRead};
ghost use Rattle.match_pattern.specs.Pattern.{is_special, IsPattern};
ghost use Rattle.match_pattern.specs.Reading.{escaped_at, atom_at, times_at, item_at, start_at, end_at, items_from, pattern_of, ReadsUpTo};

use crate::fault::PatternFault;
use crate::pattern::{Atom, Item, Pattern, Times};
use seq::{OutOfMemory, Seq};
use std::alloc::Global;

fn is_special(c: char) -> bool
    ensures { result ≡ is_special c }
{
    matches!(
        c,
        '.' | '*' | '+' | '?' | '(' | ')' | '[' | ']' | '{' | '}' | '|' | '\\' | '^' | '$'
    )
}

/// The character behind a backslash, and what stands behind it.
fn escaped_at(text: &[char]) -> Option<(Atom, &[char])>
    ensures { MatchOption result (escaped_at text.now ≡ None) (λ x. escaped_at text.now ≡ Some (x.0, x.1.now)) }
{
    match text {
        [c, rest @ ..] => {
            if c.is_ascii_alphanumeric() {
                None
            } else {
                Some((Atom::Character(*c), rest))
            }
        }
        [] => None,
    }
}

/// The atom at the head of a text, and what stands behind it.
fn atom_at(text: &[char]) -> Option<(Atom, &[char])>
    ensures { MatchOption result (atom_at text.now ≡ None) (λ x. atom_at text.now ≡ Some (x.0, x.1.now)) }
{
    match text {
        [c, rest @ ..] => {
            if *c == '.' {
                Some((Atom::AnyCharacter, rest))
            } else if *c == '\\' {
                escaped_at(rest)
            } else if is_special(*c) {
                None
            } else {
                Some((Atom::Character(*c), rest))
            }
        }
        [] => None,
    }
}

/// How often an atom is to match, by what stands behind it, and what stands behind that.
fn times_at(text: &[char]) -> (Times, &[char])
    ensures { times_at text.now ≡ (result.0, result.1.now) }
{
    match text {
        [c, rest @ ..] => {
            if *c == '*' {
                (Times::ZeroOrMore, rest)
            } else if *c == '+' {
                (Times::OneOrMore, rest)
            } else {
                (Times::Once, text)
            }
        }
        [] => (Times::Once, text),
    }
}

/// The item at the head of a text, and what stands behind it.
fn item_at(text: &[char]) -> Option<(Item, &[char])>
    ensures { MatchOption result (item_at text.now ≡ None) (λ x. item_at text.now ≡ Some (x.0, x.1.now)) }
{
    let (atom, behind) = atom_at(text)?;
    let (times, rest) = times_at(behind);
    Some((Item { atom, times }, rest))
}

/// The items at the head of a text, and what stands behind them, where no item begins.
fn items_at(alloc: Global, text: &[char]) -> Result<(Seq<Item>, &[char]), OutOfMemory>
    ensures reads { IfOk result (λ x. ReadsUpTo text.now x.0 x.1.now) }
    ensures exact { IfOk result (λ x. items_from (length text.now) text.now ≡ (x.0, x.1.now)) }
{
    let mut items = Seq::new(alloc);
    let mut rest = text;
    while let Some((item, behind)) = item_at(rest) {
        items.push(item)?;
        rest = behind;
    }
    Ok((items, rest))
}

/// Whether a text is to match at the beginning alone, and what stands behind the sign for it.
fn start_at(text: &[char]) -> (bool, &[char])
    ensures { start_at text.now ≡ (result.0, result.1.now) }
{
    match text {
        [c, rest @ ..] => {
            if *c == '^' {
                (true, rest)
            } else {
                (false, text)
            }
        }
        [] => (false, text),
    }
}

/// Whether what stands behind the items is the sign for the end, or nothing.
fn end_at(text: &[char]) -> Option<bool>
    ensures { result ≡ end_at text.now }
{
    match text {
        [c] => { if *c == '$' { Some(true) } else { None } }
        [] => Some(false),
        _ => None,
    }
}

/// Reads a pattern: `^` or not, items, `$` or not. An item is an atom, one followed by `*`, or one followed by `+`; an atom is `.`,
/// a backslash with a character that is no ASCII letter or digit, or a character that has no meaning of its own (Python library
/// reference, `re`, "Regular Expression Syntax").
///
/// # Errors
///
/// `Unsupported` exactly where the text is no such pattern.
pub fn read_pattern(alloc: Global, text: &[char]) -> Result<Pattern, PatternFault>
    // What is read is written so, and the text is written for no other pattern.
    ensures read { IfOk result (λ p. IsPattern text.now p) }
    ensures only { IfOk result (λ p. (q : PatternRead) → IsPattern text.now q → q ≡ p) }
    ensures unsupported { IsErrOf result PatternFault.Unsupported → (q : PatternRead) → IsPattern text.now q → ⊥ }
    // The same as a function of the text.
    ensures exact { IfOk result (λ p. pattern_of text.now ≡ Some p) }
    ensures none { IsErrOf result PatternFault.Unsupported → pattern_of text.now ≡ None }
{
    let (at_start, behind) = start_at(text);
    let (items, rest) = items_at(alloc, behind)?;
    match end_at(rest) {
        Some(at_end) => Ok(Pattern {
            at_start,
            items,
            at_end,
            length: text.len(),
        }),
        None => Err(PatternFault::Unsupported),
    }
}
