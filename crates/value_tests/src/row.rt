// A row, and whether it gives what it wants.

use crate::collection::verdicts;
use crate::spelled::{MemoryResult, Operands, copied, count};
use crate::steps::act_by;
use crate::{binding, calls, classes, collection, items, patterns, steps, values};
use std::alloc::Global;

/// What the picture of a control character stands for; any other character is itself.
fn unpictured(c: char) -> char {
    match c {
        '␁' => '\u{1}',
        '␉' => '\t',
        '␊' => '\n',
        '␋' => '\u{b}',
        '␌' => '\u{c}',
        '␍' => '\r',
        '␟' => '\u{1f}',
        '␡' => '\u{7f}',
        _ => c,
    }
}

/// A field as it is meant.
fn field(alloc: Global, written: &str) -> MemoryResult<String> {
    let mut all = String::new(alloc);
    for c in written.chars() {
        all.push(unpictured(c))?;
    }
    Ok(all)
}

/// What is told of items, classes and calls.
fn of_items(alloc: Global, word: &str, rest: &str, on: &mut Operands) -> MemoryResult<String> {
    match word {
        "for" => items::turns(alloc, on, rest),
        "key" => items::key_stored(alloc, on, count(rest) as u64),
        "order" => items::order(alloc, on),
        "own" => classes::own(alloc, on),
        "chain" => classes::chain(alloc, &mut on.heap, count(rest)),
        "within" => calls::within(alloc, on, rest),
        _ => copied(alloc, "no row"),
    }
}

/// What is told of values, or of what else has operands.
fn of_values(alloc: Global, word: &str, rest: &str, on: &mut Operands) -> MemoryResult<String> {
    match word {
        "show" => values::shown(alloc, on),
        "cut" => values::cut(alloc, on, count(rest)),
        "message" => values::message_cut(alloc, on, count(rest)),
        "budget" => values::compared(alloc, on, count(rest) as u64),
        "throw" => values::thrown(alloc, on, rest),
        "change" => values::changed(alloc, on, rest),
        "push" => values::pushed(alloc, on),
        _ => of_items(alloc, word, rest, on),
    }
}

fn of_operands(alloc: Global, word: &str, rest: &str, operands: &str) -> MemoryResult<String> {
    let mut on = Operands::of(alloc, operands)?;
    of_values(alloc, word, rest, &mut on)
}

/// What is told of arguments, imports and patterns, or of what has operands.
fn of_texts(alloc: Global, word: &str, rest: &str, operands: &str) -> MemoryResult<String> {
    match word {
        "arguments" => binding::arguments_bound(alloc, rest, operands),
        "import" => binding::imported(alloc, rest, operands),
        "pattern" => patterns::read(alloc, operands),
        "found" => patterns::searched(alloc, None, operands),
        "search" => patterns::searched(alloc, Some(count(rest) as u64), operands),
        _ => of_operands(alloc, word, rest, operands),
    }
}

/// What is told of names and of modules, or of other texts.
fn of_names(alloc: Global, word: &str, rest: &str, operands: &str) -> MemoryResult<String> {
    match word {
        "name" => values::named(alloc, operands),
        "bind" => values::bound(alloc, rest, operands),
        "below" => classes::below(alloc, operands),
        "under" => classes::under(alloc, operands),
        "collect" => collection::collected(alloc, operands),
        "phase" => verdicts::verdict(alloc, rest, operands),
        _ => of_texts(alloc, word, rest, operands),
    }
}

/// What is given for what is done: a word, and what stands behind it.
fn given(alloc: Global, word: &str, rest: &str, operands: &str) -> MemoryResult<String> {
    match act_by(alloc, word, rest)? {
        Some(act) => steps::told(alloc, act, rest, operands),
        None => of_names(alloc, word, rest, operands),
    }
}

fn done(alloc: Global, act: &str, operands: &str) -> MemoryResult<String> {
    let operands = field(alloc, operands)?;
    let (word, rest) = act.split_once(' ').unwrap_or((act, ""));
    given(alloc, word, rest, operands.as_str())
}

/// What a row gives where it isn't what the row wants.
pub fn fault_of(alloc: Global, line: &str) -> MemoryResult<Option<String>> {
    if let Some((act, row)) = line.split_once('\t') {
        if let Some((operands, want)) = row.split_once('\t') {
            let want = field(alloc, want)?;
            let given = done(alloc, act.strip_prefix("wrong ").unwrap_or(act), operands)?;
            if given.as_str() == want.as_str() {
                return Ok(None);
            }
            return Ok(Some(format!(in alloc; "{act}, {operands}: {given}")?));
        }
    }
    Ok(Some(format!(in alloc; "{line}: no row")?))
}
