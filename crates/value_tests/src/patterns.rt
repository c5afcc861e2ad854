// Rows on patterns. The operand of `pattern` is a text, and whether it is a pattern is told; those of `found`, and of `search` with a budget
// behind it, are a pattern and a text with `|` between them.

use crate::spelled::{MemoryResult, characters, copied};
use match_pattern::{Pattern, PatternFault, SearchEnd, found, read_pattern, search};
use py_values::OutOfMemory;
use std::alloc::Global;

/// What is told of a text that isn't read as a pattern.
fn refused(alloc: Global, fault: PatternFault) -> MemoryResult<String> {
    match fault {
        PatternFault::Unsupported => Ok(format!(in alloc; "{fault}")?),
        PatternFault::OutOfMemory => Err(OutOfMemory),
    }
}

/// Whether a text is a pattern.
pub fn read(alloc: Global, spelled: &str) -> MemoryResult<String> {
    let letters = characters(alloc, spelled)?;
    match read_pattern(alloc, &letters) {
        Ok(_) => copied(alloc, "pattern"),
        Err(fault) => refused(alloc, fault),
    }
}

/// Whether a pattern is found in a text.
fn found_told(alloc: Global, pattern: &Pattern, text: &[char]) -> MemoryResult<String> {
    let is_found = found(alloc, pattern, text)?;
    copied(alloc, if is_found { "yes" } else { "no" })
}

/// How a search within a budget ends, with its cost.
fn search_told(
    alloc: Global,
    pattern: &Pattern,
    text: &[char],
    budget: u64,
) -> MemoryResult<String> {
    match search(alloc, pattern, text, budget)? {
        SearchEnd::Found(cost) => Ok(format!(in alloc; "found {cost}")?),
        SearchEnd::NotFound(cost) => Ok(format!(in alloc; "not found {cost}")?),
        SearchEnd::Exhausted => copied(alloc, "exhausted"),
    }
}

/// What is told of a pattern and a text: of a search, where there is a budget.
fn told(
    alloc: Global,
    pattern: &Pattern,
    text: &[char],
    budget: Option<u64>,
) -> MemoryResult<String> {
    match budget {
        Some(budget) => search_told(alloc, pattern, text, budget),
        None => found_told(alloc, pattern, text),
    }
}

/// What is told of the pattern and the text that a row spells.
pub fn searched(alloc: Global, budget: Option<u64>, spelled: &str) -> MemoryResult<String> {
    let (pattern, text) = spelled.split_once('|').unwrap_or((spelled, ""));
    let letters = characters(alloc, pattern)?;
    let text = characters(alloc, text)?;
    match read_pattern(alloc, &letters) {
        Ok(pattern) => told(alloc, &pattern, &text, budget),
        Err(fault) => refused(alloc, fault),
    }
}
