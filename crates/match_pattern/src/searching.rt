// The search of a pattern in a text.

ghost use Rattle.std.specs.Prelude.{◌≡◌, ◌↔◌, ◌==◌, ◌||◌, suc, not, IfOk, IsTrue, length};
ghost use Rattle.std.specs.List.{list_any};
ghost use Rattle.match_pattern.specs.Matching.{IsMatch};
ghost use Rattle.match_pattern.specs.Searching.{found, match_cost, first_marks, is_end, match_at, marked, affordable, search_end};

use crate::matching::pass;
use crate::pattern::{Item, Pattern};
use seq::OutOfMemory;
use std::alloc::Global;

/// How a search ends, with its cost in steps.
#[derive(Clone, Copy, Debug, PartialEq, Eq)]
pub enum SearchEnd {
    Found(u64),
    NotFound(u64),
    /// The cost is above the budget.
    Exhausted,
}

/// Whether a pattern may begin at a place.
fn may_begin(at_start: bool, at: usize) -> bool
    ensures { result ≡ ((at == 0) || not at_start) }
{
    at == 0 || !at_start
}

/// The places of a text at which a pattern may begin: a mark for each character, and one for the end.
fn first_marks(alloc: Global, at_start: bool, text: &[char]) -> Result<Vec<bool>, OutOfMemory>
    ensures marks { IfOk result (λ marks. marks.items ≡ first_marks at_start text.now) }
    ensures length { IfOk result (λ marks. length marks.items ≡ suc (length text.now)) }
{
    let mut marks = Vec::new(alloc);
    for at in 0..text.len() + 1 {
        marks.push(may_begin(at_start, at))?;
    }
    Ok(marks)
}

fn any_marked(marks: &[bool]) -> bool
    ensures { result ≡ list_any (λ mark. mark) marks.now }
{
    marks.iter().any(|mark| *mark)
}

/// Whether a place is marked at which a pattern may end.
fn may_end(at_end: bool, text: &[char], marks: &[bool]) -> bool
    requires { length marks.now ≡ suc (length text.now) }
    ensures { result ≡ marked (is_end at_end) marks.now text.now }
{
    if at_end {
        marks[text.len()]
    } else {
        any_marked(marks)
    }
}

/// Whether items match from a marked place on.
fn pass_all(items: &[Item], at_end: bool, text: &[char], marks: &mut [bool]) -> bool
    requires { length marks.old ≡ suc (length text.now) }
    ensures { result ≡ marked (match_at at_end items.now) marks.old text.now }
{
    for item in items {
        pass(*item, text, marks);
    }
    may_end(at_end, text, marks)
}

/// Whether a pattern matches somewhere in a text, by the marks at all its places.
fn is_found(alloc: Global, pattern: &Pattern, text: &[char]) -> Result<bool, OutOfMemory>
    ensures { IfOk result (λ answer. answer ≡ found pattern.now text.now) }
{
    let items = pattern.items.items();
    let mut marks = first_marks(alloc, pattern.at_start, text)?;
    Ok(pass_all(items, pattern.at_end, text, &mut marks))
}

/// Whether a pattern matches somewhere in a text (Python library reference, `re.search`). It takes one turn for each item and each
/// place of the text, and goes back nowhere.
pub fn found(alloc: Global, pattern: &Pattern, text: &[char]) -> Result<bool, OutOfMemory>
    ensures exact { IfOk result (λ answer. answer ≡ found pattern.now text.now) }
    ensures matches { IfOk result (λ answer. IsTrue answer ↔ IsMatch pattern.now text.now) }
{
    is_found(alloc, pattern, text)
}

/// The cost of a search, where it is within the budget.
fn cost_within(pattern: &Pattern, text: &[char], budget: u64) -> Option<u64>
    ensures { result ≡ affordable budget (match_cost pattern.now text.now) }
{
    let pattern_length = pattern.length as u64;
    let cost = pattern_length.checked_mul(text.len() as u64)?;
    if cost <= budget { Some(cost) } else { None }
}

/// A search that costs the product of the pattern's length and the text's. It is exhausted exactly where the cost is above the budget,
/// and then nothing is searched.
pub fn search(
    alloc: Global,
    pattern: &Pattern,
    text: &[char],
    budget: u64,
) -> Result<SearchEnd, OutOfMemory>
    ensures { IfOk result (λ end. end ≡ search_end (affordable budget (match_cost pattern.now text.now)) (found pattern.now text.now)) }
{
    match cost_within(pattern, text, budget) {
        Some(cost) => {
            if is_found(alloc, pattern, text)? {
                Ok(SearchEnd::Found(cost))
            } else {
                Ok(SearchEnd::NotFound(cost))
            }
        }
        None => Ok(SearchEnd::Exhausted),
    }
}
