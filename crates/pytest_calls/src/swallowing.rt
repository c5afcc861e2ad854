// What `with raises` raises: where nothing was raised, and where the pattern isn't found in the message of what was.

ghost use Rattle.std.specs.Prelude.{◌≡◌, IfOk, option_copied};
ghost use Rattle.match_pattern.specs.Reading.{pattern_of};
ghost use Rattle.py_values.specs.Ends.{payable};
ghost use Rattle.pytest_calls.specs.Swallowing as swallowing;

use crate::quoting::push_quoted;
use crate::raising::pattern_in;
use match_pattern::{Pattern, SearchEnd, search};
use py_repr::repr::{message, repr};
use py_repr::shown::Shown;
use py_values::class::ExcClass;
use py_values::end::{Effect, Raise, made_within, push_ascii};
use py_values::heap::Heap;
use py_values::limits::MOST_ELEMENTS;
use py_values::value::Value;
use py_values::{OutOfMemory, PyText};
use std::alloc::Global;

/// What is shown can lie too deep, or be too long.
fn refused_shown(alloc: Global, shown: &Shown) -> Result<Option<Raise>, OutOfMemory>
    ensures { IfOk result (λ o. o ≡ swallowing.refused_shown shown.now) }
{
    if shown.deep {
        let raise = Raise::from_ascii(alloc, ExcClass::RecursionError, "nesting too deep")?;
        return Ok(Some(raise));
    }
    if shown.cut {
        let raise = Raise::from_ascii(alloc, ExcClass::MemoryError, "sequence too long")?;
        return Ok(Some(raise));
    }
    Ok(None)
}

fn unraised(alloc: Global, shown: &Shown) -> Result<Raise, OutOfMemory>
    ensures { IfOk result (λ r. r ≡ swallowing.unraised shown.now) }
{
    match refused_shown(alloc, shown)? {
        Some(raise) => Ok(raise),
        None => {
            let mut text = Vec::new(alloc);
            push_ascii(&mut text, "DID NOT RAISE ")?;
            text.extend_from_slice(shown.text.chars())?;
            Raise::from_chars(alloc, ExcClass::Failed, &text)
        }
    }
}

/// What is raised where the block of a `with raises` raised nothing (pytest's reference, `pytest.raises`).
#[tactic(auto, unfolding(crate::specs::Swallowing::did_not_raise))]
pub fn did_not_raise(alloc: Global, heap: &Heap, classes: Value) -> Result<Raise, OutOfMemory>
    ensures { IfOk result (λ r. r ≡ swallowing.did_not_raise heap.now classes) }
{
    let shown = repr(alloc, heap, classes, MOST_ELEMENTS)?;
    unraised(alloc, &shown)
}

#[tactic(auto, unfolding(crate::specs::Swallowing::not_found_text))]
fn pattern_missing(alloc: Global, pattern: &[char], message: &[char]) -> Result<Raise, OutOfMemory>
    ensures { IfOk result (λ r. r ≡ swallowing.pattern_missing pattern.now message.now) }
{
    let mut text = Vec::new(alloc);
    push_ascii(&mut text, "pattern ")?;
    push_quoted(&mut text, pattern)?;
    push_ascii(&mut text, " not found in ")?;
    push_quoted(&mut text, message)?;
    Raise::from_chars(alloc, ExcClass::AssertionError, &text)
}

fn search_ended(
    alloc: Global,
    pattern: &[char],
    message: &[char],
    end: SearchEnd,
) -> Result<Option<Effect>, OutOfMemory>
    ensures { IfOk result (λ m. m ≡ swallowing.search_ended pattern.now message.now end) }
{
    match end {
        SearchEnd::Found(cost) => Ok(Some(Effect::Give(Value::None, cost))),
        SearchEnd::NotFound(cost) => {
            let raise = pattern_missing(alloc, pattern, message)?;
            Ok(Some(Effect::Fail(raise, cost)))
        }
        SearchEnd::Exhausted => Ok(None),
    }
}

#[tactic(auto, using(crate::proofs::Searched::ended_within))]
fn searched_with(
    alloc: Global,
    pattern: &[char],
    message: &[char],
    read: &Pattern,
    budget: u64,
) -> Result<Option<Effect>, OutOfMemory>
    ensures { IfOk result (λ m. m ≡ payable budget (swallowing.searched_with pattern.now message.now read.now)) }
{
    let end = search(alloc, read, message, budget)?;
    search_ended(alloc, pattern, message, end)
}

fn searched_by(
    alloc: Global,
    pattern: &[char],
    message: &[char],
    budget: u64,
) -> Result<Option<Effect>, OutOfMemory>
    ensures { IfOk result (λ m. m ≡ payable budget (swallowing.searched_by pattern.now message.now (pattern_of pattern.now))) }
{
    match pattern_in(alloc, pattern)? {
        Some(read) => searched_with(alloc, pattern, message, &read, budget),
        None => {
            let raise = Raise::from_ascii(alloc, ExcClass::ValueError, "unsupported pattern")?;
            Ok(made_within(Effect::Fail(raise, 0), budget))
        }
    }
}

fn searched_in(
    alloc: Global,
    pattern: &[char],
    shown: &Shown,
    budget: u64,
) -> Result<Option<Effect>, OutOfMemory>
    ensures { IfOk result (λ m. m ≡ payable budget (swallowing.searched_in pattern.now shown.now)) }
{
    match refused_shown(alloc, shown)? {
        Some(raise) => Ok(made_within(Effect::Fail(raise, 0), budget)),
        None => searched_by(alloc, pattern, shown.text.chars(), budget),
    }
}

/// Searches a pattern, where there is one, in the message of an exception that `with raises` has taken (pytest's reference,
/// `pytest.raises`), within a budget of steps: what it makes is `None` where it is found.
#[tactic(auto, unfolding(crate::specs::Swallowing::pattern_end))]
pub fn pattern_end(
    alloc: Global,
    heap: &Heap,
    pattern: Option<&PyText>,
    exception: Value,
    budget: u64,
) -> Result<Option<Effect>, OutOfMemory>
    ensures { IfOk result (λ m. m ≡ payable budget (swallowing.pattern_end heap.now (option_copied pattern.entry) exception)) }
{
    match pattern {
        Some(pattern) => {
            let shown = message(alloc, heap, exception, MOST_ELEMENTS)?;
            searched_in(alloc, pattern.chars(), &shown, budget)
        }
        None => Ok(made_within(Effect::Give(Value::None, 0), budget)),
    }
}
