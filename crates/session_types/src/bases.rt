ghost use Rattle.std.specs.Prelude.{◌≡◌, ℕ, ◌≤◌, ◌||◌, true, [], ◌∷◌, length, drop, IfOk, OnOk};
ghost use Rattle.std.specs.List.{list_any};
ghost use Rattle.session_types.specs.Numbers.{among, joined};
ghost use Rattle.session_types.specs.Spans.{AreJoined, IsContinued, in_span, in_spans, meet, meets_any};

use seq::OutOfMemory;
use std::alloc::Global;
use std::marker::Model;

/// The numbers from one to another, both of them among these.
#[derive(Clone, Copy)]
pub(crate) struct Span {
    first: u64,
    last: u64,
}

/// The numbers of all on which an instance depends, each once, the greatest first. What stands there in a row takes no more memory
/// than one number.
#[derive(Drop)]
pub struct Bases {
    spans: Vec<Span>,
}

impl Model for Bases {
    ghost use Rattle.std.specs.Prelude.{ℕ, List};
    ghost use Rattle.session_types.specs.Spans.{numbers_in};

    ghost Value = { List ℕ };

    ghost view = { λ b. numbers_in b.spans.items };
}

/// Whether the other begins within the one, or right behind it.
fn continues(one: Span, other: Span) -> bool
    ensures { result ≡ true → IsContinued one other }
{
    one.first <= other.first && (other.first <= one.last || other.first - one.last == 1)
}

/// The numbers of both, where the other continues the one.
fn grown(one: Span, other: Span) -> Span
    requires { IsContinued one other }
    ensures { (n : ℕ) → in_span n result ≡ (in_span n one || in_span n other) }
{
    Span {
        first: one.first,
        last: one.last.max(other.last),
    }
}

/// Appends the numbers of a span. They become a part of the last span where they continue it.
fn append(spans: &mut Vec<Span>, more: Span) -> Result<(), OutOfMemory>
    ensures { OnOk result (AreJoined spans.new.items spans.old.items (more ∷ [])) }
{
    if let Some(last) = spans.pop() {
        if continues(last, more) {
            spans.push(grown(last, more))?;
            return Ok(());
        }
        spans.push(last)?;
    }
    spans.push(more)?;
    Ok(())
}

/// Appends the numbers of the spans from a place on.
fn append_from(spans: &mut Vec<Span>, more: &[Span], from: usize) -> Result<(), OutOfMemory>
    requires { from ≤ length more.now }
    ensures { OnOk result (AreJoined spans.new.items spans.old.items (drop from more.now)) }
{
    let mut at = from;
    'rest: while at < more.len() {
        append(spans, more[at])?;
        at += 1;
    }
    Ok(())
}

/// The numbers of both.
fn merged(alloc: Global, one: &[Span], other: &[Span]) -> Result<Vec<Span>, OutOfMemory>
    ensures { IfOk result (λ spans. AreJoined spans.items one.now other.now) }
{
    let mut spans = Vec::new(alloc);
    let mut left = 0;
    let mut right = 0;
    'both: while left < one.len() && right < other.len() {
        if one[left].first <= other[right].first {
            append(&mut spans, one[left])?;
            left += 1;
        } else {
            append(&mut spans, other[right])?;
            right += 1;
        }
    }
    append_from(&mut spans, one, left)?;
    append_from(&mut spans, other, right)?;
    Ok(spans)
}

/// Whether a number stands in the span.
fn holds(span: Span, number: u64) -> bool
    ensures { result ≡ in_span number span }
{
    span.first <= number && number <= span.last
}

/// Whether a number stands in both.
fn meet(one: Span, other: Span) -> bool
    ensures { result ≡ meet one other }
{
    one.first <= one.last
        && other.first <= other.last
        && one.first <= other.last
        && other.first <= one.last
}

fn any_holds(spans: &[Span], number: u64) -> bool
    ensures { result ≡ in_spans number spans.now }
{
    spans.iter().any(|span| holds(*span, number))
}

fn meets_any(spans: &[Span], other: Span) -> bool
    ensures { result ≡ meets_any spans.now other }
{
    spans.iter().any(|span| meet(*span, other))
}

fn any_meets(spans: &[Span], others: &[Span]) -> bool
    ensures { result ≡ list_any (meets_any spans.now) others.now }
{
    others.iter().any(|other| meets_any(spans, *other))
}

fn spans_of(alloc: Global, numbers: &[u64]) -> Result<Vec<Span>, OutOfMemory>
    ensures { IfOk result (λ spans. (n : ℕ) → in_spans n spans.items ≡ among n numbers.now) }
{
    let mut spans = Vec::new(alloc);
    for number in numbers {
        let one = Span {
            first: *number,
            last: *number,
        };
        append(&mut spans, one)?;
    }
    Ok(spans)
}

impl Bases {
    /// No number.
    pub fn new(alloc: Global) -> Self
        ensures { result ≡ [] }
    {
        Bases {
            spans: Vec::new(alloc),
        }
    }

    /// These numbers. They take the least memory where they rise.
    pub fn from_numbers(alloc: Global, numbers: &[u64]) -> Result<Self, OutOfMemory>
        ensures { IfOk result (λ bases. bases ≡ joined numbers.now []) }
    {
        Ok(Bases {
            spans: spans_of(alloc, numbers)?,
        })
    }

    /// The same numbers.
    pub fn copied(&self, alloc: Global) -> Result<Self, OutOfMemory>
        ensures { IfOk result (λ copy. copy ≡ self.now) }
    {
        Ok(Bases {
            spans: Vec::from_slice(alloc, &self.spans)?,
        })
    }

    /// With a number.
    pub fn add(&mut self, alloc: Global, number: u64) -> Result<(), OutOfMemory>
        ensures { OnOk result (self.new ≡ joined (number ∷ []) self.old) }
    {
        let one = [Span {
            first: number,
            last: number,
        }];
        self.spans = merged(alloc, &one, &self.spans)?;
        Ok(())
    }

    /// With the numbers of another list.
    pub fn add_all(&mut self, alloc: Global, others: &Bases) -> Result<(), OutOfMemory>
        ensures { OnOk result (self.new ≡ joined others.now self.old) }
    {
        self.spans = merged(alloc, &others.spans, &self.spans)?;
        Ok(())
    }

    /// Whether a number is among them.
    pub fn has(&self, number: u64) -> bool
        ensures { result ≡ among number self.now }
    {
        any_holds(&self.spans, number)
    }

    /// Whether one of these is among them.
    pub fn has_any(&self, others: &Bases) -> bool
        ensures { result ≡ list_any (λ n. among n self.now) others.now }
    {
        any_meets(&self.spans, &others.spans)
    }
}
