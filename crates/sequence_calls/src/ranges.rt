// `range`.

ghost use Rattle.std.specs.Prelude.{◌≡◌, IfOk};
ghost use Rattle.sequence_calls.specs.Ranges as ranges;

use call_products::product::{Product, failed, plain, wrong};
use py_values::class::ExcClass;
use py_values::end::Effect;
use py_values::limits::MOST_ELEMENTS;
use py_values::number::number;
use py_values::object::Obj;
use py_values::range::RangeObj;
use py_values::value::Value;
use py_values::{OutOfMemory, PyText};
use std::alloc::Global;

/// The start, the stop and the step of a range.
#[derive(Clone, Copy, PartialEq, Eq)]
pub struct Span {
    pub start: i128,
    pub stop: i128,
    pub step: i128,
}

/// How many steps there are from one number up to below another, which is above it.
fn steps_between(low: i128, high: i128, step: u128) -> u128
    ensures { result ≡ ranges.steps_between low high step }
{
    if low < high {
        let last = high.abs_diff(low).saturating_sub(1);
        last.checked_div(step).unwrap_or(0).saturating_add(1)
    } else {
        0
    }
}

/// How many numbers a range has.
fn span_length(span: Span) -> u128
    ensures { result ≡ ranges.span_length span }
{
    if span.step < 0 {
        steps_between(span.stop, span.start, span.step.unsigned_abs())
    } else {
        steps_between(span.start, span.stop, span.step.unsigned_abs())
    }
}

pub(crate) fn span_made(alloc: Global, span: Span) -> Result<Product, OutOfMemory>
    ensures { IfOk result (λ p. p ≡ ranges.span_made span) }
{
    if span.step == 0 {
        return failed(alloc, ExcClass::ValueError, "range step is zero", 0);
    }
    let length = span_length(span);
    if length > MOST_ELEMENTS as u128 {
        return failed(alloc, ExcClass::MemoryError, "sequence too long", 0);
    }
    let range = RangeObj {
        start: span.start,
        stop: span.stop,
        step: span.step,
        length: length as usize,
    };
    Ok(plain(alloc, Effect::New(Obj::Range(range), 0)))
}

/// The numbers of a range, which are the arguments of the call.
fn span_of(args: &[Value]) -> Option<Span>
    ensures { result ≡ ranges.span_of args.now }
{
    let (start, stop, step) = match args {
        [stop] => (Value::Int(0), *stop, Value::Int(1)),
        [start, stop] => (*start, *stop, Value::Int(1)),
        [start, stop, step] => (*start, *stop, *step),
        _ => return None,
    };
    let start = number(start)?;
    let stop = number(stop)?;
    let step = number(step)?;
    Some(Span { start, stop, step })
}

/// The numbers of a range, where a call has no arguments by name.
pub(crate) fn span_given(args: &[Value], named: &[(PyText, Value)]) -> Option<Span>
    ensures { result ≡ ranges.span_given args.now named.now }
{
    match named {
        [] => span_of(args),
        _ => None,
    }
}
