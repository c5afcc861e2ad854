// `int` of a number and of a text.

ghost use Rattle.std.specs.Prelude.{◌≡◌, ◌≤◌, ◌^◌, IfOk, option_copied};
ghost use Rattle.text_methods.specs.py_operands.Numbers.{fitting};
ghost use Rattle.number_calls.specs.Texts as texts;

use call_products::arguments::sole;
use call_products::product::{Product, failed, plain, wrong};
use py_operands::numbers::number_made;
use py_operands::texts::text_of;
use py_values::class::ExcClass;
use py_values::end::Effect;
use py_values::heap::Heap;
use py_values::number::number;
use py_values::value::Value;
use py_values::{OutOfMemory, PyText};
use std::alloc::Global;
use text_methods::chars::{is_digits, stripped};

/// The size of the greatest number below zero.
const MOST: u128 = 1 << 127;

/// A text behind its sign, where it has one.
fn behind_sign(text: &[char]) -> &[char]
    ensures { result.now ≡ texts.behind_sign text.now }
{
    match text.split_first() {
        Some(('+' | '-', rest)) => rest,
        Some(_) | None => text,
    }
}

fn is_below_zero(text: &[char]) -> bool
    ensures { result ≡ texts.is_below_zero text.now }
{
    match text.split_first() {
        Some((c, _)) => *c == '-',
        None => false,
    }
}

/// A number with a digit more.
fn with_digit(n: u128, digit: char) -> Option<u128>
    ensures { result ≡ texts.bounded (texts.with_digit n digit) }
{
    let n = n
        .checked_mul(10)?
        .checked_add((digit as u128).saturating_sub(48))?;
    if n > MOST { None } else { Some(n) }
}

/// The number of digits, where it isn't too large.
fn decimal(digits: &[char]) -> Option<u128>
    ensures { result ≡ texts.bounded (texts.decimal 0 digits.now) }
{
    let mut n = 0u128;
    for digit in digits {
        match with_digit(n, *digit) {
            Some(next) => n = next,
            None => return None,
        }
    }
    Some(n)
}

/// A number with its sign.
fn signed(negative: bool, n: u128) -> Option<i128>
    requires { n ≤ 2 ^ 127 }
    ensures { result ≡ fitting (texts.signed negative n) }
{
    if !negative {
        return i128::try_from(n).ok();
    }
    if n == 0 {
        return Some(0);
    }
    Some(-1 - (n - 1) as i128)
}

fn signed_digits(negative: bool, digits: &[char]) -> Option<i128>
    ensures { result ≡ fitting (texts.signed negative (texts.decimal 0 digits.now)) }
{
    match decimal(digits) {
        Some(n) => signed(negative, n),
        None => None,
    }
}

/// The number that a text without blanks at its ends spells.
fn spelled(alloc: Global, text: &[char]) -> Result<Product, OutOfMemory>
    ensures { IfOk result (λ p. p ≡ texts.spelled text.now) }
{
    let digits = behind_sign(text);
    if !is_digits(digits) {
        return failed(alloc, ExcClass::ValueError, "invalid number", 0);
    }
    let made = number_made(alloc, signed_digits(is_below_zero(text), digits))?;
    Ok(plain(alloc, made))
}

fn int_of_text(alloc: Global, text: Option<&PyText>) -> Result<Product, OutOfMemory>
    ensures { IfOk result (λ p. p ≡ texts.int_of_text (option_copied text.entry)) }
{
    match text {
        Some(text) => spelled(alloc, stripped(text.chars())),
        None => wrong(alloc, "int", 0),
    }
}

pub(crate) fn int_of_value(alloc: Global, heap: &Heap, v: Value) -> Result<Product, OutOfMemory>
    ensures { IfOk result (λ p. p ≡ texts.int_of_value heap.now v) }
{
    match number(v) {
        Some(n) => Ok(plain(alloc, Effect::Give(Value::Int(n), 0))),
        None => int_of_text(alloc, text_of(heap, v)),
    }
}
