// Numbers.

ghost use Rattle.std.specs.Prelude.{◌≡◌, IfOk, option_copied};
ghost use Rattle.number_calls.specs.Numbers as numbers;

use call_products::arguments::{pair, sole, sole_text};
use call_products::product::{Product, failed, plain, wrong};
use py_kinds::truth::truth;
use py_operands::numbers::{floor_div, floor_mod, itself, negative, number_made};
use py_values::class::ExcClass;
use py_values::end::Effect;
use py_values::heap::Heap;
use py_values::number::number;
use py_values::object::Obj;
use py_values::rows::Values;
use py_values::value::Value;
use py_values::{OutOfMemory, PyText};
use std::alloc::Global;

/// A number without its sign, where it has its 128 bits.
pub(crate) fn size(n: i128) -> Option<i128>
    ensures { result ≡ numbers.size n }
{
    if n < 0 { negative(n) } else { itself(n) }
}

/// The number that is the one argument of a call.
pub(crate) fn sole_number(args: &[Value], named: &[(PyText, Value)]) -> Option<i128>
    ensures { result ≡ numbers.sole_number args.now named.now }
{
    match sole(args, named) {
        Some(v) => number(v),
        None => None,
    }
}

/// The two numbers that are the arguments of a call.
pub(crate) fn number_pair(args: &[Value], named: &[(PyText, Value)]) -> Option<(i128, i128)>
    ensures { result ≡ numbers.number_pair args.now named.now }
{
    match pair(args, named) {
        Some((a, b)) => match (number(a), number(b)) {
            (Some(x), Some(y)) => Some((x, y)),
            _ => None,
        },
        None => None,
    }
}

fn tuple_or_raise(
    alloc: Global,
    quotient: Option<i128>,
    rest: Option<i128>,
) -> Result<Product, OutOfMemory>
    ensures { IfOk result (λ p. p ≡ numbers.tuple_or_raise quotient rest) }
{
    match (quotient, rest) {
        (Some(quotient), Some(rest)) => {
            let mut items = Vec::new(alloc);
            items.push(Value::Int(quotient))?;
            items.push(Value::Int(rest))?;
            Ok(plain(alloc, Effect::New(Obj::Tuple(Values::from_vec(items)), 0)))
        }
        _ => failed(
            alloc,
            ExcClass::OverflowError,
            "whole number out of range",
            0,
        ),
    }
}

pub(crate) fn divided(alloc: Global, x: i128, y: i128) -> Result<Product, OutOfMemory>
    ensures { IfOk result (λ p. p ≡ numbers.divided_pair x y) }
{
    if y == 0 {
        return failed(alloc, ExcClass::ZeroDivisionError, "division by zero", 0);
    }
    tuple_or_raise(alloc, floor_div(x, y), floor_mod(x, y))
}

/// The one character of a text.
pub(crate) fn sole_char(text: Option<&PyText>) -> Option<char>
    ensures { result ≡ numbers.sole_char (option_copied text.entry) }
{
    match text {
        Some(text) => match text.chars() {
            [c] => Some(*c),
            _ => None,
        },
        None => None,
    }
}

/// The character of a number, where it has one.
pub(crate) fn char_of(n: Option<i128>) -> Option<char>
    ensures { result ≡ numbers.char_of n }
{
    let n = n?;
    let code = u32::try_from(n).ok()?;
    char::from_u32(code)
}
