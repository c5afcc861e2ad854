// Whole numbers of 128 bits.

ghost use Rattle.std.specs.Prelude.{◌≡◌, ◌≢◌, ◌<◌, ◌/◌, ◌^◌, pos, negsuc, ◌+ℤ◌, ◌-ℤ◌, ◌*ℤ◌, ◌<ℤ◌, neg_ℤ, IfOk, unsigned_abs};
ghost use Rattle.std.specs.Int.{int_pow};
ghost use Rattle.py_operands.specs.Numbers as numbers;

use crate::faults::failed;
use py_values::OutOfMemory;
use py_values::class::ExcClass;
use py_values::end::Effect;
use py_values::value::Value;
use std::alloc::Global;

/// A number, or the error that it is out of range.
pub fn number_made(alloc: Global, n: Option<i128>) -> Result<Effect, OutOfMemory>
    ensures { IfOk result (λ m. m ≡ numbers.number_made n) }
{
    match n {
        Some(n) => Ok(Effect::Give(Value::Int(n), 0)),
        None => failed(alloc, ExcClass::OverflowError, "whole number out of range"),
    }
}

/// The sum of two numbers, where it has 128 bits.
pub fn sum(x: i128, y: i128) -> Option<i128>
    ensures { result ≡ numbers.fitting (x +ℤ y) }
{
    x.checked_add(y)
}

/// The difference of two numbers, where it has 128 bits.
pub fn difference(x: i128, y: i128) -> Option<i128>
    ensures { result ≡ numbers.fitting (x -ℤ y) }
{
    x.checked_sub(y)
}

/// The product of two numbers, where it has 128 bits.
pub fn product(x: i128, y: i128) -> Option<i128>
    ensures { result ≡ numbers.fitting (x *ℤ y) }
{
    x.checked_mul(y)
}

/// A number, which has 128 bits.
pub fn itself(x: i128) -> Option<i128>
    ensures { result ≡ numbers.fitting x }
{
    Some(x)
}

/// A number with the other sign, where it has 128 bits.
pub fn negative(x: i128) -> Option<i128>
    ensures { result ≡ numbers.fitting (neg_ℤ x) }
{
    x.checked_neg()
}

/// A number with each bit turned (`~`; Language Reference, 6.6 Unary arithmetic), which has 128 bits.
pub fn inverted(x: i128) -> Option<i128>
    ensures { result ≡ numbers.fitting (numbers.inverted x) }
{
    Some(-1 - x)
}

/// The number below zero that a quotient of naturals stands for.
fn below_zero(a: u128, n: u128) -> i128
    requires { (0 < n) × (a < 2 ^ 127) }
    ensures { result ≡ negsuc (a / n) }
{
    let whole = a / n;
    -1 - whole as i128
}

/// A number divided by a negative one, rounded down.
fn quotient_below(x: i128, y: i128) -> Option<i128>
    requires { y <ℤ pos 0 }
    ensures { result ≡ numbers.fitting (numbers.floor_div x y) }
{
    let size = y.unsigned_abs();
    if x > 0 {
        return Some(below_zero((x - 1) as u128, size));
    }
    i128::try_from(x.unsigned_abs() / size).ok()
}

/// A number divided by one that isn't zero, rounded down.
pub fn floor_div(x: i128, y: i128) -> Option<i128>
    requires { y ≢ pos 0 }
    ensures { result ≡ numbers.fitting (numbers.floor_div x y) }
{
    if y > 0 {
        return Some(x.div_euclid(y));
    }
    quotient_below(x, y)
}

/// What is left of a number divided by a negative one.
fn rest_below(x: i128, y: i128) -> i128
    requires { y <ℤ pos 0 }
    ensures { result ≡ numbers.floor_mod x y }
{
    let size = y.unsigned_abs();
    if x > 0 {
        let left = size - 1 - (x - 1) as u128 % size;
        return -(left as i128);
    }
    let left = x.unsigned_abs() % size;
    -(left as i128)
}

/// What is left of a number divided by one that isn't zero, with the divisor's sign.
pub fn floor_mod(x: i128, y: i128) -> Option<i128>
    requires { y ≢ pos 0 }
    ensures { result ≡ numbers.fitting (numbers.floor_mod x y) }
{
    if y > 0 {
        return Some(x.rem_euclid(y));
    }
    Some(rest_below(x, y))
}

/// A power of -1, 0 or 1.
#[tactic(auto, using(crate::proofs::Powers::power_of_zero, crate::proofs::Powers::power_of_one))]
fn small_power(x: i128, times: u128) -> i128
    requires { unsigned_abs x < 2 }
    ensures { result ≡ int_pow x times }
{
    if x == 1 {
        return 1;
    }
    if x == 0 {
        return if times == 0 { 1 } else { 0 };
    }
    if times % 2 == 0 { 1 } else { -1 }
}

/// A number multiplied by itself so many times.
#[tactic(auto, using(crate::proofs::Powers::far_power))]
pub fn power(x: i128, times: u128) -> Option<i128>
    ensures { result ≡ numbers.fitting (int_pow x times) }
{
    if x.unsigned_abs() < 2 {
        return Some(small_power(x, times));
    }
    if times >= 128 {
        return None;
    }
    x.checked_pow(times as u32)
}

/// A number that isn't zero shifted to the left.
#[tactic(auto, using(crate::proofs::Powers::double, crate::proofs::Powers::overflow))]
fn double(x: i128, times: u128) -> Option<i128>
    ensures { result ≡ numbers.fitting (x *ℤ pos (2 ^ times)) }
{
    let mut doubled = x;
    for _ in 0..times {
        match product(doubled, 2) {
            Some(next) => doubled = next,
            None => return None,
        }
    }
    Some(doubled)
}

/// A number shifted to the left.
pub fn shift_left(x: i128, times: u128) -> Option<i128>
    ensures { result ≡ numbers.fitting (x *ℤ pos (2 ^ times)) }
{
    if x == 0 {
        return Some(0);
    }
    double(x, times)
}

/// A number shifted to the right.
#[tactic(auto, using(crate::proofs::Powers::small_quotient))]
pub fn shift_right(x: i128, times: u128) -> Option<i128>
    ensures { result ≡ numbers.fitting (numbers.quotient x (2 ^ times)) }
{
    if times >= 127 {
        return Some(if x < 0 { -1 } else { 0 });
    }
    let by = 1u128 << times;
    if x < 0 {
        return Some(below_zero((-1 - x) as u128, by));
    }
    Some((x as u128 / by) as i128)
}

fn natural(n: u128) -> i128
    requires { n < 2 ^ 127 }
    ensures { result ≡ pos n }
{
    n as i128
}

fn below_zero_by(n: u128) -> i128
    requires { n < 2 ^ 127 }
    ensures { result ≡ negsuc n }
{
    -1 - n as i128
}

/// The bits of a number, or those that a negative one hasn't.
fn bits_of(x: i128) -> u128
    ensures value { result ≡ numbers.bits_of x }
    ensures bound { result < 2 ^ 127 }
{
    if x < 0 { (-1 - x) as u128 } else { x as u128 }
}

/// The bits that both numbers have.
#[tactic(auto, using(crate::proofs::Bits::bounds))]
pub fn int_and(x: i128, y: i128) -> i128
    ensures { result ≡ numbers.int_and x y }
{
    let a = bits_of(x);
    let b = bits_of(y);
    match (x < 0, y < 0) {
        (false, false) => natural(a & b),
        (false, true) => natural(a - (a & b)),
        (true, false) => natural(b - (b & a)),
        (true, true) => below_zero_by(a | b),
    }
}

/// The bits that one of two numbers has.
#[tactic(auto, using(crate::proofs::Bits::bounds))]
pub fn int_or(x: i128, y: i128) -> i128
    ensures { result ≡ numbers.int_or x y }
{
    let a = bits_of(x);
    let b = bits_of(y);
    match (x < 0, y < 0) {
        (false, false) => natural(a | b),
        (false, true) => below_zero_by(b - (b & a)),
        (true, false) => below_zero_by(a - (a & b)),
        (true, true) => below_zero_by(a & b),
    }
}

/// The bits that one of two numbers has, and the other hasn't.
#[tactic(auto, using(crate::proofs::Bits::bounds))]
pub fn int_xor(x: i128, y: i128) -> i128
    ensures { result ≡ numbers.int_xor x y }
{
    let a = bits_of(x);
    let b = bits_of(y);
    if (x < 0) == (y < 0) {
        natural(a ^ b)
    } else {
        below_zero_by(a ^ b)
    }
}
