// The numbers of ranges.

ghost use Rattle.std.specs.Prelude.{◌≡◌, ◌^◌, IfOk, pos, ◌+ℤ◌, ◌-ℤ◌, ◌*ℤ◌};
ghost use Rattle.py_operands.specs.Numbers.{fitting};
ghost use Rattle.py_operands.specs.Ranges as ranges;

use crate::numbers::{itself, number_made};
use py_values::OutOfMemory;
use py_values::end::Effect;
use py_values::range::RangeObj;
use std::alloc::Global;

/// How far a number is above the least one.
fn above_least(x: i128) -> u128
    ensures { x ≡ pos result -ℤ pos (2 ^ 127) }
{
    if x < 0 {
        (x + i128::MAX + 1) as u128
    } else {
        x as u128 + (1u128 << 127)
    }
}

/// A number so far above the least one.
fn from_least(n: u128) -> i128
    ensures { result ≡ pos n -ℤ pos (2 ^ 127) }
{
    if n < 1u128 << 127 {
        n as i128 - i128::MAX - 1
    } else {
        (n - (1u128 << 127)) as i128
    }
}

/// A number so far above another, which is given as how far it is above the least one.
fn up(from: u128, far: u128) -> Option<i128>
    ensures { result ≡ fitting ((pos from -ℤ pos (2 ^ 127)) +ℤ pos far) }
{
    match from.checked_add(far) {
        Some(to) => itself(from_least(to)),
        None => None,
    }
}

/// A number so far below another, which is given as how far it is above the least one.
fn down(from: u128, far: u128) -> Option<i128>
    ensures { result ≡ fitting ((pos from -ℤ pos (2 ^ 127)) -ℤ pos far) }
{
    match from.checked_sub(far) {
        Some(to) => itself(from_least(to)),
        None => None,
    }
}

/// A number of a range by its place.
pub fn nth(start: i128, step: i128, at: usize) -> Option<i128>
    ensures { result ≡ fitting (start +ℤ step *ℤ pos at) }
{
    let from = above_least(start);
    match step.unsigned_abs().checked_mul(at as u128) {
        Some(far) => {
            if step < 0 {
                down(from, far)
            } else {
                up(from, far)
            }
        }
        None => None,
    }
}

/// The number of a range at a place.
pub fn range_number(alloc: Global, range: &RangeObj, at: usize) -> Result<Effect, OutOfMemory>
    ensures { IfOk result (λ m. m ≡ ranges.range_number range.now at) }
{
    number_made(alloc, nth(range.start, range.step, at))
}
