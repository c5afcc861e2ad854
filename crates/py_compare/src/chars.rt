// Characters pair by pair.

ghost use Rattle.std.specs.Prelude.{◌≡◌, length};
ghost use Rattle.py_compare.specs.Equal.{told, chars_equal, of_length};
ghost use Rattle.py_compare.specs.Order.{place_within, chars_order};

use crate::tested::{Comparison, Tested};

/// Compares characters pair by pair.
fn equal_pairs(xs: &[char], ys: &[char], budget: u64) -> Tested
    requires { length xs.now ≡ length ys.now }
    ensures { result ≡ told budget (chars_equal xs.now ys.now) }
{
    for i in 0..xs.len() {
        let used = i as u64;
        if used == budget {
            return Tested::Exhausted;
        }
        if xs[i] != ys[i] {
            return Tested::No(used + 1);
        }
    }
    Tested::Yes(xs.len() as u64)
}

/// Whether two texts are equal.
pub fn equal_chars(xs: &[char], ys: &[char], budget: u64) -> Tested
    ensures { result ≡ told budget (of_length (length xs.now) (length ys.now) (chars_equal xs.now ys.now)) }
{
    if xs.len() == ys.len() {
        return equal_pairs(xs, ys, budget);
    }
    Tested::No(0)
}

/// Compares characters by their first differing pair, else by length.
pub fn order_chars(xs: &[char], ys: &[char], budget: u64) -> Comparison
    ensures { result ≡ place_within budget (chars_order xs.now ys.now) }
{
    for i in 0..xs.len() {
        let used = i as u64;
        if i >= ys.len() {
            return Comparison::More(used);
        }
        if used == budget {
            return Comparison::Exhausted;
        }
        if xs[i] < ys[i] {
            return Comparison::Less(used + 1);
        }
        if xs[i] != ys[i] {
            return Comparison::More(used + 1);
        }
    }
    if xs.len() < ys.len() {
        Comparison::Less(xs.len() as u64)
    } else {
        Comparison::Same(xs.len() as u64)
    }
}
