// The law of division.

ghost use Rattle.std.specs.Prelude.{◌≡◌, ◌≢◌, ◌<◌, pos, ◌+ℤ◌, ◌*ℤ◌, ◌<ℤ◌, ◌≤ℤ◌, unsigned_abs};
ghost use Rattle.py_operands.specs.Numbers.{floor_div, floor_mod};

/// A number is its quotient times the divisor and what is left, which is smaller than the divisor and has its sign (Language Reference,
/// binary arithmetic operations: "x == (x//y)*y + (x%y)").
#[tactic(auto, using(crate::proofs::Dividing::division, crate::proofs::Dividing::rest_size, crate::proofs::Dividing::rest_above, crate::proofs::Dividing::rest_under))]
pub fn division_law(x: i128, y: i128)
    requires { y ≢ pos 0 }
    ensures whole { floor_div x y *ℤ y +ℤ floor_mod x y ≡ x }
    ensures above { pos 0 <ℤ y → pos 0 ≤ℤ floor_mod x y }
    ensures below { y <ℤ pos 0 → floor_mod x y ≤ℤ pos 0 }
    ensures rest { unsigned_abs (floor_mod x y) < unsigned_abs y }
{}
