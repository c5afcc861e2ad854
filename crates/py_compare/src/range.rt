// Ranges element by element.

ghost use Rattle.std.specs.Prelude.{◌≡◌, if◌then◌else◌};
ghost use Rattle.py_values.specs.Ranges.{range_items};
ghost use Rattle.py_compare.specs.Equal.{told, finding, holds_if, numbers_equal, of_length, Holds, Fails};

use crate::tested::Tested;
use py_values::range::RangeObj;

/// What is told of a comparison that is decided.
pub fn tell(budget: u64, holds: bool, cost: u64) -> Tested
    ensures { result ≡ told budget (finding (if holds then Holds else Fails) cost) }
{
    if budget < cost {
        Tested::Exhausted
    } else if holds {
        Tested::Yes(cost)
    } else {
        Tested::No(cost)
    }
}

/// Whether two ranges are equal: where starts and steps agree all their numbers do.
pub fn equal_ranges(a: &RangeObj, b: &RangeObj, budget: u64) -> Tested
    ensures { result ≡ told budget (of_length a.now.length b.now.length (numbers_equal (range_items a.now) (range_items b.now))) }
{
    if a.length != b.length {
        return Tested::No(0);
    }
    if a.length == 0 {
        return Tested::Yes(0);
    }
    if a.start != b.start {
        return tell(budget, false, 1);
    }
    if a.length == 1 {
        return tell(budget, true, 1);
    }
    if a.step != b.step {
        return tell(budget, false, 2);
    }
    tell(budget, true, a.length as u64)
}
