// Elements that equal a value.

ghost use Rattle.std.specs.Prelude.{◌≡◌};
ghost use Rattle.py_compare.specs.Equal.{equal_of};
ghost use Rattle.list_methods.specs.Search as search;

use py_compare::equal::equal;
use py_compare::tested::Tested;
use py_values::heap::Heap;
use py_values::value::Value;

/// What comes of looking for the first equal element: its place, none, or an element that lies too deep to compare, each behind so many
/// steps.
#[derive(Clone, Copy, PartialEq, Eq)]
pub enum Search {
    At(usize, u64),
    Nowhere(u64),
    TooDeep(u64),
}

/// What comes of counting the equal elements: their number, or an element that lies too deep to compare, behind so many steps.
#[derive(Clone, Copy, PartialEq, Eq)]
pub enum Tally {
    Count(usize, u64),
    TooDeep(u64),
}

/// Looks for the first element that equals a value, behind so many steps and under a budget.
pub fn find_equal(heap: &Heap, v: Value, items: &[Value], spent: u64, budget: u64) -> Option<Search>
    ensures { result ≡ search.search_within budget (search.search_from (equal_of heap.now v) 0 spent items.now) }
{
    if budget < spent {
        return None;
    }
    let mut used = spent;
    for (i, x) in items.iter().enumerate() {
        match equal(heap, v, *x, budget - used) {
            Tested::Yes(n) => return Some(Search::At(i, used + n)),
            Tested::No(n) => used = used + n,
            Tested::TooDeep(n) => return Some(Search::TooDeep(used + n)),
            Tested::NotOrdered(n) => return Some(Search::TooDeep(used + n)),
            Tested::Exhausted => return None,
        }
    }
    Some(Search::Nowhere(used))
}

/// Counts the elements that equal a value, behind so many steps and under a budget.
pub fn count_equal(heap: &Heap, v: Value, items: &[Value], spent: u64, budget: u64) -> Option<Tally>
    ensures { result ≡ search.tally_within budget (search.tally_from (equal_of heap.now v) 0 spent items.now) }
{
    if budget < spent {
        return None;
    }
    let mut used = spent;
    let mut count = 0usize;
    for x in items {
        match equal(heap, v, *x, budget - used) {
            Tested::Yes(n) => {
                count += 1;
                used = used + n;
                continue;
            }
            Tested::No(n) => used = used + n,
            Tested::TooDeep(n) => return Some(Tally::TooDeep(used + n)),
            Tested::NotOrdered(n) => return Some(Tally::TooDeep(used + n)),
            Tested::Exhausted => return None,
        }
    }
    Some(Tally::Count(count, used))
}
