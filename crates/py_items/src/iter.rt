// Iteration by place.

use py_values::end::Raise;
use py_values::value::Value;

/// What a `for` goes over, the place of the next element, and the length at its start.
#[derive(Clone, Copy, PartialEq, Eq)]
pub struct IterAt {
    pub of: Value,
    pub next: usize,
    pub length: usize,
}

/// What a turn gives.
#[derive(Drop)]
pub enum Turn {
    Item(Value),
    End,
    Raised(Raise),
}
