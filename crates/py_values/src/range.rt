// Ranges.

/// The numbers from a start on by a step: `length` of them. `range` counts those before the stop.
#[derive(Clone, Copy, PartialEq, Eq)]
pub struct RangeObj {
    pub start: i128,
    pub stop: i128,
    pub step: i128,
    pub length: usize,
}
