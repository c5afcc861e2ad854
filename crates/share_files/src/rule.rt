//! The rule over the shared word, and the steps that keep it.
use atomic_table::{Join, Play, Shared, Split, TableRule};
use std::collections::LinkedList;

/// How many groups and workers there are.
#[derive(Clone, Copy, PartialEq, Eq)]
pub struct Counts {
    pub groups: u32,
    pub workers: u32,
}

/// What a seat knows: a range of workers, by its first, and for each of them the numbers that it drew. No value of it is made.
pub struct Range {
    pub first: u64,
    pub lists: LinkedList<LinkedList<u64>>,
}

/// The word is the next number, and each number that was drawn stands in one list.
pub struct DrawnOnce;

impl TableRule<(), Range, Counts> for DrawnOnce {
    ghost use Rattle.share_files.specs.Rule.{SharingInvariant, all_workers};

    ghost holds = { SharingInvariant };

    ghost first = { all_workers };
}

/// The shared word.
pub type Board = Shared<(), Range, Counts, DrawnOnce>;

/// A seat of one worker draws the next number.
pub struct Draw;

impl Play<(), Range> for Draw {
    ghost use Rattle.share_files.specs.Rule.{Draws};

    ghost then = { Draws };
}

/// The lower half of a range stays with its seat, and a new seat has the upper half.
pub struct Halves;

impl Split<Range> for Halves {
    ghost use Rattle.share_files.specs.Rule.{lower_half, upper_half};

    ghost left = { lower_half };

    ghost right = { upper_half };
}

/// Two ranges, side by side, are one again.
pub struct Whole;

impl Join<Range> for Whole {
    ghost use Rattle.share_files.specs.Rule.{joined_range, nobody};

    ghost both = { joined_range };

    ghost spent = { nobody };
}
