use collect_items::FoundSuite;
use report_parts::CollectReport;
use seq::Seq;

/// What was collected.
#[derive(Drop)]
pub struct Collected {
    /// All items and fixtures of all test files, with the table of the fixtures; an item's number is its place.
    pub found: FoundSuite,
    /// The place of the file of each item in the walk.
    pub places: Vec<usize>,
    /// The numbers of the items that the words select and `-k` and `-m` accept, in order.
    pub selected: Seq<u32>,
    /// How many items the words select and `-k` or `-m` doesn't accept.
    pub deselected: u32,
    /// The files that could not be collected.
    pub errors: Vec<CollectReport>,
}
