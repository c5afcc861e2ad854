// Rows of tests.

use py_values::value::Value;
use seq::{PyText, Seq};
use test_suite::{BoundArgument, FixtureParam};

/// What a row gives an item.
#[derive(Drop)]
pub struct ItemRow {
    /// The values that it binds to names.
    pub bound: Seq<BoundArgument>,
    /// The parameters that it gives to fixtures, in the order of the closure.
    pub params: Seq<FixtureParam>,
    pub marks: Seq<Value>,
    /// Where the test is parametrised.
    pub id: Option<PyText>,
    /// Whether it stands for an empty list.
    pub empty: bool,
}

/// The rows of a test, or what is told of the fault of its lists.
#[derive(Drop)]
pub enum TestRows {
    Rows(Seq<ItemRow>),
    Fault(PyText),
}
