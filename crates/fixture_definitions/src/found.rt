// What is found of fixtures and tests.

use collect_names::found::TestFunction;
use collect_params::Parametrization;
use param_rows::ParamSets;
use py_values::rows::Values;
use py_values::value::Value;
use seq::{PyText, Seq};
use test_suite::Fixture;

/// A definition of a fixture, with the node at which it stands.
#[derive(Drop)]
pub struct Definition {
    pub fixture: Fixture,
    pub autouse: bool,
    pub node: u32,
    /// Its parameters, where it is parametrised.
    pub params: Option<ParamSets<Value>>,
}

/// A test, with the node under which it stands, and the names for which fixtures are looked for.
#[derive(Drop)]
pub struct FoundTest {
    pub test: TestFunction,
    /// The place of its file in the walk.
    pub place: usize,
    /// The node of its file or its class.
    pub parent: u32,
    /// Its marks, nearest first, but those of its rows.
    pub marks: Values,
    /// How many of these are its function's own; those of a row stand behind them.
    pub near: usize,
    /// What its `parametrize` marks give, nearest first.
    pub parametrized: Seq<Parametrization>,
    /// The names that its `usefixtures` marks give, in the order of its marks.
    pub uses: Seq<PyText>,
    /// The arguments of its function, in order, without the instance; `request` may be among them.
    pub arguments: Seq<PyText>,
}
