// Fixtures.

use py_values::value::Value;
use py_world::TraceFrame;
use seq::{PyText, Seq};
use session_types::Scope;

/// A fixture, as collection found it (pytest's reference, "Fixtures"). Its number is that of its definition.
pub struct Fixture {
    /// The name by which it is asked for.
    pub name: PyText,
    pub function: Value,
    /// Whether it stands in a class: its function takes the instance first.
    pub in_class: bool,
    /// The arguments of its function, in order, without the instance; `request` may be among them.
    pub arguments: Seq<PyText>,
    pub scope: Scope,
    /// Whether its function has a `yield`.
    pub yields: bool,
    /// The place of its function's `def`.
    pub defined: TraceFrame,
}

impl Drop for Fixture {
    fn drop(self) {
        let Fixture {
            name: _,
            function: _,
            in_class: _,
            arguments: _,
            scope: _,
            yields: _,
            defined: _,
        } = self;
    }
}
