// Test items.

use collect_names::found::TestFunction;
use py_values::rows::Values;
use py_values::value::Value;
use py_world::TraceFrame;
use report_parts::Text;
use seq::{PyText, Seq};
use session_types::DefId;

/// What the set-up of an item demands, broad scopes first; or the text of the fault of its fixtures.
pub enum ItemClosure {
    Whole(Seq<DefId>),
    Fault(PyText),
}

impl Drop for ItemClosure {
    fn drop(self) {
        match self {
            ItemClosure::Whole(_) => {}
            ItemClosure::Fault(_) => {}
        }
    }
}

/// A value that a row of a test binds to one of its arguments, or to one of a fixture of it (pytest's reference,
/// `pytest.mark.parametrize`).
pub struct BoundArgument {
    pub name: PyText,
    /// The number of the name in the table of fixtures.
    pub number: u32,
    pub value: Value,
}

impl Drop for BoundArgument {
    fn drop(self) {
        let BoundArgument {
            name: _,
            number: _,
            value: _,
        } = self;
    }
}

/// The parameter that an item has for a parametrised fixture (pytest's fixture guide, "Parametrizing fixtures").
pub struct FixtureParam {
    /// The definition of the fixture.
    pub def: DefId,
    /// The place of the parameter among those of the fixture, from 0.
    pub number: u32,
    pub value: Value,
    pub id: Text,
}

impl Drop for FixtureParam {
    fn drop(self) {
        let FixtureParam {
            def: _,
            number: _,
            value: _,
            id: _,
        } = self;
    }
}

/// A test item, as collection found it.
pub struct Item {
    pub node_id: Text,
    /// What the title of a block of a report calls it.
    pub title: Text,
    /// The path of its file.
    pub file: Text,
    /// The name of its function, with the id of its row, where it has one.
    pub name: PyText,
    /// The id of its row, where its test is parametrised.
    pub id: Option<PyText>,
    pub test: TestFunction,
    /// The place of the function's `def`.
    pub defined: TraceFrame,
    /// Its marks, nearest first; those of its row stand behind its function's.
    pub marks: Values,
    /// Its node in the tree of collection.
    pub node: u32,
    /// The arguments of its function, in order, without the instance; `request` may be among them.
    pub arguments: Seq<PyText>,
    /// The definition that each argument stands for, where it has one, but for `request` and for arguments that its row binds.
    pub asked: Seq<Option<DefId>>,
    /// What its row binds, by name.
    pub bound: Seq<BoundArgument>,
    /// The parameters that its row gives to fixtures, in the order of its closure.
    pub params: Seq<FixtureParam>,
    /// Whether it stands for an empty list of rows: then it is skipped, whatever is bound.
    pub empty: bool,
    pub closure: ItemClosure,
}

impl Drop for Item {
    fn drop(self) {
        let Item {
            node_id: _,
            title: _,
            file: _,
            name: _,
            id: _,
            test: _,
            defined: _,
            marks: _,
            node: _,
            arguments: _,
            asked: _,
            bound: _,
            params: _,
            empty: _,
            closure: _,
        } = self;
    }
}
