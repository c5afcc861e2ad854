// What the rules of a run depend on.

ghost use Rattle.std.specs.Prelude.{◌≡◌, ◌<◌, [], length, false};
ghost use Rattle.runtest_rules.specs.Rules.{param_value};
ghost use Rattle.test_suite.specs.Suites.{fixture_at, item_with_node, no_fixture};

use py_values::value::Value;
use py_world::TraceFrame;
use seq::{PyText, Seq};
use session_types::{DefId, Scope};
use std::alloc::Global;
use test_suite::{BoundArgument, Fixture, FixtureParam, Suite};

/// What the rules of a run depend on.
#[derive(Drop)]
pub struct RunSetting {
    /// The steps that each call may take.
    pub limit: u64,
    pub suite: Suite,
}

/// The fixture of a definition.
pub(crate) fn fixture_of<'s>(setting: &'s RunSetting, def: DefId) -> &'s Fixture
    requires { def < length setting.now.suite.fixtures }
    ensures { result.now ≡ fixture_at setting.now.suite def }
{
    &setting.suite.fixtures.items()[def.number() as usize]
}

/// What the row of the item of a node binds.
pub(crate) fn bound_at<'s>(setting: &'s RunSetting, node: u32) -> &'s [BoundArgument]
    ensures { result.now ≡ (item_with_node setting.now.suite node).bound }
{
    match setting.suite.item(node) {
        Some(item) => item.bound.items(),
        None => &[],
    }
}

fn param_in(params: &[FixtureParam], def: DefId) -> Option<Value>
    ensures { result ≡ param_value params.now def }
{
    for param in params {
        if def.number() == param.def.number() {
            return Some(param.value);
        }
    }
    None
}

/// The parameter that the item of a node has for a definition.
pub(crate) fn param_at(setting: &RunSetting, node: u32, def: DefId) -> Option<Value>
    ensures { result ≡ param_value (item_with_node setting.now.suite node).params def }
{
    match setting.suite.item(node) {
        Some(item) => param_in(item.params.items(), def),
        None => None,
    }
}

fn no_text(alloc: Global) -> PyText
    ensures { result ≡ [] }
{
    PyText::from_vec(Vec::new(alloc))
}

/// A fixture without name: that of a number that no definition has.
pub(crate) fn nameless(alloc: Global) -> Fixture
    ensures { result ≡ no_fixture }
{
    Fixture {
        name: no_text(alloc),
        function: Value::None,
        in_class: false,
        arguments: Seq::new(alloc),
        scope: Scope::Function,
        yields: false,
        defined: TraceFrame {
            path: no_text(alloc),
            line: 0,
            name: no_text(alloc),
        },
    }
}
