// An item by what its row binds and gives to fixtures.

ghost use Rattle.std.specs.Prelude.{◌≡◌, ◌∷◌, [], IfOk, map};
ghost use Rattle.test_session.specs.Stacks as stacks;
ghost use Rattle.test_suite.specs.Suites.{no_item};

use crate::known::text_or;
use collect_names::found::TestFunction;
use fixture_instances::{BoundValue, ItemParam, ItemRef};
use py_values::rows::Values;
use py_values::value::Value;
use py_world::TraceFrame;
use report_parts::Text;
use seq::{OutOfMemory, PyText, Seq};
use std::alloc::Global;
use test_suite::{BoundArgument, FixtureParam, Item, ItemClosure};

fn no_text(alloc: Global) -> Text
    ensures { result ≡ [] }
{
    Text::from_string(String::new(alloc))
}

fn no_name(alloc: Global) -> PyText
    ensures { result ≡ [] }
{
    PyText::from_vec(Vec::new(alloc))
}

/// What a row binds.
fn bound_known(
    alloc: Global,
    names: &[PyText],
    bound: &[BoundValue<Value>],
) -> Result<Seq<BoundArgument>, OutOfMemory>
    ensures { IfOk result (λ all. all ≡ map (stacks.bound_known names.now) bound.now) }
{
    let mut all = Seq::new(alloc);
    for one in bound {
        all.push(BoundArgument {
            name: text_or(alloc, names, one.name)?,
            number: one.name,
            value: one.value,
        })?;
    }
    Ok(all)
}

/// What a row gives to fixtures.
fn params_known(
    alloc: Global,
    params: &[ItemParam<Value>],
) -> Result<Seq<FixtureParam>, OutOfMemory>
    ensures { IfOk result (λ all. all ≡ map stacks.param_known params.now) }
{
    let mut all = Seq::new(alloc);
    for one in params {
        all.push(FixtureParam {
            def: one.def,
            number: one.number,
            value: one.value,
            id: no_text(alloc),
        })?;
    }
    Ok(all)
}

/// An item without names, at a node.
fn item_with(alloc: Global, node: u32, bound: Seq<BoundArgument>, params: Seq<FixtureParam>) -> Item
    ensures { result ≡ record no_item { node = node; bound = bound; params = params } }
{
    Item {
        node_id: no_text(alloc),
        title: no_text(alloc),
        file: no_text(alloc),
        name: no_name(alloc),
        id: None,
        test: TestFunction {
            class: None,
            name: no_name(alloc),
            function: Value::None,
        },
        defined: TraceFrame {
            path: no_name(alloc),
            line: 0,
            name: no_name(alloc),
        },
        marks: Values::from_vec(Vec::new(alloc)),
        node,
        arguments: Seq::new(alloc),
        asked: Seq::new(alloc),
        bound,
        params,
        empty: false,
        closure: ItemClosure::Whole(Seq::new(alloc)),
    }
}

/// The item alone.
pub(crate) fn one_item(
    alloc: Global,
    names: &[PyText],
    item: &ItemRef<Value>,
) -> Result<Seq<Item>, OutOfMemory>
    ensures { IfOk result (λ items. items ≡ stacks.item_known names.now item.now ∷ []) }
{
    let bound = bound_known(alloc, names, item.bound.items())?;
    let params = params_known(alloc, item.params.items())?;
    let mut items = Seq::new(alloc);
    items.push(item_with(alloc, item.node, bound, params))?;
    Ok(items)
}
