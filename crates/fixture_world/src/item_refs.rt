// An item, as its set-up sees it.

ghost use Rattle.std.specs.Prelude.{◌≡◌, IfOk, map};
ghost use Rattle.fixture_world.specs.Items.{bound_argument, demanding, item_param};

use fixture_instances::{BoundValue, ItemParam, ItemRef};
use py_values::value::Value;
use seq::{CharText, OutOfMemory, Seq};
use std::alloc::Global;
use test_suite::{BoundArgument, FixtureParam, Item};

fn bound_values(
    alloc: Global,
    bound: &[BoundArgument],
) -> Result<Seq<BoundValue<Value>>, OutOfMemory>
    ensures { IfOk result (λ values. values ≡ map bound_argument bound.now) }
{
    let mut values = Seq::new(alloc);
    for one in bound {
        values.push(BoundValue {
            name: one.number,
            value: one.value,
        })?;
    }
    Ok(values)
}

fn item_param(alloc: Global, param: &FixtureParam) -> Result<ItemParam<Value>, OutOfMemory>
    ensures { IfOk result (λ p. p ≡ item_param param.now) }
{
    let id = CharText::from_str(alloc, param.id.text())?;
    Ok(ItemParam {
        def: param.def,
        number: param.number,
        value: param.value,
        id,
    })
}

fn item_params(alloc: Global, params: &[FixtureParam]) -> Result<Seq<ItemParam<Value>>, OutOfMemory>
    ensures { IfOk result (λ ps. ps ≡ map item_param params.now) }
{
    let mut copies = Seq::new(alloc);
    for param in params {
        copies.push(item_param(alloc, param)?)?;
    }
    Ok(copies)
}

/// An item as its set-up sees it, with what its row binds and gives to fixtures, and this instance of its class.
pub fn demanding(
    alloc: Global,
    item: &Item,
    own: Option<Value>,
) -> Result<ItemRef<Value>, OutOfMemory>
    ensures { IfOk result (λ at. at ≡ record (demanding item.now) { own = own }) }
{
    let bound = bound_values(alloc, item.bound.items())?;
    let params = item_params(alloc, item.params.items())?;
    Ok(ItemRef {
        node: item.node,
        own,
        bound,
        params,
    })
}
