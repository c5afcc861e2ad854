// The order of items.

ghost use Rattle.std.specs.Prelude.{◌≡◌, IfOk, map};
ghost use Rattle.collect_fixtures.specs.Closures.{fixture_numbered};
ghost use Rattle.collect_items.specs.Chosen as choice;

use collect_names::found::TestClass;
use collect_rows::FoundItem;
use collection_nodes::narrow;
use fixture_definitions::Definition;
use param_rows::{ItemKeys, Params, regroup};
use seq::OutOfMemory;
use session_types::{DefId, Scope};
use std::alloc::Global;
use test_suite::FixtureParam;

/// The scope of a definition.
fn scope_of(definitions: &[Definition], def: DefId) -> Scope
    ensures { result ≡ (fixture_numbered definitions.now def).scope }
{
    match definitions.get(def.number() as usize) {
        Some(one) => one.fixture.scope,
        None => Scope::Function,
    }
}

/// What an item needs of parametrised fixtures.
fn param_keys(
    alloc: Global,
    definitions: &[Definition],
    params: &[FixtureParam],
) -> Result<Params, OutOfMemory>
    ensures { IfOk result (λ keys. keys ≡ map (choice.param_key definitions.now) params.now) }
{
    let mut keys = Params::new(alloc);
    for one in params {
        let scope = scope_of(definitions, one.def);
        keys.push((scope, one.def.number(), one.number))?;
    }
    Ok(keys)
}

fn class_key(parent: u32, class: &Option<TestClass>) -> Option<u32>
    ensures { result ≡ choice.class_key parent class.now }
{
    match class {
        Some(_) => Some(parent),
        None => None,
    }
}

/// What the order of an item goes by.
fn item_keys(
    alloc: Global,
    definitions: &[Definition],
    one: &FoundItem,
) -> Result<ItemKeys, OutOfMemory>
    ensures { IfOk result (λ keys. keys ≡ choice.item_keys definitions.now one.now) }
{
    let params = param_keys(alloc, definitions, one.row.params.items())?;
    Ok(ItemKeys {
        file: narrow(one.place)?,
        class: class_key(one.parent, &one.test.class),
        params,
    })
}

/// What the order of items goes by.
pub fn keys_of(
    alloc: Global,
    definitions: &[Definition],
    found: &[FoundItem],
) -> Result<Vec<ItemKeys>, OutOfMemory>
    ensures { IfOk result (λ keys. keys.items ≡ map (choice.item_keys definitions.now) found.now) }
{
    let mut keys = Vec::new(alloc);
    for one in found {
        let key = item_keys(alloc, definitions, one)?;
        keys.push(key)?;
    }
    Ok(keys)
}

fn copied(alloc: Global, keys: &ItemKeys) -> Result<ItemKeys, OutOfMemory>
    ensures { IfOk result (λ copy. copy ≡ keys.now) }
{
    let params = keys.params.copied(alloc)?;
    Ok(ItemKeys {
        file: keys.file,
        class: keys.class,
        params,
    })
}

fn keys_numbered(alloc: Global, keys: &[ItemKeys], number: usize) -> Result<ItemKeys, OutOfMemory>
    ensures { IfOk result (λ k. k ≡ choice.keys_numbered keys.now number) }
{
    if number >= keys.len() {
        // Numbers are those of items.
        return Err(OutOfMemory);
    }
    copied(alloc, &keys[number])
}

fn all_numbered(
    alloc: Global,
    keys: &[ItemKeys],
    numbers: &[usize],
) -> Result<Vec<ItemKeys>, OutOfMemory>
    ensures { IfOk result (λ k. k.items ≡ map (choice.keys_numbered keys.now) numbers.now) }
{
    let mut all = Vec::new(alloc);
    for number in numbers {
        let key = keys_numbered(alloc, keys, *number)?;
        all.push(key)?;
    }
    Ok(all)
}

fn number_at(numbers: &[usize], place: usize) -> Result<usize, OutOfMemory>
    ensures { IfOk result (λ n. n ≡ choice.number_at numbers.now place) }
{
    if place >= numbers.len() {
        // Places are those of numbers.
        return Err(OutOfMemory);
    }
    Ok(numbers[place])
}

fn all_at(alloc: Global, numbers: &[usize], places: &[usize]) -> Result<Vec<usize>, OutOfMemory>
    ensures { IfOk result (λ n. n.items ≡ map (choice.number_at numbers.now) places.now) }
{
    let mut all = Vec::new(alloc);
    for place in places {
        all.push(number_at(numbers, *place)?)?;
    }
    Ok(all)
}

/// The numbers of items in the order in which they run: those with the same parameters of a broad scope stand side by side.
#[tactic(auto, unfolding(crate::specs::Chosen::ordered))]
pub fn ordered(
    alloc: Global,
    keys: &[ItemKeys],
    numbers: &[usize],
) -> Result<Vec<usize>, OutOfMemory>
    ensures { IfOk result (λ n. n.items ≡ choice.ordered keys.now numbers.now) }
{
    let some = all_numbered(alloc, keys, numbers)?;
    let places = regroup(alloc, &some)?;
    all_at(alloc, numbers, &places)
}
