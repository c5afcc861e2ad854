// What the set-up of an item demands.

ghost use Rattle.std.specs.Prelude.{◌≡◌, ◌<◌, ◌++◌, ◌∷◌, [], IfOk, OnOk, MatchOption, None as NoDefinition, Some as Definition, Ok as Closed, Err as Faulty, length, map, option_copied};
ghost use Rattle.collection_nodes.specs.Texts.{number_among, text_numbered};
ghost use Rattle.fixture_definitions.specs.Arguments.{but_request};
ghost use Rattle.fixture_table.specs.Nearest.{nearest_of};
ghost use Rattle.fixture_table.specs.declared.fault.FixtureFault.TheVariants as fault;
ghost use Rattle.collect_fixtures.specs.Closures as closures;
ghost use Rattle.collect_fixtures.specs.Tables.{all_numbers};

use crate::tables::asked_numbers;
use collection_nodes::Mentions;
use fixture_definitions::{Definition, but_request};
use fixture_table::{FixtureFault, Table};
use py_values::end::push_ascii;
use seq::{OutOfMemory, PyText, Seq};
use session_types::{DefId, Scope};
use std::alloc::Global;
use test_suite::{Fixture, ItemClosure};

fn scope_name(scope: Scope) -> &'static str
    ensures { result.now ≡ closures.scope_name scope }
{
    match scope {
        Scope::Session => "session",
        Scope::Module => "module",
        Scope::Class => "class",
        Scope::Function => "function",
    }
}

/// The text of a name that no fixture has.
fn unknown_text(alloc: Global, name: &[char]) -> Result<PyText, OutOfMemory>
    ensures { IfOk result (λ t. t ≡ closures.unknown_text name.now) }
{
    let mut text = Vec::new(alloc);
    push_ascii(&mut text, "fixture '")?;
    text.extend_from_slice(name)?;
    push_ascii(&mut text, "' not found")?;
    Ok(PyText::from_vec(text))
}

/// The text of a fixture that leads back to itself.
fn recursive_text(alloc: Global, name: &[char]) -> Result<PyText, OutOfMemory>
    ensures { IfOk result (λ t. t ≡ closures.recursive_text name.now) }
{
    let mut text = Vec::new(alloc);
    push_ascii(&mut text, "recursive dependency involving fixture '")?;
    text.extend_from_slice(name)?;
    push_ascii(&mut text, "' detected")?;
    Ok(PyText::from_vec(text))
}

#[tactic(auto, unfolding(crate::specs::Closures::scope_and_name))]
fn push_scope(text: &mut Vec<char>, scope: Scope, name: &[char]) -> Result<(), OutOfMemory>
    ensures { OnOk result (text.new.items ≡ text.old.items ++ closures.scope_and_name scope name.now) }
{
    push_ascii(text, "scope '")?;
    push_ascii(text, scope_name(scope))?;
    push_ascii(text, "' fixture '")?;
    text.extend_from_slice(name)?;
    push_ascii(text, "'")
}

/// The text of a fixture that asks for one of a narrower scope.
fn mismatch_text(
    alloc: Global,
    fixture: &Fixture,
    inner: Scope,
    asked: &[char],
) -> Result<PyText, OutOfMemory>
    ensures { IfOk result (λ t. t ≡ closures.mismatch_text fixture.now inner asked.now) }
{
    let mut text = Vec::new(alloc);
    push_ascii(&mut text, "ScopeMismatch: ")?;
    push_scope(&mut text, fixture.scope, fixture.name.chars())?;
    push_ascii(&mut text, " requests ")?;
    push_scope(&mut text, inner, asked)?;
    Ok(PyText::from_vec(text))
}

/// The fixture of a definition.
fn fixture_of(definitions: &[Definition], def: DefId) -> &Fixture
    requires { def < length definitions.now }
    ensures { result.now ≡ closures.fixture_numbered definitions.now def }
{
    &definitions[def.number() as usize].fixture
}

fn scope_if(definitions: &[Definition], def: Option<DefId>) -> Scope
    requires { ForSome def (λ d. d < length definitions.now) }
    ensures { result ≡ closures.scope_if definitions.now def }
{
    match def {
        Some(def) => fixture_of(definitions, def).scope,
        None => Scope::Function,
    }
}

ghost use Rattle.std.specs.Option.{ForSome};

/// Whether a number is one of these.
fn is_among(number: u32, numbers: &[u32]) -> bool
    ensures { result ≡ among number numbers.now }
{
    numbers.iter().any(|one| *one == number)
}

ghost use Rattle.session_types.specs.Numbers.{among};

/// What a name stands for that a fixture asks for.
fn stands_for(
    table: &Table,
    names: &Mentions,
    definitions: &[Definition],
    item: u32,
    bound: &[u32],
    def: DefId,
    name: u32,
) -> Option<DefId>
    requires same { length definitions.now ≡ length table.now.defs }
    requires item { item < length table.now.nodes }
    requires def { def < length definitions.now }
    ensures stands { result ≡ closures.stands_for table.now names.now definitions.now item bound.now def name }
    ensures within { ForSome result (λ d. d < length definitions.now) }
{
    if is_among(name, bound) {
        return None;
    }
    if names.text(name) == fixture_of(definitions, def).name.chars() {
        return table.nearest(name, item, Some(def));
    }
    table.nearest(name, item, None)
}

/// The text of a fault of an item; there is none for a definition that isn't there.
fn told_mismatch(
    alloc: Global,
    table: &Table,
    names: &Mentions,
    definitions: &[Definition],
    item: u32,
    bound: &[u32],
    def: DefId,
    name: u32,
) -> Result<PyText, OutOfMemory>
    requires same { length definitions.now ≡ length table.now.defs }
    requires item { item < length table.now.nodes }
    ensures { IfOk result (λ t. t ≡ closures.told_fault table.now names.now definitions.now item bound.now (fault.ScopeMismatch def name)) }
{
    if def.number() as usize >= definitions.len() {
        // A fault is that of a definition.
        return Err(OutOfMemory);
    }
    let inner = stands_for(table, names, definitions, item, bound, def, name);
    mismatch_text(
        alloc,
        fixture_of(definitions, def),
        scope_if(definitions, inner),
        names.text(name),
    )
}

/// What is told of a fault of an item; want of memory is handed on.
fn told_fault(
    alloc: Global,
    table: &Table,
    names: &Mentions,
    definitions: &[Definition],
    item: u32,
    bound: &[u32],
    why: FixtureFault,
) -> Result<PyText, OutOfMemory>
    requires same { length definitions.now ≡ length table.now.defs }
    requires item { item < length table.now.nodes }
    ensures told { IfOk result (λ t. t ≡ closures.told_fault table.now names.now definitions.now item bound.now why) }
    ensures memory { IfOk result (λ t. why ≡ fault.OutOfMemory → ⊥) }
{
    match why {
        FixtureFault::Unknown(name) => unknown_text(alloc, names.text(name)),
        FixtureFault::Recursive(name) => recursive_text(alloc, names.text(name)),
        FixtureFault::ScopeMismatch(def, name) => {
            told_mismatch(alloc, table, names, definitions, item, bound, def, name)
        }
        FixtureFault::OutOfMemory => Err(OutOfMemory),
    }
}

/// A law: what an item needs is its closure, or its fault, as `fixture_table` defines them.
pub fn needs_decided()
    ensures closure { (table : TableValue) (item : ℕ) (bound uses args closure : List ℕ) → IsClosure table.nodes table.defs item bound uses args closure → closures.needed table item bound uses args ≡ Closed closure }
    ensures fault { (table : TableValue) (item : ℕ) (bound uses args : List ℕ) (why : FixtureFault) → IsFault table.nodes table.defs item bound uses args why → closures.needed table item bound uses args ≡ Faulty why }
{}

ghost use Rattle.std.specs.Prelude.{ℕ, List};
ghost use Rattle.fixture_table.specs.Faults.{IsClosure, IsFault};
ghost use Rattle.fixture_table.specs.Tables.{TableValue};
ghost use Rattle.fixture_table.specs.declared.fault.FixtureFault.{FixtureFault};

/// The closure of an item that uses these names and has these arguments, and whose row binds these, or what is told of its fault.
fn closure_told(
    alloc: Global,
    table: &Table,
    names: &Mentions,
    definitions: &[Definition],
    item: u32,
    bound: &[u32],
    uses: &[u32],
    args: &[u32],
) -> Result<ItemClosure, OutOfMemory>
    requires same { length definitions.now ≡ length table.now.defs }
    requires item { item < length table.now.nodes }
    ensures { IfOk result (λ c. c ≡ closures.closure_told table.now names.now definitions.now item bound.now (closures.needed table.now item bound.now uses.now args.now)) }
{
    needs_decided();
    match table.closure(item, bound, uses, args) {
        Ok(closure) => Ok(ItemClosure::Whole(Seq::from_vec(closure))),
        Err(why) => Ok(ItemClosure::Fault(told_fault(
            alloc,
            table,
            names,
            definitions,
            item,
            bound,
            why,
        )?)),
    }
}

/// The closure of the item with a node, whose row binds these names, or what is told of its fault.
#[tactic(auto, unfolding(crate::specs::Closures::item_closure, crate::specs::Closures::item_needs))]
pub fn item_closure(
    alloc: Global,
    table: &Table,
    names: &Mentions,
    definitions: &[Definition],
    item: u32,
    bound: &[u32],
    uses: &[PyText],
    arguments: &[PyText],
) -> Result<ItemClosure, OutOfMemory>
    requires same { length definitions.now ≡ length table.now.defs }
    requires item { item < length table.now.nodes }
    ensures { IfOk result (λ c. c ≡ closures.item_closure table.now names.now definitions.now item bound.now uses.now arguments.now) }
{
    let uses = names.numbers(alloc, uses)?;
    let args = asked_numbers(alloc, names, arguments)?;
    closure_told(
        alloc,
        table,
        names,
        definitions,
        item,
        bound,
        uses.items(),
        args.items(),
    )
}

/// A closure, unless there is a fault; want of memory is handed on.
fn closure_if(
    table: &Table,
    item: u32,
    bound: &[u32],
    uses: &[u32],
    args: &[u32],
) -> Result<Option<Seq<DefId>>, OutOfMemory>
    requires { item < length table.now.nodes }
    ensures { IfOk result (λ c. c ≡ closures.closure_if (closures.needed table.now item bound.now uses.now args.now)) }
{
    needs_decided();
    match table.closure(item, bound, uses, args) {
        Ok(closure) => Ok(Some(Seq::from_vec(closure))),
        Err(FixtureFault::Unknown(_)) => Ok(None),
        Err(FixtureFault::Recursive(_)) => Ok(None),
        Err(FixtureFault::ScopeMismatch(_, _)) => Ok(None),
        Err(FixtureFault::OutOfMemory) => Err(OutOfMemory),
    }
}

/// The closure of an item at a node whose row binds these names, unless there is a fault.
#[tactic(auto, unfolding(crate::specs::Closures::item_needs))]
pub fn closure_unless_fault(
    alloc: Global,
    table: &Table,
    names: &Mentions,
    item: u32,
    bound: &[u32],
    uses: &[PyText],
    arguments: &[PyText],
) -> Result<Option<Seq<DefId>>, OutOfMemory>
    requires { item < length table.now.nodes }
    ensures { IfOk result (λ c. c ≡ closures.closure_if (closures.item_needs table.now names.now item bound.now uses.now arguments.now)) }
{
    let uses = names.numbers(alloc, uses)?;
    let args = asked_numbers(alloc, names, arguments)?;
    closure_if(table, item, bound, uses.items(), args.items())
}

/// Pushes the definition that an argument stands for, unless its row binds it.
#[tactic(auto, unfolding(crate::specs::Closures::asked_for))]
fn push_asked(
    alloc: Global,
    asked: &mut Seq<Option<DefId>>,
    table: &Table,
    names: &Mentions,
    item: u32,
    bound: &[u32],
    name: &PyText,
) -> Result<(), OutOfMemory>
    requires { item < length table.now.nodes }
    ensures { OnOk result (asked.new ≡ asked.old ++ closures.asks_for table.now names.now item bound.now name.now) }
{
    let number = names.number(alloc, name.chars())?;
    if is_among(number, bound) {
        return Ok(());
    }
    asked.push(table.nearest(number, item, None))
}

fn asked_for_all(
    alloc: Global,
    table: &Table,
    names: &Mentions,
    item: u32,
    bound: &[u32],
    some: &[PyText],
) -> Result<Seq<Option<DefId>>, OutOfMemory>
    requires { item < length table.now.nodes }
    ensures { IfOk result (λ asked. asked ≡ flat_map (closures.asks_for table.now names.now item bound.now) some.now) }
{
    let mut asked = Seq::new(alloc);
    for name in some {
        push_asked(alloc, &mut asked, table, names, item, bound, name)?;
    }
    Ok(asked)
}

ghost use Rattle.std.specs.List.{flat_map};

/// The definitions that the arguments of the item with a node stand for, but for those that its row binds.
#[tactic(auto, unfolding(crate::specs::Closures::item_asks))]
pub fn item_asks(
    alloc: Global,
    table: &Table,
    names: &Mentions,
    item: u32,
    bound: &[u32],
    arguments: &[PyText],
) -> Result<Seq<Option<DefId>>, OutOfMemory>
    requires { item < length table.now.nodes }
    ensures { IfOk result (λ asked. asked ≡ closures.item_asks table.now names.now item bound.now arguments.now) }
{
    let some = but_request(alloc, arguments)?;
    asked_for_all(alloc, table, names, item, bound, some.items())
}
