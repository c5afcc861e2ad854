ghost use Rattle.std.specs.Prelude.{◌≡◌, ◌<◌, List, [], ◌∷◌, length, Some, None, IfOk, OnOk};
ghost use Rattle.session_rules.specs.Demand.{NewInstance, making_of};
ghost use Rattle.fixture_instances.specs.Views.{body_end, set_up_end, slot_of, told_of};
ghost use Rattle.setup_stack.specs.Making.{made_with};

use crate::lists::alone;
use fixture_instances::{BodyEnd, CachedResult, Executor, ItemRef, SetUpEnd};
use fixture_table::Table;
use seq::{OutOfMemory, Seq};
use session_types::DefId;
use std::alloc::Global;

/// What was made of a fixture whose function ended: what is kept of it, and what is answered.
pub struct SetUpOutcome<V, E, R> {
    pub held: CachedResult<V, E, R>,
    pub told: SetUpEnd<V, Seq<E>>,
}

/// What was kept, as it is answered: an exception is raised again, with its trace.
pub fn tell<W: Executor>(
    alloc: Global,
    world: &W,
    kept: &SetUpEnd<W::Value, W::Thrown>,
) -> Result<SetUpEnd<W::Value, Seq<W::Thrown>>, OutOfMemory>
    ensures { IfOk result (λ told. told ≡ told_of kept.now) }
{
    match kept {
        SetUpEnd::Value(value) => Ok(SetUpEnd::Value(*value)),
        SetUpEnd::Failure(thrown) => {
            let copy = world.copied(thrown)?;
            let list = alone(alloc, copy)?;
            Ok(SetUpEnd::Failure(list))
        }
    }
}

/// A set-up that raised: the exception is kept, and is the answer.
fn failed<W: Executor>(
    alloc: Global,
    world: &W,
    request: Option<W::Value>,
    thrown: W::Thrown,
) -> Result<SetUpOutcome<W::Value, W::Thrown, W::Rest>, OutOfMemory>
    ensures { IfOk result (λ made. made ≡ record { held = record { kept = SetUpEnd.Failure thrown; rest = None; request = request }; told = SetUpEnd.Failure (thrown ∷ []) }) }
{
    let copy = world.copied(&thrown)?;
    let list = alone(alloc, copy)?;
    Ok(SetUpOutcome {
        held: CachedResult {
            kept: SetUpEnd::Failure(thrown),
            rest: None,
            request,
        },
        told: SetUpEnd::Failure(list),
    })
}

/// A set-up that gave a value, and what remains of its function.
fn gave<V: Copy, E, R>(value: V, rest: Option<R>, request: Option<V>) -> SetUpOutcome<V, E, R>
    ensures { result ≡ record { held = record { kept = SetUpEnd.Value value; rest = rest; request = request }; told = SetUpEnd.Value value } }
{
    SetUpOutcome {
        held: CachedResult {
            kept: SetUpEnd::Value(value),
            rest,
            request,
        },
        told: SetUpEnd::Value(value),
    }
}

/// A function that returned: its value is that of a fixture without `yield`, and one with a `yield` has failed.
fn returned<W: Executor>(
    alloc: Global,
    world: &mut W,
    setting: &W::Setting,
    table: &Table,
    item: &ItemRef<W::Value>,
    def: DefId,
    request: Option<W::Value>,
    value: W::Value,
) -> Result<SetUpOutcome<W::Value, W::Thrown, W::Rest>, OutOfMemory>
    requires known { W.knows setting.now table.now item.now }
    requires def { def < length table.now.defs }
    ensures made { IfOk result (λ made. made_with (W.rules setting.now) made.held world.new ≡ making_of (W.rules setting.now) def request (body_end (W.rules setting.now) (BodyEnd.Returned value)) world.old) }
    ensures told { IfOk result (λ made. made.told ≡ told_of made.held.kept) }
{
    if world.yields(setting, table, item, def) {
        let thrown = world.did_not_yield(setting, table, item, def)?;
        let made = failed(alloc, world, request, thrown)?;
        return Ok(made);
    }
    Ok(gave(value, None, request))
}

/// What is made of a fixture whose function ended.
pub fn make<W: Executor>(
    alloc: Global,
    world: &mut W,
    setting: &W::Setting,
    table: &Table,
    item: &ItemRef<W::Value>,
    def: DefId,
    request: Option<W::Value>,
    end: BodyEnd<W::Value, W::Thrown, W::Rest>,
) -> Result<SetUpOutcome<W::Value, W::Thrown, W::Rest>, OutOfMemory>
    requires known { W.knows setting.now table.now item.now }
    requires def { def < length table.now.defs }
    ensures made { IfOk result (λ made. made_with (W.rules setting.now) made.held world.new ≡ making_of (W.rules setting.now) def request (body_end (W.rules setting.now) end) world.old) }
    ensures told { IfOk result (λ made. made.told ≡ told_of made.held.kept) }
{
    match end {
        BodyEnd::Returned(value) => {
            let made = returned(alloc, world, setting, table, item, def, request, value)?;
            Ok(made)
        }
        BodyEnd::Yielded(value, rest) => Ok(gave(value, Some(rest), request)),
        BodyEnd::Raised(thrown) => {
            let made = failed(alloc, world, request, thrown)?;
            Ok(made)
        }
    }
}
