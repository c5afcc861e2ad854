ghost use Rattle.std.specs.Prelude.{◌≡◌, List, [], ◌∷◌, ◌++◌, Some, None, IfOk, OnOk, true};
ghost use Rattle.session_rules.specs.Frames.{IsOutWhereYielded};
ghost use Rattle.session_rules.specs.Teardown.{TeardownEnd, torn, finalize_all, rest_ended, rest_resumed, closed_request};
ghost use Rattle.fixture_instances.specs.Views.{body_end, closed_with};

use crate::lists::{alone, push_if};
use fixture_instances::{BodyEnd, Executor};
use seq::{OutOfMemory, Seq};
use session_types::DefId;
use std::alloc::Global;

/// What the end of what remained behind a `yield` has raised. A second `yield` is given up, and is an exception.
fn end_rest<W: Executor>(
    alloc: Global,
    world: &mut W,
    setting: &W::Setting,
    def: DefId,
    end: BodyEnd<W::Value, W::Thrown, W::Rest>,
) -> Result<Seq<W::Thrown>, OutOfMemory>
    requires out { IsOutWhereYielded (body_end (W.rules setting.now) end) W.is_out world.old }
    ensures { IfOk result (λ raised. torn raised world.new ≡ rest_ended (W.rules setting.now) def (body_end (W.rules setting.now) end) world.old) }
{
    match end {
        BodyEnd::Returned(_) => Ok(Seq::new(alloc)),
        BodyEnd::Raised(thrown) => {
            let raised = alone(alloc, thrown)?;
            Ok(raised)
        }
        BodyEnd::Yielded(_, rest) => {
            world.abandon(setting, rest);
            let thrown = world.yielded_again(setting, def)?;
            let raised = alone(alloc, thrown)?;
            Ok(raised)
        }
    }
}

/// What remains behind a `yield` is resumed, where there is something.
pub fn resume_rest<W: Executor>(
    alloc: Global,
    world: &mut W,
    setting: &W::Setting,
    def: DefId,
    rest: Option<W::Rest>,
) -> Result<Seq<W::Thrown>, OutOfMemory>
    requires out { (r : W.Rest) → rest ≡ Some r → W.is_out r world.old ≡ true }
    ensures { IfOk result (λ raised. torn raised world.new ≡ rest_resumed (W.rules setting.now) def rest world.old) }
{
    match rest {
        None => Ok(Seq::new(alloc)),
        Some(rest) => {
            let end = world.resume(setting, rest)?;
            let raised = end_rest(alloc, world, setting, def, end)?;
            Ok(raised)
        }
    }
}

/// All finalizers are called, whatever raises.
pub fn finalize_each<W: Executor>(
    world: &mut W,
    setting: &W::Setting,
    finalizers: &[W::Value],
    raised: &mut Seq<W::Thrown>,
) -> Result<(), OutOfMemory>
    ensures { OnOk result (torn raised.new world.new ≡ finalize_all (W.rules setting.now) finalizers.now (torn raised.old world.old)) }
{
    for finalizer in finalizers {
        let one = world.finalize(setting, *finalizer)?;
        push_if(raised, one)?;
    }
    Ok(())
}

/// A `request` takes no finalizers from here on; those that it had, latest first.
pub fn close_request<W: Executor>(
    alloc: Global,
    world: &mut W,
    setting: &W::Setting,
    request: Option<W::Value>,
) -> Result<Seq<W::Value>, OutOfMemory>
    ensures { IfOk result (λ finalizers. closed_with (W.rules setting.now) finalizers world.new ≡ closed_request (W.rules setting.now) request world.old) }
{
    match request {
        None => Ok(Seq::new(alloc)),
        Some(request) => {
            let finalizers = world.close(setting, request)?;
            Ok(finalizers)
        }
    }
}

/// What remains of an instance whose `request` is closed is resumed, and then its finalizers are called.
pub fn tear<W: Executor>(
    alloc: Global,
    world: &mut W,
    setting: &W::Setting,
    def: DefId,
    rest: Option<W::Rest>,
    finalizers: &[W::Value],
) -> Result<Seq<W::Thrown>, OutOfMemory>
    requires out { (r : W.Rest) → rest ≡ Some r → W.is_out r world.old ≡ true }
    ensures { IfOk result (λ raised. torn raised world.new ≡ finalize_all (W.rules setting.now) finalizers.now (rest_resumed (W.rules setting.now) def rest world.old)) }
{
    let mut raised = resume_rest(alloc, world, setting, def, rest)?;
    finalize_each(world, setting, finalizers, &mut raised)?;
    Ok(raised)
}
