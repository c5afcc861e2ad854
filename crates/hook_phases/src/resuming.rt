// What remains of a wrapper.

ghost use Rattle.std.specs.Prelude.{◌≡◌, Option, Some, option_map, true};
ghost use Rattle.hook_order.specs.Answers.{HandsOnWant, IfInner};
ghost use Rattle.hook_phases.specs.Phases.{phase_of};
ghost use Rattle.hook_phases.specs.Steps.{GivesUp, IsValue, place_of};
ghost use Rattle.hook_phases.specs.Views.{frame_kept, several, stage_view, wrapper_end};
ghost use Rattle.session_rules.specs.Frames.{IsOutWhereYielded};
ghost use Rattle.session_rules.specs.HookFollows.{RanAs, inner_of};
ghost use Rattle.session_rules.specs.Hooks.{AllValues, HookInner, InnerGave, InnerRaised};
ghost use Rattle.session_rules.specs.Session.{did_world, hook_runner, left_by, resuming};
ghost use Rattle.session_rules.specs.World.{Exceptions as SessionExceptions, Item as SessionItem, Yielded, language};

use crate::answers::{Exceptions, HookFrame, WrapperEnd};
use crate::calling::single;
use crate::phase::HookPhase;
use crate::stage::HookStage;
use hook_order::{Impl, Inner, Ran};
use std::alloc::Global;

/// A wrapper yielded again: it is given up.
fn yielded_again<S: HookStage>(
    alloc: Global,
    stage: &mut S,
    setting: &S::Setting,
    which: &Impl,
    value: S::Value,
    rest: S::Rest,
) -> Ran<S::Value, Exceptions<S::Thrown>>
    requires here { S.stands setting.now stage.old }
    requires out { S.is_out rest (S.state stage.old).world ≡ true }
    ensures run { (inside : HookInner S.Value (SessionExceptions (language S.World S.Value S.Thrown S.Rest S.Told S.is_bad))) → RanAs (stage_view (language S.World S.Value S.Thrown S.Rest S.Told S.is_bad)) (did_world (S.state stage.old) (resuming (S.rules setting.now) which.now inside (Yielded value rest) (S.state stage.old).world)) (S.state stage.old) result (S.state stage.new) }
    ensures here { S.stands setting.now stage.new }
{
    drop(value);
    stage.abandon(setting, rest);
    match stage.wrapper_yielded_again(setting, which) {
        Ok(thrown) => Ran::Raised(single(alloc, thrown)),
        Err(_) => Ran::OutOfMemory,
    }
}

/// How a wrapper that got no exception ended.
fn behind_value<S: HookStage>(
    alloc: Global,
    stage: &mut S,
    setting: &S::Setting,
    which: &Impl,
    end: WrapperEnd<S::Value, S::Thrown, S::Rest>,
) -> Ran<S::Value, Exceptions<S::Thrown>>
    requires here { S.stands setting.now stage.old }
    requires out { IsOutWhereYielded (wrapper_end (language S.World S.Value S.Thrown S.Rest S.Told S.is_bad) end) S.is_out (S.state stage.old).world }
    ensures run { (inside : HookInner S.Value (SessionExceptions (language S.World S.Value S.Thrown S.Rest S.Told S.is_bad))) → IsValue inside → RanAs (stage_view (language S.World S.Value S.Thrown S.Rest S.Told S.is_bad)) (did_world (S.state stage.old) (resuming (S.rules setting.now) which.now inside (wrapper_end (language S.World S.Value S.Thrown S.Rest S.Told S.is_bad) end) (S.state stage.old).world)) (S.state stage.old) result (S.state stage.new) }
    ensures here { S.stands setting.now stage.new }
{
    match end {
        WrapperEnd::Returned(value) => Ran::Gave(S::unless_none(setting, value)),
        WrapperEnd::Raised(thrown) => Ran::Raised(single(alloc, thrown)),
        WrapperEnd::Yielded(value, rest) => yielded_again(
            alloc, stage, setting, which, value, rest,
        ),
    }
}

/// What leaves a wrapper that got these exceptions: where it is the first of them, all are handed on.
fn left_by<S: HookStage>(
    alloc: Global,
    setting: &S::Setting,
    got: Exceptions<S::Thrown>,
    thrown: S::Thrown,
) -> Exceptions<S::Thrown>
    ensures { several (language S.World S.Value S.Thrown S.Rest S.Told S.is_bad) result ≡ left_by (S.rules setting.now) (InnerRaised (several (language S.World S.Value S.Thrown S.Rest S.Told S.is_bad) got)) thrown }
{
    if S::is_same_object(setting, &thrown, &got.first) {
        drop(thrown);
        return got;
    }
    drop(got);
    single(alloc, thrown)
}

/// How a wrapper that got these exceptions ended.
fn behind_exceptions<S: HookStage>(
    alloc: Global,
    stage: &mut S,
    setting: &S::Setting,
    which: &Impl,
    got: Exceptions<S::Thrown>,
    end: WrapperEnd<S::Value, S::Thrown, S::Rest>,
) -> Ran<S::Value, Exceptions<S::Thrown>>
    requires here { S.stands setting.now stage.old }
    requires out { IsOutWhereYielded (wrapper_end (language S.World S.Value S.Thrown S.Rest S.Told S.is_bad) end) S.is_out (S.state stage.old).world }
    ensures run { RanAs (stage_view (language S.World S.Value S.Thrown S.Rest S.Told S.is_bad)) (did_world (S.state stage.old) (resuming (S.rules setting.now) which.now (InnerRaised (several (language S.World S.Value S.Thrown S.Rest S.Told S.is_bad) got)) (wrapper_end (language S.World S.Value S.Thrown S.Rest S.Told S.is_bad) end) (S.state stage.old).world)) (S.state stage.old) result (S.state stage.new) }
    ensures here { S.stands setting.now stage.new }
{
    match end {
        WrapperEnd::Returned(value) => {
            drop(got);
            Ran::Gave(S::unless_none(setting, value))
        }
        WrapperEnd::Raised(thrown) => Ran::Raised(left_by::<S>(alloc, setting, got, thrown)),
        WrapperEnd::Yielded(value, rest) => {
            drop(got);
            yielded_again(alloc, stage, setting, which, value, rest)
        }
    }
}

/// Resumes a wrapper with the values that were gathered.
fn with_values<S: HookStage>(
    alloc: Global,
    stage: &mut S,
    setting: &S::Setting,
    phase: HookPhase,
    item: &S::Item,
    frame: HookFrame<S::Rest>,
) -> Ran<S::Value, Exceptions<S::Thrown>>
    requires here { S.stands setting.now stage.old }
    requires known { S.known setting.now item.now }
    requires out { S.is_out frame.rest (S.state stage.old).world ≡ true }
    ensures run { (next : Option SessionItem) → RanAs (stage_view (language S.World S.Value S.Thrown S.Rest S.Told S.is_bad)) ((hook_runner (S.rules setting.now) (record { phase = phase_of phase; item = S.session_item setting.now item.now; next = next })).resume (frame_kept (language S.World S.Value S.Thrown S.Rest S.Told S.is_bad) frame) AllValues (S.state stage.old)) (S.state stage.old) result (S.state stage.new) }
    ensures here { S.stands setting.now stage.new }
{
    let HookFrame { which, rest } = frame;
    match stage.resume_with_values(setting, phase, item, rest) {
        Ok(end) => behind_value(alloc, stage, setting, &which, end),
        Err(_) => Ran::OutOfMemory,
    }
}

/// Resumes a wrapper with what another gave.
fn with_value<S: HookStage>(
    alloc: Global,
    stage: &mut S,
    setting: &S::Setting,
    phase: HookPhase,
    item: &S::Item,
    frame: HookFrame<S::Rest>,
    value: Option<S::Value>,
) -> Ran<S::Value, Exceptions<S::Thrown>>
    requires here { S.stands setting.now stage.old }
    requires known { S.known setting.now item.now }
    requires out { S.is_out frame.rest (S.state stage.old).world ≡ true }
    ensures run { (next : Option SessionItem) → RanAs (stage_view (language S.World S.Value S.Thrown S.Rest S.Told S.is_bad)) ((hook_runner (S.rules setting.now) (record { phase = phase_of phase; item = S.session_item setting.now item.now; next = next })).resume (frame_kept (language S.World S.Value S.Thrown S.Rest S.Told S.is_bad) frame) (InnerGave value) (S.state stage.old)) (S.state stage.old) result (S.state stage.new) }
    ensures here { S.stands setting.now stage.new }
{
    let HookFrame { which, rest } = frame;
    match stage.resume_with_value(setting, phase, item, rest, value) {
        Ok(end) => behind_value(alloc, stage, setting, &which, end),
        Err(_) => Ran::OutOfMemory,
    }
}

/// Resumes a wrapper by exceptions: the first is raised at its `yield`.
fn with_exceptions<S: HookStage>(
    alloc: Global,
    stage: &mut S,
    setting: &S::Setting,
    phase: HookPhase,
    item: &S::Item,
    frame: HookFrame<S::Rest>,
    got: Exceptions<S::Thrown>,
) -> Ran<S::Value, Exceptions<S::Thrown>>
    requires here { S.stands setting.now stage.old }
    requires known { S.known setting.now item.now }
    requires out { S.is_out frame.rest (S.state stage.old).world ≡ true }
    ensures run { (next : Option SessionItem) → RanAs (stage_view (language S.World S.Value S.Thrown S.Rest S.Told S.is_bad)) ((hook_runner (S.rules setting.now) (record { phase = phase_of phase; item = S.session_item setting.now item.now; next = next })).resume (frame_kept (language S.World S.Value S.Thrown S.Rest S.Told S.is_bad) frame) (InnerRaised (several (language S.World S.Value S.Thrown S.Rest S.Told S.is_bad) got)) (S.state stage.old)) (S.state stage.old) result (S.state stage.new) }
    ensures here { S.stands setting.now stage.new }
{
    let HookFrame { which, rest } = frame;
    match stage.resume_with_exception(setting, phase, item, rest, &got.first) {
        Ok(end) => behind_exceptions(alloc, stage, setting, &which, got, end),
        Err(_) => {
            drop(got);
            Ran::OutOfMemory
        }
    }
}

/// Resumes a wrapper with how the rest of the hook call ended; with want of memory it is given up.
pub(crate) fn resume_one<S: HookStage>(
    alloc: Global,
    stage: &mut S,
    setting: &S::Setting,
    phase: HookPhase,
    item: &S::Item,
    frame: HookFrame<S::Rest>,
    inner: Inner<S::Value, Exceptions<S::Thrown>>,
) -> Ran<S::Value, Exceptions<S::Thrown>>
    requires here { S.stands setting.now stage.old }
    requires known { S.known setting.now item.now }
    requires out { IfInner inner (S.is_out frame.rest (S.state stage.old).world ≡ true) }
    ensures run { (next : Option SessionItem) (inside : HookInner S.Value (SessionExceptions (language S.World S.Value S.Thrown S.Rest S.Told S.is_bad))) → inner_of (stage_view (language S.World S.Value S.Thrown S.Rest S.Told S.is_bad)) inner ≡ Some inside
        → RanAs (stage_view (language S.World S.Value S.Thrown S.Rest S.Told S.is_bad)) ((hook_runner (S.rules setting.now) (record { phase = phase_of phase; item = S.session_item setting.now item.now; next = next })).resume (frame_kept (language S.World S.Value S.Thrown S.Rest S.Told S.is_bad) frame) inside (S.state stage.old)) (S.state stage.old) result (S.state stage.new) }
    ensures given_up { GivesUp S.given_up inner frame.rest (S.state stage.old) (S.state stage.new) }
    ensures here { S.stands setting.now stage.new }
    ensures want { HandsOnWant inner result }
{
    match inner {
        Inner::List => with_values(alloc, stage, setting, phase, item, frame),
        Inner::Gave(value) => with_value(alloc, stage, setting, phase, item, frame, value),
        Inner::Raised(got) => with_exceptions(alloc, stage, setting, phase, item, frame, got),
        Inner::OutOfMemory => {
            let HookFrame { which: _, rest } = frame;
            stage.give_up(setting, rest);
            Ran::OutOfMemory
        }
    }
}
