// The hook call for a value.

ghost use Rattle.std.specs.Prelude.{◌≡◌, ◌∷◌, List, IfOk, Some, codes, true};
ghost use Rattle.runtest_rules.specs.fixture_calls.Yields.{fixture_abandoned};
ghost use Rattle.runtest_rules.specs.fixture_calls.declared.failure.Failure.{Failure as Failed};
ghost use Rattle.runtest_rules.specs.fixture_calls.Hooks.{resumed_with_value};
ghost use Rattle.hook_order.specs.Answers.{HandsOnWant, IfEnded, IfInner};
ghost use Rattle.hook_order.specs.HookOrder.{InHookOrder};
ghost use Rattle.py_values.specs.declared.value.Value.{Value as PyValue};
ghost use Rattle.py_world.specs.Resuming.{is_out};
ghost use Rattle.runtest_rules.specs.Rules.{call_answer, wrapper_fault};
ghost use Rattle.session_rules.specs.HookFollows.{OpenedAs, RanAs, inner_of};
ghost use Rattle.session_rules.specs.Hooks.{HookInner, InnerRaised, first_call};
ghost use Rattle.test_suite.specs.Hooks.{hook_at};
ghost use Rattle.collect_ids.specs.Hook as id_hook;
ghost use Rattle.collect_ids.specs.Runs as runs;
ghost use Rattle.collect_ids.specs.Runs.{IsOutBehind, IsValue, RunBegins, RunCalls, RunResumes, RunWaits, Runs, site_of, site_runner, world_view};
ghost use Rattle.collect_ids.specs.declared.hook.IdFrame.{IdFrame as Waiting};

use hook_order::{Impl, Inner, Opened, Ran, Runner, call_first};
use py_values::value::Value;
use runtest_rules::{
    CallEnd, Failure, FixtureEnd, Frozen, New, World, abandon, begin_hook, call_hook, give_up,
    is_same_exception, make, not_none, resume_hook_by, resume_hook_with_value,
    wrapper_did_not_yield, wrapper_yielded_again,
};
use seq::{OutOfMemory, PyText};
use std::alloc::Global;
use test_suite::{Hook, HookTable};

/// A wrapper that stands at its `yield`; it must be resumed or given up.
pub(crate) struct IdFrame {
    pub(crate) which: Impl,
    pub(crate) rest: Frozen,
}

/// A world while the hook is called for a value.
#[derive(Drop)]
pub(crate) struct IdRun<'w, 't> {
    alloc: Global,
    world: &'w mut World,
    table: &'t HookTable,
    limit: u64,
    value: Value,
    /// The text of the name of its argument.
    name: Value,
}

fn call_end(end: CallEnd) -> Ran<Value, Failure>
    ensures { runs.ran_told result ≡ Some (call_answer end) }
{
    match end {
        CallEnd::Returned(value) => Ran::Gave(not_none(value)),
        CallEnd::Raised(failure) => Ran::Raised(failure),
    }
}

/// Calls an implementation that is no wrapper.
fn call_one(
    alloc: Global,
    world: &mut World,
    table: &HookTable,
    limit: u64,
    value: Value,
    name: Value,
    which: &Impl,
) -> Ran<Value, Failure>
    ensures { RanAs world_view ((id_hook.id_runner limit table.now value name).call which.now world.old) world.old result world.new }
{
    let none = Hook::none(alloc);
    let hook = table.hook_or(which.code, &none);
    match call_hook(alloc, world, hook, Some(value), Some(name), limit) {
        Ok(end) => call_end(end),
        Err(_) => Ran::OutOfMemory,
    }
}

/// A wrapper ended without yielding.
fn did_not_yield(
    alloc: Global,
    world: &mut World,
    table: &HookTable,
    which: &Impl,
) -> Opened<IdFrame, Failure>
    ensures { OpenedAs world_view (id_hook.hook_step (id_hook.open_raised (wrapper_fault (hook_at table.now which.now.code) (codes "hook wrapper did not yield") world.old))) world.old result world.new }
{
    let none = Hook::none(alloc);
    match wrapper_did_not_yield(alloc, world, table.hook_or(which.code, &none)) {
        Ok(failure) => Opened::Raised(failure),
        Err(_) => Opened::OutOfMemory,
    }
}

/// How a wrapper whose function ended so began.
fn opened(
    alloc: Global,
    world: &mut World,
    table: &HookTable,
    limit: u64,
    which: &Impl,
    end: FixtureEnd,
) -> Opened<IdFrame, Failure>
    ensures { OpenedAs world_view (id_hook.hook_step (id_hook.id_opened limit table.now which.now (end, world.old))) world.old result world.new }
{
    match end {
        FixtureEnd::Returned(_) => did_not_yield(alloc, world, table, which),
        FixtureEnd::Yielded(_, rest) => Opened::Yielded(IdFrame {
            which: *which,
            rest,
        }),
        FixtureEnd::Raised(failure) => Opened::Raised(failure),
    }
}

/// Runs a wrapper up to its `yield`.
fn open_one(
    alloc: Global,
    world: &mut World,
    table: &HookTable,
    limit: u64,
    value: Value,
    name: Value,
    which: &Impl,
) -> Opened<IdFrame, Failure>
    ensures { OpenedAs world_view ((id_hook.id_runner limit table.now value name).begin which.now world.old) world.old result world.new }
{
    let none = Hook::none(alloc);
    let hook = table.hook_or(which.code, &none);
    match begin_hook(alloc, world, hook, Some(value), Some(name), limit) {
        Ok(end) => opened(alloc, world, table, limit, which, end),
        Err(_) => Opened::OutOfMemory,
    }
}

/// A wrapper yielded again: it is given up.
fn yielded_again(
    alloc: Global,
    world: &mut World,
    table: &HookTable,
    which: &Impl,
    rest: Frozen,
) -> Ran<Value, Failure>
    requires out { is_out rest world.old ≡ true }
    ensures { RanAs world_view (id_hook.hook_step (id_hook.id_raised (wrapper_fault (hook_at table.now which.now.code) (codes "hook wrapper yielded twice") (fixture_abandoned rest world.old)))) world.old result world.new }
{
    abandon(world, rest);
    let none = Hook::none(alloc);
    match wrapper_yielded_again(alloc, world, table.hook_or(which.code, &none)) {
        Ok(failure) => Ran::Raised(failure),
        Err(_) => Ran::OutOfMemory,
    }
}

/// How a wrapper that got no exception ended.
fn behind_value(
    alloc: Global,
    world: &mut World,
    table: &HookTable,
    limit: u64,
    which: &Impl,
    end: FixtureEnd,
) -> Ran<Value, Failure>
    requires out { IsOutBehind end world.old }
    ensures { (inside : HookInner PyValue Failed) → IsValue inside → RanAs world_view (id_hook.hook_step (id_hook.id_resumed limit table.now which.now inside (end, world.old))) world.old result world.new }
{
    match end {
        FixtureEnd::Returned(value) => Ran::Gave(not_none(value)),
        FixtureEnd::Raised(failure) => Ran::Raised(failure),
        FixtureEnd::Yielded(_, rest) => yielded_again(alloc, world, table, which, rest),
    }
}

/// What leaves a wrapper that got this exception: where it is the same, it goes on as it was.
fn left_by(got: Failure, failure: Failure) -> Failure
    ensures { result ≡ id_hook.left_by_wrapper (InnerRaised got) failure }
{
    if is_same_exception(&failure, &got) {
        drop(failure);
        return got;
    }
    drop(got);
    failure
}

/// How a wrapper that got this exception ended.
fn behind_exception(
    alloc: Global,
    world: &mut World,
    table: &HookTable,
    limit: u64,
    which: &Impl,
    got: Failure,
    end: FixtureEnd,
) -> Ran<Value, Failure>
    requires out { IsOutBehind end world.old }
    ensures { RanAs world_view (id_hook.hook_step (id_hook.id_resumed limit table.now which.now (InnerRaised got) (end, world.old))) world.old result world.new }
{
    match end {
        FixtureEnd::Returned(value) => {
            drop(got);
            Ran::Gave(not_none(value))
        }
        FixtureEnd::Raised(failure) => Ran::Raised(left_by(got, failure)),
        FixtureEnd::Yielded(_, rest) => {
            drop(got);
            yielded_again(alloc, world, table, which, rest)
        }
    }
}

/// Resumes a wrapper with what another gave, or else None.
fn with_value(
    alloc: Global,
    world: &mut World,
    table: &HookTable,
    limit: u64,
    frame: IdFrame,
    value: Option<Value>,
) -> Ran<Value, Failure>
    requires out { is_out frame.rest world.old ≡ true }
    ensures { (inside : HookInner PyValue Failed) → IsValue inside → RanAs world_view (id_hook.hook_step (id_hook.id_resumed limit table.now frame.which inside (resumed_with_value limit frame.rest value world.old))) world.old result world.new }
{
    let IdFrame { which, rest } = frame;
    match resume_hook_with_value(alloc, world, rest, value, limit) {
        Ok(end) => behind_value(alloc, world, table, limit, &which, end),
        Err(_) => Ran::OutOfMemory,
    }
}

/// Resumes a wrapper by an exception, which is raised at its `yield`.
fn with_exception(
    alloc: Global,
    world: &mut World,
    table: &HookTable,
    limit: u64,
    frame: IdFrame,
    got: Failure,
) -> Ran<Value, Failure>
    requires out { is_out frame.rest world.old ≡ true }
    ensures { (value name : PyValue) → RanAs world_view ((id_hook.id_runner limit table.now value name).resume frame (InnerRaised got) world.old) world.old result world.new }
{
    let IdFrame { which, rest } = frame;
    match resume_hook_by(alloc, world, rest, &got, limit) {
        Ok(end) => behind_exception(alloc, world, table, limit, &which, got, end),
        Err(_) => {
            drop(got);
            Ran::OutOfMemory
        }
    }
}

/// Resumes a wrapper with how the rest of the hook call ended; with want of memory it is given up.
fn resume_one(
    alloc: Global,
    world: &mut World,
    table: &HookTable,
    limit: u64,
    frame: IdFrame,
    inner: Inner<Value, Failure>,
) -> Ran<Value, Failure>
    requires out { IfInner inner (is_out frame.rest world.old ≡ true) }
    ensures run { (value name : PyValue) (inside : HookInner PyValue Failed) → inner_of world_view inner ≡ Some inside → RanAs world_view ((id_hook.id_runner limit table.now value name).resume frame inside world.old) world.old result world.new }
    ensures want { HandsOnWant inner result }
{
    match inner {
        Inner::List => with_value(alloc, world, table, limit, frame, None),
        Inner::Gave(value) => with_value(alloc, world, table, limit, frame, value),
        Inner::Raised(got) => with_exception(alloc, world, table, limit, frame, got),
        Inner::OutOfMemory => {
            let IdFrame { which: _, rest } = frame;
            give_up(world, rest);
            Ran::OutOfMemory
        }
    }
}

impl<'w, 't> Runner for IdRun<'w, 't> {
    type Got = Value;

    type Exc = Failure;

    type Frozen = IdFrame;

    ghost runs = { Runs };

    ghost waits = { RunWaits };

    ghost calls = { RunCalls };

    ghost begins = { RunBegins };

    ghost resumes = { RunResumes };

    fn call(&mut self, which: &Impl) -> Ran<Value, Failure> {
        call_one(
            self.alloc, self.world, self.table, self.limit, self.value, self.name, which,
        )
    }

    fn begin(&mut self, which: &Impl) -> Opened<IdFrame, Failure> {
        open_one(
            self.alloc, self.world, self.table, self.limit, self.value, self.name, which,
        )
    }

    fn resume(&mut self, frozen: IdFrame, inner: Inner<Value, Failure>) -> Ran<Value, Failure>
        requires here { Runs self.old }
        requires frames { IfInner inner ((frames : List Waiting) × RunWaits (frozen ∷ frames) self.old) }
        ensures run { RunResumes self.old frozen inner result self.new }
        ensures frames { IfInner inner (IfEnded result ((frames : List Waiting) → RunWaits (frozen ∷ frames) self.old → RunWaits frames self.new)) }
        ensures here { Runs self.new }
        ensures want { HandsOnWant inner result }
    {
        resume_one(
            self.alloc, self.world, self.table, self.limit, frozen, inner,
        )
    }
}

/// What the hook call gave, or raised.
fn made(answer: Ran<Value, Failure>) -> Result<Result<Option<Value>, Failure>, OutOfMemory>
    ensures { IfOk result (λ made. Some made ≡ runs.made_told answer) }
{
    match answer {
        Ran::Gave(value) => Ok(Ok(value)),
        Ran::Raised(failure) => Ok(Err(failure)),
        Ran::OutOfMemory => Err(OutOfMemory),
    }
}

/// Makes the hook call of a run.
fn first_called<'w, 't>(
    run: &mut IdRun<'w, 't>,
    impls: &[Impl],
) -> Result<Result<Option<Value>, Failure>, OutOfMemory>
    requires order { InHookOrder impls.now }
    ensures reference { run.new.world.ghost_name ≡ run.old.world.ghost_name }
    ensures made { IfOk result (λ made. (made, run.new.world.now) ≡ id_hook.made_by (first_call (site_runner (site_of run.old)) impls.now run.old.world.now)) }
{
    let answer = call_first(run.alloc, run, impls);
    made(answer)
}

/// A new text.
fn new_text(world: &mut World, text: PyText) -> Result<Value, OutOfMemory>
    ensures { IfOk result (λ v. (v, world.new) ≡ in_heap (added_object (obj.Text text) world.old.heap) world.old) }
{
    make(world, &New::Text(text))
}

ghost use Rattle.runtest_rules.specs.fixture_calls.Failing.{in_heap};
ghost use Rattle.py_values.specs.declared.object.Obj.TheVariants as obj;
ghost use Rattle.runtest_rules.specs.tracebacks.runner_values.Given.{added_object};

/// Asks these implementations for the id of a value; the name of its argument is this text of the language.
fn asked_named(
    alloc: Global,
    world: &mut World,
    limit: u64,
    table: &HookTable,
    impls: &[Impl],
    value: Value,
    name: Value,
) -> Result<Result<Option<Value>, Failure>, OutOfMemory>
    requires order { InHookOrder impls.now }
    ensures { IfOk result (λ made. (made, world.new) ≡ id_hook.id_asked limit table.now impls.now value (name, world.old)) }
{
    let mut run = IdRun {
        alloc,
        world,
        table,
        limit,
        value,
        name,
    };
    first_called(&mut run, impls)
}

/// Asks these implementations for the id of a value of the argument with this name, each call within the step limit: what they gave, or
/// raised. Behind want of memory the world is spent.
#[tactic(auto, unfolding(crate::specs::Hook::id_hook_call))]
pub(crate) fn asked(
    alloc: Global,
    world: &mut World,
    limit: u64,
    table: &HookTable,
    impls: &[Impl],
    value: Value,
    name: &PyText,
) -> Result<Result<Option<Value>, Failure>, OutOfMemory>
    requires order { InHookOrder impls.now }
    ensures { IfOk result (λ made. (made, world.new) ≡ id_hook.id_hook_call limit table.now impls.now value name.now world.old) }
{
    let text = PyText::from_chars(alloc, name.chars())?;
    let name = new_text(world, text)?;
    asked_named(alloc, world, limit, table, impls, value, name)
}
