// The stage of a session over sources, as its hooks see it.

ghost use Rattle.std.specs.Prelude.{◌≡◌, IfOk, OnOk, true};
ghost use Rattle.fixture_world.specs.fixture_calls.Yields.{fixture_given_up};
ghost use Rattle.fixture_world.specs.runtest_rules.py_world.Resuming.{is_out};
ghost use Rattle.fixture_world.specs.Kept.{keeps_within};
ghost use Rattle.fixture_world.specs.Items.{item_in_session};
ghost use Rattle.fixture_world.specs.runtest_rules.Language.{python};
ghost use Rattle.hook_phases.specs.Phases.{phase_of};
ghost use Rattle.hook_phases.specs.Views.{wrapper_end};
ghost use Rattle.run_items.specs.Stands.{IsPlan, IsPlannedItem, plan_rules, stand_state};
ghost use Rattle.runtest_reports.specs.report_rules.Collected.{ends_badly};
ghost use Rattle.session_rules.specs.Hooks.{SentValue};
ghost use Rattle.session_rules.specs.Teardown.{in_world};

use crate::acts::{abandon, give_up, memory};
use crate::opening::make_ready;
use crate::plan::Plan;
use crate::stand::Stand;
use crate::{hooking, wrapping};
use fixture_world::{Ending, Failure, Frozen, World, is_same_exception, not_none};
use hook_order::Impl;
use hook_phases::{HookPhase, HookStage, ImplementEnd, WrapperEnd};
use py_values::value::Value;
use seq::{OutOfMemory, Seq};
use test_suite::Item;

impl HookStage for Stand {
    type World = World;

    type Value = Value;

    type Thrown = Failure;

    type Rest = Frozen;

    type Told = Ending;

    type Setting = Plan;

    type Item = Item;

    ghost is_bad = { ends_badly };

    ghost rules = { plan_rules };

    ghost state = { stand_state };

    ghost session_item = { λ plan item. item_in_session plan.table item };

    ghost stands = { λ plan stand. IsPlan plan };

    ghost known = { IsPlannedItem };

    ghost is_out = { is_out };

    ghost given_up = { fixture_given_up };

    ghost keeps = { λ plan. keeps_within plan.run.limit plan.run.suite };

    fn hooks(&self, plan: &Plan, phase: HookPhase, item: &Item) -> Result<Seq<Impl>, OutOfMemory> {
        let hooks = hooking::hooks_of(memory(&self.world), plan, phase, item)?;
        Ok(hooks)
    }

    fn make_ready(
        &mut self,
        plan: &Plan,
        item: &Item,
        next: Option<&Item>,
    ) -> Result<(), OutOfMemory> {
        make_ready(self, plan, item, next)?;
        Ok(())
    }

    fn built(
        &mut self,
        plan: &Plan,
        phase: HookPhase,
        item: &Item,
        next: Option<&Item>,
    ) -> Result<Seq<Failure>, OutOfMemory> {
        let raised = hooking::built(self, plan, phase, item, next)?;
        Ok(raised)
    }

    fn begin_teardown(&mut self, _plan: &Plan) {
        self.left = false;
    }

    fn has_left(&self) -> bool {
        self.left
    }

    fn implement(
        &mut self,
        plan: &Plan,
        _phase: HookPhase,
        item: &Item,
        next: Option<&Item>,
        which: &Impl,
    ) -> Result<ImplementEnd<Value, Failure>, OutOfMemory> {
        let end = hooking::implement(self, plan, item, next, which)?;
        Ok(end)
    }

    fn open_wrapper(
        &mut self,
        plan: &Plan,
        _phase: HookPhase,
        item: &Item,
        next: Option<&Item>,
        which: &Impl,
    ) -> Result<WrapperEnd<Value, Failure, Frozen>, OutOfMemory> {
        let end = wrapping::open_wrapper(self, plan, item, next, which)?;
        Ok(end)
    }

    fn wrapper_did_not_yield(&mut self, plan: &Plan, which: &Impl) -> Result<Failure, OutOfMemory> {
        let table = &plan.run.suite.hooks;
        let failure = wrapping::wrapper_did_not_yield(&mut self.world, table, which)?;
        Ok(failure)
    }

    fn resume_with_values(
        &mut self,
        plan: &Plan,
        _phase: HookPhase,
        _item: &Item,
        rest: Frozen,
    ) -> Result<WrapperEnd<Value, Failure, Frozen>, OutOfMemory> {
        let end = wrapping::resume_with_values(self, plan.run.limit, rest)?;
        Ok(end)
    }

    fn resume_with_value(
        &mut self,
        plan: &Plan,
        _phase: HookPhase,
        _item: &Item,
        rest: Frozen,
        value: Option<Value>,
    ) -> Result<WrapperEnd<Value, Failure, Frozen>, OutOfMemory>
        requires here { IsPlan plan.now }
        requires known { IsPlannedItem plan.now _item.now }
        requires out { is_out rest (stand_state self.old).world ≡ true }
        ensures how { IfOk result (λ end. wrapper_end python end ≡ ((plan_rules plan.now).resume_wrapper (phase_of _phase) (item_in_session plan.now.table _item.now).node rest (SentValue value) (stand_state self.old).world).how) }
        ensures state { OnOk result (stand_state self.new ≡ in_world ((plan_rules plan.now).resume_wrapper (phase_of _phase) (item_in_session plan.now.table _item.now).node rest (SentValue value) (stand_state self.old).world).world (stand_state self.old)) }
        ensures here { IsPlan plan.now }
    {
        let end = wrapping::resume_with_value(self, plan.run.limit, rest, value)?;
        Ok(end)
    }

    fn resume_with_exception(
        &mut self,
        plan: &Plan,
        _phase: HookPhase,
        _item: &Item,
        rest: Frozen,
        thrown: &Failure,
    ) -> Result<WrapperEnd<Value, Failure, Frozen>, OutOfMemory> {
        let end = wrapping::resume_by(self, plan.run.limit, rest, thrown)?;
        Ok(end)
    }

    fn abandon(&mut self, _plan: &Plan, rest: Frozen) {
        abandon(&mut self.world, rest);
    }

    fn give_up(&mut self, _plan: &Plan, rest: Frozen) {
        give_up(&mut self.world, rest);
    }

    fn wrapper_yielded_again(&mut self, plan: &Plan, which: &Impl) -> Result<Failure, OutOfMemory> {
        let table = &plan.run.suite.hooks;
        let failure = wrapping::wrapper_yielded_again(&mut self.world, table, which)?;
        Ok(failure)
    }

    fn unless_none(_plan: &Plan, value: Value) -> Option<Value> {
        not_none(value)
    }

    fn is_same_object(_plan: &Plan, one: &Failure, other: &Failure) -> bool {
        is_same_exception(one, other)
    }
}
