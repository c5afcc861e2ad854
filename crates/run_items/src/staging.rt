// The stage of a session over sources.

ghost use Rattle.std.specs.Prelude.{◌≡◌, [], IfOk, OnOk};
ghost use Rattle.fixture_world.specs.runtest_rules.py_world.Resuming.{is_out};
ghost use Rattle.session_rules.specs.Frames.{StandsWith};
ghost use Rattle.run_items.specs.Stands.{IsPlan, IsPlannedItem, plan_fixture, plan_rules, planned, stand_state};
ghost use Rattle.runtest_reports.specs.Kept.{reported_ending, session_phase};
ghost use Rattle.session_rules.specs.Session.{telling};
ghost use Rattle.session_rules.specs.Teardown.{in_world, session_step};

use crate::naming::{argument_names, fixture_name, fixture_scope, param_id};
use crate::plan::Plan;
use crate::stand::Stand;
use crate::{calling, ending, leaving, opening, setting_up};
use fixture_world::{Failure, Frozen, World};
use py_values::value::Value;
use report_parts::{Phase, Text};
use runtest_reports::{PhaseEnding, Stage};
use seq::{OutOfMemory, Seq};
use session_types::{DefId, Event, Scope};
use std::alloc::Global;
use test_suite::{Item, ItemClosure};

impl Stage for Stand {
    type World = World;

    type Value = Value;

    type Thrown = Failure;

    type Rest = Frozen;

    type Setting = Plan;

    type Item = Item;

    ghost rules = { plan_rules };

    ghost state = { stand_state };

    ghost selected = { planned };

    ghost fixture = { plan_fixture };

    ghost stands = { λ plan stand. IsPlan plan × StandsWith (stand_state stand) is_out [] };

    ghost known = { IsPlannedItem };

    fn open(&mut self, plan: &Plan, item: &Item) -> Result<(), OutOfMemory> {
        opening::open(self, plan, item)?;
        Ok(())
    }

    fn set_up(&mut self, plan: &Plan, item: &Item) -> Result<Seq<Failure>, OutOfMemory> {
        let raised = setting_up::set_up(self, plan, item)?;
        Ok(raised)
    }

    fn call(&mut self, plan: &Plan, item: &Item) -> Result<Seq<Failure>, OutOfMemory> {
        let raised = calling::call(self, plan, item)?;
        Ok(raised)
    }

    fn leave(
        &mut self,
        plan: &Plan,
        item: &Item,
        next: Option<&Item>,
    ) -> Result<Seq<Failure>, OutOfMemory> {
        let raised = leaving::tear_down(self, plan, item, next)?;
        Ok(raised)
    }

    fn all_down(&mut self, plan: &Plan) -> Result<Seq<Failure>, OutOfMemory> {
        let raised = leaving::all_down(self, plan)?;
        Ok(raised)
    }

    fn is_error(&self, plan: &Plan, item: &Item, raised: &[Failure]) -> Result<bool, OutOfMemory> {
        let error = ending::is_error(self, plan, item, raised)?;
        Ok(error)
    }

    fn end_phase(
        &mut self,
        plan: &Plan,
        phase: Phase,
        item: &Item,
        raised: Seq<Failure>,
    ) -> Result<PhaseEnding, OutOfMemory>
        requires here { IsPlan plan.now × StandsWith (stand_state self.old) is_out [] }
        requires known { IsPlannedItem plan.now item.now }
        ensures told { IfOk result (λ ending. reported_ending ending ≡ (telling (plan_rules plan.now) (session_phase phase) (planned plan.now item.now).item (session_step raised (stand_state self.old))).told) }
        ensures state { OnOk result (stand_state self.new ≡ in_world (telling (plan_rules plan.now) (session_phase phase) (planned plan.now item.now).item (session_step raised (stand_state self.old))).world (stand_state self.old)) }
        ensures here { OnOk result (IsPlan plan.now × StandsWith (stand_state self.new) is_out []) }
    {
        let ended = ending::end_phase(self, plan, phase, item, raised)?;
        Ok(ended)
    }

    fn journal(&self) -> &[Event] {
        self.stack.stack.journal()
    }

    fn node_id<'a>(_plan: &'a Plan, item: &'a Item) -> &'a str {
        item.node_id.text()
    }

    fn title<'a>(_plan: &'a Plan, item: &'a Item) -> &'a str {
        item.title.text()
    }

    fn file<'a>(_plan: &'a Plan, item: &'a Item) -> &'a str {
        item.file.text()
    }

    fn closure<'a>(_plan: &'a Plan, item: &'a Item) -> Option<&'a [DefId]> {
        match &item.closure {
            ItemClosure::Whole(defs) => Some(defs.items()),
            ItemClosure::Fault(_) => None,
        }
    }

    fn parameter<'a>(_plan: &'a Plan, item: &'a Item, def: DefId) -> Option<&'a str> {
        param_id(item.params.items(), def)
    }

    fn scope(plan: &Plan, def: DefId) -> Scope {
        fixture_scope(&plan.run.suite, def)
    }

    fn name(alloc: Global, plan: &Plan, def: DefId) -> Result<Text, OutOfMemory> {
        let name = fixture_name(alloc, &plan.run.suite, def)?;
        Ok(name)
    }

    fn arguments(alloc: Global, plan: &Plan, def: DefId) -> Result<Seq<Text>, OutOfMemory> {
        let names = argument_names(alloc, &plan.run.suite, def)?;
        Ok(names)
    }
}
