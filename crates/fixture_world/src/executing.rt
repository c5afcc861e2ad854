// A world of sources in which the functions of fixtures run.

ghost use Rattle.std.specs.Prelude.{◌≡◌, ◌<◌, length, IfOk, OnOk};
ghost use Rattle.runtest_rules.specs.report_rules.Collected.{ends_badly};
ghost use Rattle.session_rules.specs.World.{Rules};
ghost use Rattle.fixture_instances.specs.Items.{parameter_in};
ghost use Rattle.fixture_instances.specs.Views as views;
ghost use Rattle.runtest_rules.specs.Language.{python};
ghost use Rattle.runtest_rules.specs.Rules.{body_end_of, rules_within};
ghost use Rattle.runtest_rules.specs.py_world.Resuming.{is_out};
ghost use Rattle.runtest_rules.proofs.Kept.{keeps_within};
ghost use Rattle.runtest_rules.specs.fixture_calls.Yields as yields;
ghost use Rattle.test_suite.specs.Suites.{fixture_at, no_fixture};

use crate::setting::{RunSetting, bound_at, fixture_of, nameless, param_at};
use fixture_instances::{BodyEnd, Executor, ItemRef};
use fixture_table::Table;
use py_values::value::Value;
use runtest_rules::{Ending, Failure, FixtureEnd, Frozen, World};
use seq::{OutOfMemory, Seq};
use session_types::DefId;
use std::alloc::Global;
use std::marker::Model;

/// A world of sources, and where it takes memory. It is seen as the world.
pub struct RunWorld {
    pub alloc: Global,
    pub world: World,
}

impl Model for RunWorld {
    ghost use Rattle.runtest_rules.specs.fixture_calls.source_meaning.Meaning.{SourceWorld};
    ghost use Rattle.source_meaning.proofs.Codes.{world_code};

    ghost Value = { SourceWorld };

    ghost coded = { world_code };

    ghost view = { λ r. r.world };
}

/// The end of a fixture's function, as an executor tells it.
fn body_end(end: FixtureEnd) -> BodyEnd<Value, Failure, Frozen>
    ensures { (rules : Rules python) → views.body_end rules result ≡ body_end_of end }
{
    match end {
        FixtureEnd::Returned(value) => BodyEnd::Returned(value),
        FixtureEnd::Yielded(value, rest) => BodyEnd::Yielded(value, rest),
        FixtureEnd::Raised(failure) => BodyEnd::Raised(failure),
    }
}

/// The exception of a fixture that yields again, of a definition by its number.
fn yielded_again(
    alloc: Global,
    world: &mut World,
    setting: &RunSetting,
    def: DefId,
) -> Result<Failure, OutOfMemory>
    ensures { IfOk result (λ f. (f, world.new) ≡ yields.yielded_again (fixture_at setting.now.suite def) world.old) }
{
    match setting.suite.fixture(def) {
        Some(fixture) => {
            let failure = runtest_rules::yielded_again(alloc, world, fixture)?;
            Ok(failure)
        }
        None => {
            let failure = yielded_nameless(alloc, world)?;
            Ok(failure)
        }
    }
}

/// The same where the number is that of no fixture.
fn yielded_nameless(alloc: Global, world: &mut World) -> Result<Failure, OutOfMemory>
    ensures { IfOk result (λ f. (f, world.new) ≡ yields.yielded_again no_fixture world.old) }
{
    let fixture = nameless(alloc);
    let failure = runtest_rules::yielded_again(alloc, world, &fixture)?;
    Ok(failure)
}

impl Executor for RunWorld {
    type Value = Value;

    type Thrown = Failure;

    type Rest = Frozen;

    type Told = Ending;

    type Setting = RunSetting;

    ghost is_bad = { ends_badly };

    ghost rules = { λ setting. rules_within setting.limit setting.suite };

    ghost knows = { λ setting table item. length table.defs ≡ length setting.suite.fixtures };

    ghost is_out = { is_out };

    ghost given_up = { yields.fixture_given_up };

    ghost keeps = { λ setting. keeps_within setting.limit setting.suite };

    fn yields(
        &self,
        setting: &RunSetting,
        _table: &Table,
        _item: &ItemRef<Value>,
        def: DefId,
    ) -> bool {
        fixture_of(setting, def).yields
    }

    fn ask(
        &mut self,
        setting: &RunSetting,
        _table: &Table,
        item: &ItemRef<Value>,
        def: DefId,
    ) -> Result<Option<Value>, OutOfMemory> {
        let fixture = fixture_of(setting, def);
        let param = param_at(setting, item.node, def);
        let request = runtest_rules::ask(self.alloc, &mut self.world, fixture, param)?;
        Ok(request)
    }

    fn begin(
        &mut self,
        setting: &RunSetting,
        _table: &Table,
        item: &ItemRef<Value>,
        def: DefId,
        own: Option<Value>,
        values: &[Value],
        request: Option<Value>,
    ) -> Result<BodyEnd<Value, Failure, Frozen>, OutOfMemory>
        requires known { length _table.now.defs ≡ length setting.now.suite.fixtures }
        requires def { def < length _table.now.defs }
        ensures how { IfOk result (λ end. views.body_end (rules_within setting.now.limit setting.now.suite) end ≡ ((rules_within setting.now.limit setting.now.suite).begin item.now.node def (parameter_in item.now.params def) own values.now request self.old).how) }
        ensures world { OnOk result (self.new ≡ ((rules_within setting.now.limit setting.now.suite).begin item.now.node def (parameter_in item.now.params def) own values.now request self.old).world) }
    {
        let fixture = fixture_of(setting, def);
        let bound = bound_at(setting, item.node);
        let end = runtest_rules::begin(
            self.alloc,
            &mut self.world,
            fixture,
            bound,
            own,
            values,
            request,
            setting.limit,
        )?;
        Ok(body_end(end))
    }

    fn did_not_yield(
        &mut self,
        setting: &RunSetting,
        _table: &Table,
        _item: &ItemRef<Value>,
        def: DefId,
    ) -> Result<Failure, OutOfMemory> {
        let fixture = fixture_of(setting, def);
        let failure = runtest_rules::did_not_yield(self.alloc, &mut self.world, fixture)?;
        Ok(failure)
    }

    fn resume(
        &mut self,
        setting: &RunSetting,
        rest: Frozen,
    ) -> Result<BodyEnd<Value, Failure, Frozen>, OutOfMemory> {
        let end = runtest_rules::resume(self.alloc, &mut self.world, rest, setting.limit)?;
        Ok(body_end(end))
    }

    fn abandon(&mut self, _setting: &RunSetting, rest: Frozen) {
        runtest_rules::abandon(&mut self.world, rest);
    }

    fn give_up(&mut self, rest: Frozen) {
        runtest_rules::give_up(&mut self.world, rest);
    }

    fn yielded_again(&mut self, setting: &RunSetting, def: DefId) -> Result<Failure, OutOfMemory> {
        let failure = yielded_again(self.alloc, &mut self.world, setting, def)?;
        Ok(failure)
    }

    fn close(&mut self, _setting: &RunSetting, request: Value) -> Result<Seq<Value>, OutOfMemory> {
        let finalizers = runtest_rules::close(self.alloc, &mut self.world, request)?;
        Ok(finalizers)
    }

    fn finalize(
        &mut self,
        setting: &RunSetting,
        finalizer: Value,
    ) -> Result<Option<Failure>, OutOfMemory> {
        let limit = setting.limit;
        let raised = runtest_rules::call_finalizer(self.alloc, &mut self.world, finalizer, limit)?;
        Ok(raised)
    }

    fn copied(&self, thrown: &Failure) -> Result<Failure, OutOfMemory> {
        let copy = runtest_rules::copied(self.alloc, thrown)?;
        Ok(copy)
    }
}
