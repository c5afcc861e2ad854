// How a stack sets fixtures up in the world that it is lent.

ghost use Rattle.std.specs.Prelude.{◌≡◌, ◌<◌, [], IfOk, OnOk, length, option_map};
ghost use Rattle.fixture_instances.specs.Items.{item_for_session};
ghost use Rattle.fixture_instances.specs.Views.{live_instances};
ghost use Rattle.fixture_table.specs.Tree.{IsTree};
ghost use Rattle.run_items.specs.runtest_rules.Rules.{rules_within};
ghost use Rattle.py_world.specs.Resuming.{is_out};
ghost use Rattle.session_rules.specs.Demand.{demand};
ghost use Rattle.session_rules.specs.Frames.{StandsWith};
ghost use Rattle.session_rules.specs.Teardown.{down_all, session_step};
ghost use Rattle.session_types.specs.Live.{not_on};
ghost use Rattle.setup_stack.specs.Asking.{IsReady};
ghost use Rattle.setup_stack.specs.Scopes.{HasScopes};
ghost use Rattle.setup_stack.specs.SetUps.{IfAnswered, IsDemanded, IsNode, next_chain};
ghost use Rattle.setup_stack.specs.Views.{stack_state};
ghost use Rattle.test_session.specs.Stacks.{KnowsTable, StandsIn, looked_at, suite_of};

use crate::known::fixtures_known;
use crate::lending::exchange;
use crate::stack::SetupStack;
use collect_tree::RunSetting;
use fixture_calls::Failure;
use fixture_instances::ItemRef;
use fixture_table::Table;
use py_machine::World;
use py_values::heap::Heap;
use py_values::value::Value;
use run_items::{Plan, Stand};
use seq::{OutOfMemory, Seq};
use session_types::DefId;
use setup_stack::SetupError;
use std::alloc::Global;
use std::mem;
use test_suite::{Fixture, HookTable, Item, Suite};

/// What a set-up depends on: these items and fixtures, and the steps of each activity.
fn setting_of(
    alloc: Global,
    items: Seq<Item>,
    fixtures: Seq<Fixture>,
    outer: u32,
    limit: u64,
) -> RunSetting
    ensures { result ≡ record { limit = limit; suite = suite_of items fixtures outer } }
{
    RunSetting {
        limit,
        suite: Suite {
            items,
            fixtures,
            outer,
            hooks: HookTable::new(alloc),
        },
    }
}

/// A plan over a table, without session.
pub(crate) fn plan_over(alloc: Global, table: Table) -> Plan
    ensures { result ≡ record { run = record { limit = 0; suite = suite_of [] [] 0 }; table = table } }
{
    Plan {
        run: setting_of(alloc, Seq::new(alloc), Seq::new(alloc), 0, 0),
        table,
    }
}

/// The fixtures of a setting, which ends.
fn fixtures_of(alloc: Global, setting: RunSetting) -> Seq<Fixture>
    ensures { result ≡ setting.suite.fixtures }
{
    let mut setting = setting;
    mem::replace(&mut setting.suite.fixtures, Seq::new(alloc))
}

/// Looks at the functions of the codes, where that wasn't done before.
pub(crate) fn look(alloc: Global, stack: &mut SetupStack, heap: &Heap) -> Result<(), OutOfMemory>
    requires known { KnowsTable stack.old }
    ensures looked { OnOk result (stack.new ≡ looked_at heap.now stack.old) }
    ensures known { OnOk result (KnowsTable stack.new) }
{
    if stack.looked {
        return Ok(());
    }
    let fixtures = fixtures_known(
        alloc,
        heap,
        &stack.plan.table,
        stack.codes.items(),
        stack.names.items(),
    )?;
    stack.plan.run.suite.fixtures = fixtures;
    stack.looked = true;
    Ok(())
}

/// Demands a definition for an item in a world that is lent to a stand.
fn demand_in(
    alloc: Global,
    stand: &mut Stand,
    world: &mut World,
    setting: &RunSetting,
    table: &Table,
    item: &ItemRef<Value>,
    def: DefId,
) -> Result<Value, SetupError<Failure>>
    requires many { length table.now.defs ≡ length setting.now.suite.fixtures }
    requires scopes { HasScopes (rules_within setting.now.limit setting.now.suite) table.now }
    requires tree { IsTree table.now.nodes }
    requires node { item.now.node < length table.now.nodes }
    requires ready { IsReady (rules_within setting.now.limit setting.now.suite) (item_for_session table.now item.now) (length table.now.defs) (rules_within setting.now.limit setting.now.suite).depth def }
    requires frames { StandsWith (stack_state (rules_within setting.now.limit setting.now.suite) world.old stand.old.stack.stack) is_out [] }
    ensures demanded { IsDemanded (rules_within setting.now.limit setting.now.suite) result
        (demand (rules_within setting.now.limit setting.now.suite) (item_for_session table.now item.now) (rules_within setting.now.limit setting.now.suite).depth def (stack_state (rules_within setting.now.limit setting.now.suite) world.old (record stand.old.stack.stack { own = item.now.own })))
        (stack_state (rules_within setting.now.limit setting.now.suite) world.new stand.new.stack.stack) }
    ensures frames { IfAnswered result (StandsWith (stack_state (rules_within setting.now.limit setting.now.suite) world.new stand.new.stack.stack) is_out []) }
{
    exchange(world, &mut stand.world);
    let answer = stand
        .stack
        .stack
        .demand(alloc, &mut stand.world, setting, table, item, def);
    exchange(world, &mut stand.world);
    answer
}

/// Demands a definition for an item, of a stack that has looked at its functions.
pub(crate) fn demand_as(
    alloc: Global,
    stack: &mut SetupStack,
    world: &mut World,
    def: DefId,
    item: &ItemRef<Value>,
    items: Seq<Item>,
    limit: u64,
) -> Result<Value, SetupError<Failure>>
    requires known { KnowsTable stack.old }
    requires looked { stack.old.looked ≡ true }
    requires node { item.now.node < length stack.old.plan.table.nodes }
    requires ready { IsReady (rules_of limit items item.now.node stack.old) (item_for_session stack.old.plan.table item.now) (length stack.old.plan.table.defs) (rules_of limit items item.now.node stack.old).depth def }
    requires frames { StandsIn world.old stack.old }
    ensures demanded { IsDemanded (rules_of limit items item.now.node stack.old) result
        (demand (rules_of limit items item.now.node stack.old) (item_for_session stack.old.plan.table item.now) (rules_of limit items item.now.node stack.old).depth def (stack_state (rules_of limit items item.now.node stack.old) world.old (record stack.old.stand.stack.stack { own = item.now.own })))
        (stack_state (rules_of limit items item.now.node stack.old) world.new stack.new.stand.stack.stack) }
    ensures frames { IfAnswered result (StandsIn world.new stack.new) }
    ensures rest { stack.new ≡ record stack.old { stand = stack.new.stand } }
{
    let fixtures = mem::replace(&mut stack.plan.run.suite.fixtures, Seq::new(alloc));
    let setting = setting_of(alloc, items, fixtures, item.node, limit);
    let answer = demand_in(
        alloc,
        &mut stack.stand,
        world,
        &setting,
        &stack.plan.table,
        item,
        def,
    );
    stack.plan.run.suite.fixtures = fixtures_of(alloc, setting);
    answer
}

ghost use Rattle.std.specs.Prelude.{true};
ghost use Rattle.test_session.specs.Stacks.{rules_of};

/// Takes down what isn't for the next item in a world that is lent to a stand.
fn leave_in(
    alloc: Global,
    stand: &mut Stand,
    world: &mut World,
    setting: &RunSetting,
    table: &Table,
    next: Option<&ItemRef<Value>>,
) -> Result<Seq<Failure>, OutOfMemory>
    requires tree { IsTree table.now.nodes }
    requires next { IsNode table.now (option_map (λ item. item.now) next) }
    requires frames { StandsWith (stack_state (rules_within setting.now.limit setting.now.suite) world.old stand.old.stack.stack) is_out [] }
    ensures left { IfOk result (λ raised. session_step raised (stack_state (rules_within setting.now.limit setting.now.suite) world.new stand.new.stack.stack) ≡ down_all (rules_within setting.now.limit setting.now.suite) (not_on (next_chain table.now (option_map (λ item. item.now) next.entry)) (live_instances (rules_within setting.now.limit setting.now.suite) stand.old.stack.stack.live.live)) (stack_state (rules_within setting.now.limit setting.now.suite) world.old (record stand.old.stack.stack { given = [] }))) }
    ensures frames { OnOk result (StandsWith (stack_state (rules_within setting.now.limit setting.now.suite) world.new stand.new.stack.stack) is_out []) }
{
    exchange(world, &mut stand.world);
    let raised = stand
        .stack
        .stack
        .leave(alloc, &mut stand.world, setting, table, next);
    exchange(world, &mut stand.world);
    raised
}

/// Takes down what isn't for the next item, of a stack that has looked at its functions.
pub(crate) fn leave_as(
    alloc: Global,
    stack: &mut SetupStack,
    world: &mut World,
    next: Option<&ItemRef<Value>>,
    limit: u64,
) -> Result<Seq<Failure>, OutOfMemory>
    requires tree { IsTree stack.old.plan.table.nodes }
    requires next { IsNode stack.old.plan.table (option_map (λ item. item.now) next) }
    requires frames { StandsIn world.old stack.old }
    ensures left { IfOk result (λ raised. session_step raised (stack_state (rules_of limit [] 0 stack.old) world.new stack.new.stand.stack.stack) ≡ down_all (rules_of limit [] 0 stack.old) (not_on (next_chain stack.old.plan.table (option_map (λ item. item.now) next.entry)) (live_instances (rules_of limit [] 0 stack.old) stack.old.stand.stack.stack.live.live)) (stack_state (rules_of limit [] 0 stack.old) world.old (record stack.old.stand.stack.stack { given = [] }))) }
    ensures frames { OnOk result (StandsIn world.new stack.new) }
    ensures rest { stack.new ≡ record stack.old { stand = stack.new.stand } }
{
    let fixtures = mem::replace(&mut stack.plan.run.suite.fixtures, Seq::new(alloc));
    let setting = setting_of(alloc, Seq::new(alloc), fixtures, 0, limit);
    let raised = leave_in(
        alloc,
        &mut stack.stand,
        world,
        &setting,
        &stack.plan.table,
        next,
    );
    stack.plan.run.suite.fixtures = fixtures_of(alloc, setting);
    raised
}
