// The fixtures that are set up in a world of sources.

ghost use Rattle.std.specs.Prelude.{◌≡◌, ◌<◌, ◌++◌, ◌∷◌, [], IfOk, OnOk, length, option_copied, option_map, slice_get};
ghost use Rattle.fixture_instances.specs.Items.{item_for_session};
ghost use Rattle.fixture_instances.specs.Resting.{all_given_up};
ghost use Rattle.fixture_instances.specs.Views.{live_instances};
ghost use Rattle.fixture_table.specs.Tree.{IsTree};
ghost use Rattle.run_items.specs.source_meaning.Meaning.{SourceWorld};
ghost use Rattle.fixture_calls.specs.Yields.{fixture_given_up};
ghost use Rattle.session_rules.specs.Demand.{demand};
ghost use Rattle.session_rules.specs.Teardown.{down_all};
ghost use Rattle.session_types.specs.Live.{not_on};
ghost use Rattle.session_types.specs.declared.journal.Event.TheVariants.{CallBegins, CallEnds};
ghost use Rattle.setup_stack.specs.Asking.{IsReady};
ghost use Rattle.setup_stack.specs.Grants.{orders_of};
ghost use Rattle.setup_stack.specs.SetUps.{IsNode, next_chain};
ghost use Rattle.setup_stack.specs.Views.{stack_state};
ghost use Rattle.test_session.specs.Demands.{IfTold, IsAnswered, IsTornDown};
ghost use Rattle.test_session.specs.Stacks.{IsNewStack, IsSpent, KnowsTable, StandsIn, down_rules, item_rules, looked_at, with_events};

use crate::error::{SetupError, all_thrown, told};
use crate::lending::{exchange, memory};
use crate::one_item::one_item;
use crate::setting_up::{demand_as, leave_as, look, plan_over};
use fixture_instances::ItemRef;
use fixture_table::Table;
use py_machine::{World, heap};
use py_values::value::Value;
use py_world::Thrown;
use run_items::{Plan, Stand};
use seq::{OutOfMemory, PyText, Seq};
use session_types::{DefId, Event};
use std::alloc::Global;

/// The fixtures that are set up in a world of sources, over the table of their definitions.
pub struct SetupStack {
    /// What is set up. Its own world is an empty one: a call lends it the world that it is given.
    pub stand: Stand,
    /// The table; and the items, the fixtures and the hooks of a session.
    pub plan: Plan,
    /// Whether the fixtures of the plan are those of the table.
    pub looked: bool,
    /// The function of each code.
    pub codes: Seq<Value>,
    /// The text of each name.
    pub names: Seq<PyText>,
}

/// A stack over an empty world, with nothing set up.
fn over_plan(
    alloc: Global,
    plan: Plan,
    looked: bool,
    codes: Seq<Value>,
    names: Seq<PyText>,
    world: World,
) -> Result<SetupStack, OutOfMemory>
    ensures empty { IfOk result IsNewStack }
    ensures made { IfOk result (λ s. s ≡ record { stand = s.stand; plan = plan; looked = looked; codes = codes; names = names }) }
{
    match Stand::new(alloc, world) {
        Ok(stand) => Ok(SetupStack {
            stand,
            plan,
            looked,
            codes,
            names,
        }),
        Err(fault) => {
            drop(plan);
            drop(codes);
            drop(names);
            Err(fault)
        }
    }
}

/// A stack with nothing set up, over a plan.
pub(crate) fn stacked(
    alloc: Global,
    plan: Plan,
    looked: bool,
    codes: Seq<Value>,
    names: Seq<PyText>,
) -> Result<SetupStack, OutOfMemory>
    ensures empty { IfOk result IsNewStack }
    ensures made { IfOk result (λ s. s ≡ record { stand = s.stand; plan = plan; looked = looked; codes = codes; names = names }) }
{
    match World::new(alloc) {
        Ok(world) => over_plan(alloc, plan, looked, codes, names, world),
        Err(fault) => {
            drop(plan);
            drop(codes);
            drop(names);
            Err(fault)
        }
    }
}

impl SetupStack {
    /// Nothing is set up, over a table. `codes` has the function of each code of the table, and `names` the text of each name. Each
    /// definition has a code.
    pub fn new(
        alloc: Global,
        table: Table,
        codes: Vec<Value>,
        names: Vec<PyText>,
    ) -> Result<Self, OutOfMemory>
        requires tree { IsTree table.nodes }
        requires many { length codes.items ≡ length table.defs }
        ensures empty { IfOk result IsNewStack }
        ensures known { IfOk result KnowsTable }
        ensures frames { IfOk result (λ s. (w : SourceWorld) → StandsIn w s) }
        ensures table { IfOk result (λ s. s.plan.table ≡ table) }
        ensures codes { IfOk result (λ s. s.codes ≡ codes.items) }
        ensures names { IfOk result (λ s. s.names ≡ names.items) }
    {
        let codes = Seq::from_vec(codes);
        let names = Seq::from_vec(names);
        stacked(alloc, plan_over(alloc, table), false, codes, names)
    }

    /// The table of the definitions.
    pub fn table(&self) -> &Table
        ensures { result.now ≡ self.now.plan.table }
    {
        &self.plan.table
    }

    /// The function of a code, where there is one.
    pub fn function(&self, code: u32) -> Option<Value>
        ensures { result ≡ slice_get self.now.codes code }
    {
        match self.codes.items().get(code as usize) {
            Some(v) => Some(*v),
            None => None,
        }
    }

    /// The text of a name, where there is one.
    pub fn name(&self, number: u32) -> Option<&PyText>
        ensures { option_copied result ≡ slice_get self.now.names number }
    {
        self.names.items().get(number as usize)
    }

    /// Demands a definition for an item, each activity within a budget of steps, and notes what was given.
    ///
    /// Fails with the exceptions, in order, where a set-up has failed, or where what had to go down for it raised. Behind want of memory
    /// world and stack are spent.
    pub fn demand(
        &mut self,
        world: &mut World,
        def: DefId,
        item: &ItemRef<Value>,
        budget: u64,
    ) -> Result<Value, SetupError>
        requires known { KnowsTable self.old }
        requires node { item.now.node < length self.old.plan.table.nodes }
        requires ready { IsReady (item_rules budget world.old.heap self.old item.now) (item_for_session self.old.plan.table item.now) (length self.old.plan.table.defs) (item_rules budget world.old.heap self.old item.now).depth def }
        requires frames { StandsIn world.old self.old }
        ensures answer { IsAnswered (item_rules budget world.old.heap self.old item.now) result
            (demand (item_rules budget world.old.heap self.old item.now) (item_for_session self.old.plan.table item.now) (item_rules budget world.old.heap self.old item.now).depth def (stack_state (item_rules budget world.old.heap self.old item.now) world.old (record self.old.stand.stack.stack { own = item.now.own })))
            (stack_state (item_rules budget world.old.heap self.old item.now) world.new self.new.stand.stack.stack) }
        ensures known { IfTold result (KnowsTable self.new) }
        ensures frames { IfTold result (StandsIn world.new self.new) }
        ensures rest { IfTold result (self.new ≡ record (looked_at world.old.heap self.old) { stand = self.new.stand }) }
    {
        let alloc = memory(&self.stand.world);
        look(alloc, self, heap(world))?;
        let items = one_item(alloc, self.names.items(), item)?;
        let answer = demand_as(alloc, self, world, def, item, items, budget);
        told(alloc, answer)
    }

    /// What isn't for the next item goes down, with all that depends on it; with none, all does. Each activity is within a budget of steps.
    /// The exceptions are told in order. Behind want of memory world and stack are spent.
    pub fn leave(
        &mut self,
        world: &mut World,
        next: Option<&ItemRef<Value>>,
        budget: u64,
    ) -> Result<Seq<Thrown>, OutOfMemory>
        requires known { KnowsTable self.old }
        requires next { IsNode self.old.plan.table (option_map (λ item. item.now) next) }
        requires frames { StandsIn world.old self.old }
        ensures answer { IfOk result (λ thrown. IsTornDown thrown (stack_state (down_rules budget world.old.heap self.old) world.new self.new.stand.stack.stack)
            (down_all (down_rules budget world.old.heap self.old) (not_on (next_chain self.old.plan.table (option_map (λ item. item.now) next.entry)) (live_instances (down_rules budget world.old.heap self.old) self.old.stand.stack.stack.live.live)) (stack_state (down_rules budget world.old.heap self.old) world.old (record self.old.stand.stack.stack { given = [] })))) }
        ensures known { OnOk result (KnowsTable self.new) }
        ensures frames { OnOk result (StandsIn world.new self.new) }
        ensures rest { OnOk result (self.new ≡ record (looked_at world.old.heap self.old) { stand = self.new.stand }) }
    {
        let alloc = memory(&self.stand.world);
        look(alloc, self, heap(world))?;
        let raised = leave_as(alloc, self, world, next, budget)?;
        all_thrown(alloc, raised)
    }

    /// Notes that an item's test is called, and what answered the demands since the last `leave`.
    pub fn call_begins(&mut self, item: &ItemRef<Value>) -> Result<(), OutOfMemory>
        ensures events { OnOk result (self.new.stand.stack.stack.events ≡ self.old.stand.stack.stack.events ++ CallBegins item.now.node (orders_of self.old.stand.stack.stack.given []) ∷ []) }
        ensures rest { self.new ≡ with_events self.new.stand.stack.stack.events self.old }
    {
        let alloc = memory(&self.stand.world);
        self.stand.stack.stack.call_begins(alloc, item)?;
        Ok(())
    }

    /// Notes that the call of an item's test ended.
    pub fn call_ends(&mut self, item: &ItemRef<Value>) -> Result<(), OutOfMemory>
        ensures events { OnOk result (self.new.stand.stack.stack.events ≡ self.old.stand.stack.stack.events ++ CallEnds item.now.node ∷ []) }
        ensures rest { self.new ≡ with_events self.new.stand.stack.stack.events self.old }
    {
        self.stand.stack.stack.call_ends(item)?;
        Ok(())
    }

    /// The events so far, in order.
    pub fn journal(&self) -> &[Event]
        ensures { result.now ≡ self.now.stand.stack.stack.events }
    {
        self.stand.stack.stack.journal()
    }

    /// Gives up every frozen frame that the stack holds, behind want of memory: where it holds one, the world is spent. Takes no memory.
    pub fn abandon_all(&mut self, world: &mut World)
        ensures world { world.new ≡ all_given_up fixture_given_up self.old.stand.stack.stack.live.live world.old }
        ensures spent { IsSpent self.new }
        ensures rest { self.new ≡ record self.old { stand = self.new.stand } }
    {
        exchange(world, &mut self.stand.world);
        self.stand.stack.stack.abandon_all(&mut self.stand.world);
        exchange(world, &mut self.stand.world);
    }

    /// Ends the stack, which holds no frozen frame.
    pub fn close(self)
        requires spent { IsSpent self }
    {
        let SetupStack {
            stand,
            plan,
            looked: _looked,
            codes: _codes,
            names: _names,
        } = self;
        stand.close();
        drop(plan);
    }
}
