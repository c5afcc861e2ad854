ghost use Rattle.std.specs.Prelude.{◌≡◌, ℕ, ◌<◌, ◌++◌, List, [], ◌∷◌, length, map, None, Some, IfOk, OnOk, slice_get};
ghost use Rattle.std.specs.Option.{option_map};
ghost use Rattle.session_types.specs.declared.journal.Event.TheVariants.{CallBegins, CallEnds};
ghost use Rattle.session_types.specs.Live.{not_on};
ghost use Rattle.session_rules.specs.Demand.{demand};
ghost use Rattle.session_rules.specs.Frames.{StandsWith};
ghost use Rattle.session_rules.specs.Session.{demand_closure};
ghost use Rattle.session_rules.specs.Teardown.{down_all, session_step};
ghost use Rattle.fixture_table.specs.Tree.{IsTree};
ghost use Rattle.setup_stack.specs.Asking.{AreReady, IsReady};
ghost use Rattle.setup_stack.specs.Grants.{orders_of};
ghost use Rattle.fixture_instances.specs.Items.{item_for_session};
ghost use Rattle.fixture_instances.specs.Resting.{AreSpent, all_given_up, spent_instance};
ghost use Rattle.setup_stack.specs.Scopes.{HasScopes};
ghost use Rattle.setup_stack.specs.SetUps.{IfAnswered, IsDemanded, IsNode, next_chain};
ghost use Rattle.setup_stack.specs.Views.{stack_state};
ghost use Rattle.fixture_instances.specs.Views.{live_instances};

use crate::answers::Answer;
use crate::error::SetupError;
use crate::lists::orders_of;
use crate::stack::{SetupStack, demand, demand_noted, leave};
use fixture_instances::{Executor, ItemRef, LiveFixtures, chain_of, give_up_all};
use fixture_table::Table;
use seq::{OutOfMemory, Seq};
use session_types::{DefId, Event};
use std::alloc::Global;

/// The node of the next item and those above it, or none.
fn next_chain<V>(
    alloc: Global,
    table: &Table,
    next: Option<&ItemRef<V>>,
) -> Result<Vec<u32>, OutOfMemory>
    requires tree { IsTree table.now.nodes }
    requires next { IsNode table.now (option_map (λ item. item.now) next) }
    ensures { IfOk result (λ chain. chain.items ≡ next_chain table.now (option_map (λ item. item.now) next.entry)) }
{
    match next {
        None => Ok(Vec::new(alloc)),
        Some(item) => {
            let chain = chain_of(alloc, table, item.node)?;
            Ok(chain)
        }
    }
}

impl<V: Copy, E: Drop, R> SetupStack<V, E, R> {
    /// No instance lives, and nothing was noted.
    pub fn new(alloc: Global) -> Result<Self, OutOfMemory>
        ensures { IfOk result (λ made. made ≡ record { live = record { live = []; ids = []; spare = 0; next = 0 }; events = []; given = []; own = None }) }
    {
        let live = LiveFixtures::new(alloc)?;
        Ok(SetupStack {
            live,
            events: Seq::new(alloc),
            given: Seq::new(alloc),
            own: None,
        })
    }

    /// The events so far, in order.
    pub fn journal(&self) -> &[Event]
        ensures { result.now ≡ self.now.events }
    {
        self.events.items()
    }

    /// Demands a definition of a table for an item, and notes what was given. The exceptions of a refusal are told in order.
    pub fn demand<W: Executor<Value = V, Thrown = E, Rest = R>>(
        &mut self,
        alloc: Global,
        world: &mut W,
        setting: &W::Setting,
        table: &Table,
        item: &ItemRef<V>,
        def: DefId,
    ) -> Result<V, SetupError<E>>
        requires known { W.knows setting.now table.now item.now }
        requires scopes { HasScopes (W.rules setting.now) table.now }
        requires tree { IsTree table.now.nodes }
        requires node { item.now.node < length table.now.nodes }
        requires ready { IsReady (W.rules setting.now) (item_for_session table.now item.now) (length table.now.defs) (W.rules setting.now).depth def }
        requires frames { StandsWith (stack_state (W.rules setting.now) world.old self.old) W.is_out [] }
        ensures demanded { IsDemanded (W.rules setting.now) result (demand (W.rules setting.now) (item_for_session table.now item.now) (W.rules setting.now).depth def (stack_state (W.rules setting.now) world.old (record self.old { own = item.now.own }))) (stack_state (W.rules setting.now) world.new self.new) }
        ensures frames { IfAnswered result (StandsWith (stack_state (W.rules setting.now) world.new self.new) W.is_out []) }
    {
        self.own = item.own;
        let mut marks = Vec::new(alloc);
        let answer = demand(alloc, self, world, setting, table, item, def, &mut marks)?;
        match answer {
            Answer::Refused(raised) => Err(SetupError::Told(raised)),
            Answer::Given(grant) => {
                let value = grant.value;
                self.given.push(grant)?;
                Ok(value)
            }
        }
    }

    /// Demands definitions of a table for an item, in order, and notes what was given, up to the first fault, whose exceptions are given.
    /// What a demand has found or made is not demanded again.
    pub fn demand_all<W: Executor<Value = V, Thrown = E, Rest = R>>(
        &mut self,
        alloc: Global,
        world: &mut W,
        setting: &W::Setting,
        table: &Table,
        item: &ItemRef<V>,
        defs: &[DefId],
    ) -> Result<Seq<E>, OutOfMemory>
        requires known { W.knows setting.now table.now item.now }
        requires scopes { HasScopes (W.rules setting.now) table.now }
        requires tree { IsTree table.now.nodes }
        requires node { item.now.node < length table.now.nodes }
        requires ready { AreReady (W.rules setting.now) (item_for_session table.now item.now) (length table.now.defs) (W.rules setting.now).depth defs.now }
        requires frames { StandsWith (stack_state (W.rules setting.now) world.old self.old) W.is_out [] }
        ensures state { IfOk result (λ raised. session_step raised (stack_state (W.rules setting.now) world.new self.new) ≡ demand_closure (W.rules setting.now) (item_for_session table.now item.now) defs.now (stack_state (W.rules setting.now) world.old (record self.old { own = item.now.own }))) }
        ensures frames { OnOk result (StandsWith (stack_state (W.rules setting.now) world.new self.new) W.is_out []) }
    {
        self.own = item.own;
        let mut marks = Vec::new(alloc);
        let mut rest = defs;
        'defs: while let Some((def, others)) = rest.split_first() {
            let refused = demand_noted(alloc, self, world, setting, table, item, *def, &mut marks)?;
            if let Some(raised) = refused {
                return Ok(raised);
            }
            rest = others;
        }
        Ok(Seq::new(alloc))
    }

    /// What isn't for the next item goes down, with all that depends on it; with none, all does. The exceptions are told in order.
    pub fn leave<W: Executor<Value = V, Thrown = E, Rest = R>>(
        &mut self,
        alloc: Global,
        world: &mut W,
        setting: &W::Setting,
        table: &Table,
        next: Option<&ItemRef<V>>,
    ) -> Result<Seq<E>, OutOfMemory>
        requires tree { IsTree table.now.nodes }
        requires next { IsNode table.now (option_map (λ item. item.now) next) }
        requires frames { StandsWith (stack_state (W.rules setting.now) world.old self.old) W.is_out [] }
        ensures state { IfOk result (λ raised. session_step raised (stack_state (W.rules setting.now) world.new self.new) ≡ down_all (W.rules setting.now) (not_on (next_chain table.now (option_map (λ item. item.now) next.entry)) (live_instances (W.rules setting.now) self.old.live.live)) (stack_state (W.rules setting.now) world.old (record self.old { given = [] }))) }
        ensures frames { OnOk result (StandsWith (stack_state (W.rules setting.now) world.new self.new) W.is_out []) }
    {
        let chain = next_chain(alloc, table, next)?;
        let raised = leave(alloc, self, world, setting, &chain)?;
        Ok(raised)
    }

    /// Notes that an item's test is called, and what answered the demands since the last `leave`.
    pub fn call_begins(&mut self, alloc: Global, item: &ItemRef<V>) -> Result<(), OutOfMemory>
        ensures events { OnOk result (self.new.events ≡ self.old.events ++ CallBegins item.now.node (orders_of self.old.given []) ∷ []) }
        ensures stack { self.new ≡ record self.old { events = self.new.events } }
    {
        let given = orders_of(alloc, self.given.items())?;
        self.events.push(Event::CallBegins(item.node, given))?;
        Ok(())
    }

    /// Notes that the call of an item's test ended.
    pub fn call_ends(&mut self, item: &ItemRef<V>) -> Result<(), OutOfMemory>
        ensures events { OnOk result (self.new.events ≡ self.old.events ++ CallEnds item.now.node ∷ []) }
        ensures stack { self.new ≡ record self.old { events = self.new.events } }
    {
        self.events.push(Event::CallEnds(item.node))?;
        Ok(())
    }

    /// Lets every frozen frame go that the stack holds, in order of set-up, behind want of memory: the world is spent. Takes no memory.
    pub fn abandon_all<W: Executor<Value = V, Thrown = E, Rest = R>>(&mut self, world: &mut W)
        ensures world { world.new ≡ all_given_up W.given_up self.old.live.live world.old }
        ensures stack { self.new ≡ record self.old { live = record self.old.live { live = map spent_instance self.old.live.live } } }
        ensures spent { AreSpent self.new.live.live }
    {
        give_up_all(&mut self.live, world);
    }

    /// Ends the stack, which holds no frozen frame.
    pub fn close(self)
        requires { AreSpent self.live.live }
    {
        let SetupStack {
            live,
            events: _events,
            given: _given,
            own: _own,
        } = self;
        live.close();
    }
}
