ghost use Rattle.std.specs.Prelude.{◌≡◌, ℕ, ◌+◌, ◌-◌, ◌<◌, ◌≤◌, ◌^◌, List, [], ◌∷◌, ◌++◌, length, map, None, Some, IfOk, OnOk, IfSome, IsSome, vec_len, vec_capacity, slice_index_or};
ghost use Rattle.std.specs.List.{HoldsAt};
ghost use Rattle.std.specs.Option.{option_map};
ghost use Rattle.session_types.specs.Members.{IsMember};
ghost use Rattle.session_types.specs.Live.{find, instance_by_number, without, instance_number, instance_numbers, down_order, dependents, not_on};
ghost use Rattle.session_types.specs.declared.instance.Instance.{Instance};
ghost use Rattle.live_chains.specs.declared.id.LiveId.{LiveId};
ghost use Rattle.live_chains.specs.Chained.{Apart, RisingBy, id_order, ids_without};
ghost use Rattle.fixture_instances.specs.Joined.{with_slot, kept_at, kept_order, kept_without, def_and_node};
ghost use Rattle.fixture_instances.specs.Resting.{AreKeptSpent, AreSpent, all_given_up, all_kept_given_up, given_up_where, spent_instance, spent_kept};

use crate::ends::CachedResult;
use crate::executor::Executor;
use live_chains::{Chains, Dying, LiveId, Steps};
use seq::OutOfMemory;
use session_types::{DefId, Instance};
use std::alloc::Global;
use std::marker::{Brand, Model};
use std::sync::ledger::{Blank, Ledger};

/// What is kept of the instance of a number.
pub(crate) struct Kept<V, E, R> {
    order: u64,
    held: CachedResult<V, E, R>,
}

/// The live instances in order of set-up, with what is kept of each.
pub struct LiveFixtures<V, E, R> {
    chains: Chains,
    kept: Vec<Kept<V, E, R>>,
    spare: usize,
    next: u64,
}

impl<V, E, R> Model for LiveFixtures<V, E, R> {
    ghost use Rattle.std.specs.Prelude.{◌≤◌, ◌+◌, vec_len, vec_capacity};
    ghost use Rattle.fixture_instances.specs.Joined.{InstanceList, ArePaired, OrdersBelow, with_slots};

    ghost Value = { InstanceList V E R };

    ghost view = { λ l. record { live = with_slots l.chains.live l.kept.items; ids = l.chains.ids; spare = l.spare; next = l.next } };

    ghost invariant = { λ l. record { pairs : ArePaired l.chains.live l.kept.items; below : OrdersBelow l.chains.live l.next; chained : l.spare ≤ l.chains.spare; room : vec_len l.kept + l.spare ≤ vec_capacity l.kept } };
}

/// Puts an instance into the chains, without what is kept of it.
fn link<L: Ledger>(chains: &mut Chains, instance: Instance, blank: Blank) -> LiveId
    requires name { blank.name ≡ L.name }
    requires parts { blank.parts ≡ L.parts }
    requires share { 0 < blank.parts }
    requires room { 0 < chains.old.spare }
    requires latest { (j : Instance ℕ) → IsMember j chains.old.live → j.order < instance.order }
    requires free { find instance.def instance.node chains.old.live ≡ None }
    ensures linked { chains.new ≡ record { live = chains.old.live ++ instance ∷ []; ids = chains.old.ids ++ result ∷ []; spare = chains.old.spare - 1 } }
    ensures number { result.order ≡ instance.order }
{
    let mut steps = Steps::<L>::new(blank);
    chains.link(instance, &mut steps)
}

/// Takes an instance out of the chains.
fn unlink<L: Ledger>(chains: &mut Chains, id: LiveId, blank: Blank) -> Instance
    requires name { blank.name ≡ L.name }
    requires parts { blank.parts ≡ L.parts }
    requires share { 0 < blank.parts }
    requires live { IsMember id chains.old.ids }
    ensures value { instance_by_number id.order chains.old.live ≡ Some result }
    ensures taken { chains.new ≡ record { live = without id.order chains.old.live; ids = ids_without id.order chains.old.ids; spare = chains.old.spare + 1 } }
{
    let mut steps = Steps::<L>::new(blank);
    chains.unlink(id, &mut steps)
}

/// Where what is kept of the instance of a number stands, by halves.
fn place_of<V, E, R>(kept: &[Kept<V, E, R>], order: u64) -> usize
    requires some { IsSome (kept_at order kept.now) }
    requires rising { RisingBy kept_order kept.now }
    ensures within { result < length kept.now }
    ensures at { HoldsAt (λ one. one.order ≡ order) kept.now result }
    ensures found { HoldsAt (λ one. kept_at order kept.now ≡ Some one.held) kept.now result }
{
    let mut low = 0;
    let mut high = kept.len();
    'halves: while high - low > 1 {
        let middle = low + (high - low) / 2;
        if kept[middle].order <= order {
            low = middle;
        } else {
            high = middle;
        }
    }
    low
}

/// Takes out what is kept of the instance of a number.
fn take_kept<V, E, R>(kept: &mut Vec<Kept<V, E, R>>, order: u64) -> CachedResult<V, E, R>
    requires some { IsSome (kept_at order kept.old.items) }
    requires rising { RisingBy kept_order kept.old.items }
    ensures value { kept_at order kept.old.items ≡ Some result }
    ensures items { kept.new.items ≡ kept_without order kept.old.items }
    ensures fewer { vec_len kept.new + 1 ≡ vec_len kept.old }
    ensures room { vec_capacity kept.old ≤ vec_capacity kept.new }
{
    let place = place_of(kept, order);
    let Kept { order: _, held } = kept.remove(place);
    held
}

/// What is kept of the instance of a number.
fn held_in<V, E, R>(kept: &[Kept<V, E, R>], order: u64) -> &CachedResult<V, E, R>
    requires some { IsSome (kept_at order kept.now) }
    requires rising { RisingBy kept_order kept.now }
    ensures { kept_at order kept.now ≡ Some result.now }
{
    let place = place_of(kept, order);
    &kept[place].held
}

impl<V, E, R> LiveFixtures<V, E, R> {
    /// No instance, and room for none.
    pub fn new(alloc: Global) -> Result<Self, OutOfMemory>
        ensures { IfOk result (λ live. live ≡ record { live = []; ids = []; spare = 0; next = 0 }) }
    {
        let chains = Chains::new(alloc)?;
        Ok(LiveFixtures {
            chains,
            kept: Vec::new(alloc),
            spare: 0,
            next: 0,
        })
    }

    /// Makes room for one more. Memory and a count at its end are all that can refuse it; the list stays as it is.
    pub fn reserve(&mut self) -> Result<(), OutOfMemory>
        ensures room { OnOk result (0 < self.new.spare) }
        ensures count { OnOk result (self.new.next + 1 < 2 ^ 64) }
        ensures same { self.new ≡ record self.old { spare = self.new.spare } }
    {
        if self.next == u64::MAX {
            return Err(OutOfMemory);
        }
        if self.spare == 0 {
            self.kept.reserve(1)?;
            self.chains.reserve(1)?;
            self.spare = 1;
        }
        Ok(())
    }

    /// Appends an instance, whose number is the next one.
    pub fn link(&mut self, instance: Instance<CachedResult<V, E, R>>) -> LiveId
        requires room { 0 < self.old.spare }
        requires count { self.old.next + 1 < 2 ^ 64 }
        requires order { instance.order ≡ self.old.next }
        requires free { find instance.def instance.node self.old.live ≡ None }
        ensures linked { self.new ≡ record { live = self.old.live ++ instance ∷ []; ids = self.old.ids ++ result ∷ []; spare = self.old.spare - 1; next = self.old.next + 1 } }
        ensures number { result.order ≡ instance.order }
    {
        let Instance {
            def,
            param,
            node,
            scope,
            order,
            bases,
            slot,
        } = instance;
        let bare = Instance {
            def,
            param,
            node,
            scope,
            order,
            bases,
            slot: 0,
        };
        let id = link::<Brand>(&mut self.chains, bare, Blank::new(1));
        self.kept.push(Kept { order, held: slot }).unwrap();
        self.spare -= 1;
        self.next += 1;
        id
    }

    /// Takes an instance out, with what is kept of it.
    pub fn take(&mut self, id: LiveId) -> Instance<CachedResult<V, E, R>>
        requires { IsMember id self.old.ids }
        ensures value { instance_by_number id.order self.old.live ≡ Some result }
        ensures taken { self.new ≡ record { live = without id.order self.old.live; ids = ids_without id.order self.old.ids; spare = self.old.spare + 1; next = self.old.next } }
    {
        self.chains.is_in_order();
        let bare = unlink::<Brand>(&mut self.chains, id, Blank::new(1));
        let slot = take_kept(&mut self.kept, id.order());
        self.spare += 1;
        let Instance {
            def,
            param,
            node,
            scope,
            order,
            bases,
            slot: _,
        } = bare;
        Instance {
            def,
            param,
            node,
            scope,
            order,
            bases,
            slot,
        }
    }

    /// The number of the next set-up.
    pub fn next(&self) -> u64
        ensures { result ≡ self.now.next }
    {
        self.next
    }

    /// The instance of a name, without what is kept of it.
    pub fn get(&self, id: LiveId) -> &Instance
        requires { IsMember id self.now.ids }
        ensures { option_map (with_slot result.now.slot) (instance_by_number id.order self.now.live) ≡ Some result.now }
    {
        self.chains.get(id)
    }

    /// What is kept of the instance of a name.
    pub fn held(&self, id: LiveId) -> &CachedResult<V, E, R>
        requires { IsMember id self.now.ids }
        ensures { option_map (λ i. i.slot) (instance_by_number id.order self.now.live) ≡ Some result.now }
    {
        self.chains.is_in_order();
        let _one = self.chains.get(id);
        held_in(&self.kept, id.order())
    }

    /// The instance of this definition on this node. There is at most one.
    pub fn find(&self, def: DefId, node: u32) -> Option<LiveId>
        ensures same { option_map id_order result ≡ option_map instance_number (find def node self.now.live) }
        ensures live { IfSome result (λ id. IsMember id self.now.ids) }
    {
        self.chains.find(def, node)
    }

    /// What goes down with an instance, in order: narrow scopes first, and within a scope the latest first.
    pub fn dependents_of(&self, alloc: Global, id: LiveId) -> Result<Vec<LiveId>, OutOfMemory>
        ensures same { IfOk result (λ ids. map id_order ids.items ≡ instance_numbers (down_order (dependents id.order self.now.live))) }
        ensures live { IfOk result (λ ids. (id : LiveId) → IsMember id ids.items → IsMember id self.now.ids) }
        ensures once { IfOk result (λ ids. Apart id_order ids.items) }
    {
        let ids = self.chains.down_of(alloc, &Dying::Dependents(id))?;
        Ok(ids)
    }

    /// What goes down where a session goes on at these nodes, in order.
    pub fn off_of(&self, alloc: Global, chain: &[u32]) -> Result<Vec<LiveId>, OutOfMemory>
        ensures same { IfOk result (λ ids. map id_order ids.items ≡ instance_numbers (down_order (not_on chain.now self.now.live))) }
        ensures live { IfOk result (λ ids. (id : LiveId) → IsMember id ids.items → IsMember id self.now.ids) }
        ensures once { IfOk result (λ ids. Apart id_order ids.items) }
    {
        let ids = self.chains.down_of(alloc, &Dying::NotOn(chain))?;
        Ok(ids)
    }

    /// What holds of all live instances: their numbers rise, and each name is that of one.
    pub fn is_in_order(&self)
        ensures rising { RisingBy instance_number self.now.live }
        ensures named { map id_order self.now.ids ≡ instance_numbers self.now.live }
        ensures single { Apart def_and_node self.now.live }
    {
        self.chains.is_in_order();
    }
}

/// What remains of an instance is let go, behind want of memory.
fn give_up<W: Executor>(world: &mut W, rest: Option<W::Rest>)
    ensures { world.new ≡ given_up_where W.given_up rest world.old }
{
    match rest {
        None => {}
        Some(rest) => world.give_up(rest),
    }
}

/// What remains of all of these is let go, in order.
fn give_up_each<W: Executor>(kept: &mut [Kept<W::Value, W::Thrown, W::Rest>], world: &mut W)
    ensures kept { kept.new ≡ map spent_kept kept.old }
    ensures world { world.new ≡ all_kept_given_up W.given_up kept.old world.old }
{
    for one in kept.iter_mut() {
        give_up(world, one.held.rest.take());
    }
}

/// What remains of all live instances is let go behind want of memory, in order of set-up.
pub fn give_up_all<W: Executor>(
    live: &mut LiveFixtures<W::Value, W::Thrown, W::Rest>,
    world: &mut W,
)
    ensures live { live.new ≡ record live.old { live = map spent_instance live.old.live } }
    ensures world { world.new ≡ all_given_up W.given_up live.old.live world.old }
{
    give_up_each(&mut live.kept, world);
}

/// Lets go what is kept of instances of which nothing remains.
fn end_kept<V: Copy, E: Drop, R>(mut kept: Vec<Kept<V, E, R>>)
    requires { AreKeptSpent kept.items }
{
    'rest: while let Some(one) = kept.pop() {
        let Kept { order: _, held } = one;
        let CachedResult {
            kept: _kept,
            rest,
            request: _request,
        } = held;
        match rest {
            None => {}
            Some(_) => unreachable!(),
        }
    }
    kept.destroy_empty();
}

impl<V: Copy, E: Drop, R> LiveFixtures<V, E, R> {
    /// Ends the list.
    pub fn close(self)
        requires { AreSpent self.live }
    {
        let LiveFixtures {
            chains: _chains,
            kept,
            spare: _spare,
            next: _next,
        } = self;
        end_kept(kept);
    }
}
