ghost use Rattle.std.specs.Prelude.{◌≡◌, ℕ, ◌+◌, ◌-◌, ◌<◌, List, [], ◌∷◌, ◌++◌, length, max, None, Some, IfOk, OnOk, OnErr, IsSome, IfSome};
ghost use Rattle.std.specs.List.{filter, HoldsAt};
ghost use Rattle.std.specs.Option.{option_map};
ghost use Rattle.session_types.specs.Members.{IsMember};
ghost use Rattle.session_types.specs.Live.{find, has_off, instance_by_number, without, instance_number, instance_numbers, down_order, scope_numbers};
ghost use Rattle.session_types.specs.declared.instance.Instance.{Instance};
ghost use Rattle.live_chains.specs.Down.{dies, dying};

use crate::dying::Dying;
use crate::resting::{is_at, is_off, rests_on};
use seq::OutOfMemory;
use session_types::{DefId, Instance, SCOPE_COUNT};
use std::alloc::Global;
use std::marker::Model;

/// The live instances in one plain list. Its calls mean what those of `Chains` mean, and an instance's name is its number; tests
/// compare the two.
#[derive(Drop)]
pub struct PlainChains {
    live: Vec<Instance>,
    spare: usize,
}

impl Model for PlainChains {
    ghost use Rattle.std.specs.Prelude.{vec_len, vec_capacity, ◌≤◌, ◌+◌};
    ghost use Rattle.live_chains.specs.Plain.{PlainList};
    ghost use Rattle.session_types.specs.Live.{instance_number};
    ghost use Rattle.live_chains.specs.Chained.{RisingBy};

    ghost Value = { PlainList };

    ghost view = { λ c. record { live = c.live.items; spare = c.spare } };

    ghost invariant = { λ c. RisingBy instance_number c.live.items × (vec_len c.live + c.spare ≤ vec_capacity c.live) };
}

impl PlainChains {
    /// No instance, and room for none.
    pub fn new(alloc: Global) -> PlainChains
        ensures { result ≡ record { live = []; spare = 0 } }
    {
        PlainChains {
            live: Vec::new(alloc),
            spare: 0,
        }
    }

    /// Makes room for at least so many more.
    pub fn reserve(&mut self, room: usize) -> Result<(), OutOfMemory>
        ensures ok { OnOk result (self.new ≡ record self.old { spare = max self.old.spare room }) }
        ensures err { OnErr result (self.new ≡ self.old) }
    {
        if self.spare < room {
            self.live.reserve(room)?;
            self.spare = room;
        }
        Ok(())
    }

    /// Appends an instance, and gives its number.
    pub fn link(&mut self, instance: Instance) -> u64
        requires room { 0 < self.old.spare }
        requires latest { (j : Instance ℕ) → IsMember j self.old.live → j.order < instance.order }
        ensures linked { self.new ≡ record { live = self.old.live ++ instance ∷ []; spare = self.old.spare - 1 } }
        ensures named { result ≡ instance.order }
    {
        let order = instance.order;
        self.live.push(instance).unwrap();
        self.spare -= 1;
        order
    }

    /// Takes out the one of this number.
    pub fn unlink(&mut self, number: u64) -> Instance
        requires { IsSome (instance_by_number number self.old.live) }
        ensures value { instance_by_number number self.old.live ≡ Some result }
        ensures taken { self.new ≡ record { live = without number self.old.live; spare = self.old.spare + 1 } }
    {
        let place = place_of(&self.live, number);
        self.spare += 1;
        self.live.remove(place)
    }

    /// The one of this number.
    pub fn get(&self, number: u64) -> &Instance
        requires { IsSome (instance_by_number number self.now.live) }
        ensures { instance_by_number number self.now.live ≡ Some result.now }
    {
        let place = place_of(&self.live, number);
        &self.live[place]
    }

    /// The number of the instance of this definition on this node.
    pub fn find(&self, def: DefId, node: u32) -> Option<u64>
        ensures same { result ≡ option_map instance_number (find def node self.now.live) }
        ensures live { IfSome result (λ n. IsSome (instance_by_number n self.now.live)) }
    {
        find_in(&self.live, def, node)
    }

    /// The numbers of what goes down, in order.
    pub fn down_of(&self, alloc: Global, which: &Dying<'_>) -> Result<Vec<u64>, OutOfMemory>
        ensures { IfOk result (λ v. v.items ≡ instance_numbers (down_order (dying which.now self.now.live))) }
    {
        down_in(alloc, &self.live, which)
    }
}

fn find_in(live: &[Instance], def: DefId, node: u32) -> Option<u64>
    ensures { result ≡ option_map instance_number (find def node live.now) }
{
    for one in live {
        if is_at(one, def, node) {
            return Some(one.order);
        }
    }
    None
}

/// Where the one of this number stands.
fn place_of(live: &[Instance], number: u64) -> usize
    requires { IsSome (instance_by_number number live.now) }
    ensures within { result < length live.now }
    ensures at { HoldsAt (λ one. one.order ≡ number) live.now result }
{
    for (place, one) in live.iter().enumerate() {
        if one.order == number {
            return place;
        }
    }
    0
}

fn has_off(live: &[Instance], chain: &[u32], instance: &Instance) -> bool
    ensures { result ≡ has_off live.now chain.now instance.now }
{
    live.iter()
        .any(|one| is_off(one, chain) && rests_on(instance, one.order))
}

fn dies(which: &Dying<'_>, live: &[Instance], instance: &Instance) -> bool
    ensures { result ≡ dies which.now live.now instance.now }
{
    match which {
        Dying::Dependents(id) => rests_on(instance, id.order()),
        Dying::NotOn(chain) => has_off(live, chain, instance),
    }
}

/// Appends the dying ones of one scope, later set-ups first.
fn push_scope(
    out: &mut Vec<u64>,
    live: &[Instance],
    which: &Dying<'_>,
    of: usize,
) -> Result<(), OutOfMemory>
    ensures { OnOk result (out.new.items ≡ out.old.items ++ scope_numbers of (dying which.now live.now)) }
{
    let mut at = live.len();
    while at > 0 {
        at -= 1;
        let one = &live[at];
        if of == one.scope.rank() && dies(which, live, one) {
            out.push(one.order)?;
        }
    }
    Ok(())
}

fn down_in(alloc: Global, live: &[Instance], which: &Dying<'_>) -> Result<Vec<u64>, OutOfMemory>
    ensures { IfOk result (λ v. v.items ≡ instance_numbers (down_order (dying which.now live.now))) }
{
    let mut out = Vec::new(alloc);
    let mut rank = SCOPE_COUNT;
    while rank > 0 {
        rank -= 1;
        push_scope(&mut out, live, which, rank)?;
    }
    Ok(out)
}
