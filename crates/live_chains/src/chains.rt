ghost use Rattle.std.specs.Prelude.{◌≡◌, ℕ, ◌+◌, ◌-◌, ◌<◌, ◌≤◌, List, [], ◌∷◌, ◌++◌, map, max, None, Some, IfOk, OnOk, IfSome};
ghost use Rattle.std.specs.Option.{option_map};
ghost use Rattle.session_types.specs.Members.{IsMember};
ghost use Rattle.session_types.specs.Live.{find, instance_by_number, without, instance_number, instance_numbers, down_order};
ghost use Rattle.session_types.specs.declared.instance.Instance.{Instance};
ghost use Rattle.live_chains.specs.declared.id.LiveId.{LiveId};
ghost use Rattle.live_chains.specs.Down.{dying};
ghost use Rattle.live_chains.specs.Chained.{Apart, RisingBy, id_order, ids_without, place_of};

use crate::dying::Dying;
use crate::heads::{find_in, going_in, roots_in, take_heads};
use crate::id::LiveId;
use link_cells::{Cells, Steps};
use seq::OutOfMemory;
use session_types::{DefId, Instance, SCOPE_COUNT};
use std::alloc::Global;
use std::marker::Model;
use std::sync::ledger::Ledger;

/// The live instances, in a linked chain per scope.
#[derive(Drop)]
pub struct Chains {
    cells: Cells<Instance>,
    heads: Vec<usize>,
}

impl Model for Chains {
    ghost use Rattle.live_chains.specs.Chained.{LiveList, chains_as_list, IsChains};

    ghost Value = { LiveList };

    ghost view = { λ c. chains_as_list c.cells c.heads.items };

    ghost invariant = { λ c. IsChains c.cells c.heads.items };
}

impl Chains {
    /// No instance, and room for none.
    pub fn new(alloc: Global) -> Result<Chains, OutOfMemory>
        ensures { IfOk result (λ chains. chains ≡ record { live = []; ids = []; spare = 0 }) }
    {
        let mut cells = Cells::new(alloc)?;
        cells.reserve(0, SCOPE_COUNT)?;
        let heads = take_heads(alloc, &mut cells)?;
        Ok(Chains { cells, heads })
    }

    /// Makes room for at least so many more. Memory is all that can refuse it, and the list stays as it is.
    pub fn reserve(&mut self, room: usize) -> Result<(), OutOfMemory>
        ensures spare { OnOk result (self.new.spare ≡ max self.old.spare room) }
        ensures same { self.new ≡ record self.old { spare = self.new.spare } }
        ensures kept { self.old.spare ≤ self.new.spare }
    {
        self.cells.reserve(room, 0)
    }

    /// Appends an instance.
    pub fn link<L: Ledger>(&mut self, instance: Instance, steps: &mut Steps<L>) -> LiveId
        requires room { 0 < self.old.spare }
        requires latest { (j : Instance ℕ) → IsMember j self.old.live → j.order < instance.order }
        requires free { find instance.def instance.node self.old.live ≡ None }
        ensures linked { self.new ≡ record { live = self.old.live ++ instance ∷ []; ids = self.old.ids ++ result ∷ []; spare = self.old.spare - 1 } }
        ensures number { result.order ≡ instance.order }
        ensures cost { steps.new ≤ steps.old + 6 }
    {
        let order = instance.order;
        let head = self.heads[instance.scope.rank()];
        let cell = self.cells.push_back(head, instance, steps);
        LiveId::new(order, cell)
    }

    /// Takes an instance out.
    pub fn unlink<L: Ledger>(&mut self, id: LiveId, steps: &mut Steps<L>) -> Instance
        requires { IsMember id self.old.ids }
        ensures value { instance_by_number id.order self.old.live ≡ Some result }
        ensures taken { self.new ≡ record { live = without id.order self.old.live; ids = ids_without id.order self.old.ids; spare = self.old.spare + 1 } }
        ensures cost { steps.new ≤ steps.old + 6 }
    {
        self.cells.unlink(id.cell(), steps)
    }

    /// The instance of a name.
    pub fn get(&self, id: LiveId) -> &Instance
        requires { IsMember id self.now.ids }
        ensures { instance_by_number id.order self.now.live ≡ Some result.now }
    {
        self.cells.get(id.cell())
    }

    /// The instance of this definition on this node. There is at most one.
    pub fn find(&self, def: DefId, node: u32) -> Option<LiveId>
        ensures same { option_map id_order result ≡ option_map instance_number (find def node self.now.live) }
        ensures live { IfSome result (λ id. IsMember id self.now.ids) }
    {
        find_in(&self.cells, &self.heads, def, node)
    }

    /// What goes down, in order: narrow scopes first, and within a scope the latest first.
    pub fn down_of(&self, alloc: Global, which: &Dying<'_>) -> Result<Vec<LiveId>, OutOfMemory>
        ensures same { IfOk result (λ ids. map id_order ids.items ≡ instance_numbers (down_order (dying which.now self.now.live))) }
        ensures live { IfOk result (λ ids. (id : LiveId) → IsMember id ids.items → IsMember id self.now.ids) }
        ensures once { IfOk result (λ ids. Apart id_order ids.items) }
    {
        let roots = roots_in(alloc, &self.cells, &self.heads, which)?;
        let ids = going_in(alloc, &self.cells, &self.heads, &roots)?;
        Ok(ids)
    }

    /// What holds of every `Chains`: the instances are in order of set-up, each has its name, and no two are of one definition on
    /// one node.
    pub fn is_in_order(&self)
        ensures rising { RisingBy instance_number self.now.live }
        ensures named { map id_order self.now.ids ≡ instance_numbers self.now.live }
        ensures single { Apart place_of self.now.live }
    {
        let _heads = self.heads.len();
    }
}
