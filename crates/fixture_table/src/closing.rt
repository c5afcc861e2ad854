ghost use Rattle.std.specs.Prelude.{◌≡◌, ◌<◌, ◌≤◌, ◌^◌, ◌++◌, length, IfSome, IfOk, OnOk, EachIndex, slice_index, if◌then◌else◌, []};
ghost use Rattle.std.specs.Option.{ForSome, option_to_list};
ghost use Rattle.fixture_table.specs.Tree.{IsTree, iter_parents};
ghost use Rattle.session_types.specs.Numbers.{among};
ghost use Rattle.fixture_table.specs.Nearest.{StandAtNodes, def_at, nearest_of};
ghost use Rattle.fixture_table.specs.Closing.{Known, IsKnown, entry_at, same_entry, has, with_one, with_unseen, entry_for, entries_for, asked_one, asked_all, requested_by, entry_or, definition_if, Grown, autouse_at, autouse_up, first_entries};
ghost use Rattle.fixture_table.specs.Index.{IsIndex};

use crate::entry::Entry;
use crate::looking::nearest;
use crate::types::{CollectionNode, FixtureDef};
use seq::{OutOfMemory, Seq};
use std::alloc::Global;

/// What an item sees of a table.
#[derive(Clone, Copy)]
pub struct View<'t> {
    pub nodes: &'t [CollectionNode],
    pub defs: &'t [FixtureDef],
    /// For each node the definitions that stand there.
    pub at_nodes: &'t [Seq<u32>],
    pub item: u32,
    pub bound: &'t [u32],
    ghost tree: { IsTree nodes.now },
    ghost stand: { StandAtNodes nodes.now defs.now },
    ghost index: { IsIndex nodes.now defs.now at_nodes.now },
    ghost item_in: { item < length nodes.now },
    ghost few: { length defs.now ≤ 2 ^ 32 },
}

/// Whether a name is among these.
pub fn among(names: &[u32], name: u32) -> bool
    ensures { result ≡ among name names.now }
{
    names.iter().any(|one| *one == name)
}

/// Whether two entries are the same.
pub fn same_entry(one: Entry, other: Entry) -> bool
    ensures { result ≡ same_entry one other }
{
    match (one, other) {
        (Entry::Definition(d), Entry::Definition(e)) => d == e,
        (Entry::Definition(_), Entry::Missing(_)) => false,
        (Entry::Missing(_), Entry::Definition(_)) => false,
        (Entry::Missing(n), Entry::Missing(m)) => n == m,
    }
}

fn has(entries: &[Entry], entry: Entry) -> bool
    ensures { result ≡ has entry entries.now }
{
    entries.iter().any(|one| same_entry(*one, entry))
}

fn push_unseen(entries: &mut Vec<Entry>, entry: Entry) -> Result<(), OutOfMemory>
    ensures ok { OnOk result (entries.new.items ≡ with_one entry entries.old.items) }
{
    if !has(entries, entry) {
        entries.push(entry)?;
    }
    Ok(())
}

impl View<'_> {
    /// The nearest definition of a name.
    pub fn nearest(&self, name: u32, beyond: Option<usize>) -> Option<usize>
        requires { ForSome beyond (λ b. b < length self.now.defs.now) }
        ensures answer { result ≡ nearest_of self.now.nodes.now self.now.defs.now name self.now.item beyond }
        ensures within { IfSome result (λ d. d < length self.now.defs.now) }
    {
        nearest(
            self.nodes,
            self.defs,
            self.at_nodes,
            name,
            self.item,
            beyond,
        )
    }

    /// What a name stands for, unless it is bound.
    fn entry_for(&self, name: u32) -> Option<Entry>
        ensures value { option_to_list result ≡ entry_for self.now.nodes.now self.now.defs.now self.now.item self.now.bound.now name }
        ensures known { IfSome result (IsKnown self.now.defs.now) }
    {
        if among(self.bound, name) {
            return None;
        }
        Some(entry_or(name, self.nearest(name, None)))
    }

    /// What a definition's argument stands for, unless it is bound or there is none further out.
    pub fn asked_one(&self, place: usize, name: u32) -> Option<Entry>
        requires { place < length self.now.defs.now }
        ensures value { option_to_list result ≡ asked_one self.now.nodes.now self.now.defs.now self.now.item self.now.bound.now place name }
        ensures known { IfSome result (IsKnown self.now.defs.now) }
    {
        if name != self.defs[place].name {
            return self.entry_for(name);
        }
        if among(self.bound, name) {
            return None;
        }
        definition_if(self.nearest(name, Some(place)))
    }
}

fn entry_or(name: u32, found: Option<usize>) -> Entry
    ensures { result ≡ entry_or name found }
{
    match found {
        None => Entry::Missing(name),
        Some(place) => Entry::Definition(place),
    }
}

fn definition_if(found: Option<usize>) -> Option<Entry>
    ensures { option_to_list result ≡ definition_if found }
{
    match found {
        None => None,
        Some(place) => Some(Entry::Definition(place)),
    }
}

/// The node and those above it, inmost first.
fn chain_up(alloc: Global, nodes: &[CollectionNode], item: u32) -> Result<Vec<u32>, OutOfMemory>
    requires tree { IsTree nodes.now }
    requires item { item < length nodes.now }
    ensures chain { IfOk result (λ chain. chain.items ≡ iter_parents nodes.now item) }
    ensures within { IfOk result (λ chain. EachIndex chain.items (λ q. slice_index chain.items q < length nodes.now)) }
{
    let mut chain = Vec::new(alloc);
    let mut at = item;
    while at != 0 {
        chain.push(at)?;
        at = nodes[at as usize].parent;
    }
    chain.push(at)?;
    Ok(chain)
}

impl View<'_> {
    fn push_name(&self, entries: &mut Vec<Entry>, name: u32) -> Result<(), OutOfMemory>
        requires { Known self.now.defs.now entries.old.items }
        ensures ok { OnOk result (entries.new.items ≡ with_unseen (entry_for self.now.nodes.now self.now.defs.now self.now.item self.now.bound.now name) entries.old.items) }
        ensures known { OnOk result (Known self.now.defs.now entries.new.items) }
    {
        match self.entry_for(name) {
            Some(entry) => push_unseen(entries, entry),
            None => Ok(()),
        }
    }

    fn push_names(&self, entries: &mut Vec<Entry>, names: &[u32]) -> Result<(), OutOfMemory>
        requires { Known self.now.defs.now entries.old.items }
        ensures ok { OnOk result (entries.new.items ≡ with_unseen (entries_for self.now.nodes.now self.now.defs.now self.now.item self.now.bound.now names.now) entries.old.items) }
        ensures known { OnOk result (Known self.now.defs.now entries.new.items) }
    {
        for name in names {
            self.push_name(entries, *name)?;
        }
        Ok(())
    }

    /// A definition, if it is autouse.
    fn push_if_autouse(&self, entries: &mut Vec<Entry>, place: usize) -> Result<(), OutOfMemory>
        requires known { Known self.now.defs.now entries.old.items }
        requires place { place < length self.now.defs.now }
        ensures ok { OnOk result (entries.new.items ≡ with_unseen (if (def_at self.now.defs.now place).autouse then entry_for self.now.nodes.now self.now.defs.now self.now.item self.now.bound.now (def_at self.now.defs.now place).name else []) entries.old.items) }
        ensures known { OnOk result (Known self.now.defs.now entries.new.items) }
    {
        if self.defs[place].autouse {
            self.push_name(entries, self.defs[place].name)?;
        }
        Ok(())
    }

    /// The autouse fixtures of one node.
    fn push_autouse_at(&self, entries: &mut Vec<Entry>, node: u32) -> Result<(), OutOfMemory>
        requires known { Known self.now.defs.now entries.old.items }
        requires node { node < length self.now.nodes.now }
        ensures ok { OnOk result (entries.new.items ≡ with_unseen (entries_for self.now.nodes.now self.now.defs.now self.now.item self.now.bound.now (autouse_at self.now.defs.now node)) entries.old.items) }
        ensures known { OnOk result (Known self.now.defs.now entries.new.items) }
    {
        for place in self.at_nodes[node as usize].items() {
            self.push_if_autouse(entries, *place as usize)?;
        }
        Ok(())
    }

    /// The autouse fixtures of these nodes, the last node first.
    fn push_autouse(&self, entries: &mut Vec<Entry>, chain: &[u32]) -> Result<(), OutOfMemory>
        requires known { Known self.now.defs.now entries.old.items }
        requires chain { EachIndex chain.now (λ q. slice_index chain.now q < length self.now.nodes.now) }
        ensures ok { OnOk result (entries.new.items ≡ with_unseen (entries_for self.now.nodes.now self.now.defs.now self.now.item self.now.bound.now (autouse_up self.now.defs.now chain.now)) entries.old.items) }
        ensures known { OnOk result (Known self.now.defs.now entries.new.items) }
    {
        let mut at = chain.len();
        while at > 0 {
            at -= 1;
            self.push_autouse_at(entries, chain[at])?;
        }
        Ok(())
    }

    /// What one argument of a definition stands for.
    fn push_asked_one(
        &self,
        entries: &mut Vec<Entry>,
        place: usize,
        name: u32,
    ) -> Result<(), OutOfMemory>
        requires known { Known self.now.defs.now entries.old.items }
        requires place { place < length self.now.defs.now }
        ensures ok { OnOk result (entries.new.items ≡ with_unseen (asked_one self.now.nodes.now self.now.defs.now self.now.item self.now.bound.now place name) entries.old.items) }
        ensures known { OnOk result (Known self.now.defs.now entries.new.items) }
    {
        match self.asked_one(place, name) {
            Some(entry) => push_unseen(entries, entry),
            None => Ok(()),
        }
    }

    /// What a definition asks for.
    fn push_asked(&self, entries: &mut Vec<Entry>, place: usize) -> Result<(), OutOfMemory>
        requires known { Known self.now.defs.now entries.old.items }
        requires place { place < length self.now.defs.now }
        ensures ok { OnOk result (entries.new.items ≡ with_unseen (asked_all self.now.nodes.now self.now.defs.now self.now.item self.now.bound.now place (def_at self.now.defs.now place).args) entries.old.items) }
        ensures known { OnOk result (Known self.now.defs.now entries.new.items) }
    {
        for name in self.defs[place].args.items() {
            self.push_asked_one(entries, place, *name)?;
        }
        Ok(())
    }

    fn grow_at(&self, entries: &mut Vec<Entry>, place: usize) -> Result<(), OutOfMemory>
        requires known { Known self.now.defs.now entries.old.items }
        requires place { place < length entries.old.items }
        ensures ok { OnOk result (entries.new.items ≡ with_unseen (requested_by self.now.nodes.now self.now.defs.now self.now.item self.now.bound.now (entry_at entries.old.items place)) entries.old.items) }
        ensures known { OnOk result (Known self.now.defs.now entries.new.items) }
    {
        match entries[place] {
            Entry::Definition(definition) => self.push_asked(entries, definition),
            Entry::Missing(_) => Ok(()),
        }
    }

    /// Lets the list grow until each entry has appended what it asks for.
    fn grow(&self, entries: &mut Vec<Entry>) -> Result<(), OutOfMemory>
        requires known { Known self.now.defs.now entries.old.items }
        ensures ok { OnOk result (Grown self.now.nodes.now self.now.defs.now self.now.item self.now.bound.now entries.old.items 0 entries.new.items) }
        ensures known { OnOk result (Known self.now.defs.now entries.new.items) }
    {
        for place in 0..usize::MAX {
            if place >= entries.len() {
                return Ok(());
            }
            self.grow_at(entries, place)?;
        }
        Ok(())
    }

    /// The list of a closure.
    pub fn entries(
        &self,
        alloc: Global,
        uses: &[u32],
        args: &[u32],
    ) -> Result<Vec<Entry>, OutOfMemory>
        ensures ok { IfOk result (λ es. Grown self.now.nodes.now self.now.defs.now self.now.item self.now.bound.now (first_entries self.now.nodes.now self.now.defs.now self.now.item self.now.bound.now uses.now args.now) 0 es.items) }
        ensures known { IfOk result (λ es. Known self.now.defs.now es.items) }
    {
        let chain = chain_up(alloc, self.nodes, self.item)?;
        let mut entries = Vec::new(alloc);
        self.push_autouse(&mut entries, &chain)?;
        self.push_names(&mut entries, uses)?;
        self.push_names(&mut entries, args)?;
        self.grow(&mut entries)?;
        Ok(entries)
    }
}
