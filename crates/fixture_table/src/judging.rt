ghost use Rattle.std.specs.Prelude.{◌≡◌, ◌<◌, ℕ, length, None, Some, IfSome, IfOk, true, if◌then◌else◌};
ghost use Rattle.fixture_table.specs.Nearest.{def_at};
ghost use Rattle.fixture_table.specs.Faults.{asks_in_vain, rank_or, rank_at, is_narrower, first_narrower, requests, RequestPath, IsRecursive, HasFault, IsSoundEntry, SoundTo, IsFirstFault};
ghost use Rattle.fixture_table.specs.declared.entry.Entry.TheVariants.{Definition};
ghost use Rattle.fixture_table.specs.declared.fault.FixtureFault.{FixtureFault};
ghost use Rattle.fixture_table.specs.Closing.{Known, IsKnown, entry_at};
ghost use Rattle.fixture_table.specs.Marks.{Below, row_of};

use crate::closing::{View, among};
use crate::entry::Entry;
use crate::fault::FixtureFault;
use crate::reaching::is_reached;
use crate::types::FixtureDef;
use seq::{OutOfMemory, Seq};
use session_types::{DefId, Scope};
use std::alloc::Global;

fn rank_or(defs: &[FixtureDef], found: Option<usize>) -> usize
    requires { IfSome found (λ d. d < length defs.now) }
    ensures { result ≡ rank_or defs.now found }
{
    match found {
        None => 0,
        Some(place) => defs[place].scope.rank(),
    }
}

impl View<'_> {
    /// Whether it asks for its own name, and none stands further out.
    pub fn asks_in_vain(&self, place: usize) -> bool
        requires { place < length self.now.defs.now }
        ensures { result ≡ asks_in_vain self.now.nodes.now self.now.defs.now self.now.item self.now.bound.now place }
    {
        let name = self.defs[place].name;
        if !among(self.defs[place].args.items(), name) {
            return false;
        }
        if among(self.bound, name) {
            return false;
        }
        self.nearest(name, Some(place)).is_none()
    }

    /// The scope of what an argument gets; a bound name counts as function scope.
    fn rank_at(&self, place: usize, name: u32) -> usize
        requires { place < length self.now.defs.now }
        ensures { result ≡ rank_at self.now.nodes.now self.now.defs.now self.now.item self.now.bound.now place name }
    {
        if among(self.bound, name) {
            return Scope::Function.rank();
        }
        let beyond = if name == self.defs[place].name {
            Some(place)
        } else {
            None
        };
        rank_or(self.defs, self.nearest(name, beyond))
    }

    fn is_narrower(&self, place: usize, name: u32) -> bool
        requires { place < length self.now.defs.now }
        ensures { result ≡ is_narrower self.now.nodes.now self.now.defs.now self.now.item self.now.bound.now place name }
    {
        self.defs[place].scope.rank() < self.rank_at(place, name)
    }

    /// The first argument of narrower scope.
    pub fn first_narrower(&self, place: usize) -> Option<u32>
        requires { place < length self.now.defs.now }
        ensures { result ≡ first_narrower self.now.nodes.now self.now.defs.now self.now.item self.now.bound.now place }
    {
        for name in self.defs[place].args.items() {
            if self.is_narrower(place, *name) {
                return Some(*name);
            }
        }
        None
    }
}

impl View<'_> {
    /// Whether the definition at a place of the entries is reached from itself, or asks for its own name with none further out.
    fn is_recursive(
        &self,
        alloc: Global,
        asks: &[Seq<usize>],
        at: usize,
        place: usize,
    ) -> Result<bool, OutOfMemory>
        requires at { at < length asks.now }
        requires place { place < length self.now.defs.now }
        requires below { (p : ℕ) → Below (row_of asks.now p) (length asks.now) }
        requires out { RequestPath (row_of asks.now) at at → RequestPath (requests self.now.nodes.now self.now.defs.now self.now.item self.now.bound.now) place place }
        requires back { RequestPath (requests self.now.nodes.now self.now.defs.now self.now.item self.now.bound.now) place place → RequestPath (row_of asks.now) at at }
        ensures yes { IfOk result (λ b. b ≡ true → IsRecursive self.now.nodes.now self.now.defs.now self.now.item self.now.bound.now place) }
        ensures no { IfOk result (λ b. IsRecursive self.now.nodes.now self.now.defs.now self.now.item self.now.bound.now place → b ≡ true) }
    {
        if self.asks_in_vain(place) {
            return Ok(true);
        }
        is_reached(alloc, asks, at)
    }

    /// The fault of the entry at a place, if it has one.
    fn fault_of(
        &self,
        alloc: Global,
        asks: &[Seq<usize>],
        at: usize,
        entry: Entry,
    ) -> Result<Option<FixtureFault>, OutOfMemory>
        requires known { IsKnown self.now.defs.now entry }
        requires at { at < length asks.now }
        requires below { (p : ℕ) → Below (row_of asks.now p) (length asks.now) }
        requires out { (d : ℕ) → entry ≡ Definition d → RequestPath (row_of asks.now) at at → RequestPath (requests self.now.nodes.now self.now.defs.now self.now.item self.now.bound.now) d d }
        requires back { (d : ℕ) → entry ≡ Definition d → RequestPath (requests self.now.nodes.now self.now.defs.now self.now.item self.now.bound.now) d d → RequestPath (row_of asks.now) at at }
        ensures fault { IfOk result (λ found. (fault : FixtureFault) → found ≡ Some fault → HasFault self.now.nodes.now self.now.defs.now self.now.item self.now.bound.now entry fault) }
        ensures sound { IfOk result (λ found. found ≡ None → IsSoundEntry self.now.nodes.now self.now.defs.now self.now.item self.now.bound.now entry) }
    {
        match entry {
            Entry::Missing(name) => Ok(Some(FixtureFault::Unknown(name))),
            Entry::Definition(place) => {
                if self.is_recursive(alloc, asks, at, place)? {
                    return Ok(Some(FixtureFault::Recursive(self.defs[place].name)));
                }
                match self.first_narrower(place) {
                    None => Ok(None),
                    Some(name) => Ok(Some(FixtureFault::ScopeMismatch(
                        DefId::new(place as u32),
                        name,
                    ))),
                }
            }
        }
    }

    /// Whether no entry has a fault, or else the first that has one.
    pub fn judge(
        &self,
        alloc: Global,
        asks: &[Seq<usize>],
        entries: &[Entry],
    ) -> Result<Option<FixtureFault>, OutOfMemory>
        requires known { Known self.now.defs.now entries.now }
        requires many { length asks.now ≡ length entries.now }
        requires below { (p : ℕ) → Below (row_of asks.now p) (length asks.now) }
        requires out { (p d : ℕ) → p < length entries.now → entry_at entries.now p ≡ Definition d → RequestPath (row_of asks.now) p p → RequestPath (requests self.now.nodes.now self.now.defs.now self.now.item self.now.bound.now) d d }
        requires back { (p d : ℕ) → p < length entries.now → entry_at entries.now p ≡ Definition d → RequestPath (requests self.now.nodes.now self.now.defs.now self.now.item self.now.bound.now) d d → RequestPath (row_of asks.now) p p }
        ensures fault { IfOk result (λ found. (fault : FixtureFault) → found ≡ Some fault → IsFirstFault self.now.nodes.now self.now.defs.now self.now.item self.now.bound.now entries.now fault) }
        ensures sound { IfOk result (λ found. found ≡ None → SoundTo self.now.nodes.now self.now.defs.now self.now.item self.now.bound.now entries.now (length entries.now)) }
    {
        for (at, entry) in entries.iter().enumerate() {
            let found = self.fault_of(alloc, asks, at, *entry)?;
            if found.is_some() {
                return Ok(found);
            }
        }
        Ok(None)
    }
}
