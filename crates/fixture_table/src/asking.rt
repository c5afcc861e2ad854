ghost use Rattle.std.specs.Prelude.{◌≡◌, ◌<◌, ◌++◌, ◌∷◌, [], length, map, true, IfOk};
ghost use Rattle.fixture_table.specs.declared.entry.Entry.{Entry};
ghost use Rattle.fixture_table.specs.Closing.{IsKnown, Known, requested_by, asked_all, entry_at, has};
ghost use Rattle.fixture_table.specs.Index.{AreEntryRows, IsRow, IsShut};
ghost use Rattle.fixture_table.specs.Marks.{Below};
ghost use Rattle.fixture_table.specs.Nearest.{def_at};

use crate::closing::{View, same_entry};
use crate::entry::Entry;
use seq::{OutOfMemory, Seq};
use std::alloc::Global;

/// Where an entry stands.
fn place_of(entries: &[Entry], entry: Entry) -> usize
    requires { has entry entries.now ≡ true }
    ensures within { result < length entries.now }
    ensures same { entry_at entries.now result ≡ entry }
{
    for (place, one) in entries.iter().enumerate() {
        if same_entry(*one, entry) {
            return place;
        }
    }
    0
}

impl View<'_> {
    /// The places of what a definition asks for.
    fn places_of(
        &self,
        alloc: Global,
        entries: &[Entry],
        place: usize,
    ) -> Result<Seq<usize>, OutOfMemory>
        requires place { place < length self.now.defs.now }
        requires shut { (x : Entry) → has x (asked_all self.now.nodes.now self.now.defs.now self.now.item self.now.bound.now place (def_at self.now.defs.now place).args) ≡ true → has x entries.now ≡ true }
        ensures same { IfOk result (λ row. map (entry_at entries.now) row ≡ asked_all self.now.nodes.now self.now.defs.now self.now.item self.now.bound.now place (def_at self.now.defs.now place).args) }
        ensures below { IfOk result (λ row. Below row (length entries.now)) }
    {
        let mut row = Seq::new(alloc);
        for name in self.defs[place].args.items() {
            if let Some(entry) = self.asked_one(place, *name) {
                row.push(place_of(entries, entry))?;
            }
        }
        Ok(row)
    }

    /// The places of what an entry asks for.
    fn row_of(
        &self,
        alloc: Global,
        entries: &[Entry],
        entry: Entry,
    ) -> Result<Seq<usize>, OutOfMemory>
        requires known { IsKnown self.now.defs.now entry }
        requires shut { (x : Entry) → has x (requested_by self.now.nodes.now self.now.defs.now self.now.item self.now.bound.now entry) ≡ true → has x entries.now ≡ true }
        ensures { IfOk result (λ row. IsRow self.now.nodes.now self.now.defs.now self.now.item self.now.bound.now entries.now entry row) }
    {
        match entry {
            Entry::Definition(place) => self.places_of(alloc, entries, place),
            Entry::Missing(_) => Ok(Seq::new(alloc)),
        }
    }

    /// What each entry asks for, by places.
    pub fn asks(&self, alloc: Global, entries: &[Entry]) -> Result<Vec<Seq<usize>>, OutOfMemory>
        requires known { Known self.now.defs.now entries.now }
        requires shut { IsShut self.now.nodes.now self.now.defs.now self.now.item self.now.bound.now entries.now }
        ensures { IfOk result (λ asks. AreEntryRows self.now.nodes.now self.now.defs.now self.now.item self.now.bound.now entries.now asks.items) }
    {
        let mut asks = Vec::new(alloc);
        for entry in entries {
            asks.push(self.row_of(alloc, entries, *entry)?)?;
        }
        Ok(asks)
    }
}
