ghost use Rattle.std.specs.Prelude.{◌≡◌, ◌++◌, ◌∷◌, [], List, not, IfOk, OnOk};
ghost use Rattle.std.specs.Map.{lookup};
ghost use Rattle.indexmap.specs.IndexMap.{insert_entry};
ghost use Rattle.param_rows.specs.Ids.{Id, same_id, has_id};
ghost use Rattle.param_rows.specs.Taken.{with_id, TellsIds, TellsMade};

use crate::id::PyId;
use indexmap::{IndexMap, IndexSet};
use seq::OutOfMemory;
use std::alloc::Global;
use std::marker::Model;

/// Ids, each once, found in one step.
#[derive(Drop)]
pub struct IdSet {
    set: IndexSet<PyId>,
}

impl Model for IdSet {
    ghost use Rattle.std.specs.Prelude.{List, ℕ};

    ghost Value = { List (List ℕ) };

    ghost view = { λ ids. ids.set.keys };
}

impl IdSet {
    fn new(alloc: Global) -> Self
        ensures { result ≡ [] }
    {
        IdSet {
            set: IndexSet::new(alloc),
        }
    }

    /// Whether the id is new, too.
    fn insert(&mut self, alloc: Global, id: &PyId) -> Result<bool, OutOfMemory>
        ensures ids { OnOk result (self.new ≡ with_id self.old id.now) }
        ensures fresh { IfOk result (λ fresh. fresh ≡ not (has_id id.now self.old)) }
    {
        Ok(self.set.insert(PyId::from_chars(alloc, id.chars())?)?)
    }

    pub fn has(&self, id: &PyId) -> bool
        ensures { result ≡ has_id id.now self.now }
    {
        self.set.contains(id)
    }
}

/// Ids with numbers, found in one step.
#[derive(Drop)]
pub struct IdNumbers {
    map: IndexMap<PyId, usize>,
}

impl Model for IdNumbers {
    ghost use Rattle.std.specs.Prelude.{List, ℕ};

    ghost Value = { List (List ℕ × ℕ) };

    ghost view = { λ numbers. numbers.map.entries };
}

impl IdNumbers {
    fn new(alloc: Global) -> Self
        ensures { result ≡ [] }
    {
        IdNumbers {
            map: IndexMap::new(alloc),
        }
    }

    fn put(&mut self, alloc: Global, id: &PyId, number: usize) -> Result<(), OutOfMemory>
        ensures { OnOk result (self.new ≡ insert_entry same_id self.old id.now number) }
    {
        self.map
            .insert(PyId::from_chars(alloc, id.chars())?, number)?;
        Ok(())
    }

    fn of(&self, id: &PyId) -> Option<usize>
        ensures { result ≡ lookup (same_id id.now) self.now }
    {
        self.map.get(id).copied()
    }
}

/// What is known of a list of ids and of what was made of the first of them.
#[derive(Drop)]
pub struct IdTable {
    /// The ids given, and those that were made.
    pub taken: IdSet,
    /// Of each id that stands among those given more than once, a number below which all are taken.
    pub numbers: IdNumbers,
}

impl IdTable {
    fn new(alloc: Global) -> Self
        ensures { TellsIds [] result }
    {
        IdTable {
            taken: IdSet::new(alloc),
            numbers: IdNumbers::new(alloc),
        }
    }

    /// One more id is given.
    fn give(&mut self, alloc: Global, id: &PyId) -> Result<(), OutOfMemory>
        ensures { OnOk result ((before : List Id) → TellsIds before self.old → TellsIds (before ++ id.now ∷ []) self.new) }
    {
        let is_new = self.taken.insert(alloc, id)?;
        if is_new {
            return Ok(());
        }
        self.numbers.put(alloc, id, 0)?;
        Ok(())
    }

    /// The table of these ids, of which nothing is made yet.
    pub fn of(alloc: Global, ids: &[PyId]) -> Result<IdTable, OutOfMemory>
        ensures { IfOk result (λ table. TellsMade ids.now [] table) }
    {
        let mut table = IdTable::new(alloc);
        for id in ids {
            table.give(alloc, id)?;
        }
        Ok(table)
    }

    /// The number from which on one is looked for, of an id that stands among those given more than once.
    pub fn number(&self, id: &PyId) -> Option<usize>
        ensures { result ≡ lookup (same_id id.now) self.now.numbers }
    {
        self.numbers.of(id)
    }

    /// An id is made of one that is repeated; the next is looked for from a number on.
    pub fn make(
        &mut self,
        alloc: Global,
        id: &PyId,
        one: &PyId,
        next: usize,
    ) -> Result<(), OutOfMemory>
        ensures taken { OnOk result (self.new.taken ≡ with_id self.old.taken one.now) }
        ensures numbers { OnOk result (self.new.numbers ≡ insert_entry same_id self.old.numbers id.now next) }
    {
        self.taken.insert(alloc, one)?;
        self.numbers.put(alloc, id, next)
    }
}
