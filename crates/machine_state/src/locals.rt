// The names of a call.

ghost use Rattle.std.specs.Prelude.{◌≡◌, ◌+◌, ◌++◌, ◌∷◌, [], IfOk, OnOk, false, is_some, take, true};
ghost use Rattle.core_meaning.specs.py_world.Calls.{nothing_named};
ghost use Rattle.py_values.specs.Names.{bind_name, find_name, unbind_name};
ghost use Rattle.machine_state.specs.Found.{OnTrue};
ghost use Rattle.machine_state.specs.LocalNames.{IsAt, IsPlaceOf, NoneBefore};

use py_core::SrcText;
use py_values::value::Value;
use seq::OutOfMemory;
use std::alloc::Global;
use std::marker::Model;

/// The names of a call with their values, in order of first binding. There are few, so they are looked through from the first one on.
pub struct Locals {
    entries: Vec<(SrcText, Value)>,
}

impl Drop for Locals {
    fn drop(self) {
        let Locals { entries: _ } = self;
    }
}

impl Model for Locals {
    ghost use Rattle.std.specs.Prelude.{List, ℕ};
    ghost use Rattle.py_values.specs.declared.value.Value.{Value as PyValue};

    ghost Value = { List (List ℕ × PyValue) };

    ghost view = { λ l. l.entries.items };
}

impl Locals {
    /// No name is bound.
    pub fn new(alloc: Global) -> Self
        ensures { result ≡ [] }
    {
        Locals {
            entries: Vec::new(alloc),
        }
    }

    /// The names with their values, in order.
    pub fn entries(&self) -> &[(SrcText, Value)]
        ensures { result.now ≡ self.now }
    {
        &self.entries
    }

    /// The value of a name.
    pub fn find(&self, name: &SrcText) -> Option<Value>
        ensures { result ≡ find_name name.now self.now }
    {
        match place_of(&self.entries, name) {
            Some(at) => Some(self.entries[at].1),
            None => None,
        }
    }

    /// Binds a name: one that is there keeps its place, another comes last.
    pub fn bind(&mut self, name: &SrcText, v: Value) -> Result<(), OutOfMemory>
        ensures { OnOk result (self.new ≡ bind_name name.now v self.old) }
    {
        match place_of(&self.entries, name) {
            Some(at) => {
                self.entries[at].1 = v;
                Ok(())
            }
            None => {
                self.entries.push((name.clone()?, v))?;
                Ok(())
            }
        }
    }

    /// Binds a name behind the first names, in the place of what stands behind these, whose memory is taken over; tells whether it is none
    /// of them, and binds none that is.
    pub fn rebind(&mut self, at: usize, name: &SrcText, v: Value) -> Result<bool, OutOfMemory>
        ensures bound { IfOk result (λ is. OnTrue is (take (at + 1) self.new ≡ bind_name name.now v (take at self.old))) }
        ensures there { IfOk result (λ is. is ≡ false → is_some (find_name name.now (take at self.old)) ≡ true) }
    {
        if !is_none_of(&self.entries, at, name) {
            return Ok(false);
        }
        if is_at(&self.entries, at, name) {
            self.entries[at].1 = v;
        } else {
            self.entries.truncate(at);
            self.entries.push((name.clone()?, v))?;
        }
        Ok(true)
    }

    /// Leaves the first names.
    pub fn truncate(&mut self, names: usize)
        ensures { self.new ≡ take names self.old }
    {
        self.entries.truncate(names);
    }

    /// Puts a name behind the others, whether or not it is there.
    pub fn push(&mut self, name: &SrcText, v: Value) -> Result<(), OutOfMemory>
        ensures { OnOk result (self.new ≡ self.old ++ (name.now, v) ∷ []) }
    {
        self.entries.push((name.clone()?, v))?;
        Ok(())
    }

    /// Whether there is no name.
    pub fn is_empty(&self) -> bool
        ensures { result ≡ nothing_named self.now }
    {
        self.entries.is_empty()
    }

    /// Takes a name away; those behind it move up.
    pub fn unbind(&mut self, name: &SrcText)
        ensures { self.new ≡ unbind_name name.now self.old }
    {
        if let Some(at) = place_of(&self.entries, name) {
            let _gone = self.entries.remove(at);
        }
    }
}

/// The place of a name, where it is bound.
#[tactic(auto, using(crate::proofs::LocalPlaces::place_here, crate::proofs::LocalPlaces::none_more))]
fn place_of(entries: &[(SrcText, Value)], name: &SrcText) -> Option<usize>
    ensures { IsPlaceOf name.now entries.now result }
{
    for i in 0..entries.len() {
        if name.chars() == entries[i].0.chars() {
            return Some(i);
        }
    }
    None
}

/// Whether a name is none of the first ones.
#[tactic(auto, using(crate::proofs::LocalPlaces::none_more, crate::proofs::LocalPlaces::found_before))]
fn is_none_of(entries: &[(SrcText, Value)], at: usize, name: &SrcText) -> bool
    ensures none { OnTrue result (NoneBefore name.now at entries.now) }
    ensures there { result ≡ false → is_some (find_name name.now (take at entries.now)) ≡ true }
{
    for i in 0..entries.len() {
        if i >= at {
            return true;
        }
        if name.chars() == entries[i].0.chars() {
            return false;
        }
    }
    true
}

/// Whether a name stands at a place.
#[tactic(auto, using(crate::proofs::LocalPlaces::at_place))]
fn is_at(entries: &[(SrcText, Value)], at: usize, name: &SrcText) -> bool
    ensures { OnTrue result (IsAt name.now at entries.now) }
{
    if at >= entries.len() {
        return false;
    }
    name.chars() == entries[at].0.chars()
}
