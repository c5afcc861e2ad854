// Keys as plain data.

ghost use Rattle.std.specs.Prelude.{◌≡◌, ◌-◌, IfOk, length};

use crate::names::Name;
use crate::value::ObjId;
use seq::OutOfMemory;
use std::alloc::Global;
use std::hash::{Hash, Hasher};
use std::marker::Model;

/// A part of a key. Booleans are the numbers 0 and 1.
#[derive(PartialEq, Eq, Hash)]
pub enum Atom {
    None,
    Number(i128),
    Text(Name),
    /// A tuple of so many elements, whose parts follow.
    Tuple(usize),
    /// An object that is equal to itself alone.
    Object(ObjId),
}

impl Drop for Atom {
    fn drop(self) {
        match self {
            Atom::None => {}
            Atom::Number(_) => {}
            Atom::Text(_) => {}
            Atom::Tuple(_) => {}
            Atom::Object(_) => {}
        }
    }
}

fn copied_atom(alloc: Global, atom: &Atom) -> Result<Atom, OutOfMemory>
    ensures { IfOk result (λ a. a ≡ atom.now) }
{
    match atom {
        Atom::None => Ok(Atom::None),
        Atom::Number(n) => Ok(Atom::Number(*n)),
        Atom::Text(t) => Ok(Atom::Text(Name::from_chars(alloc, t.text().chars())?)),
        Atom::Tuple(n) => Ok(Atom::Tuple(*n)),
        Atom::Object(id) => Ok(Atom::Object(*id)),
    }
}

/// A key as plain data: its parts, a tuple before its elements.
pub struct Key {
    atoms: Vec<Atom>,
}

impl Drop for Key {
    fn drop(self) {
        let Key { atoms: _ } = self;
    }
}

impl Model for Key {
    ghost use Rattle.std.specs.Prelude.{List};
    ghost use Rattle.py_values.specs.declared.key.Atom.{Atom};

    ghost Value = { List Atom };

    ghost view = { λ k. k.atoms.items };
}

impl Key {
    /// A key of these parts, taken over.
    pub fn from_vec(atoms: Vec<Atom>) -> Self
        ensures { result ≡ atoms.items }
    {
        Key { atoms }
    }

    /// Another key with the same parts.
    pub fn copied(&self, alloc: Global) -> Result<Self, OutOfMemory>
        ensures { IfOk result (λ k. k ≡ self.now) }
    {
        let mut atoms = Vec::new(alloc);
        for atom in &self.atoms {
            let atom = copied_atom(alloc, atom)?;
            atoms.push(atom)?;
        }
        Ok(Key { atoms })
    }

    /// The steps of a use of the key: one for each element of it and of the tuples in it.
    pub fn cost(&self) -> u64
        ensures { result ≡ length self.now - 1 }
    {
        (self.atoms.len() as u64).saturating_sub(1)
    }
}

impl PartialEq for Key {
    ghost use Rattle.std.specs.Cmp.Lexicographic.{pointwise, lists_per};
    ghost use Rattle.py_values.specs.Atoms.{atom_eq};
    ghost use Rattle.py_values.specs.contracts.key.AtomPartialEq.TheImpl.Laws as per;

    ghost eq = { pointwise atom_eq };

    ghost laws = { lists_per per.laws-law };

    fn eq(&self, other: &Key) -> bool {
        self.atoms == other.atoms
    }
}

impl Eq for Key {
    ghost use Rattle.std.specs.Cmp.Lexicographic.{lists_equiv};
    ghost use Rattle.py_values.specs.contracts.key.AtomEq.TheImpl.Laws as whole;

    ghost laws = { lists_equiv whole.laws-law };
}

impl Hash for Key {
    ghost use Rattle.std.specs.Hash as fed;
    ghost use Rattle.std.specs.Hash.{items_Alike};
    ghost use Rattle.py_values.specs.Atoms.{atom_input};
    ghost use Rattle.py_values.specs.contracts.key.AtomHash.TheImpl.Laws as hashed;

    ghost hash_input = { fed.slice atom_input };

    ghost respects_eq = { (items_Alike (record { fed = hashed.respects_eq-law })).fed };

    fn hash<H: Hasher>(&self, state: &mut H) {
        self.atoms.hash(state);
    }
}
