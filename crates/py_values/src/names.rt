// Names with values.

ghost use Rattle.std.specs.Prelude.{◌≡◌, [], OnOk, IfOk, slice_get, option_map, length};
ghost use Rattle.py_values.specs.Names.{bind_name, find_name, unbind_name};
ghost use Rattle.std.specs.Map.Iter.{deref_pair};

use crate::value::Value;
use indexmap::IndexMap;
use seq::{OutOfMemory, PyText};
use std::alloc::Global;
use std::hash::{Hash, Hasher};
use std::marker::Model;

/// A name, seen as its characters.
#[derive(Debug)]
pub struct Name {
    text: PyText,
}

impl Drop for Name {
    fn drop(self) {
        let Name { text: _ } = self;
    }
}

impl Model for Name {
    ghost use Rattle.std.specs.Prelude.{List, ℕ};

    ghost Value = { List ℕ };

    ghost view = { λ n. n.text };
}

impl Name {
    /// A name of these characters.
    pub fn from_chars(alloc: Global, chars: &[char]) -> Result<Self, OutOfMemory>
        ensures { IfOk result (λ n. n ≡ chars.now) }
    {
        Ok(Name {
            text: PyText::from_chars(alloc, chars)?,
        })
    }

    /// A name with the characters of a text, which is taken over.
    pub fn from_text(text: PyText) -> Self
        ensures { result ≡ text }
    {
        Name { text }
    }

    /// Its characters.
    pub fn text(&self) -> &PyText
        ensures { result.now ≡ self.now }
    {
        &self.text
    }
}

impl PartialEq for Name {
    ghost use Rattle.std.specs.Prelude.{nat_eq};
    ghost use Rattle.std.specs.Cmp.Rules.{comparing};
    ghost use Rattle.std.specs.Cmp.Lexicographic.{pointwise};
    ghost use Rattle.std.proofs.Common.{rules};

    ghost eq = { pointwise nat_eq };

    ghost laws = { Prim.search (comparing, rules) };

    fn eq(&self, other: &Name) -> bool {
        self.text.chars() == other.text.chars()
    }
}

impl Eq for Name {
    ghost use Rattle.std.specs.Cmp.Rules.{comparing};
    ghost use Rattle.std.proofs.Common.{rules};

    ghost laws = { Prim.search (comparing, rules) };
}

impl Hash for Name {
    ghost use Rattle.std.specs.Hash as fed;
    ghost use Rattle.std.specs.Cmp.Rules.{hashing};
    ghost use Rattle.std.proofs.Common.{rules};

    ghost hash_input = { λ n. fed.slice fed.char n };

    ghost respects_eq = { Prim.search (hashing, rules) };

    fn hash<H: Hasher>(&self, state: &mut H) {
        self.text.chars().hash(state);
    }
}

/// Names with values, in order of first binding.
pub struct Names {
    map: IndexMap<Name, Value>,
}

impl Drop for Names {
    fn drop(self) {
        let Names { map: _ } = self;
    }
}

impl Model for Names {
    ghost use Rattle.std.specs.Prelude.{List, ℕ};
    ghost use Rattle.py_values.specs.declared.value.Value.{Value as PyValue};

    ghost Value = { List (List ℕ × PyValue) };

    ghost view = { λ v. v.map.entries };
}

impl Names {
    /// No name is bound.
    pub fn new(alloc: Global) -> Self
        ensures { result ≡ [] }
    {
        Names {
            map: IndexMap::new(alloc),
        }
    }

    /// The value of a name.
    pub fn find(&self, name: &Name) -> Option<Value>
        ensures { result ≡ find_name name.now self.now }
    {
        self.map.get(name).copied()
    }

    /// Binds a name: one that is there keeps its place, another comes last.
    pub fn bind(&mut self, name: Name, v: Value) -> Result<(), OutOfMemory>
        ensures { OnOk result (self.new ≡ bind_name name v self.old) }
    {
        self.map.insert(name, v)?;
        Ok(())
    }

    /// Takes a name away; those behind it move up.
    pub fn unbind(&mut self, name: &Name)
        ensures { self.new ≡ unbind_name name.now self.old }
    {
        let _gone = self.map.shift_remove(name);
    }

    /// How many names are bound.
    pub fn len(&self) -> usize
        ensures { result ≡ length self.now }
    {
        self.map.len()
    }

    /// The name with its value at a place.
    pub fn entry(&self, at: usize) -> Option<(&Name, &Value)>
        ensures { option_map deref_pair result ≡ slice_get self.now at }
    {
        self.map.get_index(at)
    }
}
