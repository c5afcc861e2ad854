// A dict: its pairs in order of insertion.

ghost use Rattle.std.specs.Prelude.{◌≡◌, [], IfOk, OnOk, option_copied, option_map, length, slice_get};
ghost use Rattle.std.specs.Map.Iter.{deref_pair};
ghost use Rattle.py_values.specs.Pairs.{find_pair, put_pair, without_pair};

use crate::key::Key;
use crate::value::Value;
use indexmap::IndexMap;
use seq::OutOfMemory;
use std::alloc::Global;
use std::marker::Model;

/// A key of a dict as the value that was first stored under it, and the value that is stored there.
#[derive(Clone, Copy, PartialEq, Eq)]
pub struct Pair {
    pub key: Value,
    pub value: Value,
}

/// A dict: its pairs in order of insertion, by their keys as plain data.
pub struct Dict {
    map: IndexMap<Key, Pair>,
}

impl Drop for Dict {
    fn drop(self) {
        let Dict { map: _ } = self;
    }
}

impl Model for Dict {
    ghost use Rattle.std.specs.Prelude.{List};
    ghost use Rattle.py_values.specs.declared.key.Atom.{Atom};
    ghost use Rattle.py_values.specs.declared.dict.Pair.{Pair};

    ghost Value = { List (List Atom × Pair) };

    ghost view = { λ d. d.map.entries };
}

impl Dict {
    /// The empty dict.
    pub fn new(alloc: Global) -> Self
        ensures { result ≡ [] }
    {
        Dict {
            map: IndexMap::new(alloc),
        }
    }

    /// How many keys it has.
    pub fn len(&self) -> usize
        ensures { result ≡ length self.now }
    {
        self.map.len()
    }

    /// The pair under a key.
    pub fn get(&self, key: &Key) -> Option<&Pair>
        ensures { option_copied result ≡ find_pair key.now self.now }
    {
        self.map.get(key)
    }

    /// Stores a value under a key: an equal key that is there stays at its place, and another comes last.
    pub fn put(&mut self, key: Key, from: Value, to: Value) -> Result<(), OutOfMemory>
        ensures { OnOk result (self.new ≡ put_pair key from to self.old) }
    {
        let from = match self.map.get(&key) {
            Some(old) => old.key,
            None => from,
        };
        self.map.insert(
            key,
            Pair {
                key: from,
                value: to,
            },
        )?;
        Ok(())
    }

    /// Takes away the pair under a key; those behind it move up.
    pub fn remove(&mut self, key: &Key)
        ensures { self.new ≡ without_pair key.now self.old }
    {
        let _gone = self.map.shift_remove(key);
    }

    /// The pair at a place, with its key as plain data.
    pub fn entry(&self, at: usize) -> Option<(&Key, &Pair)>
        ensures { option_map deref_pair result ≡ slice_get self.now at }
    {
        self.map.get_index(at)
    }

    /// The pair at a place.
    pub fn pair(&self, at: usize) -> Option<&Pair>
        ensures { option_copied result ≡ option_map (λ e. e.1) (slice_get self.now at) }
    {
        match self.map.get_index(at) {
            Some((_, pair)) => Some(pair),
            None => None,
        }
    }
}
