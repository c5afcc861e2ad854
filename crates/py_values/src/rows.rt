// Small types over lists.

ghost use Rattle.std.specs.Prelude.{◌≡◌, ◌++◌, ◌∷◌, [], OnOk, slice_set, remove};

use crate::value::Value;
use seq::{OutOfMemory, PyText, Seq};
use std::alloc::Global;
use std::marker::Model;

/// Values in a row.
pub struct Values {
    items: Vec<Value>,
}

impl Drop for Values {
    fn drop(self) {
        let Values { items: _ } = self;
    }
}

impl Model for Values {
    ghost use Rattle.std.specs.Prelude.{List};
    ghost use Rattle.py_values.specs.declared.value.Value.{Value as PyValue};

    ghost Value = { List PyValue };

    ghost view = { λ v. v.items.items };
}

impl Values {
    /// No values.
    pub fn new(alloc: Global) -> Self
        ensures { result ≡ [] }
    {
        Values {
            items: Vec::new(alloc),
        }
    }

    /// Takes the vector's values over, without taking memory.
    pub fn from_vec(items: Vec<Value>) -> Self
        ensures { result ≡ items.items }
    {
        Values { items }
    }

    /// The values, in order.
    pub fn items(&self) -> &[Value]
        ensures { result.now ≡ self.now }
    {
        &self.items
    }

    /// Puts a value behind the others.
    pub fn push(&mut self, v: Value) -> Result<(), OutOfMemory>
        ensures { OnOk result (self.new ≡ self.old ++ v ∷ []) }
    {
        self.items.push(v)?;
        Ok(())
    }

    /// Another value at a place; nothing changes where there is none.
    pub fn set(&mut self, at: usize, v: Value)
        ensures { self.new ≡ slice_set self.old at v }
    {
        if at < self.items.len() {
            self.items[at] = v;
        }
    }

    /// Takes the value at a place away; nothing changes where there is none.
    pub fn remove(&mut self, at: usize)
        ensures { self.new ≡ remove self.old at }
    {
        if at < self.items.len() {
            let _gone = self.items.remove(at);
        }
    }
}

/// A parameter of a function, and its default where it has one.
pub struct Param {
    pub name: PyText,
    pub default: Option<Value>,
}

impl Drop for Param {
    fn drop(self) {
        let Param {
            name: _,
            default: _,
        } = self;
    }
}

/// The parameters of a function, in order.
pub type Params = Seq<Param>;
