// The heap.

ghost use Rattle.std.specs.Prelude.{◌≡◌, ◌<◌, ◌++◌, ◌∷◌, [], IfOk, length, slice_get, Some, option_copied, OnOk};
ghost use Rattle.py_values.specs.Changes.{heap_after};
ghost use Rattle.py_values.specs.Lending.{LendsObj};
ghost use Rattle.std.specs.Borrow.{sem};

use crate::change::Change;
use crate::object::Obj;
use crate::value::{ObjId, Value};
use seq::OutOfMemory;
use std::alloc::Global;
use std::marker::Model;

/// The objects of a session; none is ever taken away.
pub struct Heap {
    objs: Vec<Obj>,
}

impl Drop for Heap {
    fn drop(self) {
        let Heap { objs: _ } = self;
    }
}

impl Model for Heap {
    ghost use Rattle.std.specs.Prelude.{List};
    ghost use Rattle.py_values.specs.declared.object.Obj.{Obj};

    ghost Value = { List Obj };

    ghost view = { λ h. h.objs.items };
}

impl Heap {
    /// No objects.
    pub fn new(alloc: Global) -> Result<Self, OutOfMemory>
        ensures { IfOk result (λ h. h ≡ []) }
    {
        Ok(Heap {
            objs: Vec::new(alloc),
        })
    }

    /// Appends an object, and gives its place.
    pub fn add(&mut self, obj: Obj) -> Result<ObjId, OutOfMemory>
        ensures { IfOk result (λ id. (id.at ≡ length self.old) × (self.new ≡ self.old ++ obj ∷ [])) }
    {
        let at = self.objs.len();
        self.objs.push(obj)?;
        Ok(ObjId { at })
    }

    /// How many objects there are; the next one stands at this place.
    pub fn len(&self) -> usize
        ensures { result ≡ length self.now }
    {
        self.objs.len()
    }

    /// The object at a place, where there is one.
    pub fn get(&self, id: ObjId) -> Option<&Obj>
        ensures { option_copied result ≡ slice_get self.now id.at }
    {
        self.objs.get(id.at)
    }

    /// The object at a place that the heap has.
    pub fn obj(&self, id: ObjId) -> &Obj
        requires { id.at < length self.now }
        ensures { slice_get self.now id.at ≡ Some result.now }
    {
        &self.objs[id.at]
    }

    /// The object at a place that the heap has, lent to be changed.
    pub fn obj_mut(&mut self, id: ObjId) -> &mut Obj
        requires { id.at < length self.old }
        ensures* writes_back { sem 𝓛 (LendsObj self.entry id.at result) }
        ensures value { slice_get self.old id.at ≡ Some result.now }
    {
        &mut self.objs[id.at]
    }

    /// Changes the object at a place; nothing changes where there is none.
    pub fn change(&mut self, id: ObjId, change: Change) -> Result<(), OutOfMemory>
        ensures { OnOk result (self.new ≡ heap_after id change self.old) }
    {
        if id.at >= self.len() {
            drop(change);
            return Ok(());
        }
        change.apply(self.obj_mut(id))
    }
}
