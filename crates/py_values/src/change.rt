// A change of an object.

ghost use Rattle.std.specs.Prelude.{◌≡◌, ◌++◌, ◌∷◌, [], OnOk, slice_set, remove};
ghost use Rattle.py_values.specs.Changes.{object_after, with_items, with_pairs};
ghost use Rattle.py_values.specs.Pairs as pairs;

use crate::key::Key;
use crate::object::Obj;
use crate::value::Value;
use seq::OutOfMemory;

/// A change of an object; an object of another kind stays as it is.
pub enum Change {
    /// Another object stands in its place.
    Whole(Obj),
    /// A value more at a list's end.
    Push(Value),
    /// Another value at a place of a list.
    Item(usize, Value),
    /// A list without the value at a place.
    WithoutItem(usize),
    /// A value stored in a dict under a key.
    Pair(Key, Value, Value),
    /// A dict without the pair under a key.
    WithoutPair(Key),
}

impl Drop for Change {
    fn drop(self) {
        match self {
            Change::Whole(_) => {}
            Change::Push(_) => {}
            Change::Item(_, _) => {}
            Change::WithoutItem(_) => {}
            Change::Pair(_, _, _) => {}
            Change::WithoutPair(_) => {}
        }
    }
}

impl Change {
    /// Changes an object.
    pub(crate) fn apply(self, obj: &mut Obj) -> Result<(), OutOfMemory>
        ensures { OnOk result (obj.new ≡ object_after self obj.old) }
    {
        match self {
            Change::Whole(new) => {
                *obj = new;
                Ok(())
            }
            Change::Push(v) => push_item(obj, v),
            Change::Item(at, v) => {
                set_item(obj, at, v);
                Ok(())
            }
            Change::WithoutItem(at) => {
                remove_item(obj, at);
                Ok(())
            }
            Change::Pair(k, key, v) => put_pair(obj, k, key, v),
            Change::WithoutPair(k) => {
                remove_pair(obj, &k);
                Ok(())
            }
        }
    }
}

fn push_item(obj: &mut Obj, v: Value) -> Result<(), OutOfMemory>
    ensures { OnOk result (obj.new ≡ with_items (λ vs. vs ++ v ∷ []) obj.old) }
{
    match obj {
        Obj::List(items) => items.push(v),
        _ => Ok(()),
    }
}

fn set_item(obj: &mut Obj, at: usize, v: Value)
    ensures { obj.new ≡ with_items (λ vs. slice_set vs at v) obj.old }
{
    match obj {
        Obj::List(items) => items.set(at, v),
        _ => {}
    }
}

fn remove_item(obj: &mut Obj, at: usize)
    ensures { obj.new ≡ with_items (λ vs. remove vs at) obj.old }
{
    match obj {
        Obj::List(items) => items.remove(at),
        _ => {}
    }
}

fn put_pair(obj: &mut Obj, k: Key, key: Value, v: Value) -> Result<(), OutOfMemory>
    ensures { OnOk result (obj.new ≡ with_pairs (pairs.put_pair k key v) obj.old) }
{
    match obj {
        Obj::Dict(dict) => dict.put(k, key, v),
        _ => Ok(()),
    }
}

fn remove_pair(obj: &mut Obj, k: &Key)
    ensures { obj.new ≡ with_pairs (pairs.without_pair k.now) obj.old }
{
    match obj {
        Obj::Dict(dict) => dict.remove(k),
        _ => {}
    }
}
