ghost use Rattle.std.specs.Prelude.{◌≡◌, ◌==◌, ◌++◌, ◌∷◌, [], length, OnOk, OnErr, IfOk};
ghost use Rattle.std.specs.Cmp.Lexicographic.{pointwise};

use crate::memory::OutOfMemory;
use std::alloc::{AllocError, Global};
use std::hash::{Hash, Hasher};
use std::marker::Model;

/// A list of values. Contracts see it as the list.
#[derive(Debug)]
pub struct Seq<T> {
    items: Vec<T>,
}

impl<T: Drop> Drop for Seq<T> {
    fn drop(self) {
        let Seq { items: _ } = self;
    }
}

impl<T> Model for Seq<T> {
    ghost use Rattle.std.specs.Prelude.{List};

    ghost Value = { List T };

    ghost view = { λ s. s.items.items };
}

impl<T> Seq<T> {
    /// The empty list. Takes no memory.
    pub fn new(alloc: Global) -> Self
        ensures { result ≡ [] }
    {
        Seq {
            items: Vec::new(alloc),
        }
    }

    /// Takes the vector's values over, without taking memory.
    pub fn from_vec(items: Vec<T>) -> Self
        ensures { result ≡ items.items }
    {
        Seq { items }
    }

    /// Gives the values back, without taking memory.
    pub fn into_vec(self) -> Vec<T>
        ensures { result.items ≡ self }
    {
        let Seq { items } = self;
        items
    }

    /// The values, lent.
    pub fn items(&self) -> &[T]
        ensures { result.now ≡ self.now }
    {
        &self.items
    }

    /// How many values it has.
    pub fn len(&self) -> usize
        ensures { result ≡ length self.now }
    {
        self.items.len()
    }

    /// Whether it has no value.
    pub fn is_empty(&self) -> bool
        ensures { result ≡ (length self.now == 0) }
    {
        self.items.is_empty()
    }
}

impl<T: Drop> Seq<T> {
    /// Puts a value behind the others. After an error the list is as it was.
    pub fn push(&mut self, item: T) -> Result<(), OutOfMemory>
        ensures ok { OnOk result (self.new ≡ self.old ++ item ∷ []) }
        ensures err { OnErr result (self.new ≡ self.old) }
    {
        self.items.push(item)?;
        Ok(())
    }
}

impl<T: Copy> Seq<T> {
    /// A copy of the values of a slice.
    pub fn from_slice(alloc: Global, items: &[T]) -> Result<Self, OutOfMemory>
        ensures { IfOk result (λ list. list ≡ items.now) }
    {
        Ok(Seq {
            items: Vec::from_slice(alloc, items)?,
        })
    }

    /// A copy of the list.
    pub fn copied(&self, alloc: Global) -> Result<Self, OutOfMemory>
        ensures { IfOk result (λ list. list ≡ self.now) }
    {
        Seq::from_slice(alloc, self.items())
    }
}

impl<T: Copy> Clone for Seq<T> {
    ghost is_clone = { λ list copy. copy ≡ list };

    fn clone(&self) -> Result<Seq<T>, AllocError> {
        Ok(Seq {
            items: Vec::from_slice(*self.items.allocator(), self.items())?,
        })
    }
}

impl<T: PartialEq> PartialEq for Seq<T> {
    ghost use Rattle.std.specs.Cmp.Lexicographic.{lists_per};

    ghost eq = { pointwise T.eq };

    ghost laws = { lists_per T.laws };

    fn eq(&self, other: &Seq<T>) -> bool {
        self.items() == other.items()
    }
}

impl<T: Eq> Eq for Seq<T> {
    ghost use Rattle.std.specs.Cmp.Lexicographic.{lists_equiv};

    ghost laws = { lists_equiv T.Eq.laws };
}

impl<T: Hash> Hash for Seq<T> {
    ghost use Rattle.std.specs.Hash as fed;
    ghost use Rattle.std.specs.Hash.{items_Alike};

    ghost hash_input = { λ list. fed.slice T.hash_input list };

    ghost respects_eq = { (items_Alike (record { fed = T.respects_eq })).fed };

    fn hash<H: Hasher>(&self, state: &mut H) {
        self.items().hash(state);
    }
}

/// Puts the values of a list behind those of another.
pub fn push_all<T: Drop>(list: &mut Seq<T>, more: Seq<T>) -> Result<(), OutOfMemory>
    ensures { OnOk result (list.new ≡ list.old ++ more) }
{
    let mut left = more.into_vec();
    'rest: while !left.is_empty() {
        let one = left.remove(0);
        list.push(one)?;
    }
    Ok(())
}
