ghost use Rattle.std.specs.Prelude.{◌≡◌, ◌≢◌, [], ◌∷◌, ◌++◌, length, map, slice_set, None, Some, IfOk, OnOk, OnErr};
ghost use Rattle.std.specs.Option.{option_copied};
ghost use Rattle.frame_stacks.specs.Lists.{parked_at};
ghost use Rattle.frame_stacks.specs.Stacked.{first_of, frozen_at, is_there, with_first, without, Popped, Thawed};

use crate::lists;
use crate::parked::Parked;
use link_cells::Cells;
use seq::OutOfMemory;
use std::alloc::Global;
use std::marker::Model;
use std::mem;

/// A stack that runs, and by number those that are frozen and out.
#[derive(Drop)]
pub struct Stacks<T, B> {
    cells: Cells<T>,
    own: usize,
    parked: Vec<Option<Parked<B>>>,
}

impl<T, B> Model for Stacks<T, B> {
    ghost use Rattle.frame_stacks.specs.Stacked.{StackLists};
    ghost use Rattle.frame_stacks.specs.Lists.{stacks_in, AreStacks};

    ghost Value = { StackLists T B };

    ghost view = { λ s. stacks_in s.cells s.own s.parked.items };

    ghost invariant = { λ s. AreStacks s.cells s.own s.parked.items };
}

impl<T: Drop, B: Drop> Stacks<T, B> {
    /// Both are empty.
    pub fn new(alloc: Global) -> Result<Stacks<T, B>, OutOfMemory>
        ensures { IfOk result (λ s. s ≡ record { own = []; frozen = [] }) }
    {
        let mut cells = Cells::new(alloc)?;
        let own = lists::take_head(&mut cells)?;
        Ok(Stacks {
            cells,
            own,
            parked: Vec::new(alloc),
        })
    }

    /// How many cells there are, in lists and spare.
    pub fn cells(&self) -> usize {
        self.cells.cells()
    }

    /// Puts a value innermost.
    pub fn push(&mut self, value: T) -> Result<(), OutOfMemory>
        ensures pushed { OnOk result (self.new ≡ record self.old { own = value ∷ self.old.own }) }
        ensures frozen { self.new.frozen ≡ self.old.frozen }
    {
        lists::push(&mut self.cells, self.own, value)
    }

    /// Takes the innermost value, where there is one.
    pub fn pop(&mut self) -> Option<T>
        ensures popped { Popped result self.old self.new }
        ensures frozen { self.new.frozen ≡ self.old.frozen }
    {
        lists::pop(&mut self.cells, self.own)
    }

    /// The innermost value, where there is one.
    pub fn top(&self) -> Option<&T>
        ensures { option_copied result ≡ first_of self.now.own }
    {
        lists::first(&self.cells, self.own)
    }

    /// Puts a value in the place of the innermost one, where there is one; the one before.
    pub fn replace_top(&mut self, value: T) -> Option<T>
        ensures before { result ≡ first_of self.old.own }
        ensures replaced { self.new ≡ record self.old { own = with_first value self.old.own } }
    {
        lists::replace_first(&mut self.cells, self.own, value)
    }

    /// All values, the innermost first.
    pub fn values(&self, alloc: Global) -> Result<Vec<&T>, OutOfMemory>
        ensures { IfOk result (λ values. map (λ v. v.now) values.items ≡ self.now.own) }
    {
        lists::values(&self.cells, self.own, alloc)
    }

    /// Gives up the values.
    pub fn clear(&mut self)
        ensures { self.new ≡ record self.old { own = [] } }
    {
        lists::clear(&mut self.cells, self.own);
    }

    /// Freezes the values: they are the last of the frozen lists, with what is kept with them. Their number.
    pub fn freeze(&mut self, body: B) -> Result<usize, OutOfMemory>
        ensures number { IfOk result (λ n. n ≡ length self.old.frozen) }
        ensures frozen { OnOk result (self.new ≡ record { own = []; frozen = self.old.frozen ++ Some (record { stack = self.old.own; body = body }) ∷ [] }) }
        ensures err { OnErr result (self.new ≡ self.old) }
    {
        let number = self.parked.len();
        self.parked.reserve(1)?;
        let own = lists::take_head(&mut self.cells)?;
        let head = mem::replace(&mut self.own, own);
        self.parked.push(Some(Parked { head, body })).unwrap();
        Ok(number)
    }

    /// Whether the frozen list of a number is out.
    pub fn is_out(&self, number: usize) -> bool
        ensures { result ≡ is_there (frozen_at self.now number) }
    {
        match self.parked.get(number) {
            Some(Some(_)) => true,
            Some(None) => false,
            None => false,
        }
    }

    /// Puts the frozen list of a number before the values, where it is out; it isn't any more. What was kept with it.
    pub fn thaw(&mut self, number: usize) -> Option<B>
        ensures { Thawed result number self.old self.new }
    {
        match take_parked(&mut self.parked, number) {
            Some(parked) => {
                let Parked { head, body } = parked;
                lists::splice(&mut self.cells, head, self.own);
                Some(body)
            }
            None => None,
        }
    }

    /// Gives up the frozen list of a number, where it is out.
    pub fn abandon(&mut self, number: usize)
        ensures { self.new ≡ without self.old number }
    {
        match take_parked(&mut self.parked, number) {
            Some(parked) => lists::release(&mut self.cells, parked.head),
            None => {}
        }
    }

    /// Gives up all frozen lists.
    pub fn forget(&mut self)
        ensures { self.new ≡ record self.old { frozen = [] } }
    {
        let mut number = 0;
        while number < self.parked.len() {
            self.abandon(number);
            number += 1;
        }
        self.parked.clear();
    }
}

/// Takes what is parked under a number.
fn take_parked<B: Drop>(parked: &mut Vec<Option<Parked<B>>>, number: usize) -> Option<Parked<B>>
    ensures result { result ≡ parked_at number parked.old.items }
    ensures rest { parked.new.items ≡ slice_set parked.old.items number None }
{
    if number >= parked.len() {
        return None;
    }
    mem::replace(&mut parked[number], None)
}
