ghost use Rattle.std.specs.Prelude.{◌≡◌, ◌+◌, ◌<◌, [], ◌∷◌, ◌++◌, length, IfOk, OnOk, OnErr, slice_get, slice_set, Some};

use crate::steps::Steps;
use seq::OutOfMemory;
use std::alloc::Global;
use std::marker::Model;
use std::mem;
use std::sync::ledger::Ledger;

/// Two lists of words, the cells and the heads. Only `swap_cell` and `swap_head` change a word that is there.
#[derive(Drop)]
pub struct CellWords<C, H> {
    cells: Vec<C>,
    heads: Vec<H>,
}

impl<C, H> Model for CellWords<C, H> {
    ghost use Rattle.cell_words.specs.Lists.{Lists};

    ghost Value = { Lists C H };

    ghost view = { λ w. record { cells = w.cells.items; heads = w.heads.items } };
}

impl<C, H> CellWords<C, H> {
    /// No cells and no heads.
    pub fn new(alloc: Global) -> Result<CellWords<C, H>, OutOfMemory>
        ensures { IfOk result (λ w. w ≡ record { cells = []; heads = [] }) }
    {
        Ok(CellWords {
            cells: Vec::new(alloc),
            heads: Vec::new(alloc),
        })
    }

    /// Appends a cell. Memory is all that can refuse it, and then both lists are as they were.
    pub fn grow_cells(&mut self, cell: C) -> Result<(), OutOfMemory>
    where
        C: Drop,
        ensures ok { OnOk result (self.new ≡ record self.old { cells = self.old.cells ++ cell ∷ [] }) }
        ensures err { OnErr result (self.new ≡ self.old) }
    {
        self.cells.push(cell)?;
        Ok(())
    }

    /// Appends a head. Memory is all that can refuse it, and then both lists are as they were.
    pub fn grow_heads(&mut self, head: H) -> Result<(), OutOfMemory>
    where
        H: Drop,
        ensures ok { OnOk result (self.new ≡ record self.old { heads = self.old.heads ++ head ∷ [] }) }
        ensures err { OnErr result (self.new ≡ self.old) }
    {
        self.heads.push(head)?;
        Ok(())
    }

    /// Writes one cell, gives back what stood there, and takes one step.
    pub fn swap_cell<L: Ledger>(&mut self, at: usize, cell: C, steps: &mut Steps<L>) -> C
        requires { at < length self.old.cells }
        ensures before { slice_get self.old.cells at ≡ Some result }
        ensures after { self.new ≡ record self.old { cells = slice_set self.old.cells at cell } }
        ensures step { steps.new ≡ steps.old + 1 }
    {
        steps.tick();
        mem::replace(&mut self.cells[at], cell)
    }

    /// Writes one head, gives back what stood there, and takes one step.
    pub fn swap_head<L: Ledger>(&mut self, at: usize, head: H, steps: &mut Steps<L>) -> H
        requires { at < length self.old.heads }
        ensures before { slice_get self.old.heads at ≡ Some result }
        ensures after { self.new ≡ record self.old { heads = slice_set self.old.heads at head } }
        ensures step { steps.new ≡ steps.old + 1 }
    {
        steps.tick();
        mem::replace(&mut self.heads[at], head)
    }

    /// The cell at this place.
    pub fn cell(&self, at: usize) -> &C
        requires { at < length self.now.cells }
        ensures { slice_get self.now.cells at ≡ Some result.now }
    {
        &self.cells[at]
    }

    /// The head at this place.
    pub fn head(&self, at: usize) -> &H
        requires { at < length self.now.heads }
        ensures { slice_get self.now.heads at ≡ Some result.now }
    {
        &self.heads[at]
    }
}
