ghost use Rattle.std.specs.Prelude.{◌≡◌, ◌≢◌, ℕ, ◌+◌, ◌-◌, ◌<◌, ◌≤◌, List, [], ◌∷◌, ◌++◌, IfOk, OnOk, OnErr, IsSome, None, Some, slice_get, slice_set, slice_index_or, max, replicate};
ghost use Rattle.link_cells.specs.Arena.{Arena, list_at_head, with_list, InUse, StandsBetween, first_name, last_name, named};
ghost use Rattle.link_cells.specs.declared.id.CellId.{CellId};

use crate::id::CellId;
use crate::link::{Link, Links};
use crate::ring::{attach, join, links_of, move_back, move_front};
use cell_words::{CellWords, Steps};
use seq::OutOfMemory;
use std::alloc::Global;
use std::marker::{Brand, Model};
use std::sync::ledger::{Blank, Ledger};

/// An arena of doubly linked cells, with a list per head.
#[derive(Drop)]
pub struct Cells<T> {
    words: CellWords<Links, Links>,
    values: Vec<Option<T>>,
    used: Vec<bool>,
    free_heads: Vec<usize>,
    spare: usize,
}

impl<T> Model for Cells<T> {
    ghost use Rattle.std.specs.Prelude.{length, vec_capacity};
    ghost use Rattle.link_cells.specs.Arena.{Arena, lists_of, cells_of_head, IsArena};

    ghost Value = { Arena T };

    ghost view = { λ a. record { lists = lists_of a.used.items a.values.items (cells_of_head a.words) (length a.words.heads); spare = a.spare; spare_heads = length a.free_heads.items } };

    ghost invariant = { λ a. IsArena a.words a.values.items a.used.items a.free_heads.items (vec_capacity a.free_heads) a.spare };
}

fn alone(head: usize) -> Links
    ensures { result ≡ record { back = Link.Head head; ahead = Link.Head head } }
{
    Links {
        back: Link::Head(head),
        ahead: Link::Head(head),
    }
}

impl<T: Drop> Cells<T> {
    /// No cells and no heads.
    pub fn new(alloc: Global) -> Result<Cells<T>, OutOfMemory>
        ensures lists { IfOk result (λ cells. (h : ℕ) → list_at_head cells h ≡ None) }
        ensures spare { IfOk result (λ cells. cells.spare ≡ 0) }
        ensures spare_heads { IfOk result (λ cells. cells.spare_heads ≡ 0) }
    {
        let mut words = CellWords::new(alloc)?;
        words.grow_heads(alone(0))?;
        let mut used = Vec::new(alloc);
        used.push(false)?;
        let free_heads = Vec::with_capacity(alloc, 1)?;
        Ok(Cells {
            words,
            values: Vec::new(alloc),
            used,
            free_heads,
            spare: 0,
        })
    }

    /// How many cells there are, in lists and spare.
    pub fn cells(&self) -> usize
        ensures { self.now.spare ≤ result }
    {
        self.values.len()
    }

    /// Makes both spares at least so large. Memory is all that can refuse it, and each list stays as it is.
    pub fn reserve(&mut self, cells: usize, heads: usize) -> Result<(), OutOfMemory>
        ensures spare { OnOk result (self.new.spare ≡ max self.old.spare cells) }
        ensures spare_heads { OnOk result (self.new.spare_heads ≡ max self.old.spare_heads heads) }
        ensures lists { (h : ℕ) → list_at_head self.new h ≡ list_at_head self.old h }
        ensures kept { self.old.spare ≤ self.new.spare }
        ensures kept_heads { self.old.spare_heads ≤ self.new.spare_heads }
    {
        self.reserve_cells::<Brand>(cells, Blank::new(1))?;
        self.reserve_heads(heads)
    }

    fn reserve_cells<L: Ledger>(&mut self, cells: usize, blank: Blank) -> Result<(), OutOfMemory>
        requires name { blank.name ≡ L.name }
        requires parts { blank.parts ≡ L.parts }
        requires share { 0 < blank.parts }
        ensures spare { OnOk result (self.new.spare ≡ max self.old.spare cells) }
        ensures same { self.new ≡ record self.old { spare = self.new.spare } }
        ensures kept { self.old.spare ≤ self.new.spare }
    {
        let mut steps = Steps::<L>::new(blank);
        while self.spare() < cells {
            self.grow_cell(&mut steps)?;
        }
        Ok(())
    }

    fn reserve_heads(&mut self, heads: usize) -> Result<(), OutOfMemory>
        ensures spare_heads { OnOk result (self.new.spare_heads ≡ max self.old.spare_heads heads) }
        ensures lists { (h : ℕ) → list_at_head self.new h ≡ list_at_head self.old h }
        ensures same { self.new.spare ≡ self.old.spare }
        ensures kept { self.old.spare_heads ≤ self.new.spare_heads }
    {
        while self.spare_heads() < heads {
            self.grow_head()?;
        }
        Ok(())
    }

    fn spare(&self) -> usize
        ensures { result ≡ self.now.spare }
    {
        self.spare
    }

    fn spare_heads(&self) -> usize
        ensures { result ≡ self.now.spare_heads }
    {
        self.free_heads.len()
    }

    /// Makes one spare cell more.
    fn grow_cell<L: Ledger>(&mut self, steps: &mut Steps<L>) -> Result<(), OutOfMemory>
        ensures ok { OnOk result (self.new ≡ record self.old { spare = self.old.spare + 1 }) }
        ensures err { OnErr result (self.new ≡ self.old) }
    {
        let cell = self.values.len();
        self.values.reserve(1)?;
        self.words.grow_cells(alone(0))?;
        let first = links_of(&self.words, Link::Head(0)).ahead;
        attach(&mut self.words, cell, Link::Head(0), first, steps);
        self.values.push(None).unwrap();
        self.spare += 1;
        Ok(())
    }

    /// Makes one spare head more.
    fn grow_head(&mut self) -> Result<(), OutOfMemory>
        ensures ok { OnOk result (self.new.spare_heads ≡ self.old.spare_heads + 1) }
        ensures err { OnErr result (self.new.spare_heads ≡ self.old.spare_heads) }
        ensures lists { (h : ℕ) → list_at_head self.new h ≡ list_at_head self.old h }
        ensures same { self.new.spare ≡ self.old.spare }
    {
        let head = self.used.len();
        self.used.reserve(1)?;
        self.free_heads.reserve(head + 1)?;
        self.words.grow_heads(alone(head))?;
        self.used.push(false).unwrap();
        self.free_heads.push(head).unwrap();
        Ok(())
    }

    /// Takes a spare head into use, with an empty list.
    pub fn take_head(&mut self) -> usize
        requires { 0 < self.old.spare_heads }
        ensures spare { list_at_head self.old result ≡ None }
        ensures taken { self.new ≡ record (with_list self.old result []) { spare_heads = self.old.spare_heads - 1 } }
        ensures listed { list_at_head self.new result ≡ Some [] }
    {
        let head = self.free_heads.pop().unwrap();
        self.used[head] = true;
        head
    }

    /// Gives a head back, whose list is empty.
    pub fn give_head(&mut self, head: usize)
        requires { list_at_head self.old head ≡ Some [] }
        ensures { self.new ≡ record self.old { lists = slice_set self.old.lists head None; spare_heads = self.old.spare_heads + 1 } }
    {
        self.used[head] = false;
        self.free_heads.push(head).unwrap();
    }

    /// Appends a value to a list.
    pub fn push_back<L: Ledger>(&mut self, head: usize, value: T, steps: &mut Steps<L>) -> CellId
        requires head { IsSome (list_at_head self.old head) }
        requires room { 0 < self.old.spare }
        ensures pushed { (list : List (CellId × T)) → list_at_head self.old head ≡ Some list → self.new ≡ record (with_list self.old head (list ++ (result, value) ∷ [])) { spare = self.old.spare - 1 } }
        ensures fresh { InUse self.old result → ⊥ }
        ensures cost { steps.new ≤ steps.old + 6 }
    {
        let cell = cell_of(links_of(&self.words, Link::Head(0)).ahead);
        move_back(&mut self.words, cell, head, steps);
        self.values[cell] = Some(value);
        self.spare -= 1;
        CellId::new(cell)
    }

    /// Puts a value in front of a list.
    pub fn push_front<L: Ledger>(&mut self, head: usize, value: T, steps: &mut Steps<L>) -> CellId
        requires head { IsSome (list_at_head self.old head) }
        requires room { 0 < self.old.spare }
        ensures pushed { (list : List (CellId × T)) → list_at_head self.old head ≡ Some list → self.new ≡ record (with_list self.old head ((result, value) ∷ list)) { spare = self.old.spare - 1 } }
        ensures fresh { InUse self.old result → ⊥ }
        ensures cost { steps.new ≤ steps.old + 6 }
    {
        let cell = cell_of(links_of(&self.words, Link::Head(0)).ahead);
        move_front(&mut self.words, cell, head, steps);
        self.values[cell] = Some(value);
        self.spare -= 1;
        CellId::new(cell)
    }

    /// Takes a cell out of its list, whichever that is, and gives back its value. The cell is spare then.
    pub fn unlink<L: Ledger>(&mut self, id: CellId, steps: &mut Steps<L>) -> T
        requires { InUse self.old id }
        ensures taken { (head : ℕ) (front : List (CellId × T)) (value : T) (back : List (CellId × T)) → StandsBetween self.old id head front value back → (result ≡ value) × (self.new ≡ record (with_list self.old head (front ++ back)) { spare = self.old.spare + 1 }) }
        ensures cost { steps.new ≤ steps.old + 6 }
    {
        let cell = id.cell();
        move_front(&mut self.words, cell, 0, steps);
        self.spare += 1;
        self.values[cell].take().unwrap()
    }

    /// Puts a value in the place of that of a cell, and gives back the one before. No link is written.
    pub fn replace(&mut self, id: CellId, value: T) -> T
        requires { InUse self.old id }
        ensures { (head : ℕ) (front : List (CellId × T)) (before : T) (back : List (CellId × T)) → StandsBetween self.old id head front before back → (result ≡ before) × (self.new ≡ with_list self.old head (front ++ (id, value) ∷ back)) }
    {
        self.values[id.cell()].replace(value).unwrap()
    }

    /// Moves the whole list of `from` before that of `to`.
    pub fn splice_front<L: Ledger>(&mut self, from: usize, to: usize, steps: &mut Steps<L>)
        requires from { IsSome (list_at_head self.old from) }
        requires to { IsSome (list_at_head self.old to) }
        requires apart { from ≢ to }
        ensures moved { (front back : List (CellId × T)) → list_at_head self.old from ≡ Some front → list_at_head self.old to ≡ Some back → self.new ≡ with_list (with_list self.old from []) to (front ++ back) }
        ensures cost { steps.new ≤ steps.old + 6 }
    {
        if let Link::Cell(_) = links_of(&self.words, Link::Head(from)).ahead {
            join(&mut self.words, from, to, steps);
        }
    }

    /// The first cell of a list.
    pub fn first(&self, head: usize) -> Option<CellId>
        requires { IsSome (list_at_head self.now head) }
        ensures { (list : List (CellId × T)) → list_at_head self.now head ≡ Some list → result ≡ first_name list }
    {
        named(links_of(&self.words, Link::Head(head)).ahead)
    }

    /// The cell behind this one in its list.
    pub fn next(&self, id: CellId) -> Option<CellId>
        requires { InUse self.now id }
        ensures { (head : ℕ) (front : List (CellId × T)) (value : T) (back : List (CellId × T)) → StandsBetween self.now id head front value back → result ≡ first_name back }
    {
        named(links_of(&self.words, Link::Cell(id.cell())).ahead)
    }

    /// The cell before this one in its list.
    pub fn prev(&self, id: CellId) -> Option<CellId>
        requires { InUse self.now id }
        ensures { (head : ℕ) (front : List (CellId × T)) (value : T) (back : List (CellId × T)) → StandsBetween self.now id head front value back → result ≡ last_name front }
    {
        named(links_of(&self.words, Link::Cell(id.cell())).back)
    }

    /// The value of a cell.
    pub fn get(&self, id: CellId) -> &T
        requires { InUse self.now id }
        ensures { (head : ℕ) (front : List (CellId × T)) (value : T) (back : List (CellId × T)) → StandsBetween self.now id head front value back → result.now ≡ value }
    {
        self.values[id.cell()].as_ref().unwrap()
    }
}

/// The cell that a link names.
fn cell_of(link: Link) -> usize
    requires { (cell : ℕ) × (link ≡ Link.Cell cell) }
    ensures { link ≡ Link.Cell result }
{
    match link {
        Link::Cell(cell) => cell,
        Link::Head(_) => unreachable!(),
    }
}

/// The cell that a link names, if it is none of a head.
fn named(link: Link) -> Option<CellId>
    ensures { result ≡ named link }
{
    match link {
        Link::Cell(cell) => Some(CellId::new(cell)),
        Link::Head(_) => None,
    }
}
