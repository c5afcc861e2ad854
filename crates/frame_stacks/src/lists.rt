// Lists of one arena, by their heads.

ghost use Rattle.std.specs.Prelude.{◌≡◌, ◌≢◌, ℕ, ◌<◌, List, [], ◌∷◌, ◌++◌, map, None, Some, IfOk, OnOk, OnErr, IsSome};
ghost use Rattle.std.specs.Option.{option_copied};
ghost use Rattle.link_cells.specs.Arena.{list_at_head, first_name};
ghost use Rattle.link_cells.specs.declared.id.CellId.{CellId as Id};
ghost use Rattle.frame_stacks.specs.Lists.{values_at, Others, Taken};
ghost use Rattle.frame_stacks.specs.Stacked.{first_of, with_first};

use link_cells::{CellId, Cells, Steps};
use seq::OutOfMemory;
use std::alloc::Global;
use std::marker::Brand;
use std::sync::ledger::{Blank, Ledger};

fn push_cell<T: Drop, L: Ledger>(cells: &mut Cells<T>, head: usize, value: T, blank: Blank)
    requires name { blank.name ≡ L.name }
    requires parts { blank.parts ≡ L.parts }
    requires share { 0 < blank.parts }
    requires head { IsSome (list_at_head cells.old head) }
    requires room { 0 < cells.old.spare }
    ensures used { IsSome (list_at_head cells.new head) }
    ensures pushed { values_at cells.new head ≡ value ∷ values_at cells.old head }
    ensures others { Others head cells.old cells.new }
{
    let mut steps = Steps::<L>::new(blank);
    cells.push_front(head, value, &mut steps);
}

/// Puts a value in front of a list.
pub fn push<T: Drop>(cells: &mut Cells<T>, head: usize, value: T) -> Result<(), OutOfMemory>
    requires { IsSome (list_at_head cells.old head) }
    ensures used { IsSome (list_at_head cells.new head) }
    ensures pushed { OnOk result (values_at cells.new head ≡ value ∷ values_at cells.old head) }
    ensures others { Others head cells.old cells.new }
{
    cells.reserve(1, 0)?;
    push_cell::<T, Brand>(cells, head, value, Blank::new(1));
    Ok(())
}

fn unlink_cell<T: Drop, L: Ledger>(cells: &mut Cells<T>, id: CellId, head: usize, blank: Blank) -> T
    requires name { blank.name ≡ L.name }
    requires parts { blank.parts ≡ L.parts }
    requires share { 0 < blank.parts }
    requires first { (rest : List (Id × T)) × (value : T) × (list_at_head cells.old head ≡ Some ((id, value) ∷ rest)) }
    ensures used { IsSome (list_at_head cells.new head) }
    ensures taken { values_at cells.old head ≡ result ∷ values_at cells.new head }
    ensures others { Others head cells.old cells.new }
{
    let mut steps = Steps::<L>::new(blank);
    cells.unlink(id, &mut steps)
}

/// Takes the first value of a list, where there is one.
pub fn pop<T: Drop>(cells: &mut Cells<T>, head: usize) -> Option<T>
    requires { IsSome (list_at_head cells.old head) }
    ensures used { IsSome (list_at_head cells.new head) }
    ensures taken { Taken result (values_at cells.old head) (values_at cells.new head) }
    ensures others { Others head cells.old cells.new }
{
    match cells.first(head) {
        Some(id) => Some(unlink_cell::<T, Brand>(cells, id, head, Blank::new(1))),
        None => None,
    }
}

/// The first value of a list, where there is one.
pub fn first<T: Drop>(cells: &Cells<T>, head: usize) -> Option<&T>
    requires { IsSome (list_at_head cells.now head) }
    ensures { option_copied result ≡ first_of (values_at cells.now head) }
{
    match cells.first(head) {
        Some(id) => Some(cells.get(id)),
        None => None,
    }
}

/// Puts a value in the place of the first one of a list, where there is one; the one before.
pub fn replace_first<T: Drop>(cells: &mut Cells<T>, head: usize, value: T) -> Option<T>
    requires { IsSome (list_at_head cells.old head) }
    ensures used { IsSome (list_at_head cells.new head) }
    ensures before { result ≡ first_of (values_at cells.old head) }
    ensures replaced { values_at cells.new head ≡ with_first value (values_at cells.old head) }
    ensures others { Others head cells.old cells.new }
{
    match cells.first(head) {
        Some(id) => Some(cells.replace(id, value)),
        None => None,
    }
}

/// All values of a list.
pub fn values<'a, T: Drop>(
    cells: &'a Cells<T>,
    head: usize,
    alloc: Global,
) -> Result<Vec<&'a T>, OutOfMemory>
    requires { IsSome (list_at_head cells.now head) }
    ensures { IfOk result (λ values. map (λ v. v.now) values.items ≡ values_at cells.now head) }
{
    let mut values = Vec::new(alloc);
    let mut at = cells.first(head);
    while let Some(id) = at {
        values.push(cells.get(id))?;
        at = cells.next(id);
    }
    Ok(values)
}

/// Gives up the values of a list.
pub fn clear<T: Drop>(cells: &mut Cells<T>, head: usize)
    requires { IsSome (list_at_head cells.old head) }
    ensures empty { list_at_head cells.new head ≡ Some [] }
    ensures others { Others head cells.old cells.new }
{
    'down: loop {
        match pop(cells, head) {
            Some(value) => drop(value),
            None => return,
        }
    }
}

/// Gives up the values of a list, and its head.
pub fn release<T: Drop>(cells: &mut Cells<T>, head: usize)
    requires { IsSome (list_at_head cells.old head) }
    ensures { Others head cells.old cells.new }
{
    clear(cells, head);
    cells.give_head(head);
}

/// A head for a list, which is empty.
pub fn take_head<T: Drop>(cells: &mut Cells<T>) -> Result<usize, OutOfMemory>
    ensures head { IfOk result (λ head. (list_at_head cells.old head ≡ None) × (list_at_head cells.new head ≡ Some [])) }
    ensures others { IfOk result (λ head. Others head cells.old cells.new) }
    ensures err { OnErr result ((k : ℕ) → list_at_head cells.new k ≡ list_at_head cells.old k) }
{
    cells.reserve(0, 1)?;
    Ok(cells.take_head())
}

fn splice_cells<T: Drop, L: Ledger>(cells: &mut Cells<T>, from: usize, to: usize, blank: Blank)
    requires name { blank.name ≡ L.name }
    requires parts { blank.parts ≡ L.parts }
    requires share { 0 < blank.parts }
    requires from { IsSome (list_at_head cells.old from) }
    requires to { IsSome (list_at_head cells.old to) }
    requires apart { from ≢ to }
    ensures empty { list_at_head cells.new from ≡ Some [] }
    ensures used { IsSome (list_at_head cells.new to) }
    ensures moved { values_at cells.new to ≡ values_at cells.old from ++ values_at cells.old to }
    ensures others { (k : ℕ) → k ≢ from → k ≢ to → list_at_head cells.new k ≡ list_at_head cells.old k }
{
    let mut steps = Steps::<L>::new(blank);
    cells.splice_front(from, to, &mut steps);
}

/// Moves the values of one list before those of another, and gives its head back.
pub fn splice<T: Drop>(cells: &mut Cells<T>, from: usize, to: usize)
    requires from { IsSome (list_at_head cells.old from) }
    requires to { IsSome (list_at_head cells.old to) }
    requires apart { from ≢ to }
    ensures used { IsSome (list_at_head cells.new to) }
    ensures moved { values_at cells.new to ≡ values_at cells.old from ++ values_at cells.old to }
    ensures others { (k : ℕ) → k ≢ from → k ≢ to → list_at_head cells.new k ≡ list_at_head cells.old k }
{
    splice_cells::<T, Brand>(cells, from, to, Blank::new(1));
    cells.give_head(from);
}
