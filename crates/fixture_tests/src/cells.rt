ghost use Rattle.std.specs.Prelude.{◌≡◌, ◌≢◌, ℕ, ◌+◌, ◌<◌, ◌≤◌, List, IsSome, IfSome, Some};
ghost use Rattle.link_cells.specs.Arena.{list_at_head, InUse};

use link_cells::{CellId, Cells, Steps};
use seq::OutOfMemory;
use std::alloc::{AllocError, Global};
use std::marker::Brand;
use std::sync::ledger::{Blank, Ledger};

/// Appends the numbers from 0 on.
fn fill<L: Ledger>(cells: &mut Cells<u32>, head: usize, count: u32, steps: &mut Steps<L>)
    requires head { IsSome (list_at_head cells.old head) }
    requires room { count ≤ cells.old.spare }
    ensures head { IsSome (list_at_head cells.new head) }
    ensures others { (k : ℕ) → k ≢ head → list_at_head cells.new k ≡ list_at_head cells.old k }
    ensures spare { cells.new.spare + count ≡ cells.old.spare }
{
    for value in 0..count {
        let _id = cells.push_back(head, value, steps);
    }
}

/// The cell behind so many others.
fn nth(cells: &Cells<u32>, head: usize, place: u32) -> Option<CellId>
    requires { IsSome (list_at_head cells.now head) }
    ensures { IfSome result (InUse cells.now) }
{
    let mut at = cells.first(head);
    for _ in 0..place {
        at = cells.next(at?);
    }
    at
}

/// The values of a list, forward, and then their number by the way back.
fn values_of(alloc: Global, cells: &Cells<u32>, head: usize) -> Result<Vec<u32>, AllocError>
    requires { IsSome (list_at_head cells.now head) }
{
    let mut values = Vec::new(alloc);
    let mut at = cells.first(head);
    for _ in 0..2000 {
        let Some(id) = at else {
            break;
        };
        values.push(*cells.get(id))?;
        at = cells.next(id);
    }
    Ok(values)
}

/// Whether a cell stands before the one at this place.
fn has_before(cells: &Cells<u32>, head: usize, place: u32) -> Option<bool>
    requires { IsSome (list_at_head cells.now head) }
{
    let id = nth(cells, head, place)?;
    Some(cells.prev(id).is_some())
}

fn two_heads(cells: &mut Cells<u32>) -> (usize, usize)
    requires { 2 ≤ cells.old.spare_heads }
    ensures one { IsSome (list_at_head cells.new result.0) }
    ensures other { IsSome (list_at_head cells.new result.1) }
    ensures apart { result.0 ≢ result.1 }
    ensures spare { cells.new.spare ≡ cells.old.spare }
{
    let one = cells.take_head();
    let other = cells.take_head();
    (one, other)
}

/// Unlinks the cell at this place.
fn unlink_nth<L: Ledger>(
    cells: &mut Cells<u32>,
    head: usize,
    place: u32,
    steps: &mut Steps<L>,
) -> Option<u32>
    requires { IsSome (list_at_head cells.old head) }
    ensures { (k : ℕ) → IsSome (list_at_head cells.old k) → IsSome (list_at_head cells.new k) }
{
    match nth(cells, head, place) {
        Some(id) => Some(cells.unlink(id, steps)),
        None => None,
    }
}

#[derive(Drop)]
struct Seen {
    gone: Option<u32>,
    before: Option<bool>,
    values: Vec<u32>,
}

/// A list of so many numbers, one of them unlinked, put in front of a list of one 0.
fn chain<L: Ledger>(
    alloc: Global,
    blank: Blank,
    count: u32,
    place: u32,
) -> Result<Seen, OutOfMemory>
    requires name { blank.name ≡ L.name }
    requires parts { blank.parts ≡ L.parts }
    requires share { 0 < blank.parts }
    requires few { count < 100000 }
{
    let mut steps = Steps::<L>::new(blank);
    let mut cells = Cells::new(alloc)?;
    cells.reserve(count as usize + 1, 2)?;
    let (one, other) = two_heads(&mut cells);
    fill(&mut cells, one, count, &mut steps);
    fill(&mut cells, other, 1, &mut steps);
    let before = has_before(&cells, one, place);
    let gone = unlink_nth(&mut cells, one, place, &mut steps);
    cells.splice_front(one, other, &mut steps);
    let values = values_of(alloc, &cells, other)?;
    Ok(Seen {
        gone,
        before,
        values,
    })
}

/// The numbers below this one, but for one of them, and a 0 behind them.
fn plain(alloc: Global, count: u32, place: u32) -> Result<Vec<u32>, OutOfMemory> {
    let mut plain = Vec::new(alloc);
    for value in 0..count {
        if value != place {
            plain.push(value)?;
        }
    }
    plain.push(0)?;
    Ok(plain)
}

/// Whether a chain of so many numbers gives what a plain list gives.
fn is_as_plain(alloc: Global, count: u32, place: u32) -> Result<bool, OutOfMemory>
    requires few { count < 100000 }
{
    let plain = plain(alloc, count, place)?;
    let seen = chain::<Brand>(alloc, Blank::new(1), count, place)?;
    let (gone, before) = if place < count {
        (Some(place), Some(place > 0))
    } else {
        (None, None)
    };
    Ok(seen.gone == gone && seen.before == before && seen.values.as_slice() == plain.as_slice())
}

#[test]
fn chains_are_those_of_plain_lists(rt: HostRuntime) {
    for (count, place) in [(1000, 499), (0, 0), (1, 0), (3, 0), (3, 2), (3, 3)] {
        assert!(rt; matches!(is_as_plain(rt.alloc(), count, place), Ok(true)));
    }
}
