ghost use Rattle.std.specs.Prelude.{◌≡◌, ℕ, ◌<◌, ◌++◌, length, reverse, None, Some, IfOk, OnOk, slice_index_or};
ghost use Rattle.std.specs.Option.{option_map};
ghost use Rattle.live_chains.specs.Chained.{list_at, id_of, IsChain};
ghost use Rattle.live_chains.specs.Walked.{first_at, rests_any, resting_id, resting_ids, off_order, off_orders};

use crate::id::LiveId;
use crate::resting::{is_at, is_off};
use link_cells::{CellId, Cells};
use seq::OutOfMemory;
use session_types::{Bases, DefId, Instance};
use std::alloc::Global;

/// The first instance of this definition on this node in a chain.
pub fn first_at(cells: &Cells<Instance>, head: usize, def: DefId, node: u32) -> Option<LiveId>
    requires { IsChain cells.now head }
    ensures { result ≡ option_map id_of (first_at def node (list_at cells.now head)) }
{
    let mut at = cells.first(head);
    while let Some(cell) = at {
        let one = cells.get(cell);
        if is_at(one, def, node) {
            return Some(LiveId::new(one.order, cell));
        }
        at = cells.next(cell);
    }
    None
}

/// Whether it is the one of one of these numbers, or depends on one.
fn rests_any(instance: &Instance, roots: &Bases) -> bool
    ensures { result ≡ rests_any roots.now instance.now }
{
    roots.has(instance.order) || instance.bases.has_any(roots)
}

/// Appends the name of an instance that rests on one of these numbers.
fn push_resting(
    out: &mut Vec<LiveId>,
    cell: CellId,
    instance: &Instance,
    roots: &Bases,
) -> Result<(), OutOfMemory>
    ensures { OnOk result (out.new.items ≡ out.old.items ++ resting_id roots.now (cell, instance.now)) }
{
    if rests_any(instance, roots) {
        out.push(LiveId::new(instance.order, cell))?;
    }
    Ok(())
}

/// The names in a chain that rest on one of these numbers.
pub fn resting_in(
    alloc: Global,
    cells: &Cells<Instance>,
    head: usize,
    roots: &Bases,
) -> Result<Vec<LiveId>, OutOfMemory>
    requires { IsChain cells.now head }
    ensures { IfOk result (λ ids. ids.items ≡ resting_ids roots.now (list_at cells.now head)) }
{
    let mut ids = Vec::new(alloc);
    let mut at = cells.first(head);
    while let Some(cell) = at {
        push_resting(&mut ids, cell, cells.get(cell), roots)?;
        at = cells.next(cell);
    }
    Ok(ids)
}

/// Appends the number of an instance whose node is none of these.
fn push_off(out: &mut Vec<u64>, instance: &Instance, chain: &[u32]) -> Result<(), OutOfMemory>
    ensures { OnOk result (out.new.items ≡ out.old.items ++ off_order chain.now instance.now) }
{
    if is_off(instance, chain) {
        out.push(instance.order)?;
    }
    Ok(())
}

/// Appends the numbers in a chain of those whose node is none of these.
pub fn push_off_in(
    out: &mut Vec<u64>,
    cells: &Cells<Instance>,
    head: usize,
    chain: &[u32],
) -> Result<(), OutOfMemory>
    requires { IsChain cells.now head }
    ensures { OnOk result (out.new.items ≡ out.old.items ++ off_orders chain.now (list_at cells.now head)) }
{
    let mut at = cells.first(head);
    while let Some(cell) = at {
        push_off(out, cells.get(cell), chain)?;
        at = cells.next(cell);
    }
    Ok(())
}

/// Appends names, the last first.
pub fn push_reversed(out: &mut Vec<LiveId>, ids: &[LiveId]) -> Result<(), OutOfMemory>
    ensures { OnOk result (out.new.items ≡ out.old.items ++ reverse ids.now) }
{
    let mut at = ids.len();
    while at > 0 {
        at -= 1;
        out.push(ids[at])?;
    }
    Ok(())
}
