ghost use Rattle.std.specs.Prelude.{◌≡◌, ◌≢◌, ℕ, ◌<◌, ◌≤◌, ◌++◌, [], ◌∷◌, length, reverse, None, Some, IfOk, OnOk};
ghost use Rattle.std.specs.Option.{option_map};
ghost use Rattle.link_cells.specs.Arena.{list_at_head};
ghost use Rattle.live_chains.specs.Chained.{list_at, chain_at, chains_below, head_at, id_of, IsChain, IsChains, AreTaken};
ghost use Rattle.session_types.specs.Numbers.{joined};
ghost use Rattle.session_types.specs.Scopes.{scope_count};
ghost use Rattle.live_chains.specs.Walked.{first_at, resting_ids, off_orders, roots_of, going_below};

use crate::dying::Dying;
use crate::id::LiveId;
use crate::walks::{first_at, push_off_in, push_reversed, resting_in};
use link_cells::Cells;
use seq::OutOfMemory;
use session_types::{Bases, DefId, Instance, SCOPE_COUNT};
use std::alloc::Global;

/// A head for each scope, with an empty chain.
pub fn take_heads(alloc: Global, cells: &mut Cells<Instance>) -> Result<Vec<usize>, OutOfMemory>
    requires { scope_count ≤ cells.old.spare_heads }
    ensures taken { IfOk result (λ heads. AreTaken cells.new heads.items scope_count) }
    ensures spare { cells.new.spare ≡ cells.old.spare }
{
    let mut heads = Vec::new(alloc);
    while heads.len() < SCOPE_COUNT {
        heads.push(cells.take_head())?;
    }
    Ok(heads)
}

/// The instance of this definition on this node.
pub fn find_in(cells: &Cells<Instance>, heads: &[usize], def: DefId, node: u32) -> Option<LiveId>
    requires { IsChains cells.now heads.now }
    ensures { result ≡ option_map id_of (first_at def node (chains_below (chain_at cells.now heads.now) scope_count)) }
{
    let mut rank = SCOPE_COUNT;
    while rank > 0 {
        rank -= 1;
        let found = first_at(cells, heads[rank], def, node);
        if found.is_some() {
            return found;
        }
    }
    None
}

/// The numbers of those whose node is none of these.
fn off_in(
    alloc: Global,
    cells: &Cells<Instance>,
    heads: &[usize],
    chain: &[u32],
) -> Result<Vec<u64>, OutOfMemory>
    requires { IsChains cells.now heads.now }
    ensures { IfOk result (λ v. v.items ≡ off_orders chain.now (chains_below (chain_at cells.now heads.now) scope_count)) }
{
    let mut numbers = Vec::new(alloc);
    let mut rank = SCOPE_COUNT;
    while rank > 0 {
        rank -= 1;
        push_off_in(&mut numbers, cells, heads[rank], chain)?;
    }
    Ok(numbers)
}

/// The numbers on which all that goes down rests.
pub fn roots_in(
    alloc: Global,
    cells: &Cells<Instance>,
    heads: &[usize],
    which: &Dying<'_>,
) -> Result<Bases, OutOfMemory>
    requires { IsChains cells.now heads.now }
    ensures { IfOk result (λ roots. roots ≡ joined (roots_of which.now (chains_below (chain_at cells.now heads.now) scope_count)) []) }
{
    match which {
        Dying::Dependents(id) => Bases::from_numbers(alloc, &[id.order()]),
        Dying::NotOn(chain) => {
            let numbers = off_in(alloc, cells, heads, chain)?;
            Bases::from_numbers(alloc, &numbers)
        }
    }
}

/// Appends the names in a chain that rest on one of these numbers, from its end.
fn push_going(
    alloc: Global,
    out: &mut Vec<LiveId>,
    cells: &Cells<Instance>,
    head: usize,
    roots: &Bases,
) -> Result<(), OutOfMemory>
    requires { IsChain cells.now head }
    ensures { OnOk result (out.new.items ≡ out.old.items ++ reverse (resting_ids roots.now (list_at cells.now head))) }
{
    let ids = resting_in(alloc, cells, head, roots)?;
    push_reversed(out, ids.as_slice())
}

/// The names of those that rest on one of these numbers, narrow scopes first and each chain from its end.
pub fn going_in(
    alloc: Global,
    cells: &Cells<Instance>,
    heads: &[usize],
    roots: &Bases,
) -> Result<Vec<LiveId>, OutOfMemory>
    requires { IsChains cells.now heads.now }
    ensures { IfOk result (λ ids. ids.items ≡ going_below roots.now (chain_at cells.now heads.now) scope_count) }
{
    let mut ids = Vec::new(alloc);
    let mut rank = SCOPE_COUNT;
    while rank > 0 {
        rank -= 1;
        push_going(alloc, &mut ids, cells, heads[rank], roots)?;
    }
    Ok(ids)
}
