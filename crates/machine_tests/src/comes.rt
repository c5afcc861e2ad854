// What comes of a row's acts, and where it isn't what the row wants.

use crate::act::done;
use crate::frames::give_up;
use crate::row::{Act, Row};
use crate::told::MemoryResult;
use crate::world::world_of;
use py_machine::{Frozen, World};
use std::alloc::Global;

fn first_budget(act: &Act) -> u64 {
    match act.runs.first() {
        Some(run) => run.budget,
        None => 0,
    }
}

/// What comes of the act at a place within a budget, behind those before it, in a world; the frame is that of the last body that
/// stopped.
fn acts_done(
    alloc: Global,
    world: &mut World,
    frame: &mut Option<Frozen>,
    row: &Row,
    at: usize,
    budget: u64,
) -> MemoryResult<String> {
    let mut came = String::new(alloc);
    for (place, act) in row.acts.iter().enumerate() {
        let what = act.what.as_str();
        if place < at {
            drop(done(alloc, world, frame, what, first_budget(act))?);
        } else if place == at {
            came = done(alloc, world, frame, what, budget)?;
        }
    }
    Ok(came)
}

/// What comes of the act at a place within a budget, behind those before it. A frame that is out then is given up.
fn comes_of(alloc: Global, row: &Row, at: usize, budget: u64) -> MemoryResult<String> {
    let mut world = world_of(alloc, &row.sources)?;
    let mut frame = None;
    let came = acts_done(alloc, &mut world, &mut frame, row, at, budget);
    give_up(&mut world, frame);
    came
}

/// Where the act at a place does something else than it wants.
fn act_fault(alloc: Global, row: &Row, at: usize, act: &Act) -> MemoryResult<Option<String>> {
    for run in &act.runs {
        let budget = run.budget;
        let came = comes_of(alloc, row, at, budget)?;
        if came.as_str() != run.want.as_str() {
            let name = row.name.as_str();
            let what = act.what.as_str();
            let want = run.want.as_str();
            return Ok(Some(format!(in alloc;
                "{name}: {what} within {budget} wants\n{want}but gives\n{came}"
            )?));
        }
    }
    Ok(None)
}

/// Where a row does something else than it wants.
pub fn fault_of(alloc: Global, row: &Row) -> MemoryResult<Option<String>> {
    if row.acts.is_empty() {
        let name = row.name.as_str();
        return Ok(Some(format!(in alloc; "{name}: no acts")?));
    }
    for (at, act) in row.acts.iter().enumerate() {
        if let Some(fault) = act_fault(alloc, row, at, act)? {
            return Ok(Some(fault));
        }
    }
    Ok(None)
}
