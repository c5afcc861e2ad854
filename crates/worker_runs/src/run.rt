// The run of workers.

ghost use Rattle.std.specs.Prelude.{◌≡◌, ◌≤◌, All, IfOk, List, flat_map, length};
ghost use Rattle.report_rules.specs.Collected.{Collected, report_language};
ghost use Rattle.share_files.specs.Deal.{Share};
ghost use Rattle.share_files.specs.Work.{held_lists};
ghost use Rattle.worker_runs.specs.Runs.{IsRunOfWorkers};

use crate::bench::Bench;
use crate::gathering::{WorkersRun, gathered};
use crate::places::places_from;
use crate::worker::GroupWorker;
use edge_io::Gate;
use report_parts::ItemReport;
use seq::OutOfMemory;
use share_files::{Draws, run_shares};
use std::alloc::Global;
use std::thread::Threads;

/// As many workers on a bench.
fn crew_of<'a, B: Bench>(
    alloc: Global,
    bench: &'a B,
    workers: u32,
) -> Result<Vec<GroupWorker<'a, B>>, OutOfMemory>
    ensures { IfOk result (λ crew. (length crew.items ≡ workers) × All (λ w. w.bench.now ≡ bench.now) crew.items) }
{
    let mut crew = Vec::new(alloc);
    for _ in 0..workers {
        crew.push(GroupWorker {
            alloc,
            bench,
            reports: Vec::new(alloc),
        })?;
    }
    Ok(crew)
}

/// The reports of all workers, worker by worker.
fn all_reports<'a, B: Bench>(
    alloc: Global,
    crew: Vec<GroupWorker<'a, B>>,
) -> Result<Vec<ItemReport>, OutOfMemory>
    ensures { IfOk result (λ all. all.items ≡ flat_map (λ w. w.reports.items) crew.entry.items) }
{
    let mut all = Vec::new(alloc);
    for worker in crew {
        let mut reports = worker.reports;
        all.append(&mut reports)?;
    }
    Ok(all)
}

/// Lets so many workers run the groups that they draw, at the same time, each in a session of its own, and gives their reports in the
/// order of the groups, each with its place.
pub fn run_workers<R: Threads + Sync, B: Bench + Sync, G: Gate + Sync>(
    rt: &R,
    alloc: Global,
    bench: &B,
    workers: u32,
    gate: &G,
) -> Result<WorkersRun, OutOfMemory>
    requires { (1 ≤ workers) × (workers ≤ B.groups bench.now) }
    ensures collected { (c : Collected (report_language B.World B.Value B.Thrown B.Rest) B.Table) × B.collects bench.now c }
    ensures run { IfOk result (λ run. (c : Collected (report_language B.World B.Value B.Thrown B.Rest) B.Table) → B.collects bench.now c
        → IsRunOfWorkers (B.rules bench.now c.table) (B.fixture bench.now c.table) (B.options bench.now) c workers run) }
{
    let sizes = bench.sizes();
    let mut crew = crew_of(alloc, bench, workers)?;
    let draws = Draws::new(alloc, sizes.len() as u32, workers)?;
    let taken = run_shares(rt, alloc, crew.as_mut_slice(), draws, gate)?;
    let places = places_from(alloc, sizes, taken.as_slice())?;
    let reports = all_reports(alloc, crew)?;
    gathered(alloc, places.as_slice(), reports)
}
