// The run of what was collected on workers.

ghost use Rattle.std.specs.Prelude.{◌≡◌, ◌+◌, ◌≤◌, ℕ, List, Option, true, ⊤, IfErr, IfOk, IsTrue, length, map, min};
ghost use Rattle.cli_words.specs.Options.{asks_for_workers};
ghost use Rattle.worker_sessions.specs.collect_tree.Told.{IsWithin, collected_told};
ghost use Rattle.edge_io.specs.Causes.{HasCause};
ghost use Rattle.edge_io.specs.Files.{InOrder, paths_of};
ghost use Rattle.edge_io.specs.Told.{Appends};
ghost use Rattle.report_parts.specs.Limits.{most_items};
ghost use Rattle.report_text.specs.Head.{head_of};
ghost use Rattle.worker_sessions.specs.run_items.report_rules.Collected.{Collected as Collection};
ghost use Rattle.worker_sessions.specs.run_items.runtest_rules.Language.{python};
ghost use Rattle.worker_sessions.specs.run_items.test_suite.declared.suite.Suite.{Suite};
ghost use Rattle.selection.specs.Exprs.{AreExprs};
ghost use Rattle.worker_groups.specs.Numbers.{number_groups};
ghost use Rattle.worker_sessions.specs.Project.{Collects, group_sizes};
ghost use Rattle.pytest_core.specs.ByWorkers.{IsWhole, WorkersPut};
ghost use Rattle.pytest_core.specs.Report.{IsReportOf};
ghost use Rattle.pytest_core.specs.Run.{wants_workers};
ghost use Rattle.pytest_core.specs.Status.{is_said};
ghost use Rattle.pytest_core.specs.Streamed.{Broke, WroteBy};

use crate::collected::{put_head, put_rest};
use crate::refusal::RunFault;
use crate::session::RunAnswer;
use crate::status::Status;
use cli_words::Options;
use edge_io::{Files, Gate, Sink};
use report_text::{OutOfMemory, progress};
use selection::Exprs;
use std::alloc::Global;
use std::thread::Threads;
use worker_groups::{sizes_of, worker_groups};
use worker_runs::{WorkersRun, run_workers};
use worker_sessions::{Collected, Project, World};

/// The number of items of each file that has items, in the order of their first items.
fn sizes_by_file(alloc: Global, places: &[usize], selected: &[u32]) -> Result<Vec<u32>, OutOfMemory>
    requires { length selected.now ≤ most_items }
    ensures { IfOk result (λ sizes. sizes.items ≡ map (λ group. length group) (number_groups places.now selected.now)) }
{
    let groups = worker_groups(alloc, places, selected)?;
    sizes_of(alloc, groups.as_slice())
}

/// Writes what workers gave, behind the head.
fn put_workers<S: Sink>(
    alloc: Global,
    options: &Options,
    count: u32,
    deselected: u32,
    run: WorkersRun,
    out: &mut S,
) -> Result<Status, RunFault>
    requires items { count + deselected ≤ most_items }
    ensures put { WorkersPut options.now count deselected run (S.told out.old) (S.told out.new) result }
    ensures said { IfOk result (λ status. IsTrue (is_said status)) }
    ensures sink { HasCause RunFault.Sink (S.faults out.old) (S.faults out.new) result }
{
    let WorkersRun { reports, places } = run;
    let left = progress(alloc, options, reports.as_slice(), places.as_slice())?;
    let answer = RunAnswer {
        reports,
        stopped: false,
        left,
    };
    put_rest(alloc, options, count, deselected, &[], answer, out)
}

/// Runs the groups of these sizes on workers, and writes what they give, behind the head of a report.
fn put_crew<R: Threads + Sync, S: Sink, G: Gate + Sync>(
    rt: &R,
    alloc: Global,
    options: &Options,
    exprs: &Exprs,
    files: &Files,
    sizes: Vec<u32>,
    workers: u32,
    count: u32,
    deselected: u32,
    out: &mut S,
    gate: &G,
) -> Result<Status, RunFault>
    requires order { InOrder (paths_of files.now) }
    requires exprs { AreExprs options.now exprs.now }
    requires whole { options.now.maxfail ≡ 0 }
    requires asks { asks_for_workers options.now ≡ true }
    requires items { count + deselected ≤ most_items }
    requires few { length sizes.items ≤ most_items }
    requires some { 1 ≤ length sizes.items }
    requires workers { workers ≡ min options.now.workers (length sizes.items) }
    requires collected { (c : Collection python Suite) × Collects files.now options.now c × (sizes.items ≡ group_sizes c) }
    ensures wrote { (c : Collection python Suite) → Collects files.now options.now c → sizes.items ≡ group_sizes c → IsWhole c count deselected
        → (before : Option (List ℕ)) → Appends before (S.told out.old) (head_of count deselected 0 workers) → WroteBy (IsReportOf options.now c) before (S.told out.new) result }
    ensures said { IfOk result (λ status. IsTrue (is_said status)) }
    ensures sink { HasCause RunFault.Sink (S.faults out.old) (S.faults out.new) result }
    ensures no_tree { IfErr result (Broke ⊤) }
{
    let project = Project::new(files, options, exprs, sizes);
    match run_workers(rt, alloc, &project, workers, gate) {
        Ok(ran) => put_workers(alloc, options, count, deselected, ran, out),
        Err(OutOfMemory) => Err(RunFault::OutOfMemory),
    }
}

/// Writes the head, runs the groups of these sizes on workers, and writes what they give.
fn put_sized<R: Threads + Sync, S: Sink, G: Gate + Sync>(
    rt: &R,
    alloc: Global,
    options: &Options,
    exprs: &Exprs,
    files: &Files,
    sizes: Vec<u32>,
    count: u32,
    deselected: u32,
    out: &mut S,
    gate: &G,
) -> Result<Status, RunFault>
    requires order { InOrder (paths_of files.now) }
    requires exprs { AreExprs options.now exprs.now }
    requires whole { options.now.maxfail ≡ 0 }
    requires asks { asks_for_workers options.now ≡ true }
    requires items { count + deselected ≤ most_items }
    requires few { length sizes.items ≤ most_items }
    requires some { 1 ≤ length sizes.items }
    requires collected { (c : Collection python Suite) × Collects files.now options.now c × (sizes.items ≡ group_sizes c) }
    ensures wrote { (c : Collection python Suite) → Collects files.now options.now c → sizes.items ≡ group_sizes c → IsWhole c count deselected → WroteBy (IsReportOf options.now c) (S.told out.old) (S.told out.new) result }
    ensures said { IfOk result (λ status. IsTrue (is_said status)) }
    ensures sink { HasCause RunFault.Sink (S.faults out.old) (S.faults out.new) result }
    ensures no_tree { IfErr result (Broke ⊤) }
{
    let workers = options.workers.min(sizes.len() as u32);
    match put_head(alloc, options, count, deselected, &[], workers, out) {
        Ok(()) => put_crew(
            rt, alloc, options, exprs, files, sizes, workers, count, deselected, out, gate,
        ),
        Err(fault) => Err(fault),
    }
}

/// Writes the report of collected items, whose files workers share: each makes a world of its own. This one ends first.
pub fn put_shared<R: Threads + Sync, S: Sink, G: Gate + Sync>(
    rt: &R,
    alloc: Global,
    options: &Options,
    exprs: &Exprs,
    files: &Files,
    world: World,
    collected: Collected,
    out: &mut S,
    gate: &G,
) -> Result<Status, RunFault>
    requires within { IsWithin collected }
    requires order { InOrder (paths_of files.now) }
    requires exprs { AreExprs options.now exprs.now }
    requires whole { options.now.maxfail ≡ 0 }
    requires collects { Collects files.now options.now (collected_told collected world) }
    requires wants { wants_workers options.now collected.selected collected.errors.items ≡ true }
    ensures wrote { WroteBy (IsReportOf options.now (collected_told collected world)) (S.told out.old) (S.told out.new) result }
    ensures said { IfOk result (λ status. IsTrue (is_said status)) }
    ensures sink { HasCause RunFault.Sink (S.faults out.old) (S.faults out.new) result }
    ensures no_tree { IfErr result (Broke ⊤) }
{
    let Collected {
        found,
        places,
        selected,
        deselected,
        errors,
    } = collected;
    drop(world);
    drop(found);
    drop(errors);
    let places = places.as_slice();
    let numbers = selected.items();
    let count = numbers.len() as u32;
    match sizes_by_file(alloc, places, numbers) {
        Ok(sizes) => put_sized(
            rt, alloc, options, exprs, files, sizes, count, deselected, out, gate,
        ),
        Err(OutOfMemory) => Err(RunFault::OutOfMemory),
    }
}
