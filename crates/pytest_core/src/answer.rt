// The run of words over a tree, up to its report.

ghost use Rattle.std.specs.Prelude.{◌≡◌, ◌≤◌, None, Some, true, IfErr, IfOk, IfSome, IsErrOf, IsTrue, ⊤, map, string_bytes};
ghost use Rattle.cli_words.specs.Options.{asks_for_workers};
ghost use Rattle.edge_io.specs.Causes.{HasCause};
ghost use Rattle.edge_io.specs.Files.{InOrder, paths_of, tree_limit};
ghost use Rattle.pytest_core.specs.Profile.{profile};
ghost use Rattle.selection.specs.Exprs.{refused_expression};
ghost use Rattle.pytest_core.specs.Report.{AskForRun, AreDistinct, FilesSay, IsReportOf, IsTreeReport, OfKept, OptionsSay};
ghost use Rattle.pytest_core.specs.Request.{IsInBounds};
ghost use Rattle.pytest_core.specs.Status.{is_said};
ghost use Rattle.pytest_core.specs.Streamed.{Broke, WroteBy};
ghost use Rattle.selection.specs.Exprs.{AreExprs};

use crate::collected::{fault_response, put_single};
use crate::refusal::{RunFault, refuse_tree};
use crate::request::{Request, request_of};
use crate::status::Status;
use crate::workers::put_shared;
use crate::writing::put_response;
use cli_words::Options;
use edge_io::{Files, Gate, LoadFault, Sink, Tree, load_files};
use generated_tree::generated_tree;
use selection::Exprs;
use std::alloc::Global;
use std::thread::Threads;
use worker_sessions::{Collected, World, collect, what_is_collected_fits};

/// Writes the report of what was collected, by workers or by one thread.
fn put_collected<R: Threads + Sync, S: Sink, G: Gate + Sync>(
    rt: &R,
    alloc: Global,
    options: &Options,
    exprs: &Exprs,
    files: &Files,
    world: World,
    collected: Collected,
    out: &mut S,
    gate: &G,
) -> Result<Status, RunFault>
    requires within { IsWithin collected }
    requires distinct { AreDistinct (collected_told collected world) }
    requires order { InOrder (paths_of files.now) }
    requires exprs { AreExprs options.now exprs.now }
    requires conflict { asks_for_workers options.now ≡ true → options.now.maxfail ≡ 0 }
    requires collects { Collects files.now options.now (collected_told collected world) }
    ensures wrote { WroteBy (IsReportOf options.now (collected_told collected world)) (S.told out.old) (S.told out.new) result }
    ensures said { IfOk result (λ status. IsTrue (is_said status)) }
    ensures sink { HasCause RunFault.Sink (S.faults out.old) (S.faults out.new) result }
    ensures no_tree { IfErr result (Broke ⊤) }
{
    if wants_workers(options, &collected) {
        return put_shared(
            rt, alloc, options, exprs, files, world, collected, out, gate,
        );
    }
    put_single(alloc, options, world, collected, out)
}

/// Whether workers run what was collected.
fn wants_workers(options: &Options, collected: &Collected) -> bool
    ensures { result ≡ wants_workers options.now collected.now.selected collected.now.errors.items }
{
    options.asks_for_workers()
        && (collected.errors.is_empty() && !collected.selected.items().is_empty())
}

ghost use Rattle.worker_sessions.specs.collect_tree.Told.{IsWithin, collected_told};
ghost use Rattle.pytest_core.specs.Run.{wants_workers};
ghost use Rattle.worker_sessions.specs.Project.{Collects};

/// Collects from files that pass no limit, runs, and writes the report.
fn put_files<R: Threads + Sync, S: Sink, G: Gate + Sync>(
    rt: &R,
    alloc: Global,
    options: &Options,
    exprs: &Exprs,
    files: &Files,
    out: &mut S,
    gate: &G,
) -> Result<Status, RunFault>
    requires order { InOrder (paths_of files.now) }
    requires fits { tree_limit files.now ≡ None }
    requires exprs { AreExprs options.now exprs.now }
    requires accepted { refused_expression options.now ≡ None }
    requires conflict { asks_for_workers options.now ≡ true → options.now.maxfail ≡ 0 }
    ensures wrote { WroteBy (FilesSay options.now files.now) (S.told out.old) (S.told out.new) result }
    ensures said { IfOk result (λ status. IsTrue (is_said status)) }
    ensures sink { HasCause RunFault.Sink (S.faults out.old) (S.faults out.new) result }
    ensures no_tree { IfErr result (Broke ⊤) }
{
    what_is_collected_fits();
    let mut world = World::new(alloc)?;
    match collect(alloc, &mut world, files, options, exprs) {
        Ok(collected) => put_collected(
            rt, alloc, options, exprs, files, world, collected, out, gate,
        ),
        Err(fault) => {
            drop(world);
            let response = fault_response(alloc, &fault)?;
            put_response(response, out)
        }
    }
}

/// Runs the generated files in place of a tree's. No tree is read.
fn put_generated<R: Threads + Sync, S: Sink, G: Gate + Sync>(
    rt: &R,
    alloc: Global,
    options: &Options,
    exprs: &Exprs,
    seed: u32,
    count: u32,
    out: &mut S,
    gate: &G,
) -> Result<Status, RunFault>
    requires exprs { AreExprs options.now exprs.now }
    requires accepted { refused_expression options.now ≡ None }
    requires conflict { asks_for_workers options.now ≡ true → options.now.maxfail ≡ 0 }
    requires bounds { (seed ≤ 65535) × (1 ≤ count) × (count ≤ 4000) }
    ensures wrote { WroteBy (FilesSay options.now (profile.generated seed count)) (S.told out.old) (S.told out.new) result }
    ensures said { IfOk result (λ status. IsTrue (is_said status)) }
    ensures sink { HasCause RunFault.Sink (S.faults out.old) (S.faults out.new) result }
    ensures no_tree { IfErr result (Broke ⊤) }
{
    let files = generated_tree(alloc, seed, count)?;
    put_files(rt, alloc, options, exprs, &files, out, gate)
}

/// Writes what is said of a tree that passes a limit.
fn put_limit<S: Sink>(alloc: Global, fault: LoadFault, out: &mut S) -> Result<Status, RunFault>
    ensures put { LimitPut fault (S.told out.old) (S.told out.new) result }
    ensures said { IfOk result (λ status. IsTrue (is_said status)) }
    ensures sink { HasCause RunFault.Sink (S.faults out.old) (S.faults out.new) result }
    ensures tree { IsErrOf result RunFault.Tree → fault ≡ LoadFault.Tree }
{
    match refuse_tree(alloc, &fault) {
        Ok(response) => put_response(response, out),
        Err(refused) => Err(refused),
    }
}

ghost use Rattle.pytest_core.specs.Streamed.{LimitPut};

/// Runs over the files of a tree.
fn put_tree<R: Threads + Sync, T: Tree, S: Sink, G: Gate + Sync>(
    rt: &R,
    alloc: Global,
    options: &Options,
    exprs: &Exprs,
    tree: &mut T,
    out: &mut S,
    gate: &G,
) -> Result<Status, RunFault>
    requires exprs { AreExprs options.now exprs.now }
    requires accepted { refused_expression options.now ≡ None }
    requires conflict { asks_for_workers options.now ≡ true → options.now.maxfail ≡ 0 }
    ensures wrote { IfSome (T.files tree.old) (λ fs. WroteBy (OfKept (FilesSay options.now) fs) (S.told out.old) (S.told out.new) result) }
    ensures said { IfOk result (λ status. IsTrue (is_said status)) }
    ensures untouched { IsErrOf result RunFault.Tree → S.told out.new ≡ S.told out.old }
    ensures tree { HasCause RunFault.Tree (T.faults tree.old) (T.faults tree.new) result }
    ensures sink { HasCause RunFault.Sink (S.faults out.old) (S.faults out.new) result }
{
    match load_files(alloc, tree) {
        Ok(files) => put_files(rt, alloc, options, exprs, &files, out, gate),
        Err(fault) => put_limit(alloc, fault, out),
    }
}

/// Runs by options that are not refused, over the generated files or those of a tree.
fn put_run<R: Threads + Sync, T: Tree, S: Sink, G: Gate + Sync>(
    rt: &R,
    alloc: Global,
    options: &Options,
    exprs: &Exprs,
    tree: &mut T,
    out: &mut S,
    gate: &G,
) -> Result<Status, RunFault>
    requires exprs { AreExprs options.now exprs.now }
    requires accepted { refused_expression options.now ≡ None }
    requires conflict { asks_for_workers options.now ≡ true → options.now.maxfail ≡ 0 }
    requires bounds { IsInBounds options.now.generated }
    ensures wrote { IfSome (T.files tree.old) (λ fs. WroteBy (OfKept (OptionsSay options.now) fs) (S.told out.old) (S.told out.new) result) }
    ensures said { IfOk result (λ status. IsTrue (is_said status)) }
    ensures untouched { IsErrOf result RunFault.Tree → S.told out.new ≡ S.told out.old }
    ensures tree { HasCause RunFault.Tree (T.faults tree.old) (T.faults tree.new) result }
    ensures sink { HasCause RunFault.Sink (S.faults out.old) (S.faults out.new) result }
{
    match options.generated {
        Some((seed, count)) => put_generated(rt, alloc, options, exprs, seed, count, out, gate),
        None => put_tree(rt, alloc, options, exprs, tree, out, gate),
    }
}

/// Runs what the words ask for over a tree, and writes the report.
pub fn put_answer<R: Threads + Sync, T: Tree, S: Sink, G: Gate + Sync>(
    rt: &R,
    alloc: Global,
    words: &[String],
    tree: &mut T,
    out: &mut S,
    gate: &G,
) -> Result<Status, RunFault>
    ensures report { IfSome (T.files tree.old) (λ files. WroteBy (IsTreeReport (map string_bytes words.now) files) (S.told out.old) (S.told out.new) result) }
    ensures said { IfOk result (λ status. IsTrue (is_said status)) }
    ensures untouched { IsErrOf result RunFault.Tree → S.told out.new ≡ S.told out.old }
    ensures read { IsErrOf result RunFault.Tree → AskForRun (map string_bytes words.now) }
    ensures tree { HasCause RunFault.Tree (T.faults tree.old) (T.faults tree.new) result }
    ensures sink { HasCause RunFault.Sink (S.faults out.old) (S.faults out.new) result }
{
    let request = request_of(alloc, words)?;
    match request {
        Request::Said(response) => put_response(response, out),
        Request::Run(options, exprs) => put_run(rt, alloc, &options, &exprs, tree, out, gate),
    }
}
