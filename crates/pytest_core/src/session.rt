// The run of the selected items, on one thread.

ghost use Rattle.std.specs.Prelude.{◌≡◌, ◌<◌, ◌≤◌, [], ◌∷◌, All, List, IfErr, IfOk, false, length};
ghost use Rattle.worker_sessions.specs.collect_tree.Runnable.{IsRunnable};
ghost use Rattle.edge_io.specs.Causes.{HasCause};
ghost use Rattle.pytest_core.specs.Run.{AreApart, IsOneGroup, wants_workers};
ghost use Rattle.worker_sessions.specs.Sessions.{plan_by};
ghost use Rattle.pytest_core.specs.Streamed.{BreaksFirst, BreaksIn, Broke, RanTo, StreamsFirst};
ghost use Rattle.report_parts.specs.Limits.{most_items};
ghost use Rattle.report_parts.specs.Outcomes.{not_empty};
ghost use Rattle.report_parts.specs.declared.report.CollectReport.{CollectReport};

use crate::one_group::OneGroup;
use crate::refusal::RunFault;
use crate::writer::{ReportWriter, let_go};
use cli_words::Options;
use edge_io::Sink;
use report_parts::ItemReport;
use report_pieces::end;
use report_text::OutOfMemory;
use runtest_loop::RunEnd;
use seq::Seq;
use std::alloc::Global;
use worker_sessions::{FoundSuite, Plan, Stand, World, plan_of, run};

/// The items that ran: their reports, in order, and whether `--maxfail` was reached.
#[derive(Drop)]
pub struct RanItems {
    pub reports: Vec<ItemReport>,
    pub stopped: bool,
}

/// What a run gave: the reports, whether `--maxfail` was reached, and what is left to write of the progress.
#[derive(Drop)]
pub struct RunAnswer {
    pub reports: Vec<ItemReport>,
    pub stopped: bool,
    pub left: Vec<u8>,
}

ghost use Rattle.worker_sessions.specs.run_items.Stands.{IsNewStand, IsPlan, IsPlannedItem};
ghost use Rattle.runtest_loop.specs.Fed.{AreKnown, numbers_at, numbers_in_range};
ghost use Rattle.item_stack.specs.fixture_instances.Resting.{AreSpent};

/// Whether a run reached maxfail.
fn has_stopped(end: RunEnd) -> bool
    ensures { result ≡ is_stopped end }
{
    match end {
        RunEnd::Done => false,
        RunEnd::Stopped => true,
    }
}

ghost use Rattle.runtest_loop.specs.Run.{is_stopped};

/// What stands behind the pieces of all reports.
fn left_behind(
    alloc: Global,
    options: &Options,
    reports: &[ItemReport],
) -> Result<Vec<u8>, OutOfMemory>
    requires running { options.now.collect_only ≡ false }
    ensures { IfOk result (λ left. left.items ≡ pieces_end options.now (pieces_of options.now [] reports.now)) }
{
    let left = String::from_str(alloc, end(alloc, options, reports)?)?;
    Ok(left.into_bytes())
}

ghost use Rattle.report_pieces.specs.Pieces.{pieces_end, pieces_of};

/// A fault of a run, where the receiver's is the sink's.
fn fault_of(fault: runtest_loop::RunFault) -> RunFault
    ensures { result ≡ fault_seen fault }
{
    match fault {
        runtest_loop::RunFault::Receiver => RunFault::Sink,
        runtest_loop::RunFault::OutOfMemory => RunFault::OutOfMemory,
    }
}

ghost use Rattle.pytest_core.specs.Streamed.{fault_seen};

/// Runs the items of the one group in a new stand, and writes the progress as they end.
fn run_in<S: Sink>(
    alloc: Global,
    stand: &mut Stand,
    plan: &Plan,
    options: &Options,
    groups: &[Seq<u32>],
    out: &mut S,
) -> Result<RanItems, RunFault>
    requires plan { IsPlan plan.now }
    requires empty { IsNewStand stand.old }
    requires known { AreKnown (IsPlannedItem plan.now) plan.now.run.suite.items }
    requires in_range { numbers_in_range (length plan.now.run.suite.items) groups.now }
    requires one { IsOneGroup groups.now }
    requires few { length (numbers_at groups.now 0) ≤ most_items }
    ensures ran { IfOk result (StreamsFirst plan.now options.now groups.now stand.old.world (S.told out.old) (S.told out.new)) }
    ensures broke { IfErr result (Broke (BreaksFirst plan.now options.now groups.now stand.old.world (S.told out.old) (S.told out.new))) }
    ensures sink { HasCause RunFault.Sink (S.faults out.old) (S.faults out.new) result }
    ensures spent { AreSpent stand.new.stack.stack.live.live }
{
    let mut feed = OneGroup::Waiting;
    let mut to = ReportWriter {
        alloc,
        options,
        out,
        reports: Vec::new(alloc),
        failed: false,
    };
    let end = run(alloc, stand, plan, options, groups, &mut feed, &mut to);
    let ReportWriter {
        alloc: _,
        options: _,
        out: written,
        reports,
        failed: _,
    } = to;
    let_go(written);
    match end {
        Ok(end) => Ok(RanItems {
            reports,
            stopped: has_stopped(end),
        }),
        Err(fault) => {
            drop(reports);
            Err(fault_of(fault))
        }
    }
}

/// Runs the items of the one group in a stand, which ends with them.
fn run_whole<S: Sink>(
    alloc: Global,
    stand: Stand,
    plan: Plan,
    options: &Options,
    groups: &[Seq<u32>],
    out: &mut S,
) -> Result<RanItems, RunFault>
    requires plan { IsPlan plan }
    requires empty { IsNewStand stand }
    requires known { AreKnown (IsPlannedItem plan) plan.run.suite.items }
    requires in_range { numbers_in_range (length plan.run.suite.items) groups.now }
    requires one { IsOneGroup groups.now }
    requires few { length (numbers_at groups.now 0) ≤ most_items }
    ensures ran { IfOk result (StreamsFirst plan options.now groups.now stand.world (S.told out.old) (S.told out.new)) }
    ensures broke { IfErr result (Broke (BreaksFirst plan options.now groups.now stand.world (S.told out.old) (S.told out.new))) }
    ensures sink { HasCause RunFault.Sink (S.faults out.old) (S.faults out.new) result }
{
    let mut stand = stand;
    let ran = run_in(alloc, &mut stand, &plan, options, groups, out);
    stand.close();
    drop(plan);
    ran
}

/// Runs the items of the one group of found items.
fn run_group<S: Sink>(
    alloc: Global,
    options: &Options,
    world: World,
    found: FoundSuite,
    groups: &[Seq<u32>],
    out: &mut S,
) -> Result<RanItems, RunFault>
    requires runnable { IsRunnable found }
    requires in_range { numbers_in_range (length found.suite.items) groups.now }
    requires one { IsOneGroup groups.now }
    requires few { length (numbers_at groups.now 0) ≤ most_items }
    ensures ran { IfOk result (StreamsFirst (plan_by options.now found) options.now groups.now world (S.told out.old) (S.told out.new)) }
    ensures broke { IfErr result (Broke (BreaksFirst (plan_by options.now found) options.now groups.now world (S.told out.old) (S.told out.new))) }
    ensures sink { HasCause RunFault.Sink (S.faults out.old) (S.faults out.new) result }
{
    match Stand::new(alloc, world) {
        Ok(stand) => run_whole(alloc, stand, plan_of(options, found), options, groups, out),
        Err(OutOfMemory) => {
            drop(found);
            Err(RunFault::OutOfMemory)
        }
    }
}

/// The groups of a run on one thread: one, of all items.
fn one_group(alloc: Global, selected: Seq<u32>) -> Result<Vec<Seq<u32>>, OutOfMemory>
    ensures { IfOk result (λ groups. groups.items ≡ selected ∷ []) }
{
    let mut groups = Vec::new(alloc);
    groups.push(selected)?;
    Ok(groups)
}

/// The selected items run, and the progress is written as they end.
fn run_streamed<S: Sink>(
    alloc: Global,
    options: &Options,
    world: World,
    found: FoundSuite,
    selected: Seq<u32>,
    out: &mut S,
) -> Result<RanItems, RunFault>
    requires runnable { IsRunnable found }
    requires numbers { All (λ n. n < length found.suite.items) selected }
    requires few { length selected ≤ most_items }
    requires apart { AreApart found selected }
    requires single { wants_workers options.now selected [] ≡ false }
    requires running { options.now.collect_only ≡ false }
    ensures ran { IfOk result (λ ran. (errors : List CollectReport) → not_empty errors ≡ false → StreamedAll options.now found selected errors world (S.told out.old) (S.told out.new) ran) }
    ensures broke { IfErr result (Broke ((errors : List CollectReport) → not_empty errors ≡ false → BreaksIn options.now found selected errors world (S.told out.old) (S.told out.new))) }
    ensures sink { HasCause RunFault.Sink (S.faults out.old) (S.faults out.new) result }
{
    match one_group(alloc, selected) {
        Ok(groups) => run_group(alloc, options, world, found, groups.as_slice(), out),
        Err(OutOfMemory) => {
            drop(world);
            drop(found);
            Err(RunFault::OutOfMemory)
        }
    }
}

ghost use Rattle.pytest_core.specs.Streamed.{StreamedAll};

/// The selected items run.
pub fn run_selected<S: Sink>(
    alloc: Global,
    options: &Options,
    world: World,
    found: FoundSuite,
    selected: Seq<u32>,
    out: &mut S,
) -> Result<RunAnswer, RunFault>
    requires runnable { IsRunnable found }
    requires numbers { All (λ n. n < length found.suite.items) selected }
    requires few { length selected ≤ most_items }
    requires apart { AreApart found selected }
    requires single { wants_workers options.now selected [] ≡ false }
    requires running { options.now.collect_only ≡ false }
    ensures ran { IfOk result (λ answer. (errors : List CollectReport) → not_empty errors ≡ false → RanTo options.now found selected errors world (S.told out.old) (S.told out.new) answer) }
    ensures broke { IfErr result (Broke ((errors : List CollectReport) → not_empty errors ≡ false → BreaksIn options.now found selected errors world (S.told out.old) (S.told out.new))) }
    ensures sink { HasCause RunFault.Sink (S.faults out.old) (S.faults out.new) result }
{
    let ran = run_streamed(alloc, options, world, found, selected, out)?;
    let RanItems { reports, stopped } = ran;
    match left_behind(alloc, options, reports.as_slice()) {
        Ok(left) => Ok(RunAnswer {
            reports,
            stopped,
            left,
        }),
        Err(OutOfMemory) => {
            drop(reports);
            Err(RunFault::OutOfMemory)
        }
    }
}
