// The report of what was collected, without workers, and what is said where collection ended before.

ghost use Rattle.std.specs.Prelude.{◌≡◌, ◌+◌, ◌<◌, ◌≤◌, All, List, true, false, IfErr, IfOk, IsSomeAnd, IsTrue, OnOk, Err as Fails, Some, length, option_map};
ghost use Rattle.worker_sessions.specs.run_items.source_meaning.Meaning.{SourceWorld};
ghost use Rattle.edge_io.specs.Causes.{HasCause};
ghost use Rattle.edge_io.specs.Told.{Appends, AppendsPrefix};
ghost use Rattle.report_parts.specs.Limits.{most_items};
ghost use Rattle.report_parts.specs.Outcomes.{not_empty};
ghost use Rattle.report_parts.specs.declared.report.CollectReport.{CollectReport as ReportOfFile};
ghost use Rattle.report_text.specs.Head.{head_of};
ghost use Rattle.worker_sessions.specs.collect_tree.Runnable.{IsRunnable};
ghost use Rattle.worker_sessions.specs.collect_tree.Told.{IsWithin, collected_told, collection_end};
ghost use Rattle.pytest_core.specs.Report.{AreDistinct, IsReportOf, end_answer};
ghost use Rattle.pytest_core.specs.Run.{AreApart, wants_workers};
ghost use Rattle.pytest_core.specs.Status.{is_said, status_seen};
ghost use Rattle.pytest_core.specs.Streamed.{BreaksIn, Broke, ListedTo, PutBy, RanTo, WroteBy, rest_of};
ghost use Rattle.pytest_core.specs.Written.{response_of};
ghost use Rattle.worker_sessions.specs.run_items.report_rules.Answer as rules;

use crate::refusal::{Response, RunFault, refuse, refuse_word, tell_conftest};
use crate::report::{rest_bytes, status_of};
use crate::session::{RunAnswer, run_selected};
use crate::status::Status;
use crate::writing::put;
use cli_words::Options;
use edge_io::Sink;
use report_parts::CollectReport;
use report_text::{OutOfMemory, head, progress};
use seq::Seq;
use std::alloc::Global;
use worker_sessions::{CollectFault, Collected, FoundSuite, World, not_run};

/// With `--collect-only` each selected item is reported, and none runs.
fn listed(
    alloc: Global,
    options: &Options,
    found: &FoundSuite,
    selected: &[u32],
) -> Result<RunAnswer, OutOfMemory>
    requires numbers { All (λ n. n < length found.now.suite.items) selected.now }
    requires listing { options.now.collect_only ≡ true }
    ensures { IfOk result (λ answer. (errors : List ReportOfFile) (w : SourceWorld) → ListedTo options.now found.now selected.now errors w answer) }
{
    let reports = not_run(alloc, found.suite.items.items(), selected)?;
    let left = progress(alloc, options, reports.as_slice(), &[])?;
    Ok(RunAnswer {
        reports,
        stopped: false,
        left,
    })
}

/// Where a file could not be collected, no item is reported.
fn interrupted(alloc: Global, options: &Options) -> RunAnswer
    requires running { options.now.collect_only ≡ false }
    ensures { (found : Found) (numbers : List ℕ) (errors : List ReportOfFile) (w : SourceWorld) → not_empty errors ≡ true → ListedTo options.now found numbers errors w result }
{
    RunAnswer {
        reports: Vec::new(alloc),
        stopped: false,
        left: Vec::new(alloc),
    }
}

ghost use Rattle.std.specs.Prelude.{ℕ};
ghost use Rattle.worker_sessions.specs.collect_tree.collect_items.declared.found.FoundSuite.{FoundSuite as Found};

/// Whether no item runs: with `--collect-only`, and where a file could not be collected.
fn rests(options: &Options, errors: &[CollectReport]) -> bool
    ensures { result ≡ (options.now.collect_only || not_empty errors.now) }
{
    options.collect_only || !errors.is_empty()
}

/// What is reported of items that do not run.
fn unrun(
    alloc: Global,
    options: &Options,
    found: &FoundSuite,
    selected: &[u32],
    errors: &[CollectReport],
) -> Result<RunAnswer, RunFault>
    requires numbers { All (λ n. n < length found.now.suite.items) selected.now }
    requires resting { (options.now.collect_only || not_empty errors.now) ≡ true }
    ensures listed { IfOk result (λ answer. (w : SourceWorld) → ListedTo options.now found.now selected.now errors.now w answer) }
    ensures fault { IfErr result (λ fault. fault ≡ RunFault.OutOfMemory) }
{
    if options.collect_only {
        return Ok(listed(alloc, options, found, selected)?);
    }
    Ok(interrupted(alloc, options))
}

ghost use Rattle.std.specs.Prelude.{◌||◌};

/// What is reported of collected items, and whether their run stopped early. The progress is written as they end.
fn run_of<S: Sink>(
    alloc: Global,
    options: &Options,
    world: World,
    found: FoundSuite,
    selected: Seq<u32>,
    errors: &[CollectReport],
    out: &mut S,
) -> Result<RunAnswer, RunFault>
    requires runnable { IsRunnable found }
    requires numbers { All (λ n. n < length found.suite.items) selected }
    requires few { length selected ≤ most_items }
    requires apart { AreApart found selected }
    requires single { wants_workers options.now selected errors.now ≡ false }
    ensures ran { IfOk result (RanTo options.now found selected errors.now world (S.told out.old) (S.told out.new)) }
    ensures broke { IfErr result (Broke (BreaksIn options.now found selected errors.now world (S.told out.old) (S.told out.new))) }
    ensures sink { HasCause RunFault.Sink (S.faults out.old) (S.faults out.new) result }
{
    if rests(options, errors) {
        drop(world);
        let answer = unrun(alloc, options, &found, selected.items(), errors);
        drop(found);
        drop(selected);
        return answer;
    }
    run_selected(alloc, options, world, found, selected, out)
}

/// Writes the head. Without workers their number is 0.
pub fn put_head<S: Sink>(
    alloc: Global,
    options: &Options,
    count: u32,
    deselected: u32,
    errors: &[CollectReport],
    workers: u32,
    out: &mut S,
) -> Result<(), RunFault>
    requires items { count + deselected ≤ most_items }
    requires errors { length errors.now ≤ most_items }
    ensures ok { OnOk result (Appends (S.told out.old) (S.told out.new) (head_of count deselected (length errors.now) workers)) }
    ensures broke { IfErr result (Broke (AppendsPrefix (S.told out.old) (S.told out.new) (head_of count deselected (length errors.now) workers))) }
    ensures sink { HasCause RunFault.Sink (S.faults out.old) (S.faults out.new) result }
{
    let head = head(
        alloc,
        options,
        count,
        deselected,
        errors.len() as u32,
        workers,
    )?;
    put(head.as_slice(), out)
}

/// Writes what stands behind what is written of the progress.
pub fn put_rest<S: Sink>(
    alloc: Global,
    options: &Options,
    count: u32,
    deselected: u32,
    errors: &[CollectReport],
    answer: RunAnswer,
    out: &mut S,
) -> Result<Status, RunFault>
    requires items { count + deselected ≤ most_items }
    requires errors { length errors.now ≤ most_items }
    ensures put { PutBy (rest_of options.now count deselected errors.now answer.left.items answer.reports.items answer.stopped) (status_seen (rules.status_of count errors.now answer.reports.items)) (S.told out.old) (S.told out.new) result }
    ensures said { IfOk result (λ status. IsTrue (is_said status)) }
    ensures sink { HasCause RunFault.Sink (S.faults out.old) (S.faults out.new) result }
{
    let RunAnswer {
        reports,
        stopped,
        left,
    } = answer;
    let reports = reports.as_slice();
    let status = status_of(count, errors, reports);
    let bytes = rest_bytes(
        alloc, options, count, deselected, errors, left, reports, stopped,
    )?;
    put(bytes.as_slice(), out)?;
    Ok(status)
}

/// Runs collected items behind the head, and writes what is told of them.
fn put_run<S: Sink>(
    alloc: Global,
    options: &Options,
    world: World,
    found: FoundSuite,
    selected: Seq<u32>,
    deselected: u32,
    errors: &[CollectReport],
    out: &mut S,
) -> Result<Status, RunFault>
    requires runnable { IsRunnable found }
    requires numbers { All (λ n. n < length found.suite.items) selected }
    requires few { length selected + deselected ≤ most_items }
    requires errors { length errors.now ≤ most_items }
    requires apart { AreApart found selected }
    requires single { wants_workers options.now selected errors.now ≡ false }
    ensures put { PutRun options.now found selected deselected errors.now world (S.told out.old) (S.told out.new) result }
    ensures said { IfOk result (λ status. IsTrue (is_said status)) }
    ensures sink { HasCause RunFault.Sink (S.faults out.old) (S.faults out.new) result }
{
    let count = selected.items().len() as u32;
    match run_of(alloc, options, world, found, selected, errors, out) {
        Ok(answer) => put_rest(alloc, options, count, deselected, errors, answer, out),
        Err(fault) => Err(fault),
    }
}

ghost use Rattle.pytest_core.specs.Streamed.{PutRun};

/// Writes the report of collected items, which one thread runs in this world: the head, then the progress as they end, then the rest.
pub fn put_single<S: Sink>(
    alloc: Global,
    options: &Options,
    world: World,
    collected: Collected,
    out: &mut S,
) -> Result<Status, RunFault>
    requires within { IsWithin collected }
    requires distinct { AreDistinct (collected_told collected world) }
    requires single { wants_workers options.now collected.selected collected.errors.items ≡ false }
    ensures wrote { WroteBy (IsReportOf options.now (collected_told collected world)) (S.told out.old) (S.told out.new) result }
    ensures said { IfOk result (λ status. IsTrue (is_said status)) }
    ensures sink { HasCause RunFault.Sink (S.faults out.old) (S.faults out.new) result }
    ensures no_tree { IfErr result (Broke ⊤) }
{
    let Collected {
        found,
        places,
        selected,
        deselected,
        errors,
    } = collected;
    drop(places);
    let count = selected.items().len() as u32;
    let errors = errors.as_slice();
    match put_head(alloc, options, count, deselected, errors, 0, out) {
        Ok(()) => put_run(
            alloc, options, world, found, selected, deselected, errors, out,
        ),
        Err(fault) => {
            drop(world);
            drop(found);
            drop(selected);
            Err(fault)
        }
    }
}

ghost use Rattle.std.specs.Prelude.{⊤};

/// What is said where nothing was collected.
pub fn fault_response(alloc: Global, fault: &CollectFault) -> Result<Response, OutOfMemory>
    ensures response { IfOk result (λ r. (w : SourceWorld) → IsSomeAnd (collection_end (Fails fault.now) w) (λ end. option_map response_of (end_answer end) ≡ Some (r.0.items, r.1))) }
    ensures said { IfOk result (λ r. IsTrue (is_said r.1)) }
{
    match fault {
        CollectFault::NotFound(name) => refuse_word(alloc, name.text()),
        CollectFault::TooManyItems => refuse(alloc, "too many items"),
        CollectFault::Conftest(path, told) => tell_conftest(alloc, path.text(), told),
        CollectFault::OutOfMemory => Err(OutOfMemory),
    }
}
