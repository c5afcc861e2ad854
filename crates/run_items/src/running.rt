// The run of the selected items.

ghost use Rattle.std.specs.Prelude.{◌≡◌, ◌<◌, ◌≤◌, ◌++◌, [], All, Bool, List, IfErr, IfOk, OnErr, OnOk, false, length, map};
ghost use Rattle.item_stack.specs.fixture_instances.Resting.{AreSpent};
ghost use Rattle.report_parts.specs.declared.report.ItemReport.{ItemReport};
ghost use Rattle.run_items.specs.NotRun.{AreNotRun, unrun_report};
ghost use Rattle.run_items.specs.Runs.{BeginsPlan, RunsPlan};
ghost use Rattle.run_items.specs.Stands.{IsNewStand, IsPlan, IsPlannedItem, planned};
ghost use Rattle.runtest_loop.specs.Course.{chosen_in};
ghost use Rattle.runtest_loop.specs.Fed.{AreKnown, numbers_fed, numbers_in_range, unfed};
ghost use Rattle.runtest_loop.specs.Run.{is_stopped};
ghost use Rattle.runtest_loop.specs.RunFaults.{IsBlamed};
ghost use Rattle.test_suite.specs.Suites.{numbered_item};

use crate::plan::Plan;
use crate::stand::Stand;
use cli_words::Options;
use report_parts::{ItemReport, Lines, PhaseEnd, Text};
use runtest_loop::{Receiver, RunEnd, RunFault};
use seq::{OutOfMemory, Seq};
use share_files::Feed;
use std::alloc::Global;
use test_suite::Item;

/// Lets go what remains of each fixture; the world is spent.
fn give_up(stand: &mut Stand)
    ensures { AreSpent stand.new.stack.stack.live.live }
{
    stand.stack.stack.abandon_all(&mut stand.world);
}

/// Runs the items of the groups that the feed gives, in order, as far as maxfail lets them, and gives the receiver their reports: those of
/// the session of one thread over the rules of sources. `groups` has the numbers of items, each at most once.
///
/// # Errors
///
/// [`RunFault::Receiver`] where the receiver failed, and want of memory. The world is spent then. No fixture stands at its `yield`
/// behind the run, whatever it gives.
pub fn run<F: Feed, P: Receiver>(
    alloc: Global,
    stand: &mut Stand,
    plan: &Plan,
    options: &Options,
    groups: &[Seq<u32>],
    feed: &mut F,
    to: &mut P,
) -> Result<RunEnd, RunFault>
    requires plan { IsPlan plan.now }
    requires start { IsNewStand stand.old }
    requires known { AreKnown (IsPlannedItem plan.now) plan.now.run.suite.items }
    requires limit { F.limit feed.old ≤ length groups.now }
    requires in_range { numbers_in_range (length plan.now.run.suite.items) groups.now }
    requires few { unfed groups.now (F.given feed.old) ≤ 131072 }
    requires fresh { F.given feed.old ≡ [] }
    requires from { P.stems to.old true to.old }
    ensures run { IfOk result (λ end. (reports : List ItemReport) × (P.taken to.new ≡ P.taken to.old ++ reports)
        × RunsPlan plan.now options.now (chosen_in (planned plan.now) plan.now.run.suite.items (numbers_fed groups.now (F.given feed.new))) stand.old.world reports end stand.new) }
    ensures feed { (F.origin feed.new ≡ F.origin feed.old) × (F.limit feed.new ≡ F.limit feed.old) }
    ensures whole { IfOk result (λ end. options.now.maxfail ≡ 0 → is_stopped end ≡ false) }
    ensures done { IfOk result (λ end. is_stopped end ≡ false → F.ended feed.new ≡ true) }
    ensures stems { OnOk result (P.stems to.old true to.new) }
    ensures broken { OnErr result ((whole : Bool) × P.stems to.old whole to.new) }
    ensures begun { OnErr result (BeginsPlan plan.now options.now (chosen_in (planned plan.now) plan.now.run.suite.items (numbers_fed groups.now (F.given feed.new))) stand.old.world (P.taken to.old) (P.taken to.new)) }
    ensures blamed { IfErr result (λ fault. IsBlamed (P.faults to.old) (P.faults to.new) fault) }
    ensures spent { AreSpent stand.new.stack.stack.live.live }
{
    let items = plan.run.suite.items.items();
    match runtest_loop::run(alloc, stand, plan, options, items, groups, feed, to) {
        Ok(end) => Ok(end),
        Err(fault) => {
            give_up(stand);
            Err(fault)
        }
    }
}

ghost use Rattle.std.specs.Prelude.{true};

fn no_text(alloc: Global) -> Text
    ensures { result ≡ [] }
{
    Text::from_string(String::new(alloc))
}

fn item_at<'a>(items: &'a [Item], number: u32) -> &'a Item
    requires { number < length items.now }
    ensures { result.now ≡ numbered_item items.now number }
{
    &items[number as usize]
}

/// The report of an item that did not run.
fn unrun(alloc: Global, item: &Item) -> Result<ItemReport, OutOfMemory>
    ensures { IfOk result (λ r. r ≡ unrun_report item.now) }
{
    Ok(ItemReport {
        node_id: Text::from_str(alloc, item.node_id.text())?,
        title: Text::from_str(alloc, item.title.text())?,
        file: Text::from_str(alloc, item.file.text())?,
        setup: PhaseEnd::NotRun,
        call: PhaseEnd::NotRun,
        teardown: PhaseEnd::NotRun,
        shown_lines: Lines::from_vec(Vec::new(alloc)),
        captured: (no_text(alloc), no_text(alloc), no_text(alloc)),
    })
}

fn unrun_all(
    alloc: Global,
    items: &[Item],
    selected: &[u32],
) -> Result<Vec<ItemReport>, OutOfMemory>
    requires in_range { All (λ n. n < length items.now) selected.now }
    ensures { IfOk result (λ reports. reports.items ≡ map (λ n. unrun_report (numbered_item items.now n)) selected.now) }
{
    let mut reports = Vec::new(alloc);
    for number in selected {
        reports.push(unrun(alloc, item_at(items, *number))?)?;
    }
    Ok(reports)
}

/// The reports of the selected items where they do not run, as with `--collect-only`.
pub fn not_run(
    alloc: Global,
    items: &[Item],
    selected: &[u32],
) -> Result<Vec<ItemReport>, OutOfMemory>
    requires in_range { All (λ n. n < length items.now) selected.now }
    ensures { IfOk result (λ reports. AreNotRun items.now selected.now reports.items) }
{
    let reports = unrun_all(alloc, items, selected)?;
    Ok(reports)
}
