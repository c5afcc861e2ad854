// The session of one worker over what it collected.

ghost use Rattle.std.specs.Prelude.{◌≡◌, ◌≤◌, [], IfOk, OnOk, length, true};
ghost use Rattle.collect_tree.specs.Runnable.{IsRunnable};
ghost use Rattle.collect_tree.specs.Told.{IsWithin, collected_told};
ghost use Rattle.item_stack.specs.fixture_instances.Resting.{AreSpent};
ghost use Rattle.run_items.specs.Stands.{IsNewStand, IsPlan, IsPlannedItem, planned};
ghost use Rattle.run_items.specs.report_rules.Groups as grouped;
ghost use Rattle.runtest_loop.specs.Course.{chosen_in};
ghost use Rattle.runtest_loop.specs.Fed.{AreKnown, numbers_fed, numbers_in_range, unfed};
ghost use Rattle.worker_sessions.specs.Sessions.{ReportsPlanned, ReportsTaken, plan_by};

use crate::gathered::ReportList;
use cli_words::Options;
use collect_tree::{Collected, FoundSuite, RunSetting};
use report_parts::ItemReport;
use run_items::{Plan, Stand, World, run};
use seq::{OutOfMemory, Seq};
use share_files::Feed;
use std::alloc::Global;
use worker_groups::worker_groups;

/// What the run of found items depends on: their suite, its table and the limit of steps.
pub fn plan_of(options: &Options, found: FoundSuite) -> Plan
    ensures { result ≡ plan_by options.now found }
{
    let FoundSuite { suite, table } = found;
    Plan {
        run: RunSetting {
            limit: options.step_limit,
            suite,
        },
        table,
    }
}

/// Runs the groups that the feed gives in a new stand, and gathers the reports.
fn run_in<F: Feed>(
    alloc: Global,
    stand: &mut Stand,
    plan: &Plan,
    options: &Options,
    groups: &[Seq<u32>],
    feed: &mut F,
) -> Result<Vec<ItemReport>, OutOfMemory>
    requires plan { IsPlan plan.now }
    requires start { IsNewStand stand.old }
    requires known { AreKnown (IsPlannedItem plan.now) plan.now.run.suite.items }
    requires limit { F.limit feed.old ≤ length groups.now }
    requires in_range { numbers_in_range (length plan.now.run.suite.items) groups.now }
    requires few { unfed groups.now (F.given feed.old) ≤ 131072 }
    requires fresh { F.given feed.old ≡ [] }
    requires whole { options.now.maxfail ≡ 0 }
    ensures feed { (F.origin feed.new ≡ F.origin feed.old) × (F.limit feed.new ≡ F.limit feed.old) }
    ensures ended { OnOk result (F.ended feed.new ≡ true) }
    ensures reports { IfOk result (λ reports. ReportsPlanned plan.now options.now (chosen_in (planned plan.now) plan.now.run.suite.items (numbers_fed groups.now (F.given feed.new))) stand.old.world reports.items) }
    ensures spent { AreSpent stand.new.stack.stack.live.live }
{
    let mut to = ReportList {
        reports: Vec::new(alloc),
    };
    let end = run(alloc, stand, plan, options, groups, feed, &mut to);
    let ReportList { reports } = to;
    match end {
        Ok(_end) => Ok(reports),
        Err(_) => {
            drop(reports);
            Err(OutOfMemory)
        }
    }
}

/// Runs the groups that the feed gives in a stand, which ends with them.
fn run_whole<F: Feed>(
    alloc: Global,
    stand: Stand,
    plan: Plan,
    options: &Options,
    groups: &[Seq<u32>],
    feed: &mut F,
) -> Result<Vec<ItemReport>, OutOfMemory>
    requires plan { IsPlan plan }
    requires start { IsNewStand stand }
    requires known { AreKnown (IsPlannedItem plan) plan.run.suite.items }
    requires limit { F.limit feed.old ≤ length groups.now }
    requires in_range { numbers_in_range (length plan.run.suite.items) groups.now }
    requires few { unfed groups.now (F.given feed.old) ≤ 131072 }
    requires fresh { F.given feed.old ≡ [] }
    requires whole { options.now.maxfail ≡ 0 }
    ensures feed { (F.origin feed.new ≡ F.origin feed.old) × (F.limit feed.new ≡ F.limit feed.old) }
    ensures ended { OnOk result (F.ended feed.new ≡ true) }
    ensures reports { IfOk result (λ reports. ReportsPlanned plan options.now (chosen_in (planned plan) plan.run.suite.items (numbers_fed groups.now (F.given feed.new))) stand.world reports.items) }
{
    let mut stand = stand;
    let reports = run_in(alloc, &mut stand, &plan, options, groups, feed);
    stand.close();
    drop(plan);
    reports
}

/// Runs the groups that the feed gives of found items.
fn run_groups<F: Feed>(
    alloc: Global,
    options: &Options,
    world: World,
    found: FoundSuite,
    groups: &[Seq<u32>],
    feed: &mut F,
) -> Result<Vec<ItemReport>, OutOfMemory>
    requires runnable { IsRunnable found }
    requires limit { F.limit feed.old ≤ length groups.now }
    requires in_range { numbers_in_range (length found.suite.items) groups.now }
    requires few { unfed groups.now (F.given feed.old) ≤ 131072 }
    requires fresh { F.given feed.old ≡ [] }
    requires whole { options.now.maxfail ≡ 0 }
    ensures feed { (F.origin feed.new ≡ F.origin feed.old) × (F.limit feed.new ≡ F.limit feed.old) }
    ensures ended { OnOk result (F.ended feed.new ≡ true) }
    ensures reports { IfOk result (λ reports. ReportsPlanned (plan_by options.now found) options.now (chosen_in (planned (plan_by options.now found)) found.suite.items (numbers_fed groups.now (F.given feed.new))) world reports.items) }
{
    match Stand::new(alloc, world) {
        Ok(stand) => run_whole(alloc, stand, plan_of(options, found), options, groups, feed),
        Err(fault) => {
            drop(found);
            Err(fault)
        }
    }
}

/// Runs the groups that the feed gives of what was collected.
pub fn run_collected<F: Feed>(
    alloc: Global,
    options: &Options,
    world: World,
    collected: Collected,
    feed: &mut F,
) -> Result<Vec<ItemReport>, OutOfMemory>
    requires within { IsWithin collected }
    requires limit { F.limit feed.old ≡ length (grouped.groups (collected_told collected world).selected) }
    requires fresh { F.given feed.old ≡ [] }
    requires whole { options.now.maxfail ≡ 0 }
    ensures feed { (F.origin feed.new ≡ F.origin feed.old) × (F.limit feed.new ≡ F.limit feed.old) }
    ensures ended { OnOk result (F.ended feed.new ≡ true) }
    ensures reports { IfOk result (λ reports. ReportsTaken options.now (collected_told collected world) (F.given feed.new) reports.items) }
{
    let Collected {
        found,
        places,
        selected,
        deselected: _,
        errors,
    } = collected;
    drop(errors);
    let places = places.as_slice();
    let numbers = selected.items();
    match worker_groups(alloc, places, numbers) {
        Ok(groups) => run_groups(alloc, options, world, found, groups.as_slice(), feed),
        Err(fault) => {
            drop(world);
            drop(found);
            Err(fault)
        }
    }
}
