// A session of words over files, up to its journal.

ghost use Rattle.std.specs.Prelude.{◌≡◌, ◌<◌, ◌≤◌, [], ◌∷◌, All, IfOk, length};
ghost use Rattle.collect_tree.specs.Runnable.{IsRunnable};
ghost use Rattle.collect_tree.specs.Told.{IsWithin};
ghost use Rattle.edge_io.specs.Files.{InOrder, paths_of};
ghost use Rattle.item_stack.specs.fixture_instances.Resting.{AreSpent};
ghost use Rattle.journal_tests.specs.Plans.{IsOnlyGroup, plan_found};
ghost use Rattle.report_parts.specs.Limits.{most_items};
ghost use Rattle.run_items.specs.Stands.{IsNewStand, IsPlan, IsPlannedItem};
ghost use Rattle.runtest_loop.specs.Fed.{AreKnown, numbers_at, numbers_in_range};
ghost use Rattle.selection.specs.Exprs.{AreExprs};

use crate::one_group::OneGroup;
use crate::reading::told;
use crate::reports::KeptReports;
use cli_words::{Options, read_words};
use collect_tree::{Collected, FoundSuite, RunSetting, collect};
use edge_io::{Files, SureTree, load_files};
use run_items::{Plan, Stand, World, run};
use selection::{Exprs, read_exprs};
use seq::{OutOfMemory, Seq};
use std::alloc::{AllocError, Global};

/// What the journal of a session in a stand tells.
fn told_in(
    alloc: Global,
    stand: &mut Stand,
    plan: &Plan,
    options: &Options,
    groups: &[Seq<u32>],
) -> Result<String, OutOfMemory>
    requires plan { IsPlan plan.now }
    requires empty { IsNewStand stand.old }
    requires known { AreKnown (IsPlannedItem plan.now) plan.now.run.suite.items }
    requires in_range { numbers_in_range (length plan.now.run.suite.items) groups.now }
    requires one { IsOnlyGroup groups.now }
    requires few { length (numbers_at groups.now 0) ≤ most_items }
    ensures spent { AreSpent stand.new.stack.stack.live.live }
{
    let mut feed = OneGroup::Waiting;
    let mut to = KeptReports {
        reports: Vec::new(alloc),
    };
    let end = run(alloc, stand, plan, options, groups, &mut feed, &mut to);
    drop(to);
    match end {
        Ok(_) => told(alloc, stand.stack.stack.events.items()),
        Err(_) => Err(OutOfMemory),
    }
}

/// What the journal of a session in a stand tells, which ends with it.
fn told_whole(
    alloc: Global,
    stand: Stand,
    plan: Plan,
    options: &Options,
    groups: &[Seq<u32>],
) -> Result<String, OutOfMemory>
    requires plan { IsPlan plan }
    requires empty { IsNewStand stand }
    requires known { AreKnown (IsPlannedItem plan) plan.run.suite.items }
    requires in_range { numbers_in_range (length plan.run.suite.items) groups.now }
    requires one { IsOnlyGroup groups.now }
    requires few { length (numbers_at groups.now 0) ≤ most_items }
{
    let mut stand = stand;
    let text = told_in(alloc, &mut stand, &plan, options, groups);
    stand.close();
    drop(plan);
    text
}

/// What the run of found items depends on.
fn plan_of(options: &Options, found: FoundSuite) -> Plan
    ensures { result ≡ plan_found options.now found }
{
    let FoundSuite { suite, table } = found;
    Plan {
        run: RunSetting {
            limit: options.step_limit,
            suite,
        },
        table,
    }
}

/// What the journal of found items tells.
fn told_of_group(
    alloc: Global,
    options: &Options,
    world: World,
    found: FoundSuite,
    groups: &[Seq<u32>],
) -> Result<String, OutOfMemory>
    requires runnable { IsRunnable found }
    requires in_range { numbers_in_range (length found.suite.items) groups.now }
    requires one { IsOnlyGroup groups.now }
    requires few { length (numbers_at groups.now 0) ≤ most_items }
{
    match Stand::new(alloc, world) {
        Ok(stand) => told_whole(alloc, stand, plan_of(options, found), options, groups),
        Err(fault) => {
            drop(found);
            Err(fault)
        }
    }
}

/// One group of these items.
fn one_group(alloc: Global, selected: Seq<u32>) -> Result<Vec<Seq<u32>>, OutOfMemory>
    ensures { IfOk result (λ groups. groups.items ≡ selected ∷ []) }
{
    let mut groups = Vec::new(alloc);
    groups.push(selected)?;
    Ok(groups)
}

/// What the journal of selected items tells.
fn told_of_items(
    alloc: Global,
    options: &Options,
    world: World,
    found: FoundSuite,
    selected: Seq<u32>,
) -> Result<String, OutOfMemory>
    requires runnable { IsRunnable found }
    requires numbers { All (λ n. n < length found.suite.items) selected }
    requires few { length selected ≤ most_items }
{
    match one_group(alloc, selected) {
        Ok(groups) => told_of_group(alloc, options, world, found, groups.as_slice()),
        Err(fault) => {
            drop(world);
            drop(found);
            Err(fault)
        }
    }
}

/// What is told where nothing runs.
fn no_journal(alloc: Global) -> Result<String, OutOfMemory> {
    Ok(String::from_str(alloc, "no journal\n")?)
}

/// What the journal of collected items tells.
fn told_of_collected(
    alloc: Global,
    options: &Options,
    world: World,
    collected: Collected,
) -> Result<String, OutOfMemory>
    requires within { IsWithin collected }
{
    let Collected {
        found,
        places,
        selected,
        deselected: _,
        errors,
    } = collected;
    drop(places);
    let runs = errors.is_empty();
    drop(errors);
    if runs {
        return told_of_items(alloc, options, world, found, selected);
    }
    drop(world);
    drop(found);
    drop(selected);
    no_journal(alloc)
}

/// What the journal of files tells.
fn told_of_files(
    alloc: Global,
    options: &Options,
    exprs: &Exprs,
    files: &Files,
) -> Result<String, OutOfMemory>
    requires order { InOrder (paths_of files.now) }
    requires exprs { AreExprs options.now exprs.now }
{
    let mut world = World::new(alloc)?;
    match collect(alloc, &mut world, files, options, exprs) {
        Ok(collected) => told_of_collected(alloc, options, world, collected),
        Err(fault) => {
            drop(world);
            drop(fault);
            no_journal(alloc)
        }
    }
}

/// What the journal of files tells by options with these expressions.
fn told_of_tree(
    alloc: Global,
    options: &Options,
    exprs: &Exprs,
    files: Vec<(String, Vec<u8>)>,
) -> Result<String, OutOfMemory>
    requires exprs { AreExprs options.now exprs.now }
{
    let mut tree = SureTree::new(alloc, files);
    match load_files(alloc, &mut tree) {
        Ok(files) => told_of_files(alloc, options, exprs, &files),
        Err(fault) => {
            drop(fault);
            no_journal(alloc)
        }
    }
}

/// What the journal of files tells by options.
fn told_by(
    alloc: Global,
    options: &Options,
    files: Vec<(String, Vec<u8>)>,
) -> Result<String, OutOfMemory> {
    match read_exprs(alloc, options) {
        Ok(exprs) => told_of_tree(alloc, options, &exprs, files),
        Err(fault) => {
            drop(fault);
            no_journal(alloc)
        }
    }
}

/// Runs words over files on one thread, whether they ask for workers or not, and says how many fixtures came up and how many failed to:
/// `3 up, 1 failed` with a line end behind it. It says `not lawful` where the journal isn't, and `no journal` where nothing runs.
pub fn journal_of(
    alloc: Global,
    words: &[String],
    files: Vec<(String, Vec<u8>)>,
) -> Result<String, AllocError> {
    let text = match read_words(alloc, words) {
        Ok(options) => told_by(alloc, &options, files),
        Err(fault) => {
            drop(fault);
            no_journal(alloc)
        }
    };
    match text {
        Ok(text) => Ok(text),
        Err(OutOfMemory) => Err(AllocError),
    }
}
