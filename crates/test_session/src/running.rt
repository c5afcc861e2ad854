// The run of what was collected.

ghost use Rattle.std.specs.Prelude.{◌≡◌, ◌<◌, ◌≤◌, ◌++◌, [], Bool, List, IfErr, IfOk, OnErr, OnOk, false, true, length, map};
ghost use Rattle.fixture_instances.specs.Resting.{AreSpent};
ghost use Rattle.report_parts.specs.declared.report.ItemReport.{ItemReport};
ghost use Rattle.run_items.specs.Runs.{BeginsPlan, RunsPlan};
ghost use Rattle.py_world.specs.Resuming.{is_out};
ghost use Rattle.run_items.specs.Stands.{IsNewStand, IsPlan, IsPlannedItem, planned};
ghost use Rattle.runtest_loop.specs.Course.{chosen_in};
ghost use Rattle.runtest_loop.specs.Fed.{AreKnown, numbers_fed, numbers_in_range, unfed};
ghost use Rattle.runtest_loop.specs.Run.{is_stopped};
ghost use Rattle.runtest_loop.specs.RunFaults.{IsBlamed};
ghost use Rattle.session_rules.specs.Frames.{SameFrames};
ghost use Rattle.share_files.specs.Work.{held_lists};
ghost use Rattle.test_session.specs.Collections.{CanRun, in_suite, number_at};
ghost use Rattle.test_session.specs.Runs.{HasDistinctItems, chosen_of, plan_of, stand_of};
ghost use Rattle.test_session.specs.Stacks.{IsSpent, NoneOut, in_world};

use crate::collected::Collected;
use crate::items::Item;
use crate::lending::{exchange, memory};
use cli_words::Options;
use py_machine::World;
use run_items::{Plan, Stand};
use runtest_loop::{Receiver, RunEnd, RunFault};
use seq::{OutOfMemory, Seq};
use session_frames::sources_keep_their_frames;
use share_files::Feed;
use std::alloc::Global;

/// The number in its suite of the item at a place.
fn number_at(items: &[Item], outer: u32, place: u32) -> u32
    ensures { result ≡ number_at outer items.now place }
{
    match items.get(place as usize) {
        Some(item) => item.at.node.saturating_sub(outer),
        None => 0,
    }
}

fn group_in_suite(
    alloc: Global,
    items: &[Item],
    outer: u32,
    group: &[u32],
) -> Result<Seq<u32>, OutOfMemory>
    ensures { IfOk result (λ numbers. numbers ≡ map (number_at outer items.now) group.now) }
{
    let mut numbers = Seq::new(alloc);
    for place in group {
        numbers.push(number_at(items, outer, *place))?;
    }
    Ok(numbers)
}

/// Groups of places of items, by the numbers that they have in their suite.
fn groups_in_suite(
    alloc: Global,
    items: &[Item],
    outer: u32,
    groups: &[Vec<u32>],
) -> Result<Vec<Seq<u32>>, OutOfMemory>
    ensures { IfOk result (λ all. all.items ≡ in_suite outer items.now (held_lists groups.now)) }
{
    let mut all = Vec::new(alloc);
    for group in groups {
        all.push(group_in_suite(alloc, items, outer, group.as_slice())?)?;
    }
    Ok(all)
}

/// Runs the items of the groups that the feed gives in a world that is lent to a stand.
fn run_in<F: Feed, P: Receiver>(
    alloc: Global,
    world: &mut World,
    stand: &mut Stand,
    plan: &Plan,
    options: &Options,
    groups: &[Seq<u32>],
    feed: &mut F,
    to: &mut P,
) -> Result<RunEnd, RunFault>
    requires plan { IsPlan plan.now }
    requires start { IsNewStand stand.old }
    requires known { AreKnown (IsPlannedItem plan.now) plan.now.run.suite.items }
    requires limit { F.limit feed.old ≤ length groups.now }
    requires in_range { numbers_in_range (length plan.now.run.suite.items) groups.now }
    requires few { unfed groups.now (F.given feed.old) ≤ 131072 }
    requires fresh { F.given feed.old ≡ [] }
    requires from { P.stems to.old true to.old }
    ensures run { IfOk result (λ end. (reports : List ItemReport) × (P.taken to.new ≡ P.taken to.old ++ reports)
        × RunsPlan plan.now options.now (chosen_in (planned plan.now) plan.now.run.suite.items (numbers_fed groups.now (F.given feed.new))) world.old reports end (in_world world.new stand.new)) }
    ensures feed { (F.origin feed.new ≡ F.origin feed.old) × (F.limit feed.new ≡ F.limit feed.old) }
    ensures whole { IfOk result (λ end. options.now.maxfail ≡ 0 → is_stopped end ≡ false) }
    ensures done { IfOk result (λ end. is_stopped end ≡ false → F.ended feed.new ≡ true) }
    ensures stems { OnOk result (P.stems to.old true to.new) }
    ensures broken { OnErr result ((whole : Bool) × P.stems to.old whole to.new) }
    ensures begun { OnErr result (BeginsPlan plan.now options.now (chosen_in (planned plan.now) plan.now.run.suite.items (numbers_fed groups.now (F.given feed.new))) world.old (P.taken to.old) (P.taken to.new)) }
    ensures blamed { IfErr result (λ fault. IsBlamed (P.faults to.old) (P.faults to.new) fault) }
    ensures spent { AreSpent stand.new.stack.stack.live.live }
{
    exchange(world, &mut stand.world);
    let end = run_items::run(alloc, stand, plan, options, groups, feed, to);
    exchange(world, &mut stand.world);
    end
}

/// Runs the items of the groups that the feed gives, in order, as far as maxfail lets them, and gives the receiver their reports. `groups`
/// has places of the collected items, each at most once. Behind the run its journal is that of the stack, and no frame is out: each fixture
/// and each wrapper of a hook that stood at its `yield` has gone on, whatever raised.
///
/// # Errors
///
/// [`RunFault::Receiver`] where the receiver failed, and want of memory. The world is spent then. No fixture stands at its `yield`
/// behind the run, whatever it gives.
pub fn run<F: Feed, P: Receiver>(
    collected: &mut Collected,
    groups: &[Vec<u32>],
    feed: &mut F,
    to: &mut P,
    options: &Options,
) -> Result<RunEnd, RunFault>
    requires runs { CanRun collected.old }
    requires limit { F.limit feed.old ≤ length groups.now }
    requires in_range { numbers_in_range (length collected.old.items.items) (held_lists groups.now) }
    requires few { unfed (held_lists groups.now) (F.given feed.old) ≤ 131072 }
    requires fresh { F.given feed.old ≡ [] }
    requires from { P.stems to.old true to.old }
    ensures run { IfOk result (λ end. (reports : List ItemReport) × (P.taken to.new ≡ P.taken to.old ++ reports)
        × RunsPlan (plan_of options.now collected.old) options.now (chosen_of options.now collected.old (held_lists groups.now) (F.given feed.new)) collected.old.world reports end (stand_of collected.new)) }
    ensures feed { (F.origin feed.new ≡ F.origin feed.old) × (F.limit feed.new ≡ F.limit feed.old) }
    ensures whole { IfOk result (λ end. options.now.maxfail ≡ 0 → is_stopped end ≡ false) }
    ensures done { IfOk result (λ end. is_stopped end ≡ false → F.ended feed.new ≡ true) }
    ensures stems { OnOk result (P.stems to.old true to.new) }
    ensures broken { OnErr result ((whole : Bool) × P.stems to.old whole to.new) }
    ensures begun { OnErr result (BeginsPlan (plan_of options.now collected.old) options.now (chosen_of options.now collected.old (held_lists groups.now) (F.given feed.new)) collected.old.world (P.taken to.old) (P.taken to.new)) }
    ensures blamed { IfErr result (λ fault. IsBlamed (P.faults to.old) (P.faults to.new) fault) }
    ensures spent { IsSpent collected.new.stack }
    ensures frames { IfOk result (λ end. HasDistinctItems options.now collected.old (held_lists groups.now) (F.given feed.new) → SameFrames is_out collected.old.world collected.new.world) }
    ensures none_out { IfOk result (λ end. HasDistinctItems options.now collected.old (held_lists groups.now) (F.given feed.new) → NoneOut collected.old.world → NoneOut collected.new.world) }
    ensures rest { OnOk result (collected.new ≡ ran_to options.now collected.new.world collected.new.stack.stand collected.old) }
{
    sources_keep_their_frames();
    let alloc = memory(&collected.stack.stand.world);
    let outer = collected.stack.plan.run.suite.outer;
    let numbers = groups_in_suite(alloc, collected.items.as_slice(), outer, groups)?;
    collected.stack.plan.run.limit = options.step_limit;
    run_in(
        alloc,
        &mut collected.world,
        &mut collected.stack.stand,
        &collected.stack.plan,
        options,
        &numbers,
        feed,
        to,
    )
}

ghost use Rattle.test_session.specs.Runs.{ran_to};
