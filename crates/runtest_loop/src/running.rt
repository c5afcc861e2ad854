// The run of the items that a feed gives.

ghost use Rattle.std.specs.Prelude.{◌≡◌, ℕ, ◌<◌, ◌≤◌, ◌+◌, ◌++◌, [], Bool, List, IfErr, IfOk, OnErr, OnOk, length, option_copied, option_to_list, false, true};
ghost use Rattle.runtest_reports.specs.fixture_sessions.FixtureSession as loop;
ghost use Rattle.runtest_loop.specs.Course.{IsToldItem, chosen_in, reports_left, run_left};
ghost use Rattle.runtest_loop.specs.Fed.{AreKnown, IsNumbered, numbers_fed, numbers_in_range, unfed};
ghost use Rattle.runtest_loop.specs.Item.{IsCalledItem};
ghost use Rattle.runtest_loop.specs.Received.{AreFirst};
ghost use Rattle.runtest_loop.specs.Run.{Begins, Runs, is_stopped};
ghost use Rattle.report_parts.specs.declared.report.ItemReport.{ItemReport};
ghost use Rattle.runtest_loop.specs.RunFaults.{IsBlamed};
ghost use Rattle.runtest_reports.specs.report_rules.Collected.{report_language};
ghost use Rattle.runtest_reports.specs.Stages.{IsKnownItem, session_item};
ghost use Rattle.session_rules.specs.Session.{reaches, initial_state};
ghost use Rattle.session_rules.specs.Teardown.{SessionState};
ghost use Rattle.share_files.specs.Deal.{Every};

use crate::fed::{next_number, value_at};
use crate::item::{CalledItem, behind_call, call_item, reaches};
use crate::receiver::Receiver;
use crate::run_end::{RunEnd, RunFault};
use cli_words::Options;
use report_parts::ItemReport;
use runtest_reports::{FixtureLines, Stage, report_of};
use seq::{OutOfMemory, Seq};
use share_files::Feed;
use std::alloc::Global;

/// An item that ran: its report, and the failures and errors so far.
#[derive(Drop)]
struct CountedReport {
    report: ItemReport,
    bad: u32,
}

/// Tears an item down whose call has ended, behind which this one comes, and reports it.
fn tell_item<S: Stage>(
    alloc: Global,
    stage: &mut S,
    setting: &S::Setting,
    options: &Options,
    arrived: &mut Seq<FixtureLines>,
    item: &S::Item,
    next: Option<&S::Item>,
    called: CalledItem,
) -> Result<CountedReport, OutOfMemory>
    requires here { S.stands setting.now stage.old }
    requires known { S.known setting.now item.now }
    requires next { IsKnownItem (S.known setting.now) (option_copied next) }
    requires few { called.bad ≤ 400002 }
    ensures told { IfOk result (λ t. (bad : ℕ) (before : SessionState (report_language S.World S.Value S.Thrown S.Rest)) → IsCalledItem (S.rules setting.now) (S.fixture setting.now) options.now.setup_show (S.selected setting.now item.now) bad before called (S.state stage.old)
        → IsToldItem (S.rules setting.now) (S.fixture setting.now) options.now (S.selected setting.now item.now) (loop.fixture_item (S.rules setting.now) options.now.maxfail (S.selected setting.now item.now).item (session_item (S.selected setting.now) (option_copied next.entry)) bad before) arrived.old t.report arrived.new t.bad (S.state stage.new)) }
    ensures more { IfOk result (λ t. t.bad ≤ called.bad + 1) }
    ensures here { OnOk result (S.stands setting.now stage.new) }
{
    let CalledItem { set_up, call, bad } = called;
    let kept = behind_call(
        alloc,
        stage,
        setting,
        options.setup_show,
        options.maxfail,
        item,
        next,
        set_up,
        call,
        bad,
    )?;
    let bad = kept.bad;
    let report = report_of::<S>(alloc, setting, options.setup_show, arrived, item, kept)?;
    Ok(CountedReport { report, bad })
}

/// The item with a number, where there is one.
fn item_if<'a, I>(items: &'a [I], number: Option<u32>) -> Option<&'a I>
    requires { Every (λ n. n < length items.now) (option_to_list number) }
    ensures { IsNumbered items.now number (option_copied result) }
{
    match number {
        Some(number) => Some(value_at(items, number)),
        None => None,
    }
}

/// Runs the items of the groups that the feed gives, as far as maxfail lets them.
fn run_all<S: Stage, F: Feed, P: Receiver>(
    alloc: Global,
    stage: &mut S,
    setting: &S::Setting,
    options: &Options,
    items: &[S::Item],
    groups: &[Seq<u32>],
    feed: &mut F,
    to: &mut P,
) -> Result<RunEnd, RunFault>
    requires here { S.stands setting.now stage.old }
    requires known { AreKnown (S.known setting.now) items.now }
    requires limit { F.limit feed.old ≤ length groups.now }
    requires in_range { numbers_in_range (length items.now) groups.now }
    requires few { unfed groups.now (F.given feed.old) ≤ 131072 }
    requires fresh { F.given feed.old ≡ [] }
    requires from { P.stems to.old true to.old }
    ensures reports { IfOk result (λ end. P.taken to.new ≡ P.taken to.old ++ reports_left (S.rules setting.now) (S.fixture setting.now) options.now [] (chosen_in (S.selected setting.now) items.now (numbers_fed groups.now (F.given feed.new))) 0 (S.state stage.old)) }
    ensures state { IfOk result (λ end. S.state stage.new ≡ (run_left (S.rules setting.now) (S.fixture setting.now) options.now (chosen_in (S.selected setting.now) items.now (numbers_fed groups.now (F.given feed.new))) 0 (S.state stage.old)).state) }
    ensures stopped { IfOk result (λ end. is_stopped end ≡ reaches options.now.maxfail (run_left (S.rules setting.now) (S.fixture setting.now) options.now (chosen_in (S.selected setting.now) items.now (numbers_fed groups.now (F.given feed.new))) 0 (S.state stage.old)).bad) }
    ensures feed { (F.origin feed.new ≡ F.origin feed.old) × (F.limit feed.new ≡ F.limit feed.old) }
    ensures done { IfOk result (λ end. is_stopped end ≡ false → F.ended feed.new ≡ true) }
    ensures stems { OnOk result (P.stems to.old true to.new) }
    ensures broken { OnErr result ((whole : Bool) × P.stems to.old whole to.new) }
    ensures begun { OnErr result (AreFirst (P.taken to.old ++ reports_left (S.rules setting.now) (S.fixture setting.now) options.now [] (chosen_in (S.selected setting.now) items.now (numbers_fed groups.now (F.given feed.new))) 0 (S.state stage.old)) (P.taken to.new)) }
    ensures blamed { IfErr result (λ fault. IsBlamed (P.faults to.old) (P.faults to.new) fault) }
    ensures here { OnOk result (S.stands setting.now stage.new) }
{
    let mut arrived = Seq::new(alloc);
    let mut bad = 0u32;
    let (first, others) = next_number(groups, feed, &[], items.len());
    let mut current = first;
    let mut rest = others;
    'items: while let Some(number) = current {
        let item = value_at(items, number);
        let called = call_item(alloc, stage, setting, options.setup_show, item, bad)?;
        let (next, behind) = next_number(groups, feed, rest, items.len());
        let told = tell_item(
            alloc,
            stage,
            setting,
            options,
            &mut arrived,
            item,
            item_if(items, next),
            called,
        )?;
        let more = told.bad;
        to.report(told.report)?;
        if reaches(options.maxfail, more) {
            return Ok(RunEnd::Stopped);
        }
        bad = more;
        current = next;
        rest = behind;
    }
    Ok(RunEnd::Done)
}

/// Runs the items of the groups that the feed gives, in order, as far as maxfail lets them, and gives the receiver their reports: those of
/// the session of one thread. `groups` has the numbers of items, each at most once.
///
/// # Errors
///
/// [`RunFault::Receiver`] where the receiver failed, and want of memory. What is behind them is spent.
#[tactic(auto, using(crate::proofs::Given::is_run))]
pub fn run<S: Stage, F: Feed, P: Receiver>(
    alloc: Global,
    stage: &mut S,
    setting: &S::Setting,
    options: &Options,
    items: &[S::Item],
    groups: &[Seq<u32>],
    feed: &mut F,
    to: &mut P,
) -> Result<RunEnd, RunFault>
    requires here { S.stands setting.now stage.old }
    requires start { S.state stage.old ≡ initial_state (S.state stage.old).world }
    requires known { AreKnown (S.known setting.now) items.now }
    requires limit { F.limit feed.old ≤ length groups.now }
    requires in_range { numbers_in_range (length items.now) groups.now }
    requires few { unfed groups.now (F.given feed.old) ≤ 131072 }
    requires fresh { F.given feed.old ≡ [] }
    requires from { P.stems to.old true to.old }
    ensures run { IfOk result (λ end. (reports : List ItemReport) × (P.taken to.new ≡ P.taken to.old ++ reports)
        × Runs (S.rules setting.now) (S.fixture setting.now) options.now (chosen_in (S.selected setting.now) items.now (numbers_fed groups.now (F.given feed.new))) (S.state stage.old).world reports end (S.state stage.new)) }
    ensures feed { (F.origin feed.new ≡ F.origin feed.old) × (F.limit feed.new ≡ F.limit feed.old) }
    ensures whole { IfOk result (λ end. options.now.maxfail ≡ 0 → is_stopped end ≡ false) }
    ensures done { IfOk result (λ end. is_stopped end ≡ false → F.ended feed.new ≡ true) }
    ensures stems { OnOk result (P.stems to.old true to.new) }
    ensures broken { OnErr result ((whole : Bool) × P.stems to.old whole to.new) }
    ensures begun { OnErr result (Begins (S.rules setting.now) (S.fixture setting.now) options.now (chosen_in (S.selected setting.now) items.now (numbers_fed groups.now (F.given feed.new))) (S.state stage.old).world (P.taken to.old) (P.taken to.new)) }
    ensures blamed { IfErr result (λ fault. IsBlamed (P.faults to.old) (P.faults to.new) fault) }
    ensures empty { OnOk result ((S.state stage.new).live ≡ []) }
    ensures here { OnOk result (S.stands setting.now stage.new) }
{
    let end = run_all(alloc, stage, setting, options, items, groups, feed, to)?;
    Ok(end)
}
