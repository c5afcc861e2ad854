ghost use Rattle.std.specs.Prelude.{◌≡◌, ◌≤◌, IfOk, ◌∷◌, []};

use crate::one_item::{NoReports, OneItem, TimedFeed};
use crate::shared::run_letters;
use cli_words::{Options, read_words};
use edge_io::{Gate, OpenGate};
use runtest_loop::run;
use seq::{OutOfMemory, Seq};
use std::alloc::{AllocError, Global};
use std::fmt::Write;
use std::rc::Rc;
use std::sync::atomic::{AtomicU64, Ordering};
use std::thread::Threads;
use worker_runs::WorkersRun;

/// A worker and a group that a gate holds, until another worker has come with another group.
#[derive(Clone, Copy)]
struct Hold {
    worker: u32,
    group: u32,
    until_worker: u32,
    until_group: u32,
}

/// A gate of four groups, where workers meet.
#[derive(Drop)]
struct Meeting {
    holds: Vec<Hold>,
    /// Behind the number of each group: one more than the worker that came with it, or 0.
    came: [AtomicU64; 4],
    /// How often a worker was held for too long.
    late: AtomicU64,
}

/// The most turns that a worker is held.
const TURNS: u32 = 200_000_000;

impl Meeting {
    fn new(holds: Vec<Hold>) -> Meeting {
        Meeting {
            holds,
            came: [
                AtomicU64::new(0),
                AtomicU64::new(0),
                AtomicU64::new(0),
                AtomicU64::new(0),
            ],
            late: AtomicU64::new(0),
        }
    }

    fn wait_for(&self, worker: u32, group: u32) {
        if let Some(word) = self.came.get(group as usize) {
            if !comes(word, worker as u64 + 1) {
                self.late.fetch_add(1, Ordering::SeqCst);
            }
        }
    }
}

/// Whether a word has this value within so many turns.
fn comes(word: &AtomicU64, value: u64) -> bool {
    let mut turns = 0;
    while turns < TURNS {
        if word.load(Ordering::SeqCst) == value {
            return true;
        }
        turns += 1;
    }
    false
}

impl Gate for Meeting {
    fn enter(&self, worker: u32, group: u32) {
        if let Some(word) = self.came.get(group as usize) {
            word.store(worker as u64 + 1, Ordering::SeqCst);
        }
        for hold in self.holds.as_slice() {
            if hold.worker == worker && hold.group == group {
                self.wait_for(hold.until_worker, hold.until_group);
            }
        }
    }
}

/// Each report in its order: the test, the worker that ran it, and what its world had printed behind its call.
fn told(alloc: Global, run: &WorkersRun) -> Result<String, AllocError> {
    let mut out = String::new(alloc);
    for (report, place) in run.reports.iter().zip(run.places.iter()) {
        let test = report.node_id.text();
        let printed = report.captured.1.text();
        write!(out, "{test} gw{} {printed}\n", place.worker)?;
    }
    Ok(out)
}

/// Whether a run told this.
fn tells(alloc: Global, run: Result<WorkersRun, OutOfMemory>, wanted: &str) -> bool {
    let Ok(run) = run else {
        return false;
    };
    match told(alloc, &run) {
        Ok(text) => text.as_str() == wanted,
        Err(_) => false,
    }
}

/// Whether two workers meet as often as they are held, and tell this.
fn meet<R: Threads + Sync>(rt: &R, alloc: Global, holds: &[Hold], wanted: &str) -> bool {
    let Ok(holds) = Vec::from_slice(alloc, holds) else {
        return false;
    };
    let gate = Meeting::new(holds);
    let run = run_letters(rt, alloc, 2, &gate);
    gate.late.load(Ordering::SeqCst) == 0 && tells(alloc, run, wanted)
}

/// Each worker has a world of its own: what its tests print is seen by its own tests alone.
#[test]
fn two_workers_run_at_the_same_time(rt: HostRuntime) {
    let holds = [
        Hold {
            worker: 1,
            group: 1,
            until_worker: 0,
            until_group: 2,
        },
        Hold {
            worker: 0,
            group: 2,
            until_worker: 1,
            until_group: 3,
        },
    ];
    let wanted = "a1 gw0 a1
a2 gw0 a1a2
b1 gw1 b1
b2 gw1 b1b2
c1 gw0 a1a2c1
c2 gw0 a1a2c1c2
d1 gw1 b1b2d1
d2 gw1 b1b2d1d2
";
    assert!(rt; meet(&rt, rt.alloc(), holds.as_slice(), wanted));
}

/// What a worker leaves another draws, and its tests run in the other's world.
#[test]
fn a_worker_draws_what_another_leaves(rt: HostRuntime) {
    let holds = [Hold {
        worker: 0,
        group: 0,
        until_worker: 1,
        until_group: 3,
    }];
    let wanted = "a1 gw0 a1
a2 gw0 a1a2
b1 gw1 b1
b2 gw1 b1b2
c1 gw1 b1b2c1
c2 gw1 b1b2c1c2
d1 gw1 b1b2c1c2d1
d2 gw1 b1b2c1c2d1d2
";
    assert!(rt; meet(&rt, rt.alloc(), holds.as_slice(), wanted));
}

/// Whether so many workers with an open gate report each test once, in the order of the groups.
fn are_all_there<R: Threads + Sync>(rt: &R, alloc: Global, workers: u32) -> bool
    requires { (1 ≤ workers) × (workers ≤ 4) }
{
    let names = ["a1", "a2", "b1", "b2", "c1", "c2", "d1", "d2"];
    match run_letters(rt, alloc, workers, &OpenGate) {
        Ok(run) => {
            let mut there = run.reports.iter().map(|report| report.node_id.text());
            let mut wanted = names.iter();
            wanted.all(|name| there.next() == Some(*name)) && there.next().is_none()
        }
        Err(_) => false,
    }
}

#[test]
fn each_test_is_reported(rt: HostRuntime) {
    for workers in 1..=4u32 {
        assert!(rt; are_all_there(&rt, rt.alloc(), workers));
    }
}

/// The groups of one item.
fn one_group(alloc: Global) -> Result<Vec<Seq<u32>>, OutOfMemory>
    ensures { IfOk result (λ groups. groups.items ≡ (0 ∷ []) ∷ []) }
{
    let mut groups = Vec::new(alloc);
    groups.push(Seq::from_slice(alloc, &[0u32])?)?;
    Ok(groups)
}

/// Whether the next group is asked for behind the call of the last item of the one before, and in front of its teardown.
fn is_drawn_in_time(alloc: Global, options: &Options) -> bool {
    let Ok(groups) = one_group(alloc) else {
        return false;
    };
    let Ok(clock) = Rc::new(alloc, AtomicU64::new(0)) else {
        return false;
    };
    let Ok(other) = clock.clone() else {
        return false;
    };
    let mut stage = OneItem::new(alloc, clock);
    let mut feed = TimedFeed::new(other);
    let end = run(
        alloc,
        &mut stage,
        &0u32,
        options,
        &[0u32],
        groups.as_slice(),
        &mut feed,
        &mut NoReports,
    );
    end.is_err() && 0 < stage.called && stage.called < feed.asked && feed.asked < stage.left
}

#[test]
fn a_group_is_drawn_before_a_teardown(rt: HostRuntime) {
    let alloc = rt.alloc();
    assert!(rt;
        match read_words(alloc, &[]) {
            Ok(options) => is_drawn_in_time(alloc, &options),
            Err(_) => false,
        }
    );
}
