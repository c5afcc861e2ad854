ghost use Rattle.std.specs.Prelude.{◌≡◌, true, [], ◌++◌, ◌≤◌, length, All, IfOk, OnOk};

use edge_io::{Gate, OpenGate};
use seq::OutOfMemory;
use share_files::{DrawFeed, Draws, Feed, Worker, run_shares};
use std::alloc::Global;
use std::sync::atomic::{AtomicU64, Ordering};
use std::thread::Threads;

/// It logs its groups, and how many its feed has then given.
#[derive(Drop)]
struct Logger {
    groups: u32,
    log: Vec<u32>,
    given: usize,
}

/// Appends what any feed gives, until it answers `None`.
#[tactic(auto, using(share_files::proofs::Left::left_falls))]
fn log_all<F: Feed>(log: &mut Vec<u32>, feed: &mut F) -> Result<(), OutOfMemory>
    requires { F.given feed.old ≡ [] }
    ensures same { (F.origin feed.new ≡ F.origin feed.old) × (F.limit feed.new ≡ F.limit feed.old) }
    ensures log { OnOk result ((F.ended feed.new ≡ true) × (log.new.items ≡ log.old.items ++ F.given feed.new)) }
{
    while let Some(group) = feed.next() {
        log.push(group)?;
    }
    Ok(())
}

impl Worker for Logger {
    ghost use Rattle.std.specs.Prelude.{◌≡◌, ◌++◌};

    ghost groups = { λ w. w.groups };

    ghost works = { λ w given v. v.log.items ≡ w.log.items ++ given };

    fn work<G: Gate>(&mut self, feed: &mut DrawFeed<'_, G>) -> Result<(), OutOfMemory> {
        log_all(&mut self.log, feed)?;
        self.given = feed.taken().len();
        Ok(())
    }
}

fn loggers(alloc: Global, workers: u32, groups: u32) -> Result<Vec<Logger>, OutOfMemory>
    ensures { IfOk result (λ all. (length all.items ≡ workers) × All (λ w. w.groups ≡ groups) all.items) }
{
    let mut all = Vec::new(alloc);
    for _ in 0..workers {
        all.push(Logger {
            groups,
            log: Vec::new(alloc),
            given: 0,
        })?;
    }
    Ok(all)
}

/// Whether each list begins with its worker's number and rises, and all of them together are the numbers below `groups`.
fn is_share(alloc: Global, groups: u32, lists: &[Vec<u32>]) -> Result<bool, OutOfMemory> {
    let mut all = Vec::new(alloc);
    for (worker, list) in lists.iter().enumerate() {
        let mut before: Option<u32> = None;
        for group in list.as_slice() {
            match before {
                None if *group as usize != worker => return Ok(false),
                Some(last) if last >= *group => return Ok(false),
                _ => {}
            }
            before = Some(*group);
            all.push(*group)?;
        }
        if before.is_none() {
            return Ok(false);
        }
    }
    all.sort()?;
    let mut wanted = Vec::new(alloc);
    for group in 0..groups {
        wanted.push(group)?;
    }
    Ok(all == wanted)
}

/// Whether each worker has logged its list, and counted it.
fn are_logged(loggers: &[Logger], lists: &[Vec<u32>]) -> bool {
    for (logger, list) in loggers.iter().zip(lists.iter()) {
        if &logger.log != list || logger.given != list.len() {
            return false;
        }
    }
    true
}

/// Whether so many workers share the groups, and each has logged what it was given.
fn is_shared<R: Threads + Sync>(
    rt: &R,
    alloc: Global,
    groups: u32,
    workers: u32,
) -> Result<bool, OutOfMemory>
    requires { (1 ≤ workers) × (workers ≤ groups) }
{
    let mut all = loggers(alloc, workers, groups)?;
    let draws = Draws::new(alloc, groups, workers)?;
    let lists = run_shares(rt, alloc, all.as_mut_slice(), draws, &OpenGate)?;
    let is_logged = lists.len() == workers as usize && are_logged(&all, &lists);
    Ok(is_logged && is_share(alloc, groups, lists.as_slice())?)
}

#[test]
fn each_group_is_taken_once(rt: HostRuntime) {
    for groups in 1..=40u32 {
        for most in 1..=8u32 {
            let workers = most.min(groups);
            assert!(rt; matches!(is_shared(&rt, rt.alloc(), groups, workers), Ok(true)));
        }
    }
}

/// It takes one group, or wants memory.
#[derive(Drop)]
struct Wanting {
    groups: u32,
    wants: bool,
}

impl Worker for Wanting {
    ghost use Rattle.std.specs.Prelude.{⊤};

    ghost groups = { λ w. w.groups };

    ghost works = { λ w given v. ⊤ };

    #[tactic(auto, using(share_files::proofs::Left::left_falls))]
    fn work<G: Gate>(&mut self, feed: &mut DrawFeed<'_, G>) -> Result<(), OutOfMemory> {
        if self.wants {
            return Err(OutOfMemory);
        }
        while feed.next().is_some() {}
        Ok(())
    }
}

/// Whether three workers have shares, of which the one of this number wants memory.
fn has_shares<R: Threads + Sync>(rt: &R, alloc: Global, wanting: u32) -> Result<bool, OutOfMemory> {
    let mut all = [
        Wanting {
            groups: 5,
            wants: wanting == 0,
        },
        Wanting {
            groups: 5,
            wants: wanting == 1,
        },
        Wanting {
            groups: 5,
            wants: wanting == 2,
        },
    ];
    let draws = Draws::new(alloc, 5, 3)?;
    Ok(run_shares(rt, alloc, all.as_mut_slice(), draws, &OpenGate).is_ok())
}

#[test]
fn one_that_wants_memory_is_the_answer_of_all(rt: HostRuntime) {
    for wanting in 0..4u32 {
        assert_eq!(rt; has_shares(&rt, rt.alloc(), wanting), Ok(wanting == 3));
    }
}

/// A worker and a group that a gate holds, until another worker has come with another group.
#[derive(Clone, Copy)]
struct Hold {
    worker: u32,
    group: u32,
    until_worker: u32,
    until_group: u32,
}

/// A gate of four groups, where workers meet.
#[derive(Drop)]
struct Meeting {
    holds: Vec<Hold>,
    /// Behind the number of each group: one more than the worker that came with it, or 0.
    came: [AtomicU64; 4],
    /// How often a worker was held for too long.
    late: AtomicU64,
}

/// The most turns that a worker is held.
const TURNS: u32 = 200_000_000;

impl Meeting {
    fn new(holds: Vec<Hold>) -> Meeting {
        Meeting {
            holds,
            came: [
                AtomicU64::new(0),
                AtomicU64::new(0),
                AtomicU64::new(0),
                AtomicU64::new(0),
            ],
            late: AtomicU64::new(0),
        }
    }

    fn wait_for(&self, worker: u32, group: u32) {
        if let Some(word) = self.came.get(group as usize) {
            if !comes(word, worker as u64 + 1) {
                self.late.fetch_add(1, Ordering::SeqCst);
            }
        }
    }
}

/// Whether a word has this value within so many turns.
fn comes(word: &AtomicU64, value: u64) -> bool {
    let mut turns = 0;
    while turns < TURNS {
        if word.load(Ordering::SeqCst) == value {
            return true;
        }
        turns += 1;
    }
    false
}

impl Gate for Meeting {
    fn enter(&self, worker: u32, group: u32) {
        if let Some(word) = self.came.get(group as usize) {
            word.store(worker as u64 + 1, Ordering::SeqCst);
        }
        for hold in self.holds.as_slice() {
            if hold.worker == worker && hold.group == group {
                self.wait_for(hold.until_worker, hold.until_group);
            }
        }
    }
}

/// Whether two workers share four groups so, and meet as often as they are held.
fn meet<R: Threads + Sync>(
    rt: &R,
    alloc: Global,
    holds: &[Hold],
    first: &[u32],
    second: &[u32],
) -> Result<bool, OutOfMemory> {
    let gate = Meeting::new(Vec::from_slice(alloc, holds)?);
    let mut all = loggers(alloc, 2, 4)?;
    let draws = Draws::new(alloc, 4, 2)?;
    let lists = run_shares(rt, alloc, all.as_mut_slice(), draws, &gate)?;
    let met = gate.late.load(Ordering::SeqCst) == 0;
    Ok(met && lists[0].as_slice() == first && lists[1].as_slice() == second)
}

/// Whoever deals to one worker alone, or runs the workers one after another, holds a worker for too long here.
#[test]
fn two_workers_run_at_the_same_time(rt: HostRuntime) {
    let holds = [
        Hold {
            worker: 1,
            group: 1,
            until_worker: 0,
            until_group: 2,
        },
        Hold {
            worker: 0,
            group: 2,
            until_worker: 1,
            until_group: 3,
        },
    ];
    assert!(rt;
        matches!(
            meet(&rt, rt.alloc(), holds.as_slice(), &[0, 2], &[1, 3]),
            Ok(true)
        )
    );
}

/// Where groups are dealt by turns, the first worker has one of those that the second draws here.
#[test]
fn a_worker_draws_what_another_leaves(rt: HostRuntime) {
    let holds = [Hold {
        worker: 0,
        group: 0,
        until_worker: 1,
        until_group: 3,
    }];
    assert!(rt;
        matches!(
            meet(&rt, rt.alloc(), holds.as_slice(), &[0], &[1, 2, 3]),
            Ok(true)
        )
    );
}
