ghost use Rattle.std.specs.Prelude.{◌≡◌, ℕ, ◌+◌, ◌/◌, ◌<◌, ◌≤◌, List, [], ◌∷◌, ◌++◌, length, replicate, All, IfOk, OnOk};
ghost use Rattle.std.specs.Thread.{IsSync, IsSend};
ghost use Rattle.share_files.specs.Deal.{Every, Share, lists_from};
ghost use Rattle.share_files.specs.Rule.{range};
ghost use Rattle.share_files.specs.Work.{AllWork, Took, IsBlank, IsRange, ReadyWorkers, HaveRun, held_lists};

use crate::draws::Draws;
use crate::feed::DrawFeed;
use crate::rule::{Board, Counts, DrawnOnce, Halves, Range, Whole};
use crate::worker::Worker;
use atomic_table::{Seat, Table};
use edge_io::Gate;
use seq::OutOfMemory;
use std::alloc::Global;
use std::mem;
use std::thread::{Threads, join_mut};

/// What all workers share.
#[derive(Drop)]
pub struct Crew<'a, G> {
    pub alloc: Global,
    pub shared: &'a Board,
    pub gate: &'a G,
    pub groups: u32,
    ghost one_word: { shared.now.table_id.words ≡ 1 },
    ghost counted: { shared.now.key.groups ≡ groups },
}

/// One worker works on what its feed gives. The seat comes back.
fn run_one<W: Worker, G: Gate>(
    crew: &Crew<'_, G>,
    seat: Seat<(), Range>,
    worker: u32,
    taken: &mut Vec<u32>,
    own: &mut W,
) -> (Seat<(), Range>, Result<(), OutOfMemory>)
    requires seat { (seat.table_id ≡ crew.now.shared.now.table_id) × (seat.me ≡ (range worker ([] ∷ []), [])) }
    requires inside { worker < crew.now.groups }
    requires blank { IsBlank crew.now.groups taken.old }
    requires groups { W.groups own.old ≡ crew.now.groups }
    ensures seat { (result.0.table_id ≡ seat.table_id) × IsRange worker 1 result.0.me }
    ensures took { OnOk result.1 (Took crew.entry.now.groups worker result.0.me.0.lists (taken.new.items ∷ [])) }
    ensures works { OnOk result.1 (W.works own.old taken.new.items own.new) }
{
    let blank = mem::replace(taken, Vec::new(crew.alloc));
    let mut feed = DrawFeed::new(crew.shared, crew.gate, seat, worker, crew.groups, blank);
    let worked = own.work(&mut feed);
    let (seat, all) = feed.into_parts();
    *taken = all;
    (seat, worked)
}

/// The workers from `first` on, one behind each list, in threads where they can be made.
#[cycle(ranges)]
fn run_range<R: Threads + Sync, W: Worker + Send, G: Gate + Sync>(
    rt: &R,
    crew: &Crew<'_, G>,
    seat: Seat<(), Range>,
    first: u32,
    lists: &mut [Vec<u32>],
    workers: &mut [W],
) -> (Seat<(), Range>, Result<(), OutOfMemory>)
    requires seat { (seat.table_id ≡ crew.now.shared.now.table_id) × (seat.me ≡ (range first (replicate (length workers.old) []), [])) }
    requires inside { (0 < length workers.old) × (first + length workers.old ≤ crew.now.groups) }
    requires blank { (length lists.old ≡ length workers.old) × All (IsBlank crew.now.groups) lists.old }
    requires groups { All (λ w. W.groups w ≡ crew.now.groups) workers.old }
    ensures seat { (result.0.table_id ≡ seat.table_id) × IsRange first (length workers.old) result.0.me }
    ensures ran { OnOk result.1 (HaveRun W.works crew.entry.now.groups first result.0.me.0.lists workers.old (held_lists lists.new) workers.new) }
{
    if workers.len() == 1 {
        return run_one(crew, seat, first, &mut lists[0], &mut workers[0]);
    }
    let (low_lists, high_lists) = lists.split_at_mut(workers.len() / 2);
    let (low, high) = workers.split_at_mut(workers.len() / 2);
    run_halves(rt, crew, seat, first, low_lists, low, high_lists, high)
}

/// Two ranges, side by side, at the same time.
#[cycle(ranges)]
fn run_halves<R: Threads + Sync, W: Worker + Send, G: Gate + Sync>(
    rt: &R,
    crew: &Crew<'_, G>,
    mut seat: Seat<(), Range>,
    first: u32,
    low_lists: &mut [Vec<u32>],
    low: &mut [W],
    high_lists: &mut [Vec<u32>],
    high: &mut [W],
) -> (Seat<(), Range>, Result<(), OutOfMemory>)
    requires seat { (seat.table_id ≡ crew.now.shared.now.table_id) × (seat.me ≡ (range first (replicate (length low.old + length high.old) []), [])) }
    requires halves { length low.old ≡ (length low.old + length high.old) / 2 }
    requires inside { (0 < length low.old) × (0 < length high.old) × (first + length low.old + length high.old ≤ crew.now.groups) }
    requires blank_low { (length low_lists.old ≡ length low.old) × All (IsBlank crew.now.groups) low_lists.old }
    requires blank_high { (length high_lists.old ≡ length high.old) × All (IsBlank crew.now.groups) high_lists.old }
    requires groups { All (λ w. W.groups w ≡ crew.now.groups) low.old × All (λ w. W.groups w ≡ crew.now.groups) high.old }
    ensures seat { (result.0.table_id ≡ seat.table_id) × IsRange first (length low.old + length high.old) result.0.me }
    ensures ran { OnOk result.1 (HaveRun W.works crew.entry.now.groups first result.0.me.0.lists (low.old ++ high.old) (held_lists (low_lists.new ++ high_lists.new)) (low.new ++ high.new)) }
{
    let middle = first + low.len() as u32;
    let mut upper = Some(crew.shared.split_seat::<Halves>(&mut seat));
    let mut lower = Some(seat);
    let mut left = || -> (Seat<(), Range>, Result<(), OutOfMemory>)
        requires { IsSync R.row × IsSync G.row × IsSend W.row × ReadyWorkers W.groups crew.now.shared.now.table_id crew.now.groups first lower low_lists.now low.now }
        ensures { (result.0.table_id ≡ crew.entry.now.shared.now.table_id) × IsRange first (length low.entry.now) result.0.me × OnOk result.1 (HaveRun W.works crew.entry.now.groups first result.0.me.0.lists low.entry.now (held_lists low_lists.exit.now) low.exit.now) }
    { run_range(rt, crew, lower.take().unwrap(), first, low_lists, low) };
    let mut right = || -> (Seat<(), Range>, Result<(), OutOfMemory>)
        requires { IsSync R.row × IsSync G.row × IsSend W.row × ReadyWorkers W.groups crew.now.shared.now.table_id crew.now.groups middle upper high_lists.now high.now }
        ensures { (result.0.table_id ≡ crew.entry.now.shared.now.table_id) × IsRange middle (length high.entry.now) result.0.me × OnOk result.1 (HaveRun W.works crew.entry.now.groups middle result.0.me.0.lists high.entry.now (held_lists high_lists.exit.now) high.exit.now) }
    { run_range(rt, crew, upper.take().unwrap(), middle, high_lists, high) };
    let ((mut seat, below), (other, above)) = join_mut(rt, &mut left, &mut right);
    crew.shared.join_seat::<Whole>(&mut seat, other);
    (seat, below.and(above))
}

/// As many lists as there are workers, each with room for all groups.
fn blank_lists(alloc: Global, counts: Counts) -> Result<Vec<Vec<u32>>, OutOfMemory>
    ensures { IfOk result (λ lists. (length lists.items ≡ counts.workers) × All (IsBlank counts.groups) lists.items) }
{
    let mut lists = Vec::new(alloc);
    for _ in 0..counts.workers {
        lists.push(Vec::with_capacity(alloc, counts.groups as usize)?)?;
    }
    Ok(lists)
}

/// Ends the table, by the last seat.
fn close(table: Table<(), Range, Counts, DrawnOnce, Global>, seat: Seat<(), Range>)
    requires { (seat.table_id ≡ table.shared.table_id) × (table.shared.table_id.slots ≡ 0) }
    ensures { (draws : List ℕ) × Every (λ k. k < table.shared.key.workers) draws × (seat.me.0.lists ≡ lists_from seat.me.0.first (length seat.me.0.lists) table.shared.key.workers draws) }
{
    table.close_with(seat).free();
}

/// Lets the workers run at the same time, each on the groups that it takes, and gives what each took, in order. Worker k takes
/// group k first; whoever asks for a further group draws its number from the shared word. Where a worker answers `OutOfMemory`, so
/// does this call, and all workers are spent.
pub fn run_shares<R: Threads + Sync, W: Worker + Send, G: Gate + Sync>(
    rt: &R,
    alloc: Global,
    workers: &mut [W],
    draws: Draws,
    gate: &G,
) -> Result<Vec<Vec<u32>>, OutOfMemory>
    requires workers { length workers.old ≡ draws.workers }
    requires groups { All (λ w. W.groups w ≡ draws.groups) workers.old }
    ensures share { IfOk result (λ lists. Share draws.groups draws.workers (held_lists lists.items)) }
    ensures works { IfOk result (λ lists. AllWork W.works workers.old (held_lists lists.items) workers.new) }
{
    let Draws {
        table,
        seat,
        counts,
    } = draws;
    let mut lists = blank_lists(alloc, counts)?;
    let crew = Crew {
        alloc,
        shared: &table.shared,
        gate,
        groups: counts.groups,
    };
    let (seat, ran) = run_range(rt, &crew, seat, 0, lists.as_mut_slice(), workers);
    close(table, seat);
    ran?;
    Ok(lists)
}
