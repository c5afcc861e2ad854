ghost use Rattle.std.specs.Prelude.{◌≡◌, ℕ, ◌+◌, ◌<◌, ◌≤◌, Bool, true, false, List, [], ◌∷◌, ◌++◌, drop, None, Some, IfSome, IfNone, IsSome};
ghost use Rattle.atomic_table.specs.Table.{Me};
ghost use Rattle.share_files.specs.Deal.{times, left, RisesFrom, Every};
ghost use Rattle.share_files.specs.Rule.{range, past, with_drawn};
ghost use Rattle.share_files.specs.Fed.{Origin, OwnGroupFirst};
ghost use Rattle.share_files.specs.Work.{IsBlank, IsRange, Took};

use crate::rule::{Board, Draw, Range};
use atomic_table::Seat;
use edge_io::Gate;
use std::marker::Model;

/// Numbers of groups, which are given one after another.
pub trait Feed {
    /// Where the numbers come from. No call changes it.
    ghost origin: { Self → Origin };

    /// The numbers that it has given.
    ghost given: { Self → List ℕ };

    /// Whether it has answered `None`.
    ghost ended: { Self → Bool };

    /// Each number is below it. No call changes it.
    ghost limit: { Self → ℕ };

    /// The next number, which it has not given yet, or `None` from then on.
    fn next(&mut self) -> Option<u32>
        ensures same { (origin self.new ≡ origin self.old) × (limit self.new ≡ limit self.old) }
        ensures some { IfSome result (λ n. (ended self.old ≡ false) × (ended self.new ≡ false) × (n < limit self.old) × (times n (given self.old) ≡ 0) × (given self.new ≡ given self.old ++ n ∷ [])) }
        ensures none { IfNone result ((ended self.new ≡ true) × (given self.new ≡ given self.old)) }
        ensures falls { IsSome result → left (limit self.old) (given self.new) < left (limit self.old) (given self.old) };
}

/// The numbers that one worker draws from the shared word, behind its own number.
pub struct DrawFeed<'a, G> {
    shared: &'a Board,
    gate: &'a G,
    seat: Seat<(), Range>,
    worker: u32,
    groups: u32,
    taken: Vec<u32>,
    last: Option<u64>,
}

impl<'a, G> Model for DrawFeed<'a, G> {
    ghost use Rattle.std.specs.Prelude.{vec_capacity};
    ghost use Rattle.share_files.specs.Fed.{FeedState, IsFeed};

    ghost Value = { FeedState };

    ghost view = { λ f. record { table = f.seat.table_id; worker = f.worker; limit = f.groups; given = f.taken.items; last = f.last } };

    ghost invariant = { λ f. IsFeed f.shared.now.table_id f.seat.table_id f.shared.now.key f.seat.me f.worker f.groups f.taken.items (vec_capacity f.taken) f.last };
}

/// The next number of the shared word, for a seat of one worker.
fn draw(shared: &Board, seat: &mut Seat<(), Range>) -> u64
    requires table { (seat.old.table_id ≡ shared.now.table_id) × (shared.now.table_id.words ≡ 1) }
    requires own { (k : ℕ) × (l : List ℕ) × (seat.old.me ≡ (range k (l ∷ []), [])) × (past shared.now.key.groups l ≡ 0) }
    ensures table { seat.new.table_id ≡ seat.old.table_id }
    ensures drew { seat.new.me ≡ (range seat.old.me.0.first (with_drawn result seat.old.me.0.lists), seat.old.me.1) }
    ensures rising { Every (RisesFrom (seat.old.me.0.first + 1)) seat.new.me.0.lists }
{
    shared.fetch_add::<Draw>(seat, 0, 1)
}

/// A worker's own number where it has taken none, and else the next of the shared word.
fn number(shared: &Board, seat: &mut Seat<(), Range>, worker: u32, taken: &[u32]) -> u64
    requires table { (seat.old.table_id ≡ shared.now.table_id) × (shared.now.table_id.words ≡ 1) }
    requires numbers { seat.old.me ≡ (range worker (drop 1 taken.now ∷ []), []) }
    requires begun { OwnGroupFirst worker taken.now None }
    requires below { Every (λ n. n < shared.now.key.groups) taken.now }
    ensures table { seat.new.table_id ≡ seat.old.table_id }
    ensures numbers { seat.new.me ≡ (range worker (drop 1 (taken.now ++ result ∷ []) ∷ []), []) }
    ensures own { taken.now ≡ [] → result ≡ worker }
    ensures begun { taken.now ++ result ∷ [] ≡ worker ∷ drop 1 (taken.now ++ result ∷ []) }
    ensures rising { RisesFrom worker (taken.now ++ result ∷ []) }
{
    if taken.is_empty() {
        return worker as u64;
    }
    draw(shared, seat)
}

impl<'a, G: Gate> DrawFeed<'a, G> {
    /// The worker's own group first, then the groups that it draws. `None` where the number drawn is not below the number of
    /// groups: that number is kept, and from then on there is no draw.
    pub fn next(&mut self) -> Option<u32>
        ensures first { self.old.given ≡ [] → result ≡ Some self.old.worker }
        ensures some { IfSome result (λ n. (self.old.last ≡ None) × (n < self.old.limit) × (times n self.old.given ≡ 0) × (self.new ≡ record self.old { given = self.old.given ++ n ∷ [] })) }
        ensures none { IfNone result (IsSome self.new.last × IfSome self.new.last (λ n. self.old.limit ≤ n) × (self.new ≡ record self.old { last = self.new.last })) }
        ensures ended { IsSome self.old.last → (result ≡ None) × (self.new ≡ self.old) }
    {
        if self.last.is_some() {
            return None;
        }
        let number = number(
            self.shared,
            &mut self.seat,
            self.worker,
            self.taken.as_slice(),
        );
        if number >= self.groups as u64 {
            self.last = Some(number);
            return None;
        }
        let group = number as u32;
        self.gate.enter(self.worker, group);
        self.taken.push(group).unwrap();
        Some(group)
    }
}

impl<'a, G> DrawFeed<'a, G> {
    /// A feed that has given nothing, whose list has room for all groups.
    pub(crate) fn new(
        shared: &'a Board,
        gate: &'a G,
        seat: Seat<(), Range>,
        worker: u32,
        groups: u32,
        taken: Vec<u32>,
    ) -> DrawFeed<'a, G>
        requires table { (seat.table_id ≡ shared.now.table_id) × (shared.now.table_id.words ≡ 1) × (shared.now.key.groups ≡ groups) }
        requires range { (seat.me ≡ (range worker ([] ∷ []), [])) × (worker < groups) }
        requires blank { IsBlank groups taken }
        ensures { result ≡ record { table = seat.table_id; worker = worker; limit = groups; given = []; last = None } }
    {
        DrawFeed {
            shared,
            gate,
            seat,
            worker,
            groups,
            taken,
            last: None,
        }
    }

    /// Its seat and its list.
    pub(crate) fn into_parts(self) -> (Seat<(), Range>, Vec<u32>)
        ensures seat { (result.0.table_id ≡ self.entry.table) × IsRange self.entry.worker 1 result.0.me }
        ensures taken { result.1.items ≡ self.entry.given }
        ensures took { IsSome self.entry.last → Took self.entry.limit self.entry.worker result.0.me.0.lists (self.entry.given ∷ []) }
    {
        let DrawFeed {
            shared: _,
            gate: _,
            seat,
            worker: _,
            groups: _,
            taken,
            last: _,
        } = self;
        (seat, taken)
    }

    /// The groups that it has given, in order.
    pub fn taken(&self) -> &[u32]
        ensures { result.now ≡ self.now.given }
    {
        self.taken.as_slice()
    }
}

impl<'a, G: Gate> Feed for DrawFeed<'a, G> {
    ghost use Rattle.share_files.specs.Fed.{origin, given, has_ended, limit};

    ghost origin = { origin };

    ghost given = { given };

    ghost ended = { has_ended };

    ghost limit = { limit };

    #[tactic(auto, using(crate::proofs::Left::left_falls))]
    fn next(&mut self) -> Option<u32> {
        DrawFeed::next(self)
    }
}
