// A stage of one item, and a feed of its group, on one clock.

ghost use Rattle.std.specs.Prelude.{◌≡◌, [], false, IfOk, OnOk, ⊤};
ghost use Rattle.runtest_reports.specs.Kept.{reported_ending, session_phase};
ghost use Rattle.session_rules.specs.Session.{telling};
ghost use Rattle.session_rules.specs.Teardown.{in_world, session_step};
ghost use Rattle.worker_tests.specs.Letters.{letters_fixture};
ghost use Rattle.worker_tests.specs.Timed.{given_then, one_item_state, the_item, unhooked_rules};

use crate::letters::Printed;
use report_parts::{ItemReport, Phase, PhaseEnd, Text};
use runtest_loop::{ReceiveFail, Receiver};
use runtest_reports::{PhaseEnding, Stage};
use seq::{OutOfMemory, Seq};
use session_types::{DefId, Event, Numbers, Scope};
use share_files::Feed;
use std::alloc::Global;
use std::rc::Rc;
use std::sync::atomic::{AtomicU64, Ordering};

/// The next moment of a clock.
fn tick(clock: &Rc<AtomicU64>) -> u64 {
    clock.fetch_add(1, Ordering::SeqCst).wrapping_add(1)
}

/// A session of one item without fixtures and hooks. It keeps the moments in which the item's test was called and was to be torn down:
/// there memory is refused.
#[derive(Drop)]
pub struct OneItem {
    alloc: Global,
    clock: Rc<AtomicU64>,
    events: Vec<Event>,
    has_object: bool,
    pub called: u64,
    pub left: u64,
}

impl OneItem {
    /// A session in which nothing has happened.
    pub fn new(alloc: Global, clock: Rc<AtomicU64>) -> OneItem
        ensures { one_item_state result.has_object result.events.items ≡ one_item_state false [] }
    {
        OneItem {
            alloc,
            clock,
            events: Vec::new(alloc),
            has_object: false,
            called: 0,
            left: 0,
        }
    }
}

impl Stage for OneItem {
    type World = Printed;

    type Value = u32;

    type Thrown = u32;

    type Rest = u32;

    type Setting = u32;

    type Item = u32;

    ghost rules = { λ setting. unhooked_rules };

    ghost state = { λ stage. one_item_state stage.has_object stage.events.items };

    ghost selected = { λ setting item. the_item };

    ghost fixture = { λ setting. letters_fixture };

    ghost stands = { λ setting stage. ⊤ };

    ghost known = { λ setting item. ⊤ };

    #[tactic(auto, using(crate::proofs::Phases::is_opened))]
    fn open(&mut self, _setting: &u32, _item: &u32) -> Result<(), OutOfMemory> {
        Ok(())
    }

    #[tactic(auto, using(crate::proofs::Phases::is_set_up))]
    fn set_up(&mut self, _setting: &u32, _item: &u32) -> Result<Seq<u32>, OutOfMemory> {
        self.has_object = true;
        Ok(Seq::new(self.alloc))
    }

    #[tactic(auto, using(crate::proofs::Phases::is_called))]
    fn call(&mut self, _setting: &u32, _item: &u32) -> Result<Seq<u32>, OutOfMemory> {
        self.called = tick(&self.clock);
        self.has_object = true;
        self.events
            .push(Event::CallBegins(0, Numbers::new(self.alloc)))?;
        self.events.push(Event::CallEnds(0))?;
        Ok(Seq::new(self.alloc))
    }

    fn leave(
        &mut self,
        _setting: &u32,
        _item: &u32,
        _next: Option<&u32>,
    ) -> Result<Seq<u32>, OutOfMemory> {
        self.left = tick(&self.clock);
        Err(OutOfMemory)
    }

    fn all_down(&mut self, _setting: &u32) -> Result<Seq<u32>, OutOfMemory> {
        Err(OutOfMemory)
    }

    fn is_error(&self, _setting: &u32, _item: &u32, _raised: &[u32]) -> Result<bool, OutOfMemory> {
        Ok(false)
    }

    fn end_phase(
        &mut self,
        _setting: &u32,
        phase: Phase,
        _item: &u32,
        raised: Seq<u32>,
    ) -> Result<PhaseEnding, OutOfMemory>
        ensures told { IfOk result (λ ending. reported_ending ending ≡ (telling unhooked_rules (session_phase phase) the_item.item (session_step raised (one_item_state self.old.has_object self.old.events.items))).told) }
        ensures state { OnOk result (one_item_state self.new.has_object self.new.events.items ≡ in_world (telling unhooked_rules (session_phase phase) the_item.item (session_step raised (one_item_state self.old.has_object self.old.events.items))).world (one_item_state self.old.has_object self.old.events.items)) }
        ensures here { OnOk result (⊤) }
    {
        let captured = Text::from_str(self.alloc, "")?;
        Ok(PhaseEnding {
            end: PhaseEnd::Passed,
            captured,
        })
    }

    fn journal(&self) -> &[Event] {
        self.events.as_slice()
    }

    fn node_id<'a>(_setting: &'a u32, _item: &'a u32) -> &'a str {
        "a1"
    }

    fn title<'a>(_setting: &'a u32, _item: &'a u32) -> &'a str {
        "a1"
    }

    fn file<'a>(_setting: &'a u32, _item: &'a u32) -> &'a str {
        "a"
    }

    fn closure<'a>(_setting: &'a u32, _item: &'a u32) -> Option<&'a [DefId]> {
        Some(&[])
    }

    fn parameter<'a>(_setting: &'a u32, _item: &'a u32, _def: DefId) -> Option<&'a str> {
        None
    }

    fn scope(_setting: &u32, _def: DefId) -> Scope {
        Scope::Function
    }

    fn name(alloc: Global, _setting: &u32, _def: DefId) -> Result<Text, OutOfMemory> {
        Text::from_str(alloc, "")
    }

    fn arguments(alloc: Global, _setting: &u32, _def: DefId) -> Result<Seq<Text>, OutOfMemory> {
        Ok(Seq::new(alloc))
    }
}

/// Whether the one group was given.
#[derive(Clone, Copy, PartialEq, Eq)]
pub enum GroupState {
    /// It is still to be given.
    Waiting,
    /// It was given.
    Given,
    /// It was given, and there is no other.
    Ended,
}

/// A feed of one group, which keeps the moment in which it was asked for another.
#[derive(Drop)]
pub struct TimedFeed {
    clock: Rc<AtomicU64>,
    state: GroupState,
    pub asked: u64,
}

impl TimedFeed {
    /// A feed that has given nothing.
    pub fn new(clock: Rc<AtomicU64>) -> TimedFeed
        ensures { given_then result.state ≡ [] }
    {
        TimedFeed {
            clock,
            state: GroupState::Waiting,
            asked: 0,
        }
    }
}

impl Feed for TimedFeed {
    ghost use Rattle.share_files.specs.Fed.{Alone};
    ghost use Rattle.worker_tests.specs.Timed.{given_then, has_all_given};

    ghost origin = { λ feed. Alone };

    ghost given = { λ feed. given_then feed.state };

    ghost ended = { λ feed. has_all_given feed.state };

    ghost limit = { λ feed. 1 };

    fn next(&mut self) -> Option<u32> {
        match self.state {
            GroupState::Waiting => {
                self.state = GroupState::Given;
                Some(0)
            }
            GroupState::Given => {
                self.asked = tick(&self.clock);
                self.state = GroupState::Ended;
                None
            }
            GroupState::Ended => None,
        }
    }
}

/// Takes no report.
#[derive(Drop)]
pub struct NoReports;

impl Receiver for NoReports {
    ghost use Rattle.std.specs.Prelude.{[], ⊤};

    ghost taken = { λ none. [] };

    ghost faults = { λ none. 0 };

    ghost stems = { λ first whole now. ⊤ };

    fn report(&mut self, report: ItemReport) -> Result<(), ReceiveFail> {
        drop(report);
        Err(ReceiveFail::OutOfMemory)
    }
}
