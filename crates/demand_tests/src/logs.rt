// A world that notes what is done in it.

ghost use Rattle.std.specs.Prelude.{◌≡◌, ◌<◌, None, false, length, slice_set, IfOk, OnOk};
ghost use Rattle.demand_tests.specs.Kept.{keeps};
ghost use Rattle.demand_tests.specs.Logs.{begun, def_in, finalizer_raised, frames_with, frames_without, is_generator, is_out, is_standing, is_twice, logging, part_at, rest_given_up, resumed, went_on};
ghost use Rattle.fixture_instances.specs.Items.{parameter_in};
ghost use Rattle.fixture_instances.specs.Views.{body_end};

use fixture_instances::{BodyEnd, Executor, ItemRef};
use fixture_table::Table;
use seq::{OutOfMemory, Seq};
use session_types::{DefId, Scope};
use std::alloc::Global;
use std::mem;

/// What was done in a world.
#[derive(Clone, Copy, Debug, PartialEq, Eq)]
pub enum LogEntry {
    Begun(u32),
    Resumed(u32),
    Closed(u32),
    Finalized(u32),
    /// The test of an item is called.
    Called(u32),
}

/// Where something was raised.
#[derive(Clone, Copy, Debug, PartialEq, Eq)]
pub enum Cause {
    InSetUp(u32),
    NoYield(u32),
    SecondYield(u32),
    InTeardown(u32),
    InFinalizer(u32),
    /// The steps ran out in a definition's function.
    OutOfSteps(u32),
    InTest(u32),
    InFault(u32),
}

/// How the function of a definition goes.
#[derive(Clone, Copy)]
pub enum Way {
    Returns,
    Raises,
    YieldsOnce,
    YieldsTwice,
    /// It raises behind its `yield`.
    RaisesBehind,
    /// It has a `yield`, and ends without.
    NeverYields,
    /// It loops without an end, until the steps run out.
    Loops,
    /// It loops so behind its `yield`.
    LoopsBehind,
}

/// A definition's scope, how its function goes, and whether its finalizer raises.
#[derive(Clone, Copy)]
pub struct Part {
    pub scope: Scope,
    pub way: Way,
    pub fails: bool,
}

/// What the functions of definitions do.
#[derive(Drop)]
pub struct Script {
    pub alloc: Global,
    pub parts: Seq<Part>,
}

/// A world that notes what is done in it: its frames by number, each with its definition while it is out, and the definitions of the two
/// that were given up last.
#[derive(Drop)]
pub struct Log {
    pub alloc: Global,
    pub lines: Seq<LogEntry>,
    pub frames: Seq<Option<u32>>,
    pub last: Option<u32>,
    pub before: Option<u32>,
}

/// What a definition's function does.
fn part_of(script: &Script, def: u32) -> Part
    ensures { result ≡ part_at script.now.parts def }
{
    let parts = script.parts.items();
    let at = def as usize;
    if at < parts.len() {
        parts[at]
    } else {
        Part {
            scope: Scope::Function,
            way: Way::Returns,
            fails: false,
        }
    }
}

fn is_generator(way: Way) -> bool
    ensures { result ≡ is_generator way }
{
    match way {
        Way::Returns => false,
        Way::Raises => false,
        Way::YieldsOnce => true,
        Way::YieldsTwice => true,
        Way::RaisesBehind => true,
        Way::NeverYields => true,
        Way::Loops => true,
        Way::LoopsBehind => true,
    }
}

fn is_standing(way: Way) -> bool
    ensures { result ≡ is_standing way }
{
    match way {
        Way::Returns => false,
        Way::Raises => false,
        Way::YieldsOnce => true,
        Way::YieldsTwice => true,
        Way::RaisesBehind => true,
        Way::NeverYields => false,
        Way::Loops => false,
        Way::LoopsBehind => true,
    }
}

fn is_twice(way: Way) -> bool
    ensures { result ≡ is_twice way }
{
    match way {
        Way::Returns => false,
        Way::Raises => false,
        Way::YieldsOnce => false,
        Way::YieldsTwice => true,
        Way::RaisesBehind => false,
        Way::NeverYields => false,
        Way::Loops => false,
        Way::LoopsBehind => false,
    }
}

fn begun(script: &Script, way: Way, def: u32, number: u32) -> BodyEnd<u32, Cause, u32>
    ensures { body_end (logging script.now) result ≡ begun way def number }
{
    let _script = script;
    match way {
        Way::Returns => BodyEnd::Returned(def),
        Way::Raises => BodyEnd::Raised(Cause::InSetUp(def)),
        Way::YieldsOnce => BodyEnd::Yielded(def, number),
        Way::YieldsTwice => BodyEnd::Yielded(def, number),
        Way::RaisesBehind => BodyEnd::Yielded(def, number),
        Way::NeverYields => BodyEnd::Returned(def),
        Way::Loops => BodyEnd::Raised(Cause::OutOfSteps(def)),
        Way::LoopsBehind => BodyEnd::Yielded(def, number),
    }
}

fn resumed(script: &Script, way: Way, def: u32, number: u32) -> BodyEnd<u32, Cause, u32>
    ensures { body_end (logging script.now) result ≡ resumed way def number }
{
    let _script = script;
    match way {
        Way::Returns => BodyEnd::Returned(def),
        Way::Raises => BodyEnd::Returned(def),
        Way::YieldsOnce => BodyEnd::Returned(def),
        Way::YieldsTwice => BodyEnd::Yielded(def, number),
        Way::RaisesBehind => BodyEnd::Raised(Cause::InTeardown(def)),
        Way::NeverYields => BodyEnd::Returned(def),
        Way::Loops => BodyEnd::Returned(def),
        Way::LoopsBehind => BodyEnd::Raised(Cause::OutOfSteps(def)),
    }
}

/// The number of the next frame.
fn next_number(frames: &[Option<u32>]) -> Result<u32, OutOfMemory>
    ensures { IfOk result (λ n. n ≡ length frames.now) }
{
    if frames.len() > u32::MAX as usize {
        return Err(OutOfMemory);
    }
    Ok(frames.len() as u32)
}

/// The definition of a frame, while it is out.
fn def_in(frames: &[Option<u32>], number: u32) -> Option<u32>
    ensures { result ≡ def_in frames.now number }
{
    match frames.get(number as usize) {
        Some(def) => *def,
        None => None,
    }
}

/// One more frame, where it stands.
fn add_frame(log: &mut Log, standing: bool, def: u32) -> Result<(), OutOfMemory>
    ensures { OnOk result (log.new ≡ record log.old { frames = frames_with standing def log.old.frames }) }
{
    if !standing {
        return Ok(());
    }
    log.frames.push(Some(def))?;
    Ok(())
}

#[tactic(auto, using(std::proofs::lemmas::List::set_past))]
fn clear_at(frames: &mut Vec<Option<u32>>, at: usize)
    ensures { frames.new.items ≡ slice_set frames.old.items at None }
{
    if at < frames.len() {
        frames[at] = None;
    }
}

/// The frames without one.
fn without(frames: Seq<Option<u32>>, number: u32) -> Seq<Option<u32>>
    ensures { result ≡ frames_without number frames }
{
    let mut list = frames.into_vec();
    clear_at(&mut list, number as usize);
    Seq::from_vec(list)
}

/// Takes a frame.
fn take_frame(log: &mut Log, number: u32)
    ensures { log.new ≡ record log.old { frames = frames_without number log.old.frames } }
{
    let none = Seq::new(log.alloc);
    let frames = mem::replace(&mut log.frames, none);
    log.frames = without(frames, number);
}

/// Notes that a frame was given up.
fn give_up(log: &mut Log, number: u32)
    ensures { log.new ≡ rest_given_up number log.old }
{
    let def = def_in(log.frames.items(), number);
    log.before = log.last;
    log.last = def;
    take_frame(log, number);
}

/// What remains of a definition's function goes on.
fn go_on(
    log: &mut Log,
    script: &Script,
    rest: u32,
    def: u32,
) -> Result<BodyEnd<u32, Cause, u32>, OutOfMemory>
    ensures how { IfOk result (λ end. body_end (logging script.now) end ≡ (went_on script.now rest def log.old).how) }
    ensures world { OnOk result (log.new ≡ (went_on script.now rest def log.old).world) }
{
    let way = part_of(script, def).way;
    let number = next_number(log.frames.items())?;
    log.lines.push(LogEntry::Resumed(def))?;
    take_frame(log, rest);
    add_frame(log, is_twice(way), def)?;
    Ok(resumed(script, way, def, number))
}

fn finalizer_raised(part: Part, def: u32) -> Option<Cause>
    ensures { result ≡ finalizer_raised part def }
{
    if part.fails {
        Some(Cause::InFinalizer(def))
    } else {
        None
    }
}

impl Executor for Log {
    type Value = u32;

    type Thrown = Cause;

    type Rest = u32;

    type Told = u32;

    type Setting = Script;

    ghost is_bad = { λ phase told. false };

    ghost rules = { λ setting. logging setting };

    ghost knows = { λ setting table item. Unit {0} };

    ghost is_out = { is_out };

    ghost given_up = { rest_given_up };

    ghost keeps = { keeps };

    fn yields(&self, setting: &Script, _table: &Table, _item: &ItemRef<u32>, def: DefId) -> bool {
        is_generator(part_of(setting, def.number()).way)
    }

    fn ask(
        &mut self,
        _setting: &Script,
        _table: &Table,
        _item: &ItemRef<u32>,
        def: DefId,
    ) -> Result<Option<u32>, OutOfMemory> {
        Ok(Some(def.number()))
    }

    fn begin(
        &mut self,
        setting: &Script,
        _table: &Table,
        _item: &ItemRef<u32>,
        def: DefId,
        _own: Option<u32>,
        _values: &[u32],
        _request: Option<u32>,
    ) -> Result<BodyEnd<u32, Cause, u32>, OutOfMemory>
        requires known { Unit {0} }
        requires def { def < length _table.now.defs }
        ensures how { IfOk result (λ end. body_end (logging setting.now) end ≡ ((logging setting.now).begin _item.now.node def (parameter_in _item.now.params def) _own _values.now _request self.old).how) }
        ensures world { OnOk result (self.new ≡ ((logging setting.now).begin _item.now.node def (parameter_in _item.now.params def) _own _values.now _request self.old).world) }
    {
        let way = part_of(setting, def.number()).way;
        let number = next_number(self.frames.items())?;
        self.lines.push(LogEntry::Begun(def.number()))?;
        add_frame(self, is_standing(way), def.number())?;
        Ok(begun(setting, way, def.number(), number))
    }

    fn did_not_yield(
        &mut self,
        _setting: &Script,
        _table: &Table,
        _item: &ItemRef<u32>,
        def: DefId,
    ) -> Result<Cause, OutOfMemory> {
        Ok(Cause::NoYield(def.number()))
    }

    fn resume(
        &mut self,
        setting: &Script,
        rest: u32,
    ) -> Result<BodyEnd<u32, Cause, u32>, OutOfMemory> {
        match def_in(self.frames.items(), rest) {
            Some(def) => go_on(self, setting, rest, def),
            None => Ok(BodyEnd::Returned(0)),
        }
    }

    fn abandon(&mut self, _setting: &Script, rest: u32) {
        give_up(self, rest);
    }

    fn give_up(&mut self, rest: u32) {
        give_up(self, rest);
    }

    fn yielded_again(&mut self, _setting: &Script, def: DefId) -> Result<Cause, OutOfMemory> {
        Ok(Cause::SecondYield(def.number()))
    }

    fn close(&mut self, setting: &Script, request: u32) -> Result<Seq<u32>, OutOfMemory> {
        let mut list = Seq::new(setting.alloc);
        list.push(request)?;
        self.lines.push(LogEntry::Closed(request))?;
        Ok(list)
    }

    fn finalize(&mut self, setting: &Script, finalizer: u32) -> Result<Option<Cause>, OutOfMemory> {
        self.lines.push(LogEntry::Finalized(finalizer))?;
        Ok(finalizer_raised(part_of(setting, finalizer), finalizer))
    }

    fn copied(&self, thrown: &Cause) -> Result<Cause, OutOfMemory> {
        Ok(*thrown)
    }
}
