// A tree of four fixtures, in which each point raises in turn.

use crate::benches::{Asking, BenchOutcome, Row, TestDemand, told_of};
use crate::logs::{Cause, LogEntry, Part, Way};
use crate::undoing::all_is_undone;
use seq::{OutOfMemory, Seq};
use session_types::Scope;
use std::alloc::Global;

/// What happened in the tree: the functions and tests that were called, in order, the exceptions, and whether all was undone.
#[derive(Drop)]
struct Went {
    called: Vec<LogEntry>,
    raised: Seq<Cause>,
    undone: bool,
}

fn part(scope: Scope, way: Way, fails: bool) -> Part {
    Part { scope, way, fails }
}

/// A fixture of the session, one of the file, and two of the item, all of which go this way.
fn all_go(way: Way, fails: bool) -> [Part; 4] {
    [
        part(Scope::Session, way, fails),
        part(Scope::Module, way, fails),
        part(Scope::Function, way, fails),
        part(Scope::Function, way, fails),
    ]
}

/// The functions of fixtures and the tests that were called.
fn called_in(alloc: Global, lines: &[LogEntry]) -> Result<Vec<LogEntry>, OutOfMemory> {
    let mut called = Vec::new(alloc);
    for line in lines {
        match *line {
            LogEntry::Begun(_) => called.push(*line)?,
            LogEntry::Called(_) => called.push(*line)?,
            LogEntry::Closed(_) => {}
            LogEntry::Resumed(_) => {}
            LogEntry::Finalized(_) => {}
        }
    }
    Ok(called)
}

/// Items 2 and 3 run, whose tests ask for fixture 3, which asks for 1 and 2, which ask for 0.
fn run_tree(alloc: Global, parts: [Part; 4], raises: bool) -> Result<Went, OutOfMemory> {
    let rows = [
        Row {
            args: &[],
            part: parts[0],
        },
        Row {
            args: &[0],
            part: parts[1],
        },
        Row {
            args: &[0],
            part: parts[2],
        },
        Row {
            args: &[1, 2],
            part: parts[3],
        },
    ];
    let how = TestDemand {
        args: &[3],
        asking: Asking::AtOnce,
        raises,
    };
    let BenchOutcome { world, raised } = told_of(alloc, &rows, how)?;
    let called = called_in(alloc, world.lines.items())?;
    let undone = all_is_undone(alloc, &rows, world.lines.items())?;
    Ok(Went {
        called,
        raised,
        undone,
    })
}

/// One fixture of the tree, the ways that its function goes in turn, what is called then, and how often its exception is told.
#[derive(Clone, Copy)]
struct Case<'c> {
    def: u32,
    ways: &'c [Way],
    called: &'c [LogEntry],
    times: usize,
}

/// Where nothing raises in the function, the finalizer does.
fn fails(way: Way) -> bool {
    match way {
        Way::Returns => true,
        Way::Raises => false,
        Way::YieldsOnce => true,
        Way::YieldsTwice => false,
        Way::RaisesBehind => false,
        Way::NeverYields => false,
        Way::Loops => false,
        Way::LoopsBehind => false,
    }
}

/// What is told of a fixture that goes this way.
fn cause(way: Way, def: u32) -> Cause {
    match way {
        Way::Returns => Cause::InFinalizer(def),
        Way::Raises => Cause::InSetUp(def),
        Way::YieldsOnce => Cause::InFinalizer(def),
        Way::YieldsTwice => Cause::SecondYield(def),
        Way::RaisesBehind => Cause::InTeardown(def),
        Way::NeverYields => Cause::NoYield(def),
        Way::Loops => Cause::OutOfSteps(def),
        Way::LoopsBehind => Cause::OutOfSteps(def),
    }
}

/// Whether a case comes out as it is written down, where its fixture goes this way and the others yield once.
fn is_as_wanted(alloc: Global, case: Case, way: Way) -> Result<bool, OutOfMemory> {
    let mut parts = all_go(Way::YieldsOnce, false);
    if let Some(part) = parts.get_mut(case.def as usize) {
        part.way = way;
        part.fails = fails(way);
    }
    let went = run_tree(alloc, parts, false)?;
    let wanted = cause(way, case.def);
    Ok(
        went.undone
            && went.called.as_slice() == case.called
            && went.raised.len() == case.times
            && went.raised.items().iter().all(|one| *one == wanted),
    )
}

const IN_SET_UP: [Way; 3] = [Way::Raises, Way::NeverYields, Way::Loops];

const IN_TEARDOWN: [Way; 5] = [
    Way::RaisesBehind,
    Way::YieldsTwice,
    Way::LoopsBehind,
    Way::YieldsOnce,
    Way::Returns,
];

const WHOLE: [LogEntry; 8] = [
    LogEntry::Begun(0),
    LogEntry::Begun(1),
    LogEntry::Begun(2),
    LogEntry::Begun(3),
    LogEntry::Called(2),
    LogEntry::Begun(2),
    LogEntry::Begun(3),
    LogEntry::Called(3),
];

/// pytest's fixture guide, "Fixture errors" and "Yield fixtures": what asks for a fixture that raised isn't set up, its test isn't called, and
/// what is up goes down all the same; a teardown that raises stops no other. "Fixture scopes": a fixture of the session or of the file that
/// raised is told to each item and isn't called again.
const CASES: [Case<'static>; 8] = [
    Case {
        def: 0,
        ways: &IN_SET_UP,
        called: &[LogEntry::Begun(0)],
        times: 2,
    },
    Case {
        def: 1,
        ways: &IN_SET_UP,
        called: &[LogEntry::Begun(0), LogEntry::Begun(1)],
        times: 2,
    },
    Case {
        def: 2,
        ways: &IN_SET_UP,
        called: &[
            LogEntry::Begun(0),
            LogEntry::Begun(1),
            LogEntry::Begun(2),
            LogEntry::Begun(2),
        ],
        times: 2,
    },
    Case {
        def: 3,
        ways: &IN_SET_UP,
        called: &[
            LogEntry::Begun(0),
            LogEntry::Begun(1),
            LogEntry::Begun(2),
            LogEntry::Begun(3),
            LogEntry::Begun(2),
            LogEntry::Begun(3),
        ],
        times: 2,
    },
    Case {
        def: 0,
        ways: &IN_TEARDOWN,
        called: &WHOLE,
        times: 1,
    },
    Case {
        def: 1,
        ways: &IN_TEARDOWN,
        called: &WHOLE,
        times: 1,
    },
    Case {
        def: 2,
        ways: &IN_TEARDOWN,
        called: &WHOLE,
        times: 2,
    },
    Case {
        def: 3,
        ways: &IN_TEARDOWN,
        called: &WHOLE,
        times: 2,
    },
];

/// The first way of a case that comes out otherwise, by its exception.
fn wrong_way(alloc: Global, case: Case) -> Result<Option<Cause>, OutOfMemory> {
    for way in case.ways {
        if !is_as_wanted(alloc, case, *way)? {
            return Ok(Some(cause(*way, case.def)));
        }
    }
    Ok(None)
}

/// The first of all cases that comes out otherwise, by its exception.
fn wrong_case(alloc: Global) -> Result<Option<Cause>, OutOfMemory> {
    for case in &CASES {
        let wrong = wrong_way(alloc, *case)?;
        if wrong.is_some() {
            return Ok(wrong);
        }
    }
    Ok(None)
}

#[test]
fn each_point_raises_in_turn(rt: HostRuntime) {
    assert_eq!(rt; wrong_case(rt.alloc()), Ok(None));
}

/// Whether these exceptions are told where all fixtures go this way and both tests raise: all is called and goes down as ever.
fn are_told(alloc: Global, way: Way, fails: bool, raised: &[Cause]) -> Result<bool, OutOfMemory> {
    let went = run_tree(alloc, all_go(way, fails), true)?;
    Ok(went.undone && went.called.len() == 8 && went.raised.items() == raised)
}

/// The tests of both items raise: all goes down as ever.
#[test]
fn a_test_raises(rt: HostRuntime) {
    let raised = [Cause::InTest(2), Cause::InTest(3)];
    let told = are_told(rt.alloc(), Way::YieldsOnce, false, &raised);
    assert!(rt; matches!(told, Ok(true)));
}

/// Everything raises at once, and each exception is told: those of the item's own fixtures behind each test, the others at the end.
#[test]
fn all_raises(rt: HostRuntime) {
    let raised = [
        Cause::InTest(2),
        Cause::InTeardown(3),
        Cause::InFinalizer(3),
        Cause::InTeardown(2),
        Cause::InFinalizer(2),
        Cause::InTest(3),
        Cause::InTeardown(3),
        Cause::InFinalizer(3),
        Cause::InTeardown(2),
        Cause::InFinalizer(2),
        Cause::InTeardown(1),
        Cause::InFinalizer(1),
        Cause::InTeardown(0),
        Cause::InFinalizer(0),
    ];
    let told = are_told(rt.alloc(), Way::RaisesBehind, true, &raised);
    assert!(rt; matches!(told, Ok(true)));
}
