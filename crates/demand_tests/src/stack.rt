// Demands and teardowns of two items that run one behind the other.

use crate::benches::{
    Asking, Row, TestDemand, bench_of, both, deep, end, item, row_of, run, told_of, with_parameter,
};
use crate::logs::{Cause, LogEntry, Part, Way};
use crate::undoing::all_is_undone;
use seq::OutOfMemory;
use session_types::Scope;
use std::alloc::Global;

/// Tests that pass and ask for these, each closure demanded in one call.
fn asks_for<'h>(args: &'h [u32]) -> TestDemand<'h> {
    TestDemand {
        args,
        asking: Asking::AtOnce,
        raises: false,
    }
}

/// Whether these definitions leave this journal, and these exceptions are told.
fn is_told(
    alloc: Global,
    rows: &[Row],
    how: TestDemand,
    lines: &[LogEntry],
    raised: &[Cause],
) -> Result<bool, OutOfMemory> {
    let told = told_of(alloc, rows, how)?;
    Ok(told.world.lines.items() == lines && told.raised.items() == raised)
}

/// What a fixture of the session, one of the file that asks for it, and one of each item that asks for both leave in a journal.
const NESTED: [LogEntry; 18] = [
    LogEntry::Begun(0),
    LogEntry::Begun(1),
    LogEntry::Begun(2),
    LogEntry::Called(2),
    LogEntry::Closed(2),
    LogEntry::Resumed(2),
    LogEntry::Finalized(2),
    LogEntry::Begun(2),
    LogEntry::Called(3),
    LogEntry::Closed(2),
    LogEntry::Resumed(2),
    LogEntry::Finalized(2),
    LogEntry::Closed(1),
    LogEntry::Resumed(1),
    LogEntry::Finalized(1),
    LogEntry::Closed(0),
    LogEntry::Resumed(0),
    LogEntry::Finalized(0),
];

/// Whether they leave it where they are asked for so.
fn is_nested(alloc: Global, asking: Asking) -> Result<bool, OutOfMemory> {
    let rows = [
        row_of(Scope::Session, &[], Way::YieldsOnce),
        row_of(Scope::Module, &[0], Way::YieldsOnce),
        row_of(Scope::Function, &[1, 0], Way::YieldsOnce),
    ];
    let how = TestDemand {
        args: &[2],
        asking,
        raises: false,
    };
    is_told(alloc, &rows, how, &NESTED, &[])
}

/// pytest's fixture guide, "Teardown/Cleanup": what came up last goes down first; scopes, "Fixture scopes".
#[test]
fn what_came_up_last_goes_down_first(rt: HostRuntime) {
    for asking in [Asking::OneByOne, Asking::AtOnce] {
        assert!(rt; matches!(is_nested(rt.alloc(), asking), Ok(true)));
    }
}

/// The exception of a broad fixture is kept, and given to each item of its scope; its function isn't called again.
#[test]
fn a_failure_is_kept(rt: HostRuntime) {
    let rows = [
        row_of(Scope::Session, &[], Way::Raises),
        row_of(Scope::Function, &[0], Way::YieldsOnce),
    ];
    let lines = [
        LogEntry::Begun(0),
        LogEntry::Closed(0),
        LogEntry::Finalized(0),
    ];
    let raised = [Cause::InSetUp(0), Cause::InSetUp(0)];
    let told = is_told(rt.alloc(), &rows, asks_for(&[1]), &lines, &raised);
    assert!(rt; matches!(told, Ok(true)));
}

/// Whether what three definitions raise in their ends is told, the last one's first, behind each item.
fn are_ends_told(alloc: Global) -> Result<bool, OutOfMemory> {
    let failing = Row {
        args: &[],
        part: Part {
            scope: Scope::Function,
            way: Way::Returns,
            fails: true,
        },
    };
    let rows = [
        row_of(Scope::Function, &[], Way::YieldsTwice),
        row_of(Scope::Function, &[], Way::RaisesBehind),
        failing,
    ];
    let told = told_of(alloc, &rows, asks_for(&[0, 1, 2]))?;
    let raised = [
        Cause::InFinalizer(2),
        Cause::InTeardown(1),
        Cause::SecondYield(0),
        Cause::InFinalizer(2),
        Cause::InTeardown(1),
        Cause::SecondYield(0),
    ];
    let is_logged = told.world.lines.len() == 24 && told.world.last == Some(0);
    Ok(is_logged && told.raised.items() == &raised[..])
}

/// All teardowns run, whatever raises, and each exception is told.
#[test]
fn each_end_is_told(rt: HostRuntime) {
    assert!(rt; matches!(are_ends_told(rt.alloc()), Ok(true)));
}

/// Whether it is told of a generator that it doesn't yield.
fn is_lack_told(alloc: Global) -> Result<bool, OutOfMemory> {
    let rows = [row_of(Scope::Function, &[], Way::NeverYields)];
    let told = told_of(alloc, &rows, asks_for(&[0]))?;
    Ok(told.raised.items() == &[Cause::NoYield(0), Cause::NoYield(0)][..])
}

#[test]
fn a_generator_must_yield(rt: HostRuntime) {
    assert!(rt; matches!(is_lack_told(rt.alloc()), Ok(true)));
}

/// What a fixture with another parameter for each item, and one that asks for it, leave in a journal.
const REPLACED: [LogEntry; 18] = [
    LogEntry::Begun(0),
    LogEntry::Begun(1),
    LogEntry::Called(2),
    LogEntry::Closed(1),
    LogEntry::Resumed(1),
    LogEntry::Finalized(1),
    LogEntry::Closed(0),
    LogEntry::Resumed(0),
    LogEntry::Finalized(0),
    LogEntry::Begun(0),
    LogEntry::Begun(1),
    LogEntry::Called(3),
    LogEntry::Closed(1),
    LogEntry::Resumed(1),
    LogEntry::Finalized(1),
    LogEntry::Closed(0),
    LogEntry::Resumed(0),
    LogEntry::Finalized(0),
];

/// What they leave where what rests on it raises as it goes down: all of them go down, and for the other item nothing comes up.
const NOT_REPLACED: [LogEntry; 9] = [
    LogEntry::Begun(0),
    LogEntry::Begun(1),
    LogEntry::Called(2),
    LogEntry::Closed(1),
    LogEntry::Resumed(1),
    LogEntry::Finalized(1),
    LogEntry::Closed(0),
    LogEntry::Resumed(0),
    LogEntry::Finalized(0),
];

/// What they leave where both items have one parameter.
const KEPT: [LogEntry; 10] = [
    LogEntry::Begun(0),
    LogEntry::Begun(1),
    LogEntry::Called(2),
    LogEntry::Called(3),
    LogEntry::Closed(1),
    LogEntry::Resumed(1),
    LogEntry::Finalized(1),
    LogEntry::Closed(0),
    LogEntry::Resumed(0),
    LogEntry::Finalized(0),
];

/// Whether they leave this where the other item has this parameter and what rests on it goes this way, all is undone, and these exceptions
/// are told.
fn is_replaced(
    alloc: Global,
    number: u32,
    way: Way,
    lines: &[LogEntry],
    raised: &[Cause],
) -> Result<bool, OutOfMemory> {
    let rows = [
        row_of(Scope::Session, &[], Way::YieldsOnce),
        row_of(Scope::Module, &[0], way),
    ];
    let one = with_parameter(alloc, 2, 0)?;
    let other = with_parameter(alloc, 3, number)?;
    let mut made = bench_of(alloc, &rows)?;
    let done = both(&mut made, &one, &other, asks_for(&[1]));
    let world = end(made);
    let told = done?;
    let is_undone = all_is_undone(alloc, &rows, lines)?;
    Ok(is_undone && world.lines.items() == lines && told.items() == raised)
}

/// The same for another parameter, for one whose teardown raises, and for the same.
fn are_replaced(alloc: Global) -> Result<bool, OutOfMemory> {
    let raised = [Cause::InTeardown(1)];
    let another = is_replaced(alloc, 1, Way::YieldsOnce, &REPLACED, &[])?;
    let raising = is_replaced(alloc, 1, Way::RaisesBehind, &NOT_REPLACED, &raised)?;
    let same = is_replaced(alloc, 0, Way::YieldsOnce, &KEPT, &[])?;
    Ok(another && raising && same)
}

/// pytest's fixture guide, "Automatic grouping of tests by fixture instances": where the parameter changes, the old one goes down, and
/// before it what depends on it; then the new one comes up, unless one of these teardowns raised. With the same parameter it stays.
#[test]
fn another_parameter_replaces(rt: HostRuntime) {
    assert!(rt; matches!(are_replaced(rt.alloc()), Ok(true)));
}

/// Whether sixty are set up, the deepest first, and given up, the deepest first too.
fn are_given_up(alloc: Global) -> Result<bool, OutOfMemory> {
    let mut made = deep(alloc, 60)?;
    let how = TestDemand {
        args: &[0],
        asking: Asking::OneByOne,
        raises: false,
    };
    let done = run(&mut made, &item(alloc, 2), how);
    let world = end(made);
    let is_begun = world.lines.len() == 61
        && world.lines.items().first() == Some(&LogEntry::Begun(59));
    let are_given_up = world.last == Some(0) && world.before == Some(1);
    Ok(done?.is_empty() && is_begun && are_given_up)
}

/// Demands go deep, and the frames that are out are given up in order of set-up.
#[test]
fn frames_are_given_up(rt: HostRuntime) {
    assert!(rt; matches!(are_given_up(rt.alloc()), Ok(true)));
}
