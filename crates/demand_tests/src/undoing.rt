// What a journal says of the fixtures that were set up: a short reading of it that knows nothing of the stack.

use crate::benches::{Row, row_of};
use crate::logs::{LogEntry, Way};
use seq::OutOfMemory;
use session_types::Scope;
use std::alloc::Global;

/// The fixtures that are up, the latest last, and the lines that are due next, the next last.
#[derive(Drop)]
struct Reading {
    up: Vec<u32>,
    due: Vec<LogEntry>,
}

/// Whether a function stands at its `yield` once its fixture is set up.
fn stands(way: Way) -> bool {
    match way {
        Way::Returns => false,
        Way::Raises => false,
        Way::YieldsOnce => true,
        Way::YieldsTwice => true,
        Way::RaisesBehind => true,
        Way::NeverYields => false,
        Way::Loops => false,
        Way::LoopsBehind => true,
    }
}

fn is_standing(rows: &[Row], def: u32) -> bool {
    match rows.get(def as usize) {
        None => false,
        Some(row) => stands(row.part.way),
    }
}

/// A fixture's function is called only while it isn't up, and all that it asks for is.
fn may_begin(rows: &[Row], up: &[u32], def: u32) -> bool {
    if up.contains(&def) {
        return false;
    }
    match rows.get(def as usize) {
        None => false,
        Some(row) => row.args.iter().all(|arg| up.contains(arg)),
    }
}

/// The latest that is up goes down, so all that asked for it is gone. Its `request` is closed; what stands at a `yield` is resumed next, and
/// then its finalizer is called.
fn goes_down(rows: &[Row], reading: &mut Reading, def: u32) -> Result<bool, OutOfMemory> {
    if reading.up.pop() != Some(def) {
        return Ok(false);
    }
    reading.due.push(LogEntry::Finalized(def))?;
    if is_standing(rows, def) {
        reading.due.push(LogEntry::Resumed(def))?;
    }
    Ok(true)
}

fn goes_on(rows: &[Row], reading: &mut Reading, line: LogEntry) -> Result<bool, OutOfMemory> {
    if let Some(due) = reading.due.pop() {
        return Ok(due == line);
    }
    match line {
        LogEntry::Begun(def) => {
            if !may_begin(rows, &reading.up, def) {
                return Ok(false);
            }
            reading.up.push(def)?;
            Ok(true)
        }
        LogEntry::Called(_) => Ok(true),
        LogEntry::Closed(def) => goes_down(rows, reading, def),
        LogEntry::Resumed(_) => Ok(false),
        LogEntry::Finalized(_) => Ok(false),
    }
}

/// Whether each fixture that was set up, or failed to, was undone once, the latest first, behind all that asked for it.
pub fn all_is_undone(alloc: Global, rows: &[Row], lines: &[LogEntry]) -> Result<bool, OutOfMemory> {
    let mut reading = Reading {
        up: Vec::new(alloc),
        due: Vec::new(alloc),
    };
    for line in lines {
        if !goes_on(rows, &mut reading, *line)? {
            return Ok(false);
        }
    }
    Ok(reading.up.is_empty() && reading.due.is_empty())
}

/// Journals, and whether all is undone in them: in the others something is undone too early, too late, twice or never.
const JOURNALS: [(&[LogEntry], bool); 7] = [
    (
        &[
            LogEntry::Begun(0),
            LogEntry::Begun(1),
            LogEntry::Called(2),
            LogEntry::Closed(1),
            LogEntry::Resumed(1),
            LogEntry::Finalized(1),
            LogEntry::Closed(0),
            LogEntry::Finalized(0),
        ],
        true,
    ),
    (
        &[
            LogEntry::Begun(0),
            LogEntry::Begun(1),
            LogEntry::Called(2),
            LogEntry::Closed(1),
            LogEntry::Resumed(1),
            LogEntry::Finalized(1),
            LogEntry::Closed(0),
        ],
        false,
    ),
    (
        &[
            LogEntry::Begun(0),
            LogEntry::Begun(1),
            LogEntry::Called(2),
            LogEntry::Closed(1),
            LogEntry::Resumed(1),
            LogEntry::Finalized(1),
        ],
        false,
    ),
    (
        &[
            LogEntry::Begun(1),
            LogEntry::Called(2),
            LogEntry::Closed(1),
            LogEntry::Resumed(1),
            LogEntry::Finalized(1),
            LogEntry::Closed(0),
            LogEntry::Finalized(0),
        ],
        false,
    ),
    (
        &[
            LogEntry::Begun(0),
            LogEntry::Begun(1),
            LogEntry::Closed(0),
            LogEntry::Finalized(0),
            LogEntry::Closed(1),
            LogEntry::Resumed(1),
            LogEntry::Finalized(1),
        ],
        false,
    ),
    (
        &[
            LogEntry::Begun(0),
            LogEntry::Begun(1),
            LogEntry::Closed(1),
            LogEntry::Finalized(1),
            LogEntry::Closed(0),
            LogEntry::Finalized(0),
        ],
        false,
    ),
    (
        &[
            LogEntry::Begun(0),
            LogEntry::Closed(0),
            LogEntry::Finalized(0),
            LogEntry::Closed(0),
            LogEntry::Finalized(0),
        ],
        false,
    ),
];

/// The first journal that is read otherwise.
fn wrong_journal(alloc: Global) -> Result<Option<&'static [LogEntry]>, OutOfMemory> {
    let rows = [
        row_of(Scope::Session, &[], Way::Returns),
        row_of(Scope::Session, &[0], Way::YieldsOnce),
    ];
    for (lines, wanted) in &JOURNALS {
        if all_is_undone(alloc, &rows, lines)? != *wanted {
            return Ok(Some(*lines));
        }
    }
    Ok(None)
}

#[test]
fn what_is_not_undone_is_seen(rt: HostRuntime) {
    assert_eq!(rt; wrong_journal(rt.alloc()), Ok(None));
}
