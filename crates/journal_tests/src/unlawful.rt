// Journals that aren't lawful, and one that is.

use crate::reading::told;
use seq::OutOfMemory;
use session_types::{DefId, Event, Made, Numbers};
use std::alloc::Global;

/// An event of a journal, with the base of what comes up, where it has one.
#[derive(Clone, Copy)]
enum Act {
    Up(u64, Option<u64>),
    Fails(u64, Option<u64>),
    Begins(u64),
    Ends(u64),
    Calls,
}

/// What came up or failed to.
fn made(alloc: Global, n: u64, base: Option<u64>) -> Result<Made, OutOfMemory> {
    let mut bases = Numbers::new(alloc);
    if let Some(base) = base {
        bases.push(base)?;
    }
    Ok(Made {
        n,
        def: DefId::new(0),
        param: None,
        node: 0,
        bases,
    })
}

fn event_of(alloc: Global, act: Act) -> Result<Event, OutOfMemory> {
    match act {
        Act::Up(n, base) => Ok(Event::Up(made(alloc, n, base)?)),
        Act::Fails(n, base) => Ok(Event::UpFailed(made(alloc, n, base)?)),
        Act::Begins(n) => Ok(Event::DownBegins(n)),
        Act::Ends(n) => Ok(Event::Down(n, false)),
        Act::Calls => Ok(Event::CallBegins(0, Numbers::new(alloc))),
    }
}

/// What the journal of these acts tells.
fn told_of(alloc: Global, acts: &[Act]) -> Result<String, OutOfMemory> {
    let mut events = Vec::new(alloc);
    for act in acts {
        events.push(event_of(alloc, *act)?)?;
    }
    told(alloc, &events)
}

const LAWFUL: &[Act] = &[
    Act::Up(0, None),
    Act::Up(1, Some(0)),
    Act::Fails(2, Some(1)),
    Act::Calls,
    Act::Begins(2),
    Act::Ends(2),
    Act::Begins(1),
    Act::Ends(1),
    Act::Begins(0),
    Act::Ends(0),
];

const UNLAWFUL: [&[Act]; 9] = [
    // It comes up twice.
    &[
        Act::Up(0, None),
        Act::Begins(0),
        Act::Ends(0),
        Act::Fails(0, None),
    ],
    // It stays up.
    &[Act::Up(0, None)],
    // It failed to come up, and stays.
    &[Act::Fails(0, None)],
    // It goes down before what asked for it.
    &[
        Act::Up(0, None),
        Act::Up(1, Some(0)),
        Act::Begins(0),
        Act::Ends(0),
        Act::Begins(1),
        Act::Ends(1),
    ],
    // It goes down before what rests on it through another, which is down.
    &[
        Act::Up(0, None),
        Act::Up(1, Some(0)),
        Act::Begins(1),
        Act::Ends(1),
        Act::Up(2, Some(1)),
        Act::Begins(0),
        Act::Ends(0),
        Act::Begins(2),
        Act::Ends(2),
    ],
    // It goes down twice.
    &[
        Act::Up(0, None),
        Act::Begins(0),
        Act::Ends(0),
        Act::Begins(0),
        Act::Ends(0),
    ],
    // Its end is missing.
    &[Act::Up(0, None), Act::Begins(0)],
    // Something stands between its beginning and its end.
    &[Act::Up(0, None), Act::Begins(0), Act::Calls, Act::Ends(0)],
    // It ends without having begun.
    &[Act::Up(0, None), Act::Ends(0)],
];

/// The number of the first of the unlawful journals that is told otherwise.
fn first_otherwise(alloc: Global) -> Result<Option<usize>, OutOfMemory> {
    for (number, acts) in UNLAWFUL.iter().enumerate() {
        if told_of(alloc, acts)?.as_str() != "not lawful\n" {
            return Ok(Some(number));
        }
    }
    Ok(None)
}

/// Whether the lawful journal is told as it is.
fn lawful_is_told(alloc: Global) -> Result<bool, OutOfMemory> {
    Ok(told_of(alloc, LAWFUL)?.as_str() == "2 up, 1 failed\n")
}

#[test]
fn unlawful_journals_are_told(rt: HostRuntime) {
    assert_eq!(rt; first_otherwise(rt.alloc()), Ok(None));
}

#[test]
fn a_lawful_journal_is_told(rt: HostRuntime) {
    assert_eq!(rt; lawful_is_told(rt.alloc()), Ok(true));
}
