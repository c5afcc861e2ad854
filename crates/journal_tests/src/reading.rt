// What a journal tells: a short reading of it that knows nothing of a session.

use seq::OutOfMemory;
use session_types::{Event, Made};
use std::alloc::Global;

/// A fixture that came up or failed to: its number, those on which it rests, directly or through others, and whether it went down.
#[derive(Drop)]
struct Noted {
    n: u64,
    rests: Vec<u64>,
    is_down: bool,
}

/// What was read: the fixtures, the one whose end is due, and how many came up and how many failed to.
#[derive(Drop)]
struct Reading {
    noted: Vec<Noted>,
    due: Option<u64>,
    up: u64,
    failed: u64,
}

/// Appends those on which a fixture rests.
fn push_rests(rests: &mut Vec<u64>, noted: &[Noted], n: u64) -> Result<(), OutOfMemory> {
    for one in noted {
        if one.n == n {
            rests.extend_from_slice(&one.rests)?;
        }
    }
    Ok(())
}

/// All on which a fixture with these bases rests.
fn rests_of(alloc: Global, noted: &[Noted], bases: &[u64]) -> Result<Vec<u64>, OutOfMemory> {
    let mut rests = Vec::new(alloc);
    for base in bases {
        rests.push(*base)?;
        push_rests(&mut rests, noted, *base)?;
    }
    Ok(rests)
}

/// Each number comes up once.
fn comes_up(alloc: Global, reading: &mut Reading, made: &Made) -> Result<bool, OutOfMemory> {
    if reading.due.is_some() || reading.noted.iter().any(|one| one.n == made.n) {
        return Ok(false);
    }
    let rests = rests_of(alloc, &reading.noted, made.bases.items())?;
    reading.noted.push(Noted {
        n: made.n,
        rests,
        is_down: false,
    })?;
    Ok(true)
}

/// What begins to go down is up, and all that rests on it is down.
fn begins_down(reading: &mut Reading, n: u64) -> bool {
    let is_up = reading.noted.iter().any(|one| one.n == n && !one.is_down);
    let is_asked = reading
        .noted
        .iter()
        .any(|one| !one.is_down && one.rests.contains(&n));
    if reading.due.is_some() || !is_up || is_asked {
        return false;
    }
    reading.due = Some(n);
    true
}

/// What is down is what began to go down right before.
fn ends_down(reading: &mut Reading, n: u64) -> bool {
    if reading.due != Some(n) {
        return false;
    }
    reading.due = None;
    for one in &mut reading.noted {
        if one.n == n {
            one.is_down = true;
        }
    }
    true
}

/// Whether an event may stand behind those that were read.
fn takes(alloc: Global, reading: &mut Reading, event: &Event) -> Result<bool, OutOfMemory> {
    match event {
        Event::Up(made) => {
            reading.up = reading.up.saturating_add(1);
            comes_up(alloc, reading, made)
        }
        Event::UpFailed(made) => {
            reading.failed = reading.failed.saturating_add(1);
            comes_up(alloc, reading, made)
        }
        Event::DownBegins(n) => Ok(begins_down(reading, *n)),
        Event::Down(n, _) => Ok(ends_down(reading, *n)),
        Event::CallBegins(..) | Event::CallEnds(_) => Ok(reading.due.is_none()),
    }
}

/// Reads events, and says whether all may stand there and none is up at their end.
fn is_lawful(alloc: Global, reading: &mut Reading, events: &[Event]) -> Result<bool, OutOfMemory> {
    for event in events {
        if !takes(alloc, reading, event)? {
            return Ok(false);
        }
    }
    Ok(reading.due.is_none() && reading.noted.iter().all(|one| one.is_down))
}

/// How many fixtures of a journal came up and how many failed to, or that it isn't lawful.
pub fn told(alloc: Global, events: &[Event]) -> Result<String, OutOfMemory> {
    let mut reading = Reading {
        noted: Vec::new(alloc),
        due: None,
        up: 0,
        failed: 0,
    };
    if !is_lawful(alloc, &mut reading, events)? {
        return Ok(String::from_str(alloc, "not lawful\n")?);
    }
    let (up, failed) = (reading.up, reading.failed);
    Ok(format!(in alloc; "{up} up, {failed} failed\n")?)
}
