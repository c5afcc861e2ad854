//! Reads rows on programs, and says which of them do something else than what they want.
//!
//! # What it is for
//!
//! From texts to ends, the machine does what the language's rules say: each row of the input is a program with what is done with it and
//! what comes of that. Values, printed texts and exceptions are CPython's where the language is Python's; steps, traces and the texts
//! that are this language's own are those of a plain model of it. Rows whose names begin with `wrong` want what doesn't come, and
//! must be told, so that a check that passes everything is seen. The rows stand in `stdin` of `acceptance`, which calls [`run_rows`]: a
//! program of their own would state and link the whole machine once more.
//!
//! A row is a line `>>> row NAME`, its sources, each a line `>>> file PATH`, or `>>> explained PATH` where its asserts are explained,
//! and its text, and then its acts in order, each a line:
//!
//! - `>>> load PATH`: the module is loaded.
//! - `>>> call PATH NAME ARGUMENT ..`: the value of a name of a loaded module is called. An argument is a whole number or a name of the
//!   module.
//! - `>>> begin PATH NAME ARGUMENT ..`: likewise the body of a function that yields begins, and its frame is kept where it stops. A frame
//!   before is given up.
//! - `>>> send PATH ARGUMENT`: the body goes on, with a value, or without one with `None`.
//! - `>>> throw PATH NAME ARGUMENT ..`: the body goes on with the exception that a call raises.
//! - `>>> abandon`: the frame is given up.
//! - `>>> names PATH`: the names of a loaded module with their values.
//! - `>>> fault PATH`, `>>> line PATH NUMBER`: the fault of a source, and one of its lines.
//!
//! Behind an act come the budgets under which it is run, each a line `>>> within STEPS`, and below each what comes: the end with the
//! steps and the open calls, and what was printed. Each budget has a world of its own, in which the acts before it were run, each under
//! the first of its budgets. In sources `␍` stands for a carriage return and `␂` for a byte order mark. What stands before the first
//! source of a row is a comment.
//!
//! # What is proved
//!
//! That the call is safe and ends.
#![tactic(auto)]

mod act;
mod code;
mod comes;
mod frames;
mod row;
mod told;
mod world;

use comes::fault_of;
use row::Row;
use std::io;
use std::io::ErrorKind;
use std::thread::{Threads, join};

/// Whether a row does something else than it wants, which is told. It runs on a thread of its own.
fn differs<R: Threads + Sync + Print + AllocGlobal>(rt: &R, row: &Row) -> io::Result<bool> {
    let alloc = rt.alloc();
    let (fault, _) = join(rt, || fault_of(alloc, row), || ());
    match fault {
        Ok(Some(fault)) => {
            println!(rt; "{fault}")?;
            Ok(true)
        }
        Ok(None) => Ok(false),
        Err(_) => Err(io::Error::from(ErrorKind::OutOfMemory)),
    }
}

/// The rows that were read, and those of them that are not as wanted.
#[derive(Drop)]
struct Counts {
    rows: u64,
    differing: u64,
}

impl Counts {
    /// Counts a row; one without a name stands before the first.
    fn count<R: Threads + Sync + Print + AllocGlobal>(
        &mut self,
        rt: &R,
        row: &Row,
    ) -> io::Result<()> {
        if row.name.is_empty() {
            return Ok(());
        }
        self.rows = self.rows.saturating_add(1);
        if differs(rt, row)? {
            self.differing = self.differing.saturating_add(1);
        }
        Ok(())
    }
}

/// Runs the rows of the input, and prints where one does something else than it wants, and how many there are.
pub fn run_rows<R: Threads + Sync + Input + Print + AllocGlobal>(rt: &R) -> io::Result<()> {
    let mut counts = Counts {
        rows: 0,
        differing: 0,
    };
    let mut row = Row::new(rt.alloc(), "")?;
    for line in rt.lines(rt.alloc()) {
        let line = line?;
        if let Some(name) = line.strip_prefix(">>> row ") {
            counts.count(rt, &row)?;
            row = Row::new(rt.alloc(), name)?;
        } else {
            row.take(rt.alloc(), line.as_str())?;
        }
    }
    counts.count(rt, &row)?;
    let Counts { rows, differing } = counts;
    println!(rt; "{rows} rows, {differing} of them not as wanted")
}
