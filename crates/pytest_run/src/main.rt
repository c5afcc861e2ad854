//! The command `pytest_run [options] [paths]`: runs the tests of the current folder.
//!
//! # What it is for
//!
//! The program. It hands the words of the command line, the current folder and the standard output to `pytest_main`, and ends
//! with the number of its status. A run that ends otherwise than by its report says why, in a line on the standard error: for want of
//! memory, since a folder could not be listed or a file could not be read, or since the report could not be written.
//!
//! # What is proved
//!
//! That the program is safe and ends. What it writes and answers is `pytest_main`'s, whose clauses stand in `pytest_core`; where a word
//! is no text, `refuse_unread_words`'s. Of the line on the standard error nothing is proved.
//!
//! # What tests alone show
//!
//! That the program starts, runs the made-up tree on four workers and writes its report: one run, with its output and its status. The
//! line on the standard error is shown by `bench/outside.py`, outside of the gate.
//!
//! # What is trusted
//!
//! The folder and the standard output as `edge_io` takes them.
#![tactic(auto)]

mod noted;

use edge_io::{OpenGate, StdSink};
use noted::NotedTree;
use pytest_core::{Status, pytest_main, refuse_unread_words};
use std::alloc::AllocError;
use std::process::ExitCode;
use std::rt::{Env, Files};
use std::thread::Threads;
use std::{env, io};

/// The words of the command line behind the program's name.
fn words<R: Env + AllocGlobal>(rt: &R) -> io::Result<Vec<String>> {
    let mut words = Vec::new(rt.alloc());
    for word in env::args(rt)?.skip(1) {
        words.push(word)?;
    }
    Ok(words)
}

/// How a run ended, and the path of what could not be listed or read, where it is known.
type End = (Status, Option<String>);

fn run<R: Threads + Sync + Files + Env + Print + AllocGlobal + Clone + Drop>(
    rt: &R,
) -> Result<End, AllocError> {
    let mut out = StdSink::new(io::writer(rt));
    let words = match words(rt) {
        Ok(words) => words,
        Err(e) if e.kind() == io::ErrorKind::OutOfMemory => return Err(AllocError),
        Err(_) => return Ok((refuse_unread_words(rt.alloc(), &mut out), None)),
    };
    let mut tree = NotedTree::new(rt.clone()?)?;
    let status = pytest_main(rt, rt.alloc(), &words, &mut tree, &mut out, &OpenGate);
    Ok((status, tree.into_failed()))
}

/// Says on the standard error why a run ended, where its report doesn't.
fn tell_end<R: Eprint>(rt: &R, status: Status, failed: Option<&str>) -> io::Result<()> {
    match (status, failed) {
        (Status::OutOfMemory, _) => eprintln!(rt; "pytest_run: out of memory"),
        (Status::TreeFault, Some(path)) => eprintln!(rt; "pytest_run: cannot read {path}"),
        (Status::TreeFault, None) => eprintln!(rt; "pytest_run: cannot read a file or a folder"),
        (Status::SinkFault, _) => eprintln!(rt; "pytest_run: cannot write the report"),
        (
            Status::Passed | Status::Failed | Status::Interrupted | Status::Usage | Status::NoTests,
            _,
        ) => Ok(()),
    }
}

fn main(rt: HostRuntime) -> ExitCode {
    let (status, failed) = match run(&rt) {
        Ok(end) => end,
        Err(AllocError) => (Status::OutOfMemory, None),
    };
    // Where the standard error fails too, the status alone tells it.
    let _ = tell_end(&rt, status, failed.as_deref());
    ExitCode::from(status.number())
}
