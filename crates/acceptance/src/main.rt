//! Runs the worked cases and the rows of its folder and of its input, and says which of them differ from what they want.
//!
//! # What it is for
//!
//! Each file `NAME.case` has words, files, and what a run over them must write and answer; where it tells so, a call of the tree or the
//! sink fails or wants memory, or each in turn, or the last file is cut behind each of its bytes, or it is said which worker draws which
//! group; where it asks for it, the journal of its run is read besides, by `journal_tests`. Those named `wrong_..` want what no run
//! writes or answers, and must be told as wrong, so that a checker that passes everything is seen. The rows of `expressions.rows` are
//! sources for the front end alone, those of `values.rows` are on values, operators and calls, and those of `stdin` programs for the
//! machine alone, under exact budgets; `expression_tests`, `value_tests` and `machine_tests` read and run them, and their pages say what a
//! row is.
//!
//! # What is proved
//!
//! That the program is safe and ends. What the cases show is a test of `pytest_main`, whose meaning is proved in
//! `pytest_core`.
#![tactic(auto)]

mod calls;
mod case;
mod check;
mod draws;
mod ends;
mod run;
mod scarce;

use case::read_case;
use check::check;
use machine_tests::run_rows;
use std::alloc::{AllocError, Global};
use std::rt::Files;
use std::thread::Threads;
use std::{fs, io};

/// The names of the folder's cases, in order.
fn case_names<R: Files + AllocGlobal + Clone + Drop>(rt: &R) -> io::Result<Vec<String>> {
    let mut names = Vec::new(rt.alloc());
    for entry in fs::read_dir(rt, ".")? {
        let entry = entry?;
        if entry.file_name().as_bytes().ends_with(b".case") {
            names.push(String::from_str(rt.alloc(), entry.file_name())?)?;
        }
    }
    names.sort()?;
    Ok(names)
}

/// What is wrong with a case, or an empty text.
fn fault_of<R: Threads + Sync>(rt: &R, alloc: Global, text: &str) -> Result<String, AllocError> {
    match read_case(alloc, text)? {
        Some(case) => check(rt, alloc, &case),
        None => String::from_str(alloc, "it is no case\n"),
    }
}

fn run_cases<R: Threads + Sync + Files + Print + AllocGlobal + Clone + Drop>(
    rt: &R,
) -> io::Result<()> {
    let names = case_names(rt)?;
    let mut differing = 0u64;
    for name in &names {
        let text = fs::read_to_string(rt, name.as_str())?;
        let fault = fault_of(rt, rt.alloc(), text.as_str())?;
        if !fault.is_empty() {
            differing = differing.saturating_add(1);
            println!(rt; "{name}: {fault}")?;
        }
    }
    println!(rt; "{} cases, {differing} of them not as wanted", names.len())
}

fn main(rt: HostRuntime) -> io::Result<()> {
    run_cases(&rt)?;
    let sources = fs::read_to_string(&rt, "expressions.rows")?;
    expression_tests::read_rows(&rt, sources.as_str())?;
    let values = fs::read_to_string(&rt, "values.rows")?;
    value_tests::read_rows(&rt, values.as_str())?;
    run_rows(&rt)
}
