use crate::info::{ASKED, asked};
use crate::options::{PATHS_AND_SWITCHES, TEXTS_AND_NUMBERS, WORKERS, WORKERS_AND_FORMS, shown};
use crate::selecting::{FAULTS, fault_text};
use cli_words::{Options, read_words};
use std::alloc::{AllocError, Global};

/// What is told of words.
#[derive(Clone, Copy)]
enum Act {
    Info,
    Options,
    Workers,
    Fault,
}

/// The words of a line with `|` between them.
pub fn words_of(alloc: Global, line: &str) -> Result<Vec<String>, AllocError> {
    let mut words = Vec::new(alloc);
    for word in line.split('|') {
        words.push(String::from_str(alloc, word)?)?;
    }
    Ok(words)
}

fn options_told(alloc: Global, act: Act, options: &Options) -> Result<String, AllocError> {
    match act {
        Act::Info | Act::Options => shown(alloc, options),
        Act::Workers => format!(in alloc; "{}", options.asks_for_workers()),
        Act::Fault => fault_text(alloc, options),
    }
}

/// What is told of the options that words are, or the text of their fault.
fn read(alloc: Global, act: Act, words: &[String]) -> Result<String, AllocError> {
    match read_words(alloc, words) {
        Ok(options) => options_told(alloc, act, &options),
        Err(fault) => fault.to_string(alloc),
    }
}

fn told(alloc: Global, act: Act, line: &str) -> Result<String, AllocError> {
    let words = words_of(alloc, line)?;
    match act {
        Act::Info => String::from_str(alloc, asked(&words)),
        Act::Options | Act::Workers | Act::Fault => read(alloc, act, &words),
    }
}

const TABLES: [(Act, &[(&str, &str)]); 6] = [
    (Act::Info, &ASKED),
    (Act::Options, &PATHS_AND_SWITCHES),
    (Act::Options, &TEXTS_AND_NUMBERS),
    (Act::Options, &WORKERS_AND_FORMS),
    (Act::Workers, &WORKERS),
    (Act::Fault, &FAULTS),
];

/// The first line of a table of which something else is told, with what is told.
fn wrong_in(alloc: Global, act: Act, rows: &[(&str, &str)]) -> Result<String, AllocError> {
    for (line, wanted) in rows {
        let told = told(alloc, act, line)?;
        if told.as_str() != *wanted {
            return format!(in alloc; "{line}: {told}");
        }
    }
    Ok(String::new(alloc))
}

/// The first line of all tables of which something else is told, with what is told; and of no words at all.
fn wrong(alloc: Global) -> Result<String, AllocError> {
    for (act, rows) in &TABLES {
        let wrong = wrong_in(alloc, *act, rows)?;
        if !wrong.is_empty() {
            return Ok(wrong);
        }
    }
    read(alloc, Act::Options, &[])
}

#[test]
fn lines_are_read(rt: HostRuntime) {
    match wrong(rt.alloc()) {
        Ok(told) => assert_eq!(rt; told.as_str(), ""),
        Err(_) => assert!(rt; false, "no memory"),
    }
}
