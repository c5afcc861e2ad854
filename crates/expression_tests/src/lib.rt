//! Reads rows on sources, and says which of them give something else than what they want.
//!
//! # What it is for
//!
//! The tree of each form of statement and of expression is CPython's, with the line and the column of each part, and the first faults of
//! texts that have none stand where a plain model has them. Each form of expression that holds another of its own is read a hundred levels
//! deep, also inside a hundred blocks, and refused at its token with one level more; and so are blocks. Rows that begin with `wrong` want
//! what isn't given, and must be told, so that a check that passes everything is seen.
//!
//! The rows stand in `data/expressions.rows` of `acceptance`, which calls [`read_rows`]: a program of their own would state and link the
//! whole front end once more. What is wanted is made by `oracle/rows.py`.
//!
//! A line is a row: what is done, a text and what is wanted, with a tab between them. `read` reads the text, in which `␊` is a line end:
//! it gives the trees of its statements, or its fault with line and column. `repeat` and a number reads the text so many times in a row.
//! `nest` and a number reads a name with so many times before it what stands before `…`, and behind it what stands behind. `nest`, a
//! number, `in` and another one does so inside as many blocks: the text has first the line that begins a block, then what stands before
//! the nested name on the last line. `blocks` and a number parses the tokens of as many blocks that the word begins, since no text has so
//! many indents. Lines that begin with `#`, and empty ones, are no rows. Each row is read on a thread of its own, on the stack that
//! threads have.
//!
//! # What is proved
//!
//! That the call is safe and ends.
#![tactic(auto)]

mod blocks;
mod row;
mod statement;
mod told;
mod writer;

use row::given;
use std::io;
use std::thread::{Threads, join};

/// Whether a row gives something else than it wants, which is told.
fn differs<R: Threads + Sync + Print + AllocGlobal>(rt: &R, line: &str) -> io::Result<bool> {
    let alloc = rt.alloc();
    let (done, want) = line.rsplit_once('\t').unwrap_or((line, ""));
    let (act, text) = done.split_once('\t').unwrap_or((done, ""));
    let (out, _) = join(rt, || given(alloc, act, text), || ());
    let given = out.text();
    if given == want {
        return Ok(false);
    }
    println!(rt; "{act}, {text}: {given}")?;
    Ok(true)
}

/// Reads rows, and prints where one gives something else than it wants, and how many there are.
pub fn read_rows<R: Threads + Sync + Print + AllocGlobal>(rt: &R, rows: &str) -> io::Result<()> {
    let mut read = 0u64;
    let mut differing = 0u64;
    for line in rows.lines() {
        if line.is_empty() || line.starts_with('#') {
            continue;
        }
        read = read.saturating_add(1);
        if differs(rt, line)? {
            differing = differing.saturating_add(1);
        }
    }
    println!(rt; "{read} rows, {differing} of them not as wanted")
}
