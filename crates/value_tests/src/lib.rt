//! Reads rows on values, on operators, items and calls, on arguments, imports and patterns, and on what modules collect, and says which
//! of them give something else than what they want.
//!
//! # What it is for
//!
//! What the definitions of the values' crates give is what CPython gives, and what those of collect_names and collect_marks give is what
//! pytest collects: each line is a row, made outside. Values and reprs are CPython's, and so are what parameters are given and
//! whether a pattern is found; costs, the texts of errors and which texts are patterns are those of a plain model of the language, and so
//! is the path that an import names; of a module, what a plain model of pytest gave for a source in Python that says the same. What has
//! a cost is run with exactly its steps too, and with one fewer, which exhausts it; a search has its budget in its row. Rows that begin
//! with `wrong` want what isn't given, and must be told, so that a check that passes everything is seen. The rows stand in
//! `data/values.rows` of `acceptance`, which calls [`read_rows`].
//!
//! A row is what is done, its operands and what is wanted, with a tab between them. What is done is a word, of which `steps` knows those
//! that have a cost and `row` all others, and what stands behind the word. Operands are spelled as `spelled` says, modules as `modules`
//! does, arguments and imports as `binding` does, patterns as `patterns` does. A control character is written as its picture (`␊` for a
//! line end). Lines that begin with `#`, and empty ones, are no rows.
//!
//! # What is proved
//!
//! That the call is safe and ends.
#![tactic(auto)]

mod binding;
mod calls;
mod classes;
mod collection;
mod items;
mod objects;
mod operators;
mod patterns;
mod row;
mod shown;
mod special;
mod spelled;
mod steps;
mod values;

use row::fault_of;
use std::io;
use std::io::ErrorKind;

/// Reads rows, and prints where one gives something else than it wants, and how many there are.
pub fn read_rows<R: Print + AllocGlobal>(rt: &R, rows: &str) -> io::Result<()> {
    let mut read = 0u64;
    let mut differing = 0u64;
    for line in rows.lines() {
        if line.is_empty() || line.starts_with('#') {
            continue;
        }
        read = read.saturating_add(1);
        match fault_of(rt.alloc(), line) {
            Ok(Some(fault)) => {
                differing = differing.saturating_add(1);
                println!(rt; "{fault}")?;
            }
            Ok(None) => {}
            Err(_) => return Err(io::Error::from(ErrorKind::OutOfMemory)),
        }
    }
    println!(rt; "{read} rows, {differing} of them not as wanted")
}
