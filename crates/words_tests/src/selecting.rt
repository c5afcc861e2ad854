//! Expected values are pytest's: its documentation ("Working with custom markers", "Using -k expr to select tests").

use crate::lines::words_of;
use cli_words::{Options, read_words};
use mark_expr::{OutOfMemory, PyName};
use selection::{is_selected, read_exprs};
use std::alloc::{AllocError, Global};

/// Words, with `|` between them, and the text of the fault of their expressions.
pub const FAULTS: [(&str, &str); 13] = [
    ("", ""),
    ("-k|(", "wrong expression in -k at column 2"),
    ("-m|(", "wrong expression in -m at column 2"),
    ("-m|(|-k|a b", "wrong expression in -k at column 3"),
    ("-k|a|-m|b or", "wrong expression in -m at column 5"),
    ("-k|é", "wrong expression in -k at column 1"),
    ("-k| \t ", ""),
    ("-k= |-m|\t", ""),
    ("-k|\n", "wrong expression in -k at column 1"),
    ("-k|(|-k|a", ""),
    ("-k|a and not (b or c)|-m|slow", ""),
    (
        "-k(((((((((((((((((((((((((((((((((((((((((((((((((((((((((((((((((((((((((((((((((((((((((((((((((((((",
        "expression in -k too deep",
    ),
    (
        "-m(((((((((((((((((((((((((((((((((((((((((((((((((((((((((((((((((((((((((((((((((((((((((((((((((((((",
        "expression in -m too deep",
    ),
];

/// The text of the fault of the expressions of options, or nothing.
pub fn fault_text(alloc: Global, options: &Options) -> Result<String, AllocError> {
    match read_exprs(alloc, options) {
        Ok(_) => Ok(String::new(alloc)),
        Err(fault) => fault.to_string(alloc),
    }
}

/// Words, with `|` between them, the names of an item and its marks, and whether it is selected.
const SELECTED: [(&str, &str, &str, bool); 19] = [
    ("", "test_a.py test_c", "", true),
    ("-k|not (slow or B) and c", "test_a.py test_c", "", true),
    (
        "-k|not (slow or B) and c",
        "test_a.py test_Slow_c",
        "",
        false,
    ),
    ("-k|not (slow or B) and c", "test_a.py test_bc", "", false),
    ("-k|not (slow or B) and c", "test_a.py test_d", "", false),
    ("-k|SLOW", "test_a.py test_c slow", "slow", true),
    ("-k|A.PY", "test_a.py test_c", "", true),
    ("-k| ", "test_a.py test_c", "", true),
    ("-m|nope", "test_a.py test_c", "", false),
    ("-m|not nope", "test_a.py test_c", "", true),
    ("-m|slow", "test_a.py test_slow", "", false),
    ("-m|slow", "test_a.py test_c slow", "slow", true),
    ("-m|slo", "test_a.py test_c slow", "slow", false),
    ("-m|SLOW", "test_a.py test_c slow", "slow", false),
    ("-m|\t", "test_a.py test_c", "", true),
    ("-k|c|-m|slow", "test_a.py test_c slow", "slow", true),
    ("-k|c|-m|not slow", "test_a.py test_c slow", "slow", false),
    ("-k|d|-m|slow", "test_a.py test_c slow", "slow", false),
    ("-m|web and db", "test_a.py test_c web db", "web db", true),
];

fn names_of(alloc: Global, line: &str) -> Result<Vec<PyName>, OutOfMemory> {
    let mut names = Vec::new(alloc);
    for name in line.split_whitespace() {
        names.push(PyName::from_str(alloc, name)?)?;
    }
    Ok(names)
}

/// Whether options select the item of these names and marks, where their expressions are read.
fn selects_by(
    alloc: Global,
    options: &Options,
    names: &[PyName],
    marks: &[PyName],
) -> Option<bool> {
    match read_exprs(alloc, options) {
        Ok(exprs) => Some(is_selected(&exprs, names, marks)),
        Err(_) => None,
    }
}

/// Whether words select the item of these names and marks, where they are read.
fn selects(
    alloc: Global,
    line: &str,
    names: &str,
    marks: &str,
) -> Result<Option<bool>, OutOfMemory> {
    let words = words_of(alloc, line)?;
    let names = names_of(alloc, names)?;
    let marks = names_of(alloc, marks)?;
    Ok(match read_words(alloc, &words) {
        Ok(options) => selects_by(alloc, &options, &names, &marks),
        Err(_) => None,
    })
}

/// The first row that doesn't hold.
fn wrong_selection(alloc: Global) -> Option<(&'static str, &'static str)> {
    for (line, names, marks, wanted) in &SELECTED {
        if selects(alloc, line, names, marks) != Ok(Some(*wanted)) {
            return Some((*line, *names));
        }
    }
    None
}

#[test]
fn both_options_select(rt: HostRuntime) {
    assert_eq!(rt; wrong_selection(rt.alloc()), None);
}
