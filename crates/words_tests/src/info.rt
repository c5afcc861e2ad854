//! Expected values are those of pytest's command line: the text of the first `--help` or `--version` that no fault comes before.

use cli_words::{Info, asked_info};
use std::alloc::{AllocError, Global};

/// What words ask to be told.
pub fn asked(words: &[String]) -> &'static str {
    match asked_info(words) {
        None => "",
        Some(Info::Help) => "help",
        Some(Info::Version) => "version",
    }
}

/// Words, with `|` between them, and what they ask to be told.
pub const ASKED: [(&str, &str); 40] = [
    ("", ""),
    ("--help", "help"),
    ("--version", "version"),
    ("--help|--version", "help"),
    ("--version|--help", "version"),
    ("--help|--help", "help"),
    ("-v|--help", "help"),
    ("-vx|--help|a", "help"),
    ("a|-|--version", "version"),
    ("--|--help", ""),
    ("--help|--", "help"),
    ("--help|--foo", "help"),
    ("--foo|--help", ""),
    ("--hel", ""),
    ("-h", ""),
    ("-V", ""),
    ("-h|--help", ""),
    ("--help=x", ""),
    ("--help=", ""),
    ("--version=1|--help", ""),
    ("--help|--version=1", "help"),
    ("-k|--help", ""),
    ("-xk|--help", ""),
    ("-k|a|--version", "version"),
    ("-ka|--version", "version"),
    ("-k=|--help", "help"),
    ("-xq|--version", ""),
    ("-vé|--help", ""),
    ("--co=1|--help", ""),
    ("--tb|--help", ""),
    ("--tb=x|--help", ""),
    ("--tb|no|--help", "help"),
    ("--maxfail|2|--help", "help"),
    ("--maxfail|x|--help", ""),
    ("-n9|--help", ""),
    ("-n|8|--help", "help"),
    ("-n2|-x|--help", "help"),
    ("--dist=load|--version", ""),
    ("--generated=1|--help", ""),
    ("--ignore=|--generated=1,2|--version", "version"),
];

/// All spellings of options, as the help has them.
const SPELLED: [&str; 20] = [
    "  -k EXPRESSION ",
    "  -m EXPRESSION ",
    "  -x, --exitfirst ",
    "  --maxfail N ",
    "  --tb STYLE ",
    "  -n, --numprocesses N ",
    "  --dist MODE ",
    "  --ignore PATH ",
    "  -v, --verbose ",
    "  --collect-only, --co ",
    "  --setup-show ",
    "  --step-limit N ",
    "  --generated SEED,FILES ",
    "  --version ",
    "  --help ",
    "  -- ",
    "exit status:\n  0 ",
    "  12 ",
    "example:\n  pytest_run ",
    "usage: pytest_run [options] [paths]\n",
];

/// The first spelling that the help lacks.
fn missing(help: &str) -> Option<&'static str> {
    for spelled in &SPELLED {
        if !help.contains(*spelled) {
            return Some(*spelled);
        }
    }
    None
}

/// The first line that is longer than a terminal.
fn long_line(text: &str) -> Option<&str> {
    for line in text.lines() {
        if line.len() > 80 {
            return Some(line);
        }
    }
    None
}

/// What the help lacks, or its first long line, or nothing.
fn wrong_help(alloc: Global) -> Result<String, AllocError> {
    let help = Info::Help.to_string(alloc)?;
    let text = help.as_str();
    let lacked = missing(text).unwrap_or(if text.ends_with('\n') { "" } else { "line end" });
    let long = long_line(text).unwrap_or("");
    format!(in alloc; "{lacked}{long}")
}

fn is_version_told(alloc: Global) -> Result<bool, AllocError> {
    let version = Info::Version.to_string(alloc)?;
    Ok(version.as_str() == "pytest_run 0.1.0\n")
}

#[test]
fn texts_tell_each_option(rt: HostRuntime) {
    match wrong_help(rt.alloc()) {
        Ok(told) => assert_eq!(rt; told.as_str(), ""),
        Err(_) => assert!(rt; false, "no memory"),
    }
    assert!(rt; matches!(is_version_told(rt.alloc()), Ok(true)));
}
