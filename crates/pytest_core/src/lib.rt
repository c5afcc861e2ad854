//! The run of tests, from the words of the command line to the report.
//!
//! # What it is for
//!
//! [`pytest_main`] is the program: it reads the words and the kept files of the tree, or makes up those of `--generated`, collects and runs
//! the tests that the words name, and writes the report as it becomes known.
//!
//! # What is proved
//!
//! - `report`: where the tree tells its files, the bytes that the sink tells grew by exactly the report's bytes, and the status is the
//!   report's; where the status is `SinkFault` or `OutOfMemory`, by a prefix of them; where it is `TreeFault`, by nothing. The report
//!   (`IsTreeReport`) is that of `report_rules` for the language of this program (`profile`: the words that it refuses, the collection of
//!   `collect_tree`, what fixtures and tests do by the rules of `runtest_rules`, and the names of fixtures), over the tree's kept files in
//!   the order of their paths, or over the generated files.
//! - While items of one thread run, what was put are the head and the pieces of the reports that were taken (`ReportWriter`, `Stems`), also
//!   where the run breaks off.
//! - [`one_report`], [`one_report_by`], [`has_report`], laws: words and files have a report; where they ask for no workers, no other, and
//!   with workers no other by the groups that these took. So the clause above names it.
//! - [`what_a_report_tells`], a law, is the headline, by the kept files of the tree. A report is a text that the words ask for, a refusal
//!   (of words that are read wrong, of a wrong expression, of files that pass a limit, or collection's), that of a conftest that failed in
//!   the collection, or the report of what collection selects of the files. There, the selected items are distinct, and reported each
//!   once, in the stated order, all or up to the one with which `--maxfail` was reached; with `--collect-only` all, and where a file could
//!   not be collected none. In each hook call around an item the built-in implementation is called once, or another raised before it: so
//!   the test of an item whose set-up raised nothing runs once. Each session's journal is lawful (`Lawful`: what is set up goes down once, those
//!   that rest on it first). A fixture that yields adds a frozen frame, one that goes on or is given up is taken, and nothing else changes
//!   which are out (`KeepsFrames`); behind each session none is out; and no frame goes on that isn't out (`go_on_once`), so that each that
//!   was suspended goes on once. There is no premise.
//! - `tree`, `read`, `untouched`, `sink`: `TreeFault` comes only where the tree's count of faults rose in this call and the words ask for
//!   a run (`AskForRun`: for no help or version, and they are not refused), and nothing was written then, whatever the tree is;
//!   `SinkFault` comes only where the sink's count rose.
//! - [`refuse_unread_words`]: what is written for a command line with a word that is no text is `unread_words`, with the causes and
//!   prefixes of a report.
//! - `Status::number` is the number of pytest's exit codes.
//!
//! # What tests alone show
//!
//! That it succeeds with ample memory, the bytes of worked reports, and that nothing is put behind a put that failed (`acceptance`). That
//! the head is put before anything runs, and each piece before the next item runs, is the code's order, which no clause says.
//!
//! # What neither shows
//!
//! That what is collected, and what its tests do, is what pytest's does: a reader compares the definitions. Time. That a folder holds
//! what the tree tells.
#![tactic(auto)]

mod answer;
mod collected;
mod laws;
mod one_group;
mod refusal;
mod report;
mod request;
mod run;
mod session;
mod status;
mod unread;
mod workers;
mod writer;
mod writing;

pub use laws::{has_report, one_report, one_report_by, what_a_report_tells};
pub use run::pytest_main;
pub use status::Status;
pub use unread::refuse_unread_words;
