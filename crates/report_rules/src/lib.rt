//! The report of words and files, and the laws that it meets, apart from any language.
//!
//! # What it is for
//!
//! What words of the command line and files give (options, the selected items, sessions of one thread or of workers that draw
//! files, the bytes that are printed, the status) is one definition over a profile of a language: what its collection makes of
//! sources, its rules, and its texts.
//!
//! # What is proved
//!
//! Each as the contract of a public function with an empty body:
//!
//! - `what_a_report_tells`: a report is the text that words ask for, a refusal of words or files, what collection says of a refusal or
//!   of a conftest that raised, or the report of what collection selects of the files (`Headline`, by the files): the selected items are
//!   distinct, and reported each once, in the stated order, all of them or up to the one with which maxfail was reached; in each hook
//!   call around one the built-in implementation is called once, or another raised before it; each session's journal is lawful; behind
//!   each session no frozen frame is out, and each goes on once; with workers each report has the place that the assignment gives it,
//!   and each worker's rows are those of one thread on the items of its groups. Premise (`IsSound`), which a suite cannot fail, since it
//!   is on the language: what is collected fits its table, the hooks of what is selected have the runner's own implementations, each act
//!   of the rules tells which frames are out behind it, and collection leaves none out.
//! - `every_run_has_a_report`: where each file has a tree or a fault, all words and files have one. `reports_are_one`: where no
//!   file has two, by the groups that workers took it is one; `one_thread_has_one_report`: without workers it is one.
//! - `groups_part_the_items` (`items`, `files`, `filled`, `one_file`, `one_group`): the groups of workers are the files, each item
//!   in one.
//! - `rows_are_of_items`, `items_are_reported_once`, `every_journal_is_lawful`, `no_frame_is_left_out`,
//!   `workers_are_as_one_thread`: the parts of the headline, each by itself.
//! - `places_agree` (`placed`, `as_many`, `none`): with workers each report has one place, in a group that its worker took; as many
//!   places as reports; without workers there is none.
//! - `what_is_shown_is_what_was_counted`: a report shows a failure or an error exactly where a phase of its item was counted as
//!   one; both are read from what the phase tells. `a_stopped_run_fails`: a run that maxfail stopped has a failing status.
//!
//! Computed when the crate is checked: `proofs/Rows.antt` (the groups and rows of a small collection, and the lines that
//! `--setup-show` prints for a worked session of four scopes).
//!
//! # What tests alone show
//!
//! That there is a world of which the laws speak.
//!
//! # What neither shows
//!
//! That a language's collection selects what pytest would, and that a program prints the report: that is the crate which joins this
//! one with a language. That reports of one run with workers don't differ by who draws what is not so, and is not said.
//!
//! The definitions, in the order in which to read them:
//!
//! 1. `specs/Collected.antt`: what collection gives, and what a report asks of a language.
//! 2. `specs/Groups.antt`: the groups of a run with workers.
//! 3. `specs/Rows.antt`: the rows of a session of one thread; `specs/Shares.antt`: those of workers, put in the order of the
//!    groups.
//! 4. `specs/Shown.antt`, `specs/Items.antt`: the lines and the outcome that an item's report shows.
//! 5. `specs/Answer.antt`: what is printed, and the status. `specs/Report.antt`: THE REPORT of words and files.
//! 6. `specs/Fits.antt`, `specs/Once.antt`: what the laws ask and say; `specs/Alone.antt`: workers as one thread each;
//!    `specs/Placed.antt`: the places of reports; `specs/Headline.antt`: THE HEADLINE.
#![tactic(auto)]

mod law;
#[cfg(test)]
mod tests;

pub use law::{
    Tests, a_stopped_run_fails, every_journal_is_lawful, every_run_has_a_report,
    groups_part_the_items, items_are_reported_once, no_frame_is_left_out,
    one_thread_has_one_report, places_agree, reports_are_one, rows_are_of_items,
    what_a_report_tells, what_is_shown_is_what_was_counted, workers_are_as_one_thread,
};
