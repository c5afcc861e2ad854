//! The command line: every list of words is `Options` or one `UsageFault`.
//!
//! # What it is for
//!
//! `pytest_main` reads its words here; before that it asks whether they want a text alone. The options are those of pytest's and
//! pytest-xdist's command line that `table` lists.
//!
//! # What is proved
//!
//! - [`read_words`]: an answer is what the words mean (`ok`), and each refusal but want of memory is the one that they mean
//!   (`refused`): every list of words is `Options` or exactly one `UsageFault`, the first in the words or else `Conflict`, with
//!   the word, option and value that it names.
//! - `options_of`, their meaning, is a function of the whole list: it is cut into paths, settings, faults and texts that are asked for, and of each
//!   option's settings the last counts; paths and paths to ignore are added up.
//! - [`asked_info`] is the text that words ask for (`info_of`): of the faults, `--help`s and `--version`s in the words the first counts,
//!   and behind `--` all words are paths. It takes no memory.
//! - `UsageFault`'s `Display` writes exactly `usage_text`, that of [`Info`] exactly `info_text`.
//! - `Options::asks_for_workers` is true exactly where the items are to run on workers.
//!
//! # What tests alone show
//!
//! 151 command lines with options and texts worked out by hand (in `words_tests`), that the help has a line for each option, and that
//! reading succeeds with ample memory.
//!
//! # What neither shows
//!
//! Time. Each word is read once, and looked up in a table of 19 spellings.
#![tactic(auto)]

mod asked;
mod fault;
mod info;
mod options;
mod read;
mod setting;
mod table;
mod word;

pub use asked::asked_info;
pub use fault::UsageFault;
pub use info::Info;
pub use options::{Dist, Options, Tb};
pub use read::read_words;
pub use word::{Word, Words};
