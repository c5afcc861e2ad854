//! What the words of a command line name in a tree of files: which files are loaded, in which order, and which tests are chosen.
//!
//! # What it is for
//!
//! Collection asks here what needs no interpreter, and loads and collects in between: [`Walk::new`] puts the tree's paths in order;
//! [`named_words`] says what each word names, a folder, a file or a node of a file, or refuses the first that names nothing;
//! [`walked`] gives the test files that `--ignore` leaves, [`test_files`] those that the words reach, and [`conftests`] what is loaded
//! before them; [`selected`] picks the items. Files are places of the walk, items the numbers that the collector gives them.
//!
//! # What is proved
//!
//! - [`Walk::new`]: the same paths, each once, in the order in which collection walks through the folders: by their parts, and these by
//!   their bytes. A tree has one walk ([`one_walk`]).
//! - [`plain_path`], [`is_test_file`], [`is_conftest`]: exactly their definitions.
//! - [`named_words`]: an answer is what the words name, each in turn (`ok`), and each refusal but want of memory is the first word that
//!   names nothing (`refused`): one that leads out of the tree, or whose path is no file and no folder, or that has `::` behind no file.
//! - [`walked`], [`test_files`], [`named_files`], [`conftests`]: exactly the filters of the finished walk that their definitions are; a
//!   file that two words reach stands at the first, and conftests stand parents first.
//! - [`selected`]: an answer is the items that the words reach, each once, in order of words (`ok`); a refusal is `TooManyItems`, where
//!   there are more than `most`, and else the first word whose part behind `::` names nothing of its file (`refused`).
//! - `WordFault`'s `Display` writes exactly `fault_text`.
//!
//! # What tests alone show
//!
//! Nothing in this tree yet.
//!
//! # What neither shows
//!
//! Time. The walk is sorted once, and has an index of its paths. A word that names a folder is held against all paths: so the time grows as
//! such words times files. A node is looked for among its file's items, so that words with `::` grow as words times the items of a file.
#![tactic(auto)]

mod above;
mod cut;
mod fault;
mod files;
mod ignored;
mod named;
mod naming;
mod nodes;
mod paths;
mod select;
mod taken;
mod walk;
mod words;

pub use above::conftests;
pub use fault::WordFault;
pub use files::{named_files, test_files};
pub use ignored::walked;
pub use named::{NamedWord, WordTarget};
pub use nodes::{FileNodes, ItemNames};
pub use paths::{is_conftest, is_test_file, plain_path};
pub use select::selected;
pub use walk::{Walk, one_walk};
pub use words::named_words;
