//! The collection: what the words of a command line collect from the files of a tree.
//!
//! # What it is for
//!
//! [`collect`] names the words, loads the conftests with their hooks and the test files that they reach, finds the items, and selects by
//! the words and by `-k` and `-m` (pytest's how-to guide, "Specifying which tests to run"; its "Conventions for Python test discovery").
//!
//! # What is proved
//!
//! - [`collect`]: what it gives is the collection of the files' sources (`told`, by `collect options sources`): the items that the words
//!   select and `-k` and `-m` accept, each test as many items as it has rows, those with the same parameters of a broad scope side by side,
//!   the number of the others, the errors of collection in the order of the files, those of rows among them, and the world behind all loads;
//!   or the first refusal: a word whose path names nothing, a conftest that fails, more than 65,536 items, or a word whose part behind `::`
//!   names nothing. Where conftests have the hook that makes ids, it was asked for them behind all loads (`collect_ids`), and the world is
//!   the one behind it.
//! - [`collect`]: what was collected can run (`within`, by `IsWithin`): the nodes of the table are a tree, its definitions are the
//!   fixtures of the suite with their scopes, its hooks are in hook order, and each item is found by its node, which the table has, and its
//!   closure fits the rules of the suite; the selected numbers are those of items, no more than 65,536 are selected before `-k` and `-m`,
//!   and no more errors.
//! - [`what_is_collected_fits`]: the closures of the items fit any rules that have the suite's fixtures and their scopes, as those of
//!   `runtest_rules` do, and no two selected items have one node: what a report's laws ask of a collection.
//!
//! Behind want of memory a world is spent.
//!
//! # What tests alone show
//!
//! That the call succeeds with ample memory (`acceptance`). The definition is held against the model of `oracle`, a plain program, on some
//! thousands of random trees and words.
//!
//! # What neither shows
//!
//! That what is collected is what pytest collects: a reader compares the definitions. Time.
#![tactic(auto)]

pub use collect_items::FoundSuite;
pub use fixture_world::{RunSetting, RunWorld};

mod collected;
mod collection;
mod conftests;
mod errors;
mod fault;
mod found;
mod law;
mod loads;
mod walk;

pub use collected::Collected;
pub use collection::collect;
pub use fault::CollectFault;
pub use law::what_is_collected_fits;
