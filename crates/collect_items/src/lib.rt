//! The items of loaded test files: which tests of their modules are items with which rows and what their set-up demands, what words can name
//! of them, in which order they run and which of them `-k` and `-m` choose.
//!
//! # What it is for
//!
//! Collection asks here once all files are loaded, with the objects as they are then. [`found_items`] gives the suite of all test files,
//! its items numbered in one list, with the table of its fixtures, the nodes of each file by which `collect_words` selects, and the fault of
//! the rows of each file; [`ordered`] puts selected items in order, and [`chosen`] keeps of them those that the expressions of `-k` and `-m`
//! accept.
//!
//! # What is proved
//!
//! - [`found_items`] (`findings`): the suite (`suite`), which has the items of the files' tests, file by file, each test as many items as it
//!   has rows, with its names, its marks, its arguments, what its row gives and what its set-up demands, over the table of all definitions,
//!   whose nodes are a tree (`tree`); the place of the file of each (`places`), and what its order goes by (`keys`); what words can name of each
//!   file in the order of the walk (`nodes`); and the fault of the rows of each file (`faults`).
//! - The same in three, where something is done to the rows between: [`read_files`] reads the tests of all files and what rows are made over
//!   (`files_read`), [`table_in`] gives the table in which each test has a node (`table_in`), and [`found_in`] what is found in files whose
//!   items were made (`findings_in`).
//! - [`ordered`]: the numbers in the order that `param_rows` defines (`ordered`). [`chosen`]: exactly the filter by the names of items and of
//!   their marks (`same`), all of them numbers of items (`within`).
//!
//! # What tests alone show
//!
//! That the calls succeed with ample memory (`acceptance`).
//!
//! # What neither shows
//!
//! That the items are pytest's: a reader compares the definitions. Time: all of it is gone through a few times.
#![tactic(auto)]

mod choice;
mod copies;
mod found;
mod item;
mod nodes;
mod order;
mod reads;

pub use choice::chosen;
pub use collect_rows::RowsFault;
pub use found::{FoundFile, FoundItems, FoundSuite, found_items};
pub use order::ordered;
pub use param_rows::ItemKeys;
pub use reads::{FileTests, FilesRead, ItemBasis, found_in, read_files, table_in};
