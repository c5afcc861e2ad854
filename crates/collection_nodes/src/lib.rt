//! The tree of collection: its folders, files and classes of tests, each with its node, and texts by number.
//!
//! # What it is for
//!
//! Collection asks here once all files are loaded. [`all_folders`] and [`placed_files`] number the tree's nodes, [`outer_nodes`] are those
//! in front of the nodes of the tests, and [`Mentions`] number texts: folders, the classes of a file, and above here the names of fixtures.
//!
//! # What is proved
//!
//! - [`all_folders`], [`placed_files`]: the root and the folders above the files, each once, and the files behind them with the nodes of
//!   their classes (`all_folders`, `placed_files`).
//! - [`outer_nodes`]: the nodes of folders, files and classes, each with its parent (`outer_nodes`).
//! - [`outer_node`], [`class_node`]: the node of the folder in which a path stands, and that of a class of a file (`folder_node`,
//!   `class_node`).
//! - [`Mentions`]: each text once, in the order of their first mention; a text's number is its place (`with_mention`, `number_among`).
//!
//! # What tests alone show
//!
//! That the calls succeed with ample memory (`acceptance`).
//!
//! # What neither shows
//!
//! That the tree is pytest's: a reader compares the definitions. Time: texts are numbered by a hash map, and each path, file and class is
//! gone through a few times.
//!
//! The definitions, in the order in which to read them: `specs/Texts.antt` (texts by number), `specs/Tree.antt` (the tree and its nodes).
#![tactic(auto)]

pub use py_world::TraceFrame;

mod folders;
mod mentions;
mod placed_file;
mod test_file;
mod tree;

pub use folders::{all_folders, file_path, outer_node, path_text};
pub use mentions::{Mentions, narrow};
pub use placed_file::PlacedFile;
pub use test_file::TestFile;
pub use tree::{class_node, classes_of, names_of_file, outer_nodes, placed_files, plus};
