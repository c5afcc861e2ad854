//! The outside of a run: trees of files that are read, sinks that are written, and gates at which workers meet.
//!
//! # What it is for
//!
//! A run reads a [`Tree`] and writes to a [`Sink`]. Each tells what it holds where it can (one in memory does, a real folder
//! does not), and counts its faults: a fault is answered only where the count rose.
//!
//! # What is proved
//!
//! - [`load_files`]: the files that it gives are the tree's kept ones, by the bytes of their paths, each once (`kept`, `order`);
//!   a limit is answered only where the kept files pass it, and it is the first that they pass (`limit`); `Tree` is answered
//!   only where the tree's faults rose (`cause`); the tree's files stay (`same`). `one_list_of_kept_files`: a tree has one list.
//! - [`put_all`]: Ok appends all bytes, a fault a prefix of them, and a fault has its cause.
//! - [`SureTree`] and [`SureSink`] hold what they were given, or nothing, and never fail; [`MemTree`] and [`MemSink`] fail in
//!   exactly the calls whose numbers they were given (`fails`), and count each call (`counted`); a [`MemSink`] takes exactly
//!   its greatest number of bytes, one at least, or all that there are (`taken`). All are seen by what they hold.
//! - [`StdSink`] and [`DirTree`] begin without faults, and answer one only where their count rose.
//!
//! # What tests alone show
//!
//! That a real folder is read and the standard output written (one test each), and that no call wants memory where there is
//! enough.
//!
//! # What neither shows
//!
//! That a real folder holds what [`DirTree`] gives, that the terminal shows what [`StdSink`] took, time.
//!
//! # What is trusted
//!
//! [`DirTree`] and [`StdSink`], as far as the calls of the system under them go.
#![tactic(auto)]

mod files;
mod folder;
mod gate;
mod memory;
mod order;
mod sink;
mod tree;

pub use files::{
    FILE_MOST, FILES_MOST, Files, LoadFault, TREE_MOST, load_files, one_list_of_kept_files,
};
pub use folder::{DirTree, NAMES_MOST};
pub use gate::{Gate, OpenGate};
pub use memory::{Calls, MemSink, MemTree, SureSink, SureTree};
pub use sink::{Sink, SinkFail, StdSink, put_all};
pub use tree::{Tree, TreeFail};
