//! The source of a file: the tree that its bytes are, or the first fault.
//!
//! # What it is for
//!
//! A file that is collected or imported is read here: its bytes are a text, the text has tokens, the tokens have a tree.
//!
//! # What is proved
//!
//! - [`source_of`]: what it gives is what the bytes say (`IsSource`): the tree that is the verdict of the grammar on the tokens of the
//!   text, or the first fault: its place and its kind, or the line of the first byte that is no UTF-8. It answers that or want of memory,
//!   and nothing else.
//! - [`one_source`], [`has_source`], laws: bytes say one thing and no other.
//!
//! # What tests alone show
//!
//! That it succeeds with ample memory.
//!
//! # What neither shows
//!
//! Time.
#![tactic(auto)]

mod source;

pub use source::{has_source, one_source, source_of};
