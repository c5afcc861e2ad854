//! Places in a source, its texts, and the kinds of fault that a source can have.
//!
//! # What it is for
//!
//! What tokens, trees and their faults speak of: [`Pos`], [`SrcText`], and the faults with the messages that the report
//! shows as a `SyntaxError`.
//!
//! # What is proved
//!
//! - `SyntaxKind::from`: the fault of a whole source that has the name of the tokens' fault.
//! - `SyntaxKind::text`, `SourceFault::text`: exactly the message of each fault. `SourceFault::line`: its line.
//!
//! # What tests alone show
//!
//! Some messages as a reader of the report sees them.
#![tactic(auto)]

mod fault;
mod pos;
#[cfg(test)]
mod tests;

pub use fault::{LexKind, SourceFault, SyntaxKind};
pub use pos::Pos;
use seq::CharText;

/// So many brackets, blocks or constructs may be open at a place of a source.
pub const MOST_LEVELS: usize = 100;

/// A name or a text of a source, seen as the list of its characters.
pub type SrcText = CharText;
