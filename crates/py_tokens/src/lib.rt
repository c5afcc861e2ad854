//! The tokens of a source (Language Reference, lexical analysis).
//!
//! # What it is for
//!
//! [`tokens`] gives the tokens of a text, or its first fault. The parser stands on it.
//!
//! # What is proved
//!
//! - `tokens` (`value`): the answer is `layout` of the text's characters. Where that is a list of tokens, it is exactly this
//!   list, each token with its kind, its line and column and its start and end; where it is a fault, exactly this one, with
//!   its place and kind. Nothing that the definition accepts is refused; the only other answer is that memory was wanting.
//! - `layout` cuts the text into marks (blanks, joints, comments, line ends, spelled tokens, or the first place where none is
//!   spelled), the marks into logical lines, and gives each line's tokens with the columns that are open before it. The tab,
//!   indentation and dedent faults of a line come before those of its tokens, and an unclosed bracket is a fault only where
//!   there is no other.
//! - `tokens` (`ended`): a list of tokens ends with `End`.
//!
//! # What tests alone show
//!
//! That the definition gives CPython's tokens (a file, operators, literals, names), each kind of fault at its place, the
//! limits of a hundred, and that the call succeeds with ample memory.
//!
//! # What neither shows
//!
//! Time and stack. The text is read once; a character is looked at a bounded number of times, but for the 47 operators and 35
//! keywords, which are tried in turn.
#![tactic(auto)]

mod bracket;
mod cursor;
mod lexeme;
mod line;
mod op;
mod place;
mod reader;
mod statement;
mod token;
mod word;

pub use op::Op;
pub use reader::tokens;
pub use token::{LexFault, Token, TokenKind};
