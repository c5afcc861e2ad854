//! Reading tokens: sets of kinds of tokens as data, the tokens that are left, and where reading stopped.
//!
//! # What it is for
//!
//! A set of tokens is a slice of [`Sign`], a table of operators a slice of pairs. A [`Parser`] has the tokens that are left; a function
//! that reads is lent one, gives what it read, and leaves the tokens behind it, or gives nothing and leaves where reading stopped
//! ([`Stop`]).
//!
//! # What is proved
//!
//! - `first_of`, `begins`: the first token where its kind is in the set, and the tokens behind it; or that there is none.
//! - `Parser::take`, `take_op`, `take_meant`: the first token where its kind is wanted, and the tokens behind it are left; or that
//!   there is none, and nothing is taken. `expect`, `expect_op`: likewise, or the fault at the tokens as they are. `at`, `at_op`,
//!   `at_any`: whether there is one. `stop_blocked`: where no level is left, tokens that could begin are too deep, and others wrong.
//!   `stop_deep`: reading stops too deep, at these tokens. Neither takes a token. `made`: what was made; or, only where what is given is
//!   an error, that memory ran out. No token is taken.
//! - `chars_of`: the characters of a name or a text, and none of any other token.
//!
//! `specs/Parser.antt` has `Gives`, by which functions that are lent a parser say what they give: the value, with the tokens behind it
//! left, or the tokens from the fault on, whether wrong or too deep. Of want of memory it says nothing.
//!
//! # What tests alone show
//!
//! With ample memory no call answers `Stop::Memory` (`expression_tests`).
#![tactic(auto)]

mod cursor;
mod parser;
mod stop;

pub use cursor::{Sign, begins, chars_of, first_of};
pub use parser::Parser;
pub use stop::Stop;
