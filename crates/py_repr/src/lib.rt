//! What is shown of values: their repr, their text, and the messages of exceptions.
//!
//! # What it is for
//!
//! `str`, `print`, explanations and reports show values. Each asks for so many characters at most.
//!
//! # What is proved
//!
//! - `repr`, `str` and `message` are `shown most` of `repr_of`, `str_of` and `message_of`: their first characters, at most as many as asked
//!   for, whether there are more (`cut`), and whether a value past the limit of levels begins in them (`deep`). A list, tuple or dict
//!   within itself is shown as `[...]`, `(...)` or `{...}`.
//!
//! # What tests alone show
//!
//! That the definitions show what CPython shows, and that the calls succeed with ample memory (`value_tests`).
//!
//! # What neither shows
//!
//! That no more text is made than is given (a reader sees it: what is past the length is dropped character by character); time.
#![tactic(auto)]

pub mod repr;
mod show;
mod shower;
pub mod shown;
pub mod words;
