//! Lists, texts and want of memory: the small types on which every other crate stands.
//!
//! # What it is for
//!
//! [`Seq`] is a list of values over a `Vec`. [`CharText`] is a text over characters, [`ByteText`] one over the bytes of
//! UTF-8, and [`PyText`] the text of the interpreted language. [`OutOfMemory`] is the one answer that says that memory was refused.
//! A crate names its own lists and texts by aliases:
//!
//! ```text
//! /// A name of the source.
//! pub type SrcText = CharText;
//!
//! /// The frames of a trace, outermost first.
//! pub type Frames = Seq<Frame>;
//! ```
//!
//! A list that keeps a rule is a newtype, whose view is the list itself:
//!
//! ```text
//! /// Places of a text, one at least.
//! #[derive(Debug, Drop)]
//! pub struct Places {
//!     numbers: Seq<u32>,
//! }
//!
//! impl Model for Places {
//!     ghost use Rattle.std.specs.Prelude.{List, ℕ, ◌<◌, length};
//!
//!     ghost Value = { List ℕ };
//!
//!     ghost view = { λ places. places.numbers };
//!
//!     ghost invariant = { λ places. 0 < length places.numbers };
//! }
//! ```
//!
//! In a clause a `Seq<T>` is the list of its values, wherever it stands: behind a `&`, in a field, a variant, an `Option`
//! or another list. Two aliases of one type are one type: `PyText` and `SrcText` need no conversion.
//!
//! Beside these calls a list can be compared, hashed (as a key of a map) and printed for debugging where its values can, cloned
//! where they are `Copy`, and moved to another thread and shared among threads where its values can.
//!
//! # What is proved
//!
//! - `from_vec`, `into_vec`, `items`: the list is that of the vector, of the vector given back, of the slice lent.
//!   Their signatures say that they take no memory.
//! - `from_slice`, `copied`, `ByteText::from_str`: Ok is the same list. `push`: Ok is the list with the value behind it, and
//!   after an error the list is as it was.
//! - `==` is equality value by value, a hash is fed the values in order, a clone is the same list.
//! - Text is printed as it stands (`output` of `Display`).
//!
//! # What tests alone show
//!
//! With ample memory no call answers [`OutOfMemory`].
#![tactic(auto)]

mod list;
mod memory;
#[cfg(test)]
mod tests;
mod text;

pub use list::{Seq, push_all};
pub use memory::OutOfMemory;
pub use text::{ByteText, CharText, PyText, encoded, push_chars};
