//! Lists in one arena of doubly linked cells: a list per head, and at most six words written a change.
//!
//! # What it is for
//!
//! The chains of live_chains are such lists: an instance goes in or out by a bounded number of writes, however many live.
//!
//! # What is proved
//!
//! - `Cells<T>` is seen as one list of pairs (name of the cell, value) per head in use, the number `spare` and the number
//!   `spare_heads`. All links, the list of spare cells and the spares are in the model's invariant, and no clause names them.
//! - `reserve` makes both spares the larger of what they were and what was asked for (`spare`, `spare_heads`); whatever it answers,
//!   each list stays (`lists`) and no spare falls (`kept`, `kept_heads`). `take_head` gives a head that had no list (`spare`) an
//!   empty one (`listed`, `taken`); `give_head` takes an empty list away.
//! - `push_back` and `push_front` change the one list and `spare` and nothing else (`pushed`), and the new name stood nowhere
//!   (`fresh`). `unlink` needs the name alone: from whichever list the cell stood in it takes that one cell, gives back its value,
//!   and raises `spare` (`taken`). `splice_front` puts the one list in front of the other and leaves the first empty (`moved`).
//!   Each adds at most six to `steps` (`cost`), whatever the lengths; none of them takes memory or can fail. `replace` puts a value in
//!   the place of that of a cell and writes no link.
//! - `first`, `next`, `prev` and `get` answer by the list: `None` exactly where there is none. `cells` is at least `spare`.
//!
//! # What tests alone show
//!
//! That `new` and `reserve` succeed with ample memory (`fixture_tests`).
//!
//! # What neither shows
//!
//! The time of a walk; that all links lie in the `CellWords` (a reader sees it: beside them stand only the values, a mark per head
//! and the numbers of the spare heads).
#![tactic(auto)]

mod cells;
mod id;
mod link;
mod ring;

pub use cell_words::Steps;
pub use cells::Cells;
pub use id::CellId;
