//! Patterns over texts, as `pytest.raises(match=..)` takes them: read, and searched for.
//!
//! # What it is for
//!
//! `with pytest.raises(E, match=P)` looks for P in the message of what was raised (pytest's reference, `pytest.raises`). The patterns
//! are some of those of Python's `re`: `^` or not, items, `$` or not. An item is an atom, one with `*`, or one with `+`; an atom is
//! `.`, a backslash with a character that is no ASCII letter or digit, or a character with no meaning of its own. `$` is the very
//! end alone.
//!
//! # What is proved
//!
//! - [`read_pattern`]: what it gives is the text's pattern by the grammar in `specs/Pattern.antt` (`read`), and the text is no other
//!   pattern (`only`). `Unsupported` comes only where the text is none (`unsupported`), so exactly there, unless memory runs out. As a
//!   function of the text it is `pattern_of` (`exact`, `none`).
//! - [`found`] is true exactly where the pattern matches somewhere in the text (`matches`): the text is something before, a middle
//!   that is cut into a text for each item, and something behind. It is also what the plain program of `specs/Searching.antt` gives
//!   (`exact`), which tries one way after the other; the code moves marks at all places of the text at once, item by item, so it
//!   goes back nowhere.
//! - [`search`] gives the same under a budget. It costs the product of the lengths of pattern and text, and is exhausted exactly
//!   where that is above the budget.
//!
//! # What tests alone show
//!
//! That the answers are CPython's, row by row, and that the calls succeed with ample memory (`value_tests`).
//!
//! # What neither shows
//!
//! Time.
#![tactic(auto)]

mod fault;
mod matching;
mod pattern;
mod reading;
mod searching;

pub use fault::PatternFault;
pub use pattern::{Atom, Item, Pattern, Times};
pub use reading::read_pattern;
pub use searching::{SearchEnd, found, search};
pub use seq::OutOfMemory;
