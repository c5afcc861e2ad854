//! What a call's parameters are given, and which file an import names.
//!
//! # What it is for
//!
//! A call binds its arguments to parameters (Language Reference, calls); an import names a file of the tree (Language Reference, the
//! import system; that the importing file's folder and the root are searched is own).
//!
//! # What is proved
//!
//! - [`bind`]: Ok has one value for each parameter, which is the argument at its place, the argument with its name, or its default
//!   (`right`). `Wrong` comes only with one of its four causes (`wrong`): a parameter that is given nothing and has no default, one
//!   that is given two values, a name that is no parameter, too many arguments. Which of the two it is, and which values, is the
//!   definition `bound` (`exact`); so `Wrong` comes wherever there is a cause, unless memory runs out.
//! - [`find_module`]: the place is that of the first path of those looked for that is among the paths (`named`), and None comes only
//!   where none of them is (`none`). They are the package and the module in the importing file's folder, and then in the root; of
//!   equal paths the first counts (`exact`). It takes no memory.
//!
//! # What tests alone show
//!
//! That calls are bound as in CPython, row by row, and that `bind` succeeds with ample memory (`value_tests`).
#![tactic(auto)]

mod binding;
mod fault;
mod modules;

pub use binding::bind;
pub use fault::BindFault;
pub use modules::find_module;
pub use py_values::{OutOfMemory, PyText};
