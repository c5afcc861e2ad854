//! The machine's turns behind the values of parts of expressions.
//!
//! # What it is for
//!
//! `take_operand`, `take_chain`, `take_call` and `take_item` go on with the value of an operand, of an operand of a chain, of a part of a
//! call and of a part of a display, a subscript, a slice or an attribute.
//!
//! # What is proved
//!
//! - `take_operand`, `take_chain`, `take_call`, `take_item`, for each frame of an expression: the run of what is left stays the same
//!   (`next`), and a turn spends a step or leaves less to do (`work`).
//!
//! # What tests alone show
//!
//! That calls end where there is memory, in `machine_tests` through the whole machine.
//!
//! # What neither shows
//!
//! Time and memory.
#![tactic(auto)]

pub use machine_expr::evaluate::evaluate;

pub mod chains;
pub mod items;
pub mod operands;
pub mod operate;
