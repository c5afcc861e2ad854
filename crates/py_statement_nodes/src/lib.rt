//! Making the nodes of statements: what each gives is said of plain trees, so no reader of a text meets how a tree lies in memory.
//!
//! # What it is for
//!
//! `py_parse` makes its trees by these functions, one for each form of statement, and one for each row that grows (statements,
//! branches, handlers, parameters, decorators, targets).
//!
//! # What is proved
//!
//! Each has one clause, an equation of plain trees, unless memory ran out: the statement that it is named for, of the trees of its parts,
//! at the place given; or the row with one part more at its end. [`target_in`] gives the target that an expression is (`taker_in`), or that
//! it is none.
//!
//! # What tests alone show
//!
//! With ample memory each node is made (`expression_tests`).
#![tactic(auto)]

mod compound;
mod simple;
mod targets;

pub use compound::{
    add_branch, add_decorator, add_handler, add_param, add_stmt, class_stmt, def_stmt, for_stmt,
    if_stmt, try_stmt, while_stmt, with_stmt,
};
pub use simple::{
    assert_stmt, assign_stmt, assign_yield_stmt, aug_assign_stmt, del_stmt, expr_stmt, global_stmt,
    import_from_stmt, import_stmt, raise_stmt, return_stmt, return_yield_stmt, word_stmt,
    yield_stmt,
};
pub use targets::{add_target, target_in};
