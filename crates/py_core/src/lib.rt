//! Core forms: what a source's tree is lowered to before it runs.
//!
//! # What it is for
//!
//! Core has the forms of the language but for `assert`, which becomes an `if` and a failure, and temporaries beside. Each core form
//! stands at its source form's place. Core code carries its source: a block the statements for which its own stand, and whether asserts
//! are explained there, a function the function of the source, an assignment of what a `yield` is given its targets. Lists and parts are shared by `Rc`, as in the trees of sources.
//!
//! # What is proved
//!
//! `CoreBlock::len` and `stmt` are the number of its statements and the one at a place, `CoreGuard::len` and `handler` those of its
//! handlers. The rest are types.
#![tactic(auto)]

mod expr;
mod stmt;

pub use expr::{CoreExpr, CoreExprKind};
pub use py_tree::{
    Alias, ArgName, BinOp, CmpOp, Expr, Function, Handler, Names, Pos, SrcText, Stmt, Target, UnOp,
};
pub use stmt::{
    Core, CoreBlock, CoreBranch, CoreClass, CoreFn, CoreGuard, CoreHandler, CoreParam, CoreSingle,
    CoreSingleKind, CoreStmt, CoreStmtKind, CoreTarget, CoreUse, Template,
};
