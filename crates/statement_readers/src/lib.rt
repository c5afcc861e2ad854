//! What each function of the parser of statements reads, in the pieces in which the code has them.
//!
//! # What it is for
//!
//! The contracts inside `py_parse` name these pieces (`specs/Words.antt`), so that each is an equation in the code's own shape.
//!
//! # What is proved
//!
//! There is no code here. Laws: the pieces are the grammar's lines, by the table of `py_grammar` (`simple_is`, `simples_is`, `stmt_line`,
//! `stmts_line`, `block_is`, `source_is`: what a line's reader gives, without heights); each loop is one step and the loop again; and each
//! reading takes a token, so loops end.
//!
//! # What tests alone show
//!
//! Nothing.
#![tactic(auto)]
