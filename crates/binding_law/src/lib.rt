//! The law of local names, in the Language Reference's own words (naming and binding).
//!
//! # What it is for
//!
//! `py_tree` finds the local names of a function by a definition that goes through what its body does with names as its program
//! does. Here stands what this definition comes to.
//!
//! # What is proved
//!
//! - [`locals_are_what_is_bound`]: a name is local exactly where it is a parameter's or is bound in the body, and is not declared
//!   global (`local`); no local name stands twice (`once`).
//!
//! # What meets the law, and what it refuses
//!
//! - Nothing is asked of a function: of one with the parameter `a`, whose body has `global c`, `b = a` and `c = b`, the names `a` and `b`
//!   are local, in this order, and `c` is not.
//! - Refused, each as an edit: that a name that is declared global is local, that what the body binds is lost.
#![tactic(auto)]

ghost use Rattle.std.specs.Prelude.{◌≡◌, ℕ, List, ◌&&◌, ◌||◌, not};
ghost use Rattle.std.specs.List.{IsDistinct};
ghost use Rattle.std.specs.Str.{bytes_eq};
ghost use Rattle.py_tree.specs.Names.{is_among, names_of, names_bound, of_block, locals_of, globals_of};
ghost use Rattle.py_tree.specs.Statements.{Block, Parameter};

/// A law: which names are local to a function with these parameters and this body.
pub fn locals_are_what_is_bound()
    ensures local { (params : List Parameter) (body : Block) (name : List ℕ) → is_among (locals_of params body) name ≡ ((is_among (names_of params) name || is_among (names_bound (of_block body)) name) && not (is_among (globals_of body) name)) }
    ensures once { (params : List Parameter) (body : Block) → IsDistinct bytes_eq (locals_of params body) }
{}
