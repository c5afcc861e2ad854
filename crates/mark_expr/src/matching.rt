ghost use Rattle.std.specs.Prelude.{◌≡◌, ◌↔◌, IsTrue, List, ℕ};
ghost use Rattle.std.specs.List.{list_any};
ghost use Rattle.mark_expr.specs.Expression.{view};
ghost use Rattle.mark_expr.specs.Matching.{Holds, begins_with, has_part, names_it, truth, all_true, any_true};

use crate::tree::{MarkExpr, PyName};

/// How an ident names a name.
#[derive(Clone, Copy)]
pub enum How {
    /// It is a part of it, whatever the case of ASCII letters.
    Part,
    /// It is the whole of it.
    Whole,
}

/// Whether the whole begins with the part, whatever the case of ASCII letters.
fn begins_with(whole: &[char], part: &[char]) -> bool
    ensures { result ≡ begins_with part.now whole.now }
{
    for (at, c) in part.iter().enumerate() {
        match whole.get(at) {
            Some(d) if c.eq_ignore_ascii_case(d) => {}
            _ => return false,
        }
    }
    true
}

/// Whether the part stands in the whole, whatever the case of ASCII letters.
fn contains(whole: &[char], part: &[char]) -> bool
    ensures { result ≡ has_part part.now whole.now }
{
    for start in 0..whole.len() {
        if begins_with(&whole[start..], part) {
            return true;
        }
    }
    part.is_empty()
}

/// Whether the ident names the name.
fn names(ident: &[char], name: &PyName, how: How) -> bool
    ensures { result ≡ names_it how ident.now name.now }
{
    match how {
        How::Part => contains(name.chars(), ident),
        How::Whole => name.chars() == ident,
    }
}

/// Whether the ident names one of the names.
fn names_one(ident: &[char], all: &[PyName], how: How) -> bool
    ensures { result ≡ list_any (names_it how ident.now) all.now }
{
    all.iter().any(|name| names(ident, name, how))
}

#[cycle(holds)]
fn holds(expr: &MarkExpr, names: &[PyName], how: How) -> bool
    ensures { result ≡ truth how names.now (view expr.now) }
{
    match expr {
        MarkExpr::Ident(ident) => names_one(ident.chars(), names, how),
        MarkExpr::Not(inner) => !holds(inner, names, how),
        MarkExpr::And(first, more) => {
            holds(first, names, how) && all_hold(more.as_slice(), names, how)
        }
        MarkExpr::Or(first, more) => {
            holds(first, names, how) || any_holds(more.as_slice(), names, how)
        }
    }
}

#[cycle(holds)]
fn all_hold(exprs: &[MarkExpr], names: &[PyName], how: How) -> bool
    ensures { result ≡ all_true how names.now exprs.now }
{
    for expr in exprs {
        if !holds(expr, names, how) {
            return false;
        }
    }
    true
}

#[cycle(holds)]
fn any_holds(exprs: &[MarkExpr], names: &[PyName], how: How) -> bool
    ensures { result ≡ any_true how names.now exprs.now }
{
    for expr in exprs {
        if holds(expr, names, how) {
            return true;
        }
    }
    false
}

/// Whether the expression is true of a thing that has these names (pytest's reference, "Command-line Flags", `-k` and `-m`).
pub fn matches(expr: &MarkExpr, names: &[PyName], how: How) -> bool
    ensures { IsTrue result ↔ Holds how names.now (view expr.now) }
{
    holds(expr, names, how)
}
