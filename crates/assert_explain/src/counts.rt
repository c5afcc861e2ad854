// How many parts of a condition are kept.

ghost use Rattle.std.specs.Prelude.{◌≡◌, ◌+◌, IfOk};
ghost use Rattle.py_tree.specs.Trees.{tree, trees};
ghost use Rattle.py_world.specs.Explained.{kept_count, kept_count_all};

use py_tree::{Expr, ExprKind};
use seq::OutOfMemory;
use std::rc::Rc;

/// The place behind so many. No memory holds more parts than there are places.
pub fn behind(at: usize, parts: usize) -> Result<usize, OutOfMemory>
    ensures { IfOk result (λ n. n ≡ at + parts) }
{
    match at.checked_add(parts) {
        Some(n) => Ok(n),
        None => Err(OutOfMemory),
    }
}

/// How many parts of an expression are kept.
#[cycle(count)]
#[tactic(auto, using(crate::proofs::Counted::counts))]
pub fn count(e: &Expr) -> Result<usize, OutOfMemory>
    ensures { IfOk result (λ n. n ≡ kept_count (tree e.now)) }
{
    match &e.kind {
        ExprKind::Paren(a) => count(a),
        ExprKind::Unary(_, a) => count(a),
        ExprKind::Not(a) => count(a),
        ExprKind::Attribute(a, _) => behind(1, count(a)?),
        ExprKind::Call(f, es, _) => behind(1, behind(count(f)?, count_all(es)?)?),
        ExprKind::Binary(a, _, b) => behind(count(a)?, count(b)?),
        ExprKind::Compare(a, _, es) => behind(count(a)?, count_all(es)?),
        ExprKind::And(a, es) => behind(count(a)?, count_all(es)?),
        ExprKind::Or(a, es) => behind(count(a)?, count_all(es)?),
        ExprKind::Name(_)
        | ExprKind::Number(_)
        | ExprKind::Text(_)
        | ExprKind::True
        | ExprKind::False
        | ExprKind::None
        | ExprKind::Tuple(_)
        | ExprKind::List(_)
        | ExprKind::Dict(_, _)
        | ExprKind::Subscript(_, _)
        | ExprKind::Slice(_, _, _, _)
        | ExprKind::IfElse(_, _, _) => Ok(1),
    }
}

/// The place behind the parts of an expression.
pub fn place_behind(n: usize, e: &Expr) -> Result<usize, OutOfMemory>
    ensures { IfOk result (λ at. at ≡ n + kept_count (tree e.now)) }
{
    let parts = count(e)?;
    behind(n, parts)
}

/// How many parts of expressions are kept.
#[cycle(count)]
#[tactic(auto, using(crate::proofs::Counted::one_more, crate::proofs::Counted::all_counted))]
fn count_all(es: &[Rc<Expr>]) -> Result<usize, OutOfMemory>
    ensures { IfOk result (λ n. n ≡ kept_count_all (trees es.now)) }
{
    let mut n = 0;
    for e in es {
        n = behind(n, count(e)?)?;
    }
    Ok(n)
}
