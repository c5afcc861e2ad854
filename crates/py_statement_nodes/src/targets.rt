ghost use Rattle.std.specs.Prelude.{◌≡◌, ◌++◌, ◌∷◌, [], None, Some, IfOk, MatchOption};
ghost use Rattle.py_tree.specs.Trees.{tree, trees};
ghost use Rattle.py_tree.specs.Statements.{places, taker, takers};
ghost use Rattle.py_nodes.specs.py_expressions.Values.{places_in, taker_in};
ghost use Rattle.py_statement_nodes.specs.Targets.{parts_in};

use py_nodes::single_in;
use py_tree::{Expr, ExprKind, Single, Target};
use std::alloc::{AllocError, Global};
use std::rc::Rc;

/// The places that expressions are, if each is one.
fn places_in(alloc: Global, items: &[Rc<Expr>]) -> Result<Option<Vec<Single>>, AllocError>
    ensures { IfOk result (λ found. MatchOption found (places_in (trees items.now) ≡ None) (λ all. places_in (trees items.now) ≡ Some (places all.items))) }
{
    let mut all = Vec::new(alloc);
    for item in items {
        match single_in(item)? {
            Some(single) => all.push(single)?,
            None => return Ok(None),
        }
    }
    Ok(Some(all))
}

/// The target that a tuple of expressions is, if it is one.
#[tactic(auto, using(crate::proofs::Rows::part_rules))]
fn parts_in(alloc: Global, items: &[Rc<Expr>]) -> Result<Option<Target>, AllocError>
    ensures { IfOk result (λ found. MatchOption found (parts_in (trees items.now) ≡ None) (λ target. parts_in (trees items.now) ≡ Some (taker target))) }
{
    if items.is_empty() {
        return Ok(None);
    }
    match places_in(alloc, items)? {
        Some(all) => Ok(Some(Target::Unpack(Rc::new(alloc, all)?))),
        None => Ok(None),
    }
}

/// The target that an expression is, if it is one.
pub fn target_in(alloc: Global, expr: &Expr) -> Result<Option<Target>, AllocError>
    ensures { IfOk result (λ found. MatchOption found (taker_in (tree expr.now) ≡ None) (λ target. taker_in (tree expr.now) ≡ Some (taker target))) }
{
    match &expr.kind {
        ExprKind::Tuple(items) => parts_in(alloc, items),
        ExprKind::Name(_)
        | ExprKind::Attribute(_, _)
        | ExprKind::Subscript(_, _)
        | ExprKind::Number(_)
        | ExprKind::Text(_)
        | ExprKind::True
        | ExprKind::False
        | ExprKind::None
        | ExprKind::Paren(_)
        | ExprKind::List(_)
        | ExprKind::Dict(_, _)
        | ExprKind::Call(_, _, _)
        | ExprKind::Slice(_, _, _, _)
        | ExprKind::Unary(_, _)
        | ExprKind::Binary(_, _, _)
        | ExprKind::Compare(_, _, _)
        | ExprKind::Not(_)
        | ExprKind::And(_, _)
        | ExprKind::Or(_, _)
        | ExprKind::IfElse(_, _, _) => match single_in(expr)? {
            Some(single) => Ok(Some(Target::Single(single))),
            None => Ok(None),
        },
    }
}

/// The targets, and one more behind them.
pub fn add_target(targets: Vec<Target>, target: Target) -> Result<Vec<Target>, AllocError>
    ensures { IfOk result (λ all. takers all.items ≡ takers targets.items ++ taker target ∷ []) }
{
    let mut targets = targets;
    targets.push(target)?;
    Ok(targets)
}
