ghost use Rattle.std.specs.Prelude.{◌≡◌, IfOk, MatchOption, None, Some};
ghost use Rattle.py_tree.specs.Trees.{tree};
ghost use Rattle.py_tree.specs.Statements.{place};
ghost use Rattle.py_expressions.specs.Values.{place_in};

use py_tree::{Expr, ExprKind, Single, SingleKind, Target};
use std::alloc::AllocError;

/// What takes one value, and how high the expression is that it stands for.
#[derive(Drop)]
pub struct SingleNode {
    pub single: Single,
    pub height: u32,
}

/// What takes a value, and how high the expression is that it stands for.
#[derive(Drop)]
pub struct TargetNode {
    pub target: Target,
    pub height: u32,
}

/// What an expression is where it takes a value: its parts are shared.
pub fn single_in(expr: &Expr) -> Result<Option<Single>, AllocError>
    ensures { IfOk result (λ found. MatchOption found (place_in (tree expr.now) ≡ None) (λ single. place_in (tree expr.now) ≡ Some (place single))) }
{
    let kind = match &expr.kind {
        ExprKind::Name(name) => SingleKind::Name(name.clone()?),
        ExprKind::Attribute(of, name) => SingleKind::Attribute(of.clone()?, name.clone()?),
        ExprKind::Subscript(of, index) => SingleKind::Subscript(of.clone()?, index.clone()?),
        ExprKind::Number(_)
        | ExprKind::Text(_)
        | ExprKind::True
        | ExprKind::False
        | ExprKind::None
        | ExprKind::Paren(_)
        | ExprKind::Tuple(_)
        | ExprKind::List(_)
        | ExprKind::Dict(_, _)
        | ExprKind::Call(_, _, _)
        | ExprKind::Slice(_, _, _, _)
        | ExprKind::Unary(_, _)
        | ExprKind::Binary(_, _, _)
        | ExprKind::Compare(_, _, _)
        | ExprKind::Not(_)
        | ExprKind::And(_, _)
        | ExprKind::Or(_, _)
        | ExprKind::IfElse(_, _, _) => return Ok(None),
    };
    Ok(Some(Single { at: expr.at, kind }))
}
