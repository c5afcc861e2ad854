// The groups of the forms of expressions.

ghost use Rattle.std.specs.Prelude.{◌≡◌};
ghost use Rattle.machine_expr.specs.Groups.{group_of};

use py_core::CoreExprKind;

/// A group of forms: without parts, with one operator, with a first part and a row of others, and displays and what is read of an
/// object.
#[derive(Clone, Copy, PartialEq, Eq)]
pub enum Group {
    Leaf,
    Operator,
    Chain,
    Container,
}

/// The group of a form.
pub fn kind_group(kind: &CoreExprKind) -> Group
    ensures { result ≡ group_of kind.now }
{
    match kind {
        CoreExprKind::Name(_)
        | CoreExprKind::Number(_)
        | CoreExprKind::Text(_)
        | CoreExprKind::True
        | CoreExprKind::False
        | CoreExprKind::None
        | CoreExprKind::Temp(_) => Group::Leaf,
        CoreExprKind::Paren(_)
        | CoreExprKind::Unary(_, _)
        | CoreExprKind::Binary(_, _, _)
        | CoreExprKind::Not(_)
        | CoreExprKind::IfElse(_, _, _)
        | CoreExprKind::SetTemp(_, _) => Group::Operator,
        CoreExprKind::Call(_, _, _)
        | CoreExprKind::Compare(_, _, _)
        | CoreExprKind::And(_, _)
        | CoreExprKind::Or(_, _) => Group::Chain,
        CoreExprKind::Tuple(_)
        | CoreExprKind::List(_)
        | CoreExprKind::Dict(_, _)
        | CoreExprKind::Attribute(_, _)
        | CoreExprKind::Subscript(_, _)
        | CoreExprKind::Slice(_, _, _, _) => Group::Container,
    }
}
