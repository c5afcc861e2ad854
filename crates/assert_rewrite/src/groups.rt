ghost use Rattle.std.specs.Prelude.{◌≡◌};
ghost use Rattle.assert_rewrite.specs.Groups as groups;

use py_tree::{ExprKind, StmtKind};

/// A group of forms of expressions: without parts, with one operator, with a first part and a row of others, and displays and what is
/// read of an object.
#[derive(Clone, Copy, PartialEq, Eq)]
pub enum ExprGroup {
    Leaf,
    Operator,
    Chain,
    Container,
}

/// The group of a form of an expression.
pub fn expr_group(kind: &ExprKind) -> ExprGroup
    ensures { result ≡ groups.expr_group kind.now }
{
    match kind {
        ExprKind::Name(_)
        | ExprKind::Number(_)
        | ExprKind::Text(_)
        | ExprKind::True
        | ExprKind::False
        | ExprKind::None => ExprGroup::Leaf,
        ExprKind::Paren(_)
        | ExprKind::Unary(_, _)
        | ExprKind::Binary(_, _, _)
        | ExprKind::Not(_)
        | ExprKind::IfElse(_, _, _) => ExprGroup::Operator,
        ExprKind::Call(_, _, _)
        | ExprKind::Compare(_, _, _)
        | ExprKind::And(_, _)
        | ExprKind::Or(_, _) => ExprGroup::Chain,
        ExprKind::Tuple(_)
        | ExprKind::List(_)
        | ExprKind::Dict(_, _)
        | ExprKind::Attribute(_, _)
        | ExprKind::Subscript(_, _)
        | ExprKind::Slice(_, _, _, _) => ExprGroup::Container,
    }
}

/// A group of forms of a condition that is explained: those whose value alone is shown; those with one operator and those with a row
/// of operands, which are shown by their parts; and calls and attributes, which are shown by their value and their parts.
#[derive(Clone, Copy, PartialEq, Eq)]
pub enum WatchGroup {
    Whole,
    Between,
    Row,
    Came,
}

/// The group of a form of a condition that is explained.
pub fn watch_group(kind: &ExprKind) -> WatchGroup
    ensures { result ≡ groups.watch_group kind.now }
{
    match kind {
        ExprKind::Name(_)
        | ExprKind::Number(_)
        | ExprKind::Text(_)
        | ExprKind::True
        | ExprKind::False
        | ExprKind::None
        | ExprKind::Tuple(_)
        | ExprKind::List(_)
        | ExprKind::Dict(_, _)
        | ExprKind::Subscript(_, _)
        | ExprKind::Slice(_, _, _, _)
        | ExprKind::IfElse(_, _, _) => WatchGroup::Whole,
        ExprKind::Paren(_) | ExprKind::Unary(_, _) | ExprKind::Binary(_, _, _) | ExprKind::Not(_) =>
            WatchGroup::Between,
        ExprKind::Compare(_, _, _) | ExprKind::And(_, _) | ExprKind::Or(_, _) => WatchGroup::Row,
        ExprKind::Call(_, _, _) | ExprKind::Attribute(_, _) => WatchGroup::Came,
    }
}

/// A group of forms of statements: simple ones, of these those that are made of names alone and those with a `yield`, and compound
/// ones.
#[derive(Clone, Copy, PartialEq, Eq)]
pub enum StmtGroup {
    Simple,
    Naming,
    Yielding,
    Compound,
}

/// The group of a form of a statement.
pub fn stmt_group(kind: &StmtKind) -> StmtGroup
    ensures { result ≡ groups.stmt_group kind.now }
{
    match kind {
        StmtKind::Expr(_)
        | StmtKind::Assign(_, _)
        | StmtKind::AugAssign(_, _, _)
        | StmtKind::Return(_)
        | StmtKind::Raise(_)
        | StmtKind::Assert(_, _)
        | StmtKind::Del(_)
        | StmtKind::Pass
        | StmtKind::Break
        | StmtKind::Continue => StmtGroup::Simple,
        StmtKind::Global(_) | StmtKind::Import(_, _) | StmtKind::ImportFrom(_, _) => {
            StmtGroup::Naming
        }
        StmtKind::If(_, _)
        | StmtKind::While(_, _)
        | StmtKind::For(_, _, _)
        | StmtKind::Try(_, _, _, _)
        | StmtKind::With(_, _, _)
        | StmtKind::Def(_)
        | StmtKind::Class(_) => StmtGroup::Compound,
        StmtKind::AssignYield(_, _) | StmtKind::ReturnYield(_) | StmtKind::Yield(_) => {
            StmtGroup::Yielding
        }
    }
}
