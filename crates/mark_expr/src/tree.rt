use seq::CharText;

/// A name that an expression is matched against, or that stands in one: its characters.
pub type PyName = CharText;

/// An expression. `And` and `Or` hold their first part and the further ones, so that a long row of parts is not deep.
#[derive(Drop)]
pub enum MarkExpr {
    Ident(PyName),
    Not(Box<MarkExpr>),
    And(Box<MarkExpr>, Vec<MarkExpr>),
    Or(Box<MarkExpr>, Vec<MarkExpr>),
}
