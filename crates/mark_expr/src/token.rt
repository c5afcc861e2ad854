use crate::tree::PyName;

/// What a token is.
#[derive(Debug, Drop)]
pub enum Kind {
    Or,
    And,
    Not,
    Open,
    Close,
    Ident(PyName),
    /// A character that starts no token.
    Other,
}

/// A token, and how many characters stand before it.
#[derive(Debug, Drop)]
pub struct Token {
    pub at: usize,
    pub kind: Kind,
}
