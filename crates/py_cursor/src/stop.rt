use py_tokens::Token;

/// Where reading stopped: the tokens from there on.
#[derive(Clone, Copy, Debug)]
pub enum Stop<'t> {
    /// No reading goes on with the first of them.
    Bad(&'t [Token]),
    /// A reading goes on with the first of them, but in more levels than are left.
    Deep(&'t [Token]),
    Memory,
}
