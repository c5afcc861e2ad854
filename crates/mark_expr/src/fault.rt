ghost use Rattle.std.specs.Prelude.{◌≡◌};
ghost use Rattle.mark_expr.specs.declared.fault.Stop.TheVariants.{Memory};
ghost use Rattle.mark_expr.specs.declared.fault.ExprFault.TheVariants.{OutOfMemory as NoMemory};

use crate::token::Token;
use seq::OutOfMemory;
use std::alloc::AllocFailed;
use thiserror::Error;

/// Why a text is no expression.
#[derive(Clone, Copy, Debug, PartialEq, Eq, Error)]
pub enum ExprFault {
    /// The column, in characters from 1, of the first token at which no reading goes on. The end of the text is a token
    /// behind its last character, and a character that starts no token is one.
    #[error("wrong expression at column {0}")]
    Bad(u32),
    /// More than 100 parentheses and `not`s are open at once, before any such token.
    #[error("expression too deep")]
    Nesting,
    #[error("out of memory")]
    OutOfMemory,
}

impl From<OutOfMemory> for ExprFault {
    ghost from_gives = { λ _ fault. fault ≡ NoMemory };

    fn from(_error: OutOfMemory) -> ExprFault {
        ExprFault::OutOfMemory
    }
}

/// Where reading stopped: the tokens from there on.
#[derive(Clone, Copy, Debug)]
pub enum Stop<'t> {
    /// No reading goes on with the first of them.
    Bad(&'t [Token]),
    /// A reading goes on with the first of them, but in more levels than are left.
    Deep(&'t [Token]),
    Memory,
}

impl<'t, T: Drop> From<AllocFailed<T>> for Stop<'t> {
    ghost from_gives = { λ _ stop. stop ≡ Memory };

    fn from(_error: AllocFailed<T>) -> Stop<'t> {
        Stop::Memory
    }
}

impl<'t> From<OutOfMemory> for Stop<'t> {
    ghost from_gives = { λ _ stop. stop ≡ Memory };

    fn from(_error: OutOfMemory) -> Stop<'t> {
        Stop::Memory
    }
}
