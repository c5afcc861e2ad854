ghost use Rattle.std.specs.Prelude.{◌≡◌};

use crate::op::Op;
use py_literals::ReadFault;
use py_source::{LexKind, Pos, SrcText};
use seq::OutOfMemory;
use std::alloc::AllocFailed;

/// What a token is.
#[derive(Debug, PartialEq, Eq, Drop)]
pub enum TokenKind {
    Name(SrcText),
    Number(i128),
    /// What a text literal stands for.
    Text(SrcText),
    Op(Op),
    Newline,
    Indent,
    Dedent,
    End,
}

/// A token at its place.
#[derive(Debug, PartialEq, Eq, Drop)]
pub struct Token {
    pub kind: TokenKind,
    pub at: Pos,
    /// How many bytes of the text stand before it.
    pub start: usize,
    /// How many bytes of the text stand before what follows it.
    pub end: usize,
}

/// Why a text has no tokens.
#[derive(Clone, Copy, Debug, PartialEq, Eq)]
pub enum LexFault {
    /// The place and the kind of the first fault.
    Bad(Pos, LexKind),
    OutOfMemory,
}

impl From<OutOfMemory> for LexFault {
    ghost use Rattle.std.specs.Prelude.{◌≡◌};
    ghost use Rattle.py_tokens.specs.declared.token.LexFault.TheVariants.{OutOfMemory};

    ghost from_gives = { λ _ fault. fault ≡ OutOfMemory };

    fn from(_error: OutOfMemory) -> LexFault {
        LexFault::OutOfMemory
    }
}

impl<T: Drop> From<AllocFailed<T>> for LexFault {
    ghost use Rattle.std.specs.Prelude.{◌≡◌};
    ghost use Rattle.py_tokens.specs.declared.token.LexFault.TheVariants.{OutOfMemory};

    ghost from_gives = { λ _ fault. fault ≡ OutOfMemory };

    fn from(_error: AllocFailed<T>) -> LexFault {
        LexFault::OutOfMemory
    }
}
