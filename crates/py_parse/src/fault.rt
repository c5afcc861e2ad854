use py_source::Pos;
use seq::OutOfMemory;
use std::alloc::{AllocError, AllocFailed};

/// Why tokens are no source, and where (Language Reference, full grammar specification).
#[derive(Debug, Drop)]
pub enum SyntaxFault {
    /// No reading goes on with the token that stands there.
    Unexpected(Pos),
    /// The same, where the token belongs to the whole language only.
    Unsupported(Pos),
    /// What begins there may not stand where it does.
    Context(Pos),
    /// Readings go on with the token that stands there, but only deeper than they may be.
    Nesting(Pos),
    OutOfMemory,
}

impl From<AllocError> for SyntaxFault {
    ghost use Rattle.std.specs.Prelude.{◌≡◌};
    ghost use Rattle.py_parse.specs.declared.fault.SyntaxFault.TheVariants.{OutOfMemory};

    ghost from_gives = { λ _ fault. fault ≡ OutOfMemory };

    fn from(_error: AllocError) -> SyntaxFault {
        SyntaxFault::OutOfMemory
    }
}

impl<T: Drop> From<AllocFailed<T>> for SyntaxFault {
    ghost use Rattle.std.specs.Prelude.{◌≡◌};
    ghost use Rattle.py_parse.specs.declared.fault.SyntaxFault.TheVariants.{OutOfMemory};

    ghost from_gives = { λ _ fault. fault ≡ OutOfMemory };

    fn from(_error: AllocFailed<T>) -> SyntaxFault {
        SyntaxFault::OutOfMemory
    }
}

impl From<OutOfMemory> for SyntaxFault {
    ghost use Rattle.std.specs.Prelude.{◌≡◌};
    ghost use Rattle.py_parse.specs.declared.fault.SyntaxFault.TheVariants as fault;

    ghost from_gives = { λ _ given. given ≡ fault.OutOfMemory };

    fn from(_error: OutOfMemory) -> SyntaxFault {
        SyntaxFault::OutOfMemory
    }
}
