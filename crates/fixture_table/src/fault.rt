ghost use Rattle.std.specs.Prelude.{◌≡◌};
ghost use Rattle.fixture_table.specs.declared.fault.FixtureFault.TheVariants.{OutOfMemory as NoMemory};

use seq::OutOfMemory;
use session_types::DefId;
use std::alloc::{AllocError, AllocFailed};
use thiserror::Error;

/// Why there is no closure.
#[derive(Clone, Copy, Debug, PartialEq, Eq, Error)]
pub enum FixtureFault {
    /// No definition of this name is visible.
    #[error("fixture {0} not found")]
    Unknown(u32),
    /// A definition of this name is reached from itself, or asks for its own name with none further out.
    #[error("recursive dependency involving fixture {0} detected")]
    Recursive(u32),
    /// This definition asks for this name, whose scope is narrower.
    #[error("scope mismatch of definition {0:?} at fixture {1}")]
    ScopeMismatch(DefId, u32),
    #[error("out of memory")]
    OutOfMemory,
}

impl From<AllocError> for FixtureFault {
    ghost from_gives = { λ _ fault. fault ≡ NoMemory };

    fn from(_error: AllocError) -> FixtureFault {
        FixtureFault::OutOfMemory
    }
}

impl<T: Drop> From<AllocFailed<T>> for FixtureFault {
    ghost from_gives = { λ _ fault. fault ≡ NoMemory };

    fn from(_error: AllocFailed<T>) -> FixtureFault {
        FixtureFault::OutOfMemory
    }
}

impl From<OutOfMemory> for FixtureFault {
    ghost from_gives = { λ _ fault. fault ≡ NoMemory };

    fn from(_error: OutOfMemory) -> FixtureFault {
        FixtureFault::OutOfMemory
    }
}
