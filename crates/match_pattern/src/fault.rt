ghost use Rattle.std.specs.Prelude.{◌≡◌};
ghost use Rattle.match_pattern.specs.declared.fault.PatternFault.TheVariants.{OutOfMemory as NoMemory};

use seq::OutOfMemory;
use thiserror::Error;

/// Why a text is not read as a pattern.
#[derive(Clone, Copy, Debug, PartialEq, Eq, Error)]
pub enum PatternFault {
    /// It is no pattern of those that are read here.
    #[error("unsupported pattern")]
    Unsupported,
    #[error("out of memory")]
    OutOfMemory,
}

impl From<OutOfMemory> for PatternFault {
    ghost from_gives = { λ _ fault. fault ≡ NoMemory };

    fn from(_error: OutOfMemory) -> PatternFault {
        PatternFault::OutOfMemory
    }
}
