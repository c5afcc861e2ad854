ghost use Rattle.std.specs.Prelude.{◌≡◌};
ghost use Rattle.param_rows.specs.declared.fault.RowFault.TheVariants.{OutOfMemory as NoMemory};

use seq::OutOfMemory;
use thiserror::Error;

/// Why a test has no rows. Names are the numbers that the marks have.
#[derive(Clone, Copy, Debug, PartialEq, Eq, Error)]
pub enum RowFault {
    /// A mark has so many names, and one of its sets so many values.
    #[error("expected {0} values, got {1}")]
    Width(usize, usize),
    /// A name is bound twice.
    #[error("duplicate parameter {0}")]
    Duplicate(u32),
    /// Nobody asks for this name.
    #[error("no argument {0}")]
    NoArgument(u32),
    /// There are more than 65,536 rows.
    #[error("too many rows")]
    TooMany,
    #[error("out of memory")]
    OutOfMemory,
}

impl From<OutOfMemory> for RowFault {
    ghost from_gives = { λ _ fault. fault ≡ NoMemory };

    fn from(_error: OutOfMemory) -> RowFault {
        RowFault::OutOfMemory
    }
}
