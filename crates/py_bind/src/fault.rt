ghost use Rattle.std.specs.Prelude.{◌≡◌};
ghost use Rattle.py_bind.specs.declared.fault.BindFault.TheVariants.{OutOfMemory as NoMemory};

use std::alloc::AllocFailed;
use thiserror::Error;

/// Why arguments are not bound.
#[derive(Clone, Copy, Debug, PartialEq, Eq, Error)]
pub enum BindFault {
    /// A parameter without default gets no value, one gets two, a name is no parameter, or there are too many arguments.
    #[error("wrong arguments")]
    Wrong,
    #[error("out of memory")]
    OutOfMemory,
}

impl<T: Drop> From<AllocFailed<T>> for BindFault {
    ghost from_gives = { λ _ fault. fault ≡ NoMemory };

    fn from(_error: AllocFailed<T>) -> BindFault {
        BindFault::OutOfMemory
    }
}
