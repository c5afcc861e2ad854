ghost use Rattle.std.specs.Prelude.{◌≡◌};
ghost use Rattle.py_load.specs.Loading.{fault_error};

use py_source::{Pos, SourceFault, SyntaxKind};
use py_world::{Thrown, Trace};
use seq::OutOfMemory;

/// Why a file has no module.
#[derive(Drop)]
pub enum LoadError {
    /// Its tokens or its grammar have a fault: the place of it, and its kind.
    Syntax(Pos, SyntaxKind),
    /// The line, from 1, of the first byte that is not UTF-8.
    NotUtf8(u32),
    /// Its code raised this.
    Raised(Thrown),
    /// Its next step would have been one above the budget; the trace is that of the statement at which this came.
    Exhausted(Trace),
    OutOfMemory,
}

impl From<OutOfMemory> for LoadError {
    ghost use Rattle.std.specs.Prelude.{◌≡◌};
    ghost use Rattle.py_load.specs.declared.error.LoadError.TheVariants as error;

    ghost from_gives = { λ _ e. e ≡ error.OutOfMemory };

    fn from(_e: OutOfMemory) -> LoadError {
        LoadError::OutOfMemory
    }
}

/// A source's fault as the reason why it has no module.
pub fn fault_error(fault: SourceFault) -> LoadError
    ensures { result ≡ fault_error fault }
{
    match fault {
        SourceFault::Syntax(at, kind) => LoadError::Syntax(at, kind),
        SourceFault::NotUtf8(line) => LoadError::NotUtf8(line),
    }
}
