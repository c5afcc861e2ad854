use seq::{ByteText, OutOfMemory};
use std::alloc::{AllocError, AllocFailed};
use std::error::Error;
use std::fmt;

/// Why words are refused.
#[derive(Debug, Drop)]
pub enum WordFault {
    /// The word names nothing of the tree, or nothing of its file.
    NotFound(ByteText),
    /// The words reach more items than a session may have.
    TooManyItems,
    OutOfMemory,
}

impl fmt::Display for WordFault {
    ghost use Rattle.std.specs.Prelude.{Some};
    ghost use Rattle.collect_words.specs.Words.{fault_text};

    ghost output = { λ fault. Some (fault_text fault) };

    fn fmt<W: fmt::Write>(&self, f: &mut fmt::Formatter<W>) -> fmt::Result {
        match self {
            WordFault::NotFound(word) => write!(f, "not found: {word}"),
            WordFault::TooManyItems => f.write_str("too many items"),
            WordFault::OutOfMemory => f.write_str("out of memory"),
        }
    }
}

impl Error for WordFault {}

impl From<OutOfMemory> for WordFault {
    ghost use Rattle.std.specs.Prelude.{◌≡◌};
    ghost use Rattle.collect_words.specs.declared.fault.WordFault.TheVariants.{OutOfMemory};

    ghost from_gives = { λ _ e. e ≡ OutOfMemory };

    fn from(_e: OutOfMemory) -> WordFault {
        WordFault::OutOfMemory
    }
}

impl From<AllocError> for WordFault {
    ghost use Rattle.std.specs.Prelude.{◌≡◌};
    ghost use Rattle.collect_words.specs.declared.fault.WordFault.TheVariants.{OutOfMemory};

    ghost from_gives = { λ _ e. e ≡ OutOfMemory };

    fn from(_e: AllocError) -> WordFault {
        WordFault::OutOfMemory
    }
}

impl<T: Drop> From<AllocFailed<T>> for WordFault {
    ghost use Rattle.std.specs.Prelude.{◌≡◌};
    ghost use Rattle.collect_words.specs.declared.fault.WordFault.TheVariants.{OutOfMemory};

    ghost from_gives = { λ _ e. e ≡ OutOfMemory };

    fn from(_e: AllocFailed<T>) -> WordFault {
        WordFault::OutOfMemory
    }
}
