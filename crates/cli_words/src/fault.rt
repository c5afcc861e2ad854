use crate::word::Word;
use seq::OutOfMemory;
use std::error::Error;
use std::fmt;

/// Why a list of words is refused. Its text is what the report says behind `ERROR: `.
#[derive(Debug, Drop)]
pub enum UsageFault {
    /// A word that spells no option.
    Unrecognized(Word),
    /// An option without its value.
    NeedsValue(Word),
    /// An option, and a value that it doesn't take.
    BadValue(Word, Word),
    /// An option that takes no value, with one.
    TakesNoValue(Word),
    /// Workers are asked for, and the run is to stop after some failures.
    Conflict,
    OutOfMemory,
}

impl fmt::Display for UsageFault {
    ghost use Rattle.std.specs.Prelude.{Some};
    ghost use Rattle.cli_words.specs.Faults.{usage_text};

    ghost output = { λ fault. Some (usage_text fault) };

    fn fmt<W: fmt::Write>(&self, f: &mut fmt::Formatter<W>) -> fmt::Result {
        match self {
            UsageFault::Unrecognized(word) => write!(f, "unrecognized arguments: {word}"),
            UsageFault::NeedsValue(option) => write!(f, "argument {option}: expected one argument"),
            UsageFault::BadValue(option, value) => write!(
                f,
                "argument {option}: invalid value: '{value}'"
            ),
            UsageFault::TakesNoValue(option) => write!(f, "argument {option}: takes no value"),
            UsageFault::Conflict => f.write_str("-n cannot be used with -x or --maxfail"),
            UsageFault::OutOfMemory => f.write_str("out of memory"),
        }
    }
}

impl Error for UsageFault {}

impl From<OutOfMemory> for UsageFault {
    ghost use Rattle.std.specs.Prelude.{◌≡◌};
    ghost use Rattle.cli_words.specs.declared.fault.UsageFault.TheVariants.{OutOfMemory};

    ghost from_gives = { λ _ fault. fault ≡ OutOfMemory };

    fn from(_error: OutOfMemory) -> UsageFault {
        UsageFault::OutOfMemory
    }
}
