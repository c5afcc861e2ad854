use seq::OutOfMemory;
use std::error::Error;
use std::fmt;

/// An option with an expression.
#[derive(Clone, Copy, Debug, PartialEq, Eq)]
pub enum Flag {
    Keyword,
    Marks,
}

impl fmt::Display for Flag {
    ghost use Rattle.std.specs.Prelude.{Some};
    ghost use Rattle.selection.specs.Exprs.{flag_text};

    ghost output = { λ flag. Some (flag_text flag) };

    fn fmt<W: fmt::Write>(&self, f: &mut fmt::Formatter<W>) -> fmt::Result {
        match self {
            Flag::Keyword => f.write_str("-k"),
            Flag::Marks => f.write_str("-m"),
        }
    }
}

/// Why the expressions of options are refused. Its text is what the report says behind `ERROR: `.
#[derive(Clone, Copy, Debug, PartialEq, Eq)]
pub enum SelectionFault {
    /// The column, in characters from 1, of the first token at which no reading goes on.
    Wrong(Flag, u32),
    /// Too many parentheses and `not`s are open at once.
    TooDeep(Flag),
    OutOfMemory,
}

impl fmt::Display for SelectionFault {
    ghost use Rattle.std.specs.Prelude.{Some};
    ghost use Rattle.selection.specs.Exprs.{selection_text};

    ghost output = { λ fault. Some (selection_text fault) };

    fn fmt<W: fmt::Write>(&self, f: &mut fmt::Formatter<W>) -> fmt::Result {
        match self {
            SelectionFault::Wrong(flag, column) => {
                write!(f, "wrong expression in {flag} at column {column}")
            }
            SelectionFault::TooDeep(flag) => write!(f, "expression in {flag} too deep"),
            SelectionFault::OutOfMemory => f.write_str("out of memory"),
        }
    }
}

impl Error for SelectionFault {}

impl From<OutOfMemory> for SelectionFault {
    ghost use Rattle.std.specs.Prelude.{◌≡◌};
    ghost use Rattle.selection.specs.declared.fault.SelectionFault.TheVariants.{OutOfMemory};

    ghost from_gives = { λ _ fault. fault ≡ OutOfMemory };

    fn from(_error: OutOfMemory) -> SelectionFault {
        SelectionFault::OutOfMemory
    }
}
