ghost use Rattle.std.specs.Prelude.{◌≡◌};
ghost use Rattle.cli_words.specs.Info.{help_text};

use std::fmt;

/// A text that words may ask for in place of a run.
#[derive(Clone, Copy, PartialEq, Eq)]
pub enum Info {
    /// `--help`: what the program does, its options, its statuses.
    Help,
    /// `--version`: its name and version.
    Version,
}

/// What is told before anything is run.
#[derive(Clone, Copy, PartialEq, Eq)]
pub enum Notice {
    Fault,
    Asked(Info),
}

const HELP: &str = "usage: pytest_run [options] [paths]

Runs tests that are written for pytest. A path is a folder, a file or a test:
FILE::FUNCTION, FILE::CLASS or FILE::CLASS::METHOD. Without paths the files
test_*.py and *_test.py of the current folder and of those below it are run.

options:
  -k EXPRESSION            run the tests with a name of which this is true:
                           a part of it counts, in upper or lower case
  -m EXPRESSION            run the tests with marks of which this is true
  -x, --exitfirst          stop after the first failure or error
  --maxfail N              stop after N failures and errors; 0: never
  --ignore PATH            pass over a file or folder; may be given again
  --collect-only, --co     list the tests and run none
  -v, --verbose            write a line for each test
  --tb STYLE               tell of a failure: short (as without it), line, no
  --setup-show             show how fixtures are set up
  -n, --numprocesses N     share the tests among N workers
  --dist MODE              share them by file: loadfile; run no worker: no
  --step-limit N           let a test take N steps, 1 to 100000000
  --generated SEED,FILES   run tests that are made up
  --version                write the name and the version
  --help                   write this text
  --                       take all words behind it as paths

An expression has names, and, or, not and parentheses. A value may stand in
the next word, behind the = of a long option, or right behind a short one.

exit status:
  0   all tests passed
  1   a test failed or had an error
  2   a file could not be collected
  4   the words, the files or a conftest.py were refused
  5   no test was selected
  12  memory ran out
  13  a file could not be read
  14  the report could not be written

example:
  pytest_run -v -k 'store and not slow' --maxfail=3 tests
";

#[tactic(auto, unfolding(crate::specs::Info::help_text))]
fn help_text() -> &'static str
    ensures { result.now ≡ help_text }
{
    HELP
}

impl fmt::Display for Info {
    ghost use Rattle.std.specs.Prelude.{Some};
    ghost use Rattle.cli_words.specs.Info.{info_text};

    ghost output = { λ info. Some (info_text info) };

    fn fmt<W: fmt::Write>(&self, f: &mut fmt::Formatter<W>) -> fmt::Result {
        match self {
            Info::Help => f.write_str(help_text()),
            Info::Version => f.write_str("pytest_run 0.1.0\n"),
        }
    }
}
