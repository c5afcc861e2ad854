ghost use Rattle.std.specs.Prelude.{◌≡◌};
ghost use Rattle.pytest_core.specs.Status.{exit_code};

/// How a run ended.
#[derive(Clone, Copy, Debug, PartialEq, Eq)]
pub enum Status {
    /// All tests passed.
    Passed,
    /// A test failed or had an error.
    Failed,
    /// The run was interrupted: files could not be collected.
    Interrupted,
    /// The words or the files were refused, or a conftest raised.
    Usage,
    /// No test was selected.
    NoTests,
    OutOfMemory,
    /// The tree failed, and nothing was written.
    TreeFault,
    /// The sink failed, and a prefix of the report was written.
    SinkFault,
}

impl Status {
    /// The number with which the program ends: pytest's exit code where it has one.
    pub fn number(self) -> u8
        ensures { result ≡ exit_code self }
    {
        match self {
            Status::Passed => 0,
            Status::Failed => 1,
            Status::Interrupted => 2,
            Status::Usage => 4,
            Status::NoTests => 5,
            Status::OutOfMemory => 12,
            Status::TreeFault => 13,
            Status::SinkFault => 14,
        }
    }
}
