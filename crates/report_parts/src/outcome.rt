ghost use Rattle.std.specs.Prelude.{◌≡◌, ◌≤◌, ◌||◌};
ghost use Rattle.std.specs.List.{list_any};
ghost use Rattle.report_parts.specs.Outcomes.{has_error, has_failed, is_failed, is_raised, letter, not_empty, once, outcome_number, outcome_of, word};

use crate::report::{CollectReport, ItemReport, PhaseEnd};

/// The phases of an item.
#[derive(Clone, Copy, PartialEq, Eq)]
pub enum Phase {
    Setup,
    Call,
    Teardown,
}

/// What a phase shows of its end.
#[derive(Clone, Copy, PartialEq, Eq)]
pub enum Outcome {
    Passed,
    Failed,
    Error,
    Skipped,
    Xfailed,
    Xpassed,
}

impl Phase {
    /// What the end of this phase shows, if it shows something.
    pub fn outcome(self, end: &PhaseEnd) -> Option<Outcome>
        ensures { result ≡ outcome_of self end.now }
    {
        match (end, self) {
            (PhaseEnd::NotRun, _) => None,
            (PhaseEnd::Passed, Phase::Call) => Some(Outcome::Passed),
            (PhaseEnd::Passed, Phase::Setup | Phase::Teardown) => None,
            (PhaseEnd::Skipped, _) => Some(Outcome::Skipped),
            (PhaseEnd::Xfailed, _) => Some(Outcome::Xfailed),
            (PhaseEnd::Xpassed, _) => Some(Outcome::Xpassed),
            (PhaseEnd::StrictXpassed(..), _) => Some(Outcome::Failed),
            (PhaseEnd::Raised(_), Phase::Call) => Some(Outcome::Failed),
            (PhaseEnd::Raised(_), Phase::Setup | Phase::Teardown) => Some(Outcome::Error),
        }
    }
}

impl Outcome {
    fn number(self) -> u8
        ensures { result ≡ outcome_number self }
    {
        match self {
            Outcome::Passed => 0,
            Outcome::Failed => 1,
            Outcome::Error => 2,
            Outcome::Skipped => 3,
            Outcome::Xfailed => 4,
            Outcome::Xpassed => 5,
        }
    }

    /// 1 where this is what was shown, else 0.
    pub fn once(self, shown: Option<Outcome>) -> usize
        ensures count { result ≡ once self shown }
        ensures most { result ≤ 1 }
    {
        match shown {
            Some(shown) if self.number() == shown.number() => 1,
            Some(_) | None => 0,
        }
    }

    /// The letter of the progress line.
    pub fn letter(self) -> &'static str
        ensures { result.now ≡ letter self }
    {
        match self {
            Outcome::Passed => ".",
            Outcome::Failed => "F",
            Outcome::Error => "E",
            Outcome::Skipped => "s",
            Outcome::Xfailed => "x",
            Outcome::Xpassed => "X",
        }
    }

    /// The word of a line of `-v`.
    pub fn word(self) -> &'static str
        ensures { result.now ≡ word self }
    {
        match self {
            Outcome::Passed => "PASSED",
            Outcome::Failed => "FAILED",
            Outcome::Error => "ERROR",
            Outcome::Skipped => "SKIPPED",
            Outcome::Xfailed => "XFAIL",
            Outcome::Xpassed => "XPASS",
        }
    }
}

/// Whether a phase raised.
pub fn is_raised(end: &PhaseEnd) -> bool
    ensures { result ≡ is_raised end.now }
{
    match end {
        PhaseEnd::Raised(_) => true,
        PhaseEnd::NotRun
        | PhaseEnd::Passed
        | PhaseEnd::Skipped
        | PhaseEnd::Xfailed
        | PhaseEnd::Xpassed
        | PhaseEnd::StrictXpassed(..) => false,
    }
}

/// Whether a call raised, or passed under a strict xfail mark.
pub fn is_failed(end: &PhaseEnd) -> bool
    ensures { result ≡ is_failed end.now }
{
    match end {
        PhaseEnd::Raised(_) | PhaseEnd::StrictXpassed(..) => true,
        PhaseEnd::NotRun
        | PhaseEnd::Passed
        | PhaseEnd::Skipped
        | PhaseEnd::Xfailed
        | PhaseEnd::Xpassed => false,
    }
}

fn has_error(report: &ItemReport) -> bool
    ensures { result ≡ has_error report.now }
{
    is_raised(&report.setup) || is_raised(&report.teardown)
}

fn any_item_error(reports: &[ItemReport]) -> bool
    ensures { result ≡ list_any has_error reports.now }
{
    reports.iter().any(|report| has_error(report))
}

/// Whether there is an error: of collection, of a set-up or of a teardown.
pub fn any_error(errors: &[CollectReport], reports: &[ItemReport]) -> bool
    ensures { result ≡ (not_empty errors.now || list_any has_error reports.now) }
{
    !errors.is_empty() || any_item_error(reports)
}

/// Whether the call of an item failed.
pub fn any_failed(reports: &[ItemReport]) -> bool
    ensures { result ≡ list_any has_failed reports.now }
{
    reports.iter().any(|report| is_failed(&report.call))
}
