// What a phase of an item tells at its end.

use report_parts::{PhaseEnd, Text};
use std::marker::Model;

/// What a phase of an item tells at its end: its outcome, and what was printed in it.
#[derive(Drop)]
pub struct Ending {
    pub end: PhaseEnd,
    pub captured: Text,
}

impl Model for Ending {
    ghost use Rattle.report_rules.specs.Collected.{CapturedEnd as EndingTold};

    ghost Value = { EndingTold };

    ghost view = { λ e. record { end = e.end; captured = e.captured } };

    ghost inverse = { λ t. record { end = t.end; captured = t.captured } };
}
