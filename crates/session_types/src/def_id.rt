ghost use Rattle.std.specs.Prelude.{◌≡◌};

use std::marker::Model;

/// The number of a fixture's definition in its table.
#[derive(Clone, Copy, Debug, PartialEq, Eq)]
pub struct DefId {
    number: u32,
}

impl Model for DefId {
    ghost use Rattle.std.specs.Prelude.{ℕ};

    ghost Value = { ℕ };

    ghost view = { λ d. d.number };

    ghost inverse = { λ n. record { number = n } };
}

impl DefId {
    /// The definition at this place of its table, from 0.
    pub fn new(number: u32) -> Self
        ensures { result ≡ number }
    {
        DefId { number }
    }

    /// Its place in its table, from 0.
    pub fn number(self) -> u32
        ensures { result ≡ self }
    {
        self.number
    }
}
