// Bodies that stop at a `yield`, and how they begin and go on.

ghost use Rattle.std.specs.Prelude.{◌≡◌};

use machine_load::{Outcome, Thrown};
use py_values::value::Value;
use std::marker::Model;

/// The frame of a body that has stopped at a `yield`, seen as its number. It must be spent: by `resume` or
/// `abandon`, where it is out, or by `give_up`, with which its world is spent too.
pub struct Frozen {
    number: usize,
}

impl Model for Frozen {
    ghost use Rattle.std.specs.Prelude.{ℕ};

    ghost Value = { ℕ };

    ghost view = { λ f. f.number };
}

impl Frozen {
    /// The frame of this number.
    pub(crate) fn new(number: usize) -> Self
        ensures { result ≡ number }
    {
        Frozen { number }
    }

    pub(crate) fn number(&self) -> usize
        ensures { result ≡ self.now }
    {
        self.number
    }

    /// Spends a frame; its number.
    pub(crate) fn spend(self) -> usize
        ensures { result ≡ self }
    {
        let Frozen { number } = self;
        number
    }
}

/// What a body goes on with at its `yield`: a value, or an exception that is thrown there.
#[derive(Drop)]
pub enum Sent {
    Value(Value),
    Throw(Thrown),
}

/// How a begin or a resumption ends: the body has stopped at a `yield` that gives a value, or it is over, as a call is.
pub enum BegunOut {
    Yielded(Value, Frozen),
    Over(Outcome),
}

/// How a begin or a resumption ends, and the steps that it took.
pub struct Begun {
    pub out: BegunOut,
    pub steps: u64,
}
