// The exceptions of fixtures.

ghost use Rattle.std.specs.Prelude.{◌≡◌, ◌++◌, ◌∷◌, [], IfOk, OnOk, map};
ghost use Rattle.fixture_calls.specs.Hooks.{failure_thrown};
ghost use Rattle.test_session.specs.Demands.{IsTold};
ghost use Rattle.test_session.specs.declared.error.SetupError.TheVariants as error;

use fixture_calls::Failure;
use py_values::value::Value;
use py_world::Thrown;
use seq::{OutOfMemory, Seq};
use std::alloc::Global;

/// Why a demand gave nothing.
#[derive(Drop)]
pub enum SetupError {
    /// The exceptions, in order.
    Told(Seq<Thrown>),
    OutOfMemory,
}

impl From<OutOfMemory> for SetupError {
    ghost use Rattle.std.specs.Prelude.{◌≡◌};
    ghost use Rattle.test_session.specs.declared.error.SetupError.TheVariants as error;

    ghost from_gives = { λ _ e. e ≡ error.OutOfMemory };

    fn from(_error: OutOfMemory) -> SetupError {
        SetupError::OutOfMemory
    }
}

/// The exception of a failure.
fn thrown_of(failure: Failure) -> Thrown
    ensures { result ≡ failure_thrown failure }
{
    match failure {
        Failure::Exception(thrown) => thrown,
        Failure::FixtureFault(thrown, _text) => thrown,
    }
}

/// The exceptions of failures, in order.
pub(crate) fn all_thrown(alloc: Global, raised: Seq<Failure>) -> Result<Seq<Thrown>, OutOfMemory>
    ensures { IfOk result (λ thrown. thrown ≡ map failure_thrown raised) }
{
    let mut thrown = Seq::new(alloc);
    let raised = raised.into_vec();
    for failure in raised {
        thrown.push(thrown_of(failure))?;
    }
    Ok(thrown)
}

/// What a demand answers, with the exceptions of its failures.
pub(crate) fn told(
    alloc: Global,
    answer: Result<Value, setup_stack::SetupError<Failure>>,
) -> Result<Value, SetupError>
    ensures { IsTold answer result }
{
    match answer {
        Ok(value) => Ok(value),
        Err(setup_stack::SetupError::Told(raised)) => {
            let thrown = all_thrown(alloc, raised)?;
            Err(SetupError::Told(thrown))
        }
        Err(setup_stack::SetupError::OutOfMemory) => Err(SetupError::OutOfMemory),
    }
}
