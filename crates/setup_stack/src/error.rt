ghost use Rattle.std.specs.Prelude.{◌≡◌};
ghost use Rattle.setup_stack.specs.declared.error.SetupError.TheVariants.{OutOfMemory as NoMemory};

use seq::{OutOfMemory, Seq};

/// Why a demand gave nothing.
#[derive(Drop)]
pub enum SetupError<E> {
    /// The exceptions, in order.
    Told(Seq<E>),
    OutOfMemory,
}

impl<E> From<OutOfMemory> for SetupError<E> {
    ghost from_gives = { λ _ error. error ≡ NoMemory };

    fn from(_error: OutOfMemory) -> SetupError<E> {
        SetupError::OutOfMemory
    }
}
