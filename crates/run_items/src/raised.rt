// Lists of what was raised.

ghost use Rattle.std.specs.Prelude.{◌≡◌, ◌∷◌, [], IfOk};
ghost use Rattle.std.specs.Option.{option_to_list};

use fixture_world::Failure;
use seq::{OutOfMemory, Seq};
use std::alloc::Global;

/// One exception.
pub(crate) fn one(alloc: Global, failure: Failure) -> Result<Seq<Failure>, OutOfMemory>
    ensures { IfOk result (λ raised. raised ≡ failure ∷ []) }
{
    let mut raised = Seq::new(alloc);
    raised.push(failure)?;
    Ok(raised)
}

/// At most one exception.
pub(crate) fn at_most_one(
    alloc: Global,
    failure: Option<Failure>,
) -> Result<Seq<Failure>, OutOfMemory>
    ensures { IfOk result (λ raised. raised ≡ option_to_list failure) }
{
    match failure {
        Some(failure) => {
            let raised = one(alloc, failure)?;
            Ok(raised)
        }
        None => Ok(Seq::new(alloc)),
    }
}
