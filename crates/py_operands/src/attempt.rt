// An operator that two kinds may not have.

ghost use Rattle.std.specs.Prelude.{◌≡◌};
ghost use Rattle.py_operands.specs.Attempts.{attempted};

use py_values::end::Effect;

/// What comes of an operator on two kinds that may not have it, under a budget.
#[derive(Drop)]
pub enum Attempt {
    Made(Effect),
    Exhausted,
    Unsupported,
}

/// What is made, where the budget suffices.
pub fn attempt_within(made: Option<Effect>, budget: u64) -> Attempt
    ensures { result ≡ attempted budget made }
{
    match made {
        None => Attempt::Unsupported,
        Some(made) => {
            if budget < made.cost() {
                drop(made);
                Attempt::Exhausted
            } else {
                Attempt::Made(made)
            }
        }
    }
}
