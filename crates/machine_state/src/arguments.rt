// The arguments of calls.

ghost use Rattle.std.specs.Prelude.{◌≡◌};
ghost use Rattle.core_meaning.specs.py_world.Arguments.{positional_arguments};
ghost use Rattle.machine_state.specs.Places.{arguments_in};

use crate::locals::Locals;
use py_values::value::Value;
use std::alloc::Global;

/// The arguments of a call: those by position, and those by name in the order of the text.
pub struct CallArguments {
    pub plain: Vec<Value>,
    pub named: Locals,
}

impl Drop for CallArguments {
    fn drop(self) {
        let CallArguments { plain: _, named: _ } = self;
    }
}

impl CallArguments {
    /// Arguments by position alone.
    pub fn plain(alloc: Global, values: Vec<Value>) -> Self
        ensures { arguments_in result ≡ positional_arguments values.items }
    {
        CallArguments {
            plain: values,
            named: Locals::new(alloc),
        }
    }
}
