// The parameters of a definition.

ghost use Rattle.std.specs.Prelude.{◌≡◌, IfOk};
ghost use Rattle.machine_state.specs.py_world.Definitions.{with_defaults};
ghost use Rattle.machine_state.specs.core_meaning.Statements.{written};
ghost use Rattle.machine_define.specs.Defaults.{takes_default};

use py_core::CoreParam;
use py_values::rows::{Param, Params};
use py_values::value::Value;
use seq::{OutOfMemory, PyText};
use std::alloc::Global;

/// The default of a parameter, and the place of the next one's value: the value at a place, where the parameter has a default.
#[derive(Clone, Copy)]
struct Default {
    value: Option<Value>,
    next: usize,
}

/// The default of a parameter among values from a place on.
#[tactic(auto, using(crate::proofs::Defaults::without, crate::proofs::Defaults::unvalued, crate::proofs::Defaults::valued))]
fn default_of(param: &CoreParam, values: &[Value], at: usize) -> Default
    ensures { takes_default param.now.has_default values.now at result.value result.next }
{
    if !param.has_default {
        return Default {
            value: None,
            next: at,
        };
    }
    if at >= values.len() {
        return Default {
            value: None,
            next: at,
        };
    }
    Default {
        value: Some(values[at]),
        next: at + 1,
    }
}

/// Parameters with the values of their defaults, in order.
#[tactic(auto, using(crate::proofs::Defaults::param_more, crate::proofs::Defaults::params_all))]
pub fn params_of(alloc: Global, all: &[CoreParam], values: &[Value]) -> Result<Params, OutOfMemory>
    ensures { IfOk result (λ ps. ps ≡ with_defaults (written all.now) values.now) }
{
    let mut params = Vec::new(alloc);
    let mut next = 0;
    for param in all {
        let default = default_of(param, values, next);
        let name = PyText::from_chars(alloc, param.name.chars())?;
        params.push(Param {
            name,
            default: default.value,
        })?;
        next = default.next;
    }
    Ok(Params::from_vec(params))
}
