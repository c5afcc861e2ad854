// The parameters of functions, and their defaults.

ghost use Rattle.std.specs.Prelude.{IfOk, ◌≡◌};
ghost use Rattle.lower_law.specs.core_meaning.Statements.{written as core_written};
ghost use Rattle.lower_law.specs.source_meaning.Statements.{source_written};
ghost use Rattle.py_tree.specs.Statements.{parameters};
ghost use Rattle.assert_rewrite.specs.Lowers.{LowersDefaults};

use crate::expressions::lower_expr;
use py_core::{CoreExpr, CoreParam};
use py_tree::Param;
use seq::OutOfMemory;
use std::alloc::Global;
use std::rc::Rc;

/// The names of parameters, and whether each has a default.
#[tactic(auto, using(crate::proofs::DefaultForms::params))]
pub fn core_params(alloc: Global, params: &[Param]) -> Result<Rc<Vec<CoreParam>>, OutOfMemory>
    ensures { IfOk result (λ cores. core_written cores.value.items ≡ source_written (parameters params.now)) }
{
    let mut done = Vec::new(alloc);
    for param in params {
        let name = param.name.clone()?;
        let has_default = param.default.is_some();
        done.push(CoreParam { name, has_default })?;
    }
    Ok(Rc::new(alloc, done)?)
}

/// The core forms of the defaults of those parameters that have one.
#[tactic(auto, using(crate::proofs::DefaultForms::defaults))]
pub fn lower_defaults(alloc: Global, params: &[Param]) -> Result<Rc<Vec<Rc<CoreExpr>>>, OutOfMemory>
    ensures { IfOk result (λ cores. LowersDefaults params.now cores.value.items) }
{
    let mut done = Vec::new(alloc);
    for param in params {
        if let Some(default) = &param.default {
            done.push(lower_expr(alloc, default)?)?;
        }
    }
    Ok(Rc::new(alloc, done)?)
}
