// The arguments of calls.

ghost use Rattle.std.specs.Prelude.{◌≡◌, [], IfOk};
ghost use Rattle.py_world.specs.Arguments.{fitted};

use py_values::names::{Name, Names};
use py_values::rows::Param;
use py_values::value::Value;
use seq::OutOfMemory;
use std::alloc::Global;

/// The value of a parameter: the argument at its place, or else its default.
fn given(param: &Param, args: &[Value], at: usize) -> Option<Value>
    ensures { result ≡ value_given param.now args.now at }
{
    if at < args.len() {
        return Some(args[at]);
    }
    param.default
}

ghost use Rattle.py_world.specs.Fitting.{value_given};

/// The local names with which a function begins that is called with arguments by position alone: each parameter has its argument
/// or its default. There are none where the arguments don't fit (Language Reference, calls).
#[tactic(auto, using(crate::proofs::Parameters::fits_given, crate::proofs::Parameters::fits_missing, crate::proofs::Parameters::fits_over, crate::proofs::Parameters::fits_all))]
pub fn fit(alloc: Global, params: &[Param], args: &[Value]) -> Result<Option<Names>, OutOfMemory>
    ensures { IfOk result (λ names. names ≡ fitted params.now args.now [] []) }
{
    let mut names = Names::new(alloc);
    for i in 0..params.len() {
        let Some(v) = given(&params[i], args, i) else {
            return Ok(None);
        };
        names.bind(Name::from_chars(alloc, params[i].name.chars())?, v)?;
    }
    if args.len() > params.len() {
        return Ok(None);
    }
    Ok(Some(names))
}
