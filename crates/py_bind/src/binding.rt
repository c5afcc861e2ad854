// The arguments of a call bound to parameters.

ghost use Rattle.std.specs.Prelude.{◌≡◌, IfOk, IsErrOf};
ghost use Rattle.std.specs.List.{list_all};
ghost use Rattle.py_bind.specs.Binding.{given_values, value_of, values_of, is_parameter, bound, IsWrong, IsBound};
ghost use Rattle.py_bind.specs.Answers.{AnswersBound};

use crate::fault::BindFault;
use py_values::PyText;
use py_values::value::Value;
use std::alloc::Global;

/// Whether a name is a parameter's.
fn is_parameter(params: &[(PyText, Option<Value>)], name: &PyText) -> bool
    ensures { result ≡ is_parameter params.now name.now }
{
    params.iter().any(|param| param.0 == *name)
}

/// Whether each name is a parameter's.
fn are_parameters(params: &[(PyText, Option<Value>)], named: &[(PyText, Value)]) -> bool
    ensures { result ≡ list_all (λ argument. is_parameter params.now argument.0) named.now }
{
    named
        .iter()
        .all(|argument| is_parameter(params, &argument.0))
}

/// The value of a parameter: the one that it is given, by its place or by its name, or else its default. There is none where it is
/// given two, or nothing and has no default.
fn value_of(
    param: &(PyText, Option<Value>),
    by_place: Option<Value>,
    named: &[(PyText, Value)],
) -> Option<Value>
    ensures { result ≡ value_of param.now.1 (given_values param.now.0 by_place named.now) }
{
    let mut value = by_place;
    for argument in named {
        if param.0 == argument.0 {
            if value.is_some() {
                return None;
            }
            value = Some(argument.1);
        }
    }
    value.or(param.1)
}

/// The values of parameters in order, where each has one.
fn values_of(
    alloc: Global,
    params: &[(PyText, Option<Value>)],
    args: &[Value],
    named: &[(PyText, Value)],
) -> Result<Vec<Value>, BindFault>
    ensures { AnswersBound result (values_of params.now args.now named.now) }
{
    let mut values = Vec::new(alloc);
    for (at, param) in params.iter().enumerate() {
        match value_of(param, args.get(at).copied(), named) {
            Some(value) => values.push(value)?,
            None => return Err(BindFault::Wrong),
        }
    }
    Ok(values)
}

/// The values of parameters, where the arguments fit them.
fn bound(
    alloc: Global,
    params: &[(PyText, Option<Value>)],
    args: &[Value],
    named: &[(PyText, Value)],
) -> Result<Vec<Value>, BindFault>
    ensures { AnswersBound result (bound params.now args.now named.now) }
{
    if params.len() < args.len() || !are_parameters(params, named) {
        return Err(BindFault::Wrong);
    }
    values_of(alloc, params, args, named)
}

/// The values of a call's parameters (Language Reference, calls). Parameters are names, each with its default where it has one;
/// arguments come by place, and by name.
///
/// # Errors
///
/// `Wrong` exactly where a parameter without default gets no value, one gets two, a name is no parameter, or there are too many
/// arguments.
pub fn bind(
    alloc: Global,
    params: &[(PyText, Option<Value>)],
    args: &[Value],
    named: &[(PyText, Value)],
) -> Result<Vec<Value>, BindFault>
    ensures exact { AnswersBound result (bound params.now args.now named.now) }
    ensures right { IfOk result (λ values. IsBound params.now args.now named.now values.items) }
    ensures wrong { IsErrOf result BindFault.Wrong → IsWrong params.now args.now named.now }
{
    bound(alloc, params, args, named)
}
