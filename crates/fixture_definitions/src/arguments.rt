// The arguments of a function.

ghost use Rattle.std.specs.Prelude.{◌≡◌, ◌++◌, ◌∷◌, [], IfOk, OnOk, drop, filter, map, option_copied};
ghost use Rattle.fixture_definitions.specs.Arguments as arguments;

use collect_names::copies::copied;
use collection_nodes::TraceFrame;
use py_values::object::FunctionObj;
use py_values::rows::Param;
use seq::{OutOfMemory, PyText, Seq};
use std::alloc::Global;

fn behind_first(params: &[Param]) -> &[Param]
    ensures { result.now ≡ drop 1 params.now }
{
    if params.is_empty() {
        return params;
    }
    &params[1..]
}

/// The parameters of a function; where it stands in a class, the first is its instance.
fn own_params(in_class: bool, params: &[Param]) -> &[Param]
    ensures { result.now ≡ arguments.own_params in_class params.now }
{
    if in_class {
        return behind_first(params);
    }
    params
}

/// Pushes the name of a parameter, unless it has a default.
fn push_asked(alloc: Global, names: &mut Seq<PyText>, param: &Param) -> Result<(), OutOfMemory>
    ensures { OnOk result (names.new ≡ names.old ++ map arguments.param_name (filter arguments.is_asked (param.now ∷ []))) }
{
    if param.default.is_some() {
        return Ok(());
    }
    let name = copied(alloc, &param.name)?;
    names.push(name)
}

/// The names of the parameters without default.
fn names_asked(alloc: Global, params: &[Param]) -> Result<Seq<PyText>, OutOfMemory>
    ensures { IfOk result (λ names. names ≡ map arguments.param_name (filter arguments.is_asked params.now)) }
{
    let mut names = Seq::new(alloc);
    for param in params {
        push_asked(alloc, &mut names, param)?;
    }
    Ok(names)
}

/// The arguments of a function: the parameters without default, in order.
pub fn asked_params(
    alloc: Global,
    in_class: bool,
    params: &[Param],
) -> Result<Seq<PyText>, OutOfMemory>
    ensures { IfOk result (λ names. names ≡ arguments.asked_params in_class params.now) }
{
    names_asked(alloc, own_params(in_class, params))
}

/// The arguments of a function, where there is one.
pub fn arguments_asked(
    alloc: Global,
    in_class: bool,
    function: Option<&FunctionObj>,
) -> Result<Seq<PyText>, OutOfMemory>
    ensures { IfOk result (λ names. names ≡ arguments.arguments_asked in_class (option_copied function.entry)) }
{
    match function {
        Some(function) => asked_params(alloc, in_class, function.params.items()),
        None => Ok(Seq::new(alloc)),
    }
}

/// Whether a name is `request`.
pub fn is_request(name: &PyText) -> bool
    ensures { result ≡ arguments.is_request name.now }
{
    is_spelled(&['r', 'e', 'q', 'u', 'e', 's', 't'], name)
}

fn is_spelled(letters: &[char], name: &PyText) -> bool
    ensures { result ≡ name_eq letters.now name.now }
{
    letters == name.chars()
}

ghost use Rattle.py_values.specs.Names.{name_eq};

fn push_but_request(
    alloc: Global,
    names: &mut Seq<PyText>,
    name: &PyText,
) -> Result<(), OutOfMemory>
    ensures { OnOk result (names.new ≡ names.old ++ arguments.but_request (name.now ∷ [])) }
{
    if is_request(name) {
        return Ok(());
    }
    let name = copied(alloc, name)?;
    names.push(name)
}

/// The names for which fixtures are looked for.
pub fn but_request(alloc: Global, names: &[PyText]) -> Result<Seq<PyText>, OutOfMemory>
    ensures { IfOk result (λ some. some ≡ arguments.but_request names.now) }
{
    let mut some = Seq::new(alloc);
    for name in names {
        push_but_request(alloc, &mut some, name)?;
    }
    Ok(some)
}

/// The place of a function's `def`.
pub fn def_place(alloc: Global, function: &FunctionObj) -> Result<TraceFrame, OutOfMemory>
    ensures { IfOk result (λ f. f ≡ arguments.defined_at (Some function.now)) }
{
    let path = copied(alloc, &function.path)?;
    Ok(TraceFrame {
        path,
        line: function.line,
        name: copied(alloc, &function.name)?,
    })
}

ghost use Rattle.std.specs.Prelude.{Some};

/// The place of a function's `def`, where there is one.
pub fn defined_at(alloc: Global, function: Option<&FunctionObj>) -> Result<TraceFrame, OutOfMemory>
    ensures { IfOk result (λ f. f ≡ arguments.defined_at (option_copied function.entry)) }
{
    match function {
        Some(function) => def_place(alloc, function),
        None => Ok(TraceFrame {
            path: PyText::from_vec(Vec::new(alloc)),
            line: 0,
            name: PyText::from_vec(Vec::new(alloc)),
        }),
    }
}
