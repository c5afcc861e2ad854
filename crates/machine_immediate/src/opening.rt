// Functions of the sources whose call is looked into for a value that is there at once.

ghost use Rattle.std.specs.Prelude.{◌≡◌, IfSome, option_copied, slice_get};
ghost use Rattle.machine_immediate.specs.Opened.{function_called_by, IsCallee};

use machine_state::code::Code;
use machine_state::machine::Machine;
use machine_state::place::Location;
use py_values::heap::Heap;
use py_values::object::{FunctionObj, Obj};
use py_values::value::Value;

/// The function that a value is.
fn function_of(heap: &Heap, callee: Value) -> Option<&FunctionObj>
    ensures { option_copied result ≡ function_called_by heap.now callee }
{
    match callee {
        Value::Ref(id) => match heap.get(id) {
            Some(Obj::Function(function)) => Some(function),
            Some(
                Obj::Text(_)
                | Obj::List(_)
                | Obj::Tuple(_)
                | Obj::Dict(_)
                | Obj::Range(_)
                | Obj::Method(_)
                | Obj::Builtin(_)
                | Obj::Class(_)
                | Obj::Instance(_)
                | Obj::Exception(_)
                | Obj::Module(_)
                | Obj::Fixture(_)
                | Obj::MarkMaker
                | Obj::Mark(_)
                | Obj::Hook(_)
                | Obj::Param(_)
                | Obj::Request(_)
                | Obj::Raises(_)
                | Obj::Info(_)
                | Obj::Item(_),
            )
            | None => None,
        },
        Value::None | Value::Bool(_) | Value::Int(_) => None,
    }
}

/// The code of this number.
fn code_at(codes: &[Code], at: usize) -> Option<&Code>
    ensures { option_copied result ≡ slice_get codes.now at }
{
    codes.get(at)
}

/// The function that a value is, its code, and how many functions are open around a call of it from a place: it doesn't yield, and one more
/// may be open.
pub(crate) fn callee_at<'m>(
    m: &'m Machine,
    here: &Location,
    callee: Value,
) -> Option<(&'m FunctionObj, &'m Code, usize)>
    ensures { IfSome result (λ x. IsCallee callee x.0.now x.1.now x.2 m.now here.now) }
{
    let Some(function) = function_of(&m.heap, callee) else {
        return None;
    };
    if function.yields {
        return None;
    }
    let Some(code) = code_at(&m.codes, function.code) else {
        return None;
    };
    match here.room() {
        Some(around) => Some((function, code, around)),
        None => None,
    }
}
