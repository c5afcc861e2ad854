// Names that objects have of their own.

ghost use Rattle.std.specs.Prelude.{◌≡◌};
ghost use Rattle.py_attributes.specs.Attributes as attributes;
ghost use Rattle.py_items.specs.Items as items;

use py_items::subscript::object_at;
use py_values::heap::Heap;
use py_values::names::Name;
use py_values::object::{ExceptionObj, Obj};
use py_values::value::Value;

/// Whether a name is `args`.
pub fn is_args(name: &Name) -> bool
    ensures { result ≡ attributes.is_args name.now }
{
    name.text().chars() == ['a', 'r', 'g', 's'].as_slice()
}

/// The value of a name of an exception's own.
pub(crate) fn exception_value(x: &ExceptionObj, name: &Name) -> Option<Value>
    ensures { result ≡ attributes.exception_value name.now x.now }
{
    if is_args(name) {
        x.args
    } else {
        x.names.find(name)
    }
}

/// The value of a name of an object's own.
pub fn own_value(heap: &Heap, v: Value, name: &Name) -> Option<Value>
    ensures { result ≡ attributes.own_value name.now (items.object_at heap.now v) }
{
    match object_at(heap, v) {
        Some(Obj::Class(x)) => x.names.find(name),
        Some(Obj::Instance(x)) => x.names.find(name),
        Some(Obj::Exception(x)) => exception_value(x, name),
        Some(Obj::Module(x)) => x.names.find(name),
        Some(
            Obj::Text(_)
            | Obj::List(_)
            | Obj::Tuple(_)
            | Obj::Dict(_)
            | Obj::Range(_)
            | Obj::Function(_)
            | Obj::Method(_)
            | Obj::Builtin(_)
            | Obj::Fixture(_)
            | Obj::MarkMaker
            | Obj::Mark(_)
            | Obj::Hook(_)
            | Obj::Param(_)
            | Obj::Request(_)
            | Obj::Raises(_)
            | Obj::Info(_)
            | Obj::Item(_),
        )
        | None => None,
    }
}
