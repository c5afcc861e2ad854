// The exception that a raise makes.

ghost use Rattle.std.specs.Prelude.{◌≡◌, ◌∷◌, [], IfOk};
ghost use Rattle.py_values.specs.Raises.{thrown, thrown_with};
ghost use Rattle.py_values.specs.Raises as raises;

use crate::class::ClassRef;
use crate::end::Raise;
use crate::heap::Heap;
use crate::names::Names;
use crate::object::{ExceptionObj, Obj};
use crate::rows::Values;
use crate::value::Value;
use seq::OutOfMemory;
use std::alloc::Global;

/// Makes an exception with arguments, which are a new tuple.
pub fn throw_with(
    alloc: Global,
    heap: &mut Heap,
    class: ClassRef,
    args: Values,
) -> Result<Value, OutOfMemory>
    ensures { IfOk result (λ v. (v, heap.new) ≡ thrown_with class args heap.old) }
{
    let args = heap.add(Obj::Tuple(args))?;
    let id = heap.add(Obj::Exception(ExceptionObj {
        class,
        args: Some(Value::Ref(args)),
        names: Names::new(alloc),
    }))?;
    Ok(Value::Ref(id))
}

/// Makes the exception of a raise. Its one argument is `arg` where it is given, else a new text where the text isn't
/// empty; else it has none.
pub fn throw(alloc: Global, heap: &mut Heap, raise: Raise) -> Result<Value, OutOfMemory>
    ensures { IfOk result (λ v. (v, heap.new) ≡ thrown raise heap.old) }
{
    let Raise { class, text, arg } = raise;
    let mut args = Vec::new(alloc);
    if let Some(v) = arg {
        args.push(v)?;
    } else if !text.chars().is_empty() {
        let id = heap.add(Obj::Text(text))?;
        args.push(Value::Ref(id))?;
    }
    throw_with(
        alloc,
        heap,
        ClassRef::Builtin(class),
        Values::from_vec(args),
    )
}

/// An exception's arguments: what `args` is bound to, where that is a tuple.
pub fn args_in(heap: &Heap, args: Option<Value>) -> &[Value]
    ensures { result.now ≡ raises.args_in heap.now args }
{
    let Some(Value::Ref(id)) = args else {
        return &[];
    };
    match heap.get(id) {
        Some(Obj::Tuple(vs)) => vs.items(),
        _ => &[],
    }
}
