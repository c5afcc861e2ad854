// Values that rows spell with one sign: values in themselves, values within many others, long ones.

use crate::objects::added;
use crate::spelled::{MemoryResult, Operands, put};
use py_ops::binary::binary;
use py_tree::BinOp;
use py_values::PyText;
use py_values::change::Change;
use py_values::class::{ClassRef, ExcClass};
use py_values::dict::Dict;
use py_values::end::OpEnd;
use py_values::heap::Heap;
use py_values::object::Obj;
use py_values::rows::Values;
use py_values::throw::throw_with;
use py_values::value::Value;
use std::alloc::Global;

/// A list that holds 1 and itself.
pub fn own_list(alloc: Global, heap: &mut Heap) -> MemoryResult<Value> {
    let id = heap.add(Obj::List(Values::new(alloc)))?;
    heap.change(id, Change::Push(Value::Int(1)))?;
    heap.change(id, Change::Push(Value::Ref(id)))?;
    Ok(Value::Ref(id))
}

/// A value in a row of its own.
fn sole(alloc: Global, v: Value) -> MemoryResult<Values> {
    let mut items = Values::new(alloc);
    items.push(v)?;
    Ok(items)
}

/// 1 within so many tuples.
pub fn nested(alloc: Global, heap: &mut Heap, levels: usize) -> MemoryResult<Value> {
    let mut v = Value::Int(1);
    for _ in 0..levels {
        v = added(heap, Obj::Tuple(sole(alloc, v)?))?;
    }
    Ok(v)
}

/// 7 within so many exceptions.
pub fn nested_exception(alloc: Global, heap: &mut Heap, levels: usize) -> MemoryResult<Value> {
    let mut v = Value::Int(7);
    for _ in 0..levels {
        let class = ClassRef::Builtin(ExcClass::KeyError);
        v = throw_with(alloc, heap, class, sole(alloc, v)?)?;
    }
    Ok(v)
}

/// A dict with the keys below a number.
pub fn full_dict(alloc: Global, heap: &mut Heap, keys: usize) -> MemoryResult<Value> {
    let mut dict = Dict::new(alloc);
    for i in 0..keys {
        put(alloc, heap, &mut dict, Value::Int(i as i128), Value::None)?;
    }
    added(heap, Obj::Dict(dict))
}

/// A list of the numbers below one, from the greatest on.
pub fn numbers(alloc: Global, heap: &mut Heap, count: usize) -> MemoryResult<Value> {
    let mut items = Values::new(alloc);
    for i in 0..count {
        items.push(Value::Int((count - i - 1) as i128))?;
    }
    added(heap, Obj::List(items))
}

/// A text of so many spaces.
pub fn spaces(alloc: Global, heap: &mut Heap, count: usize) -> MemoryResult<Value> {
    let mut chars = Vec::new(alloc);
    for _ in 0..count {
        chars.push(' ')?;
    }
    added(heap, Obj::Text(PyText::from_chars(alloc, &chars)?))
}

/// The value before it so many times, which it takes away.
pub fn repeated(alloc: Global, on: &mut Operands, times: usize) -> MemoryResult<Value> {
    let v = on.values.pop().unwrap_or(Value::None);
    let times = Value::Int(times as i128);
    match binary(alloc, &mut on.heap, BinOp::Mul, v, times, u64::MAX)? {
        OpEnd::Value(v, _) => Ok(v),
        OpEnd::Raised(_, _) | OpEnd::Exhausted => Ok(Value::None),
    }
}
