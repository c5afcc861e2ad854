// Rows on values: what is shown of them, comparison within a budget, exceptions, names, and changes of objects.

use crate::shown::{length_told, repr_told, value_told};
use crate::spelled::{MemoryResult, Operands, characters, copied, text};
use py_compare::equal::equal;
use py_compare::order::less;
use py_compare::tested::Tested;
use py_kinds::builtins::{builtin_value, first_heap};
use py_repr::repr::{message, repr};
use py_values::change::Change;
use py_values::class::ExcClass;
use py_values::end::Raise;
use py_values::heap::Heap;
use py_values::names::{Name, Names};
use py_values::object::Obj;
use py_values::throw::throw;
use py_values::value::Value;
use std::alloc::Global;

/// A value's kind, repr, text and truth.
pub fn shown(alloc: Global, on: &Operands) -> MemoryResult<String> {
    value_told(alloc, &on.heap, on.at(0))
}

/// The value of a built-in name in the first heap; `None` where there is none.
pub fn builtin(alloc: Global, name: &str) -> MemoryResult<Value> {
    let name = characters(alloc, name)?;
    Ok(builtin_value(&name).unwrap_or(Value::None))
}

/// What is shown of the value of a built-in name.
pub fn named(alloc: Global, name: &str) -> MemoryResult<String> {
    let heap = first_heap(alloc)?;
    let v = builtin(alloc, name)?;
    value_told(alloc, &heap, v)
}

/// The length of what is shown of a value within a length, whether it is cut, and whether it lies too deep.
pub fn cut(alloc: Global, on: &Operands, most: usize) -> MemoryResult<String> {
    let shown = repr(alloc, &on.heap, on.at(0), most)?;
    length_told(alloc, &shown)
}

/// The same of an exception's message.
pub fn message_cut(alloc: Global, on: &Operands, most: usize) -> MemoryResult<String> {
    let shown = message(alloc, &on.heap, on.at(0), most)?;
    length_told(alloc, &shown)
}

fn tested_told(alloc: Global, tested: Tested) -> MemoryResult<String> {
    let (word, cost) = match tested {
        Tested::Yes(cost) => ("yes", cost),
        Tested::No(cost) => ("no", cost),
        Tested::TooDeep(cost) => ("too deep", cost),
        Tested::NotOrdered(cost) => ("not ordered", cost),
        Tested::Exhausted => return copied(alloc, "exhausted"),
    };
    Ok(format!(in alloc; "{word} {cost}")?)
}

/// Whether two values are equal, and whether the first is less, within a budget.
pub fn compared(alloc: Global, on: &Operands, budget: u64) -> MemoryResult<String> {
    let same = tested_told(alloc, equal(&on.heap, on.at(0), on.at(1), budget))?;
    let less = tested_told(alloc, less(&on.heap, on.at(0), on.at(1), budget))?;
    Ok(format!(in alloc; "{same}, {less}")?)
}

/// The exception of a raise with a text, and with an argument where there is an operand.
pub fn thrown(alloc: Global, on: &mut Operands, text: &str) -> MemoryResult<String> {
    let mut raise = Raise::from_ascii(alloc, ExcClass::NameError, text)?;
    raise.arg = on.values.first().copied();
    let exc = throw(alloc, &mut on.heap, raise)?;
    value_told(alloc, &on.heap, exc)
}

/// A name of the language.
pub fn name(alloc: Global, spelled: &str) -> MemoryResult<Name> {
    Ok(Name::from_text(text(alloc, spelled)?))
}

/// Names bound to 1, 2 and so on in turn.
fn names_of(alloc: Global, spelled: &str) -> MemoryResult<Names> {
    let mut names = Names::new(alloc);
    let mut n = 0i128;
    for part in spelled.split('|') {
        n = n.saturating_add(1);
        names.bind(name(alloc, part)?, Value::Int(n))?;
    }
    Ok(names)
}

fn found(alloc: Global, heap: &Heap, v: Option<Value>) -> MemoryResult<String> {
    match v {
        Some(v) => repr_told(alloc, heap, v),
        None => copied(alloc, "-"),
    }
}

fn first_of(names: &Names) -> Option<Value> {
    match names.entry(0) {
        Some((_, v)) => Some(*v),
        None => None,
    }
}

/// What a name is bound to, and the value that stands first.
fn found_in(alloc: Global, names: &Names, wanted: &str) -> MemoryResult<String> {
    let heap = Heap::new(alloc)?;
    let wanted = name(alloc, wanted)?;
    let there = found(alloc, &heap, names.find(&wanted))?;
    let first = found(alloc, &heap, first_of(names))?;
    Ok(format!(in alloc; "{there} {first}")?)
}

/// The same behind bindings.
pub fn bound(alloc: Global, wanted: &str, spelled: &str) -> MemoryResult<String> {
    let names = names_of(alloc, spelled)?;
    found_in(alloc, &names, wanted)
}

/// A value whose object is written anew as a text.
pub fn changed(alloc: Global, on: &mut Operands, spelled: &str) -> MemoryResult<String> {
    let v = on.at(0);
    if let Value::Ref(id) = v {
        if id.at < on.heap.len() {
            *on.heap.obj_mut(id) = Obj::Text(text(alloc, spelled)?);
        }
    }
    value_told(alloc, &on.heap, v)
}

/// A list behind which a value is put.
pub fn pushed(alloc: Global, on: &mut Operands) -> MemoryResult<String> {
    let (list, v) = (on.at(0), on.at(1));
    if let Value::Ref(id) = list {
        on.heap.change(id, Change::Push(v))?;
    }
    repr_told(alloc, &on.heap, list)
}
