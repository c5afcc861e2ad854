// How an operator or a built-in call ends.

ghost use Rattle.std.specs.Prelude.{◌≡◌, ◌++◌, IfOk, OnOk};
ghost use Rattle.py_values.specs.Ends.{finished, steps_of, cost_of, made_cost, payable};
ghost use Rattle.py_values.specs.Raises as raises;

use crate::change::Change;
use crate::class::ExcClass;
use crate::heap::Heap;
use crate::object::Obj;
use crate::value::{ObjId, Value};
use seq::{OutOfMemory, PyText};
use std::alloc::Global;

/// An exception that is to be raised: its class, and its one argument: `arg` where it is given, else the text where it
/// isn't empty, else none.
#[derive(Drop)]
pub struct Raise {
    pub class: ExcClass,
    pub text: PyText,
    pub arg: Option<Value>,
}

impl Raise {
    /// A raise with a text.
    pub fn from_chars(alloc: Global, class: ExcClass, text: &[char]) -> Result<Self, OutOfMemory>
        ensures { IfOk result (λ r. r ≡ raises.text_raise class text.now) }
    {
        let text = PyText::from_chars(alloc, text)?;
        Ok(Raise {
            class,
            text,
            arg: None,
        })
    }

    /// A raise with a text of ASCII characters.
    pub fn from_ascii(alloc: Global, class: ExcClass, text: &str) -> Result<Self, OutOfMemory>
        ensures { IfOk result (λ r. r ≡ raises.text_raise class text.now) }
    {
        let mut chars = Vec::new(alloc);
        push_ascii(&mut chars, text)?;
        let raise = Raise::from_chars(alloc, class, &chars)?;
        Ok(raise)
    }
}

/// Puts ASCII characters behind others.
pub fn push_ascii(chars: &mut Vec<char>, text: &str) -> Result<(), OutOfMemory>
    ensures { OnOk result (chars.new.items ≡ chars.old.items ++ text.now) }
{
    for b in text.as_bytes() {
        chars.push(char::from(*b))?;
    }
    Ok(())
}

/// How an operator or a built-in call ends, with its cost in steps.
#[derive(Drop)]
pub enum OpEnd {
    Value(Value, u64),
    Raised(Raise, u64),
    Exhausted,
}

/// What an operator or a built-in call makes, with its cost in steps, before the heap has it: a value, a new object, a change
/// of an object, or a raise.
#[derive(Drop)]
pub enum Effect {
    Give(Value, u64),
    New(Obj, u64),
    /// A change of the object at a place, and a value.
    Put(ObjId, Change, Value, u64),
    Fail(Raise, u64),
}

impl Effect {
    /// The steps of what is made.
    pub fn cost(&self) -> u64
        ensures { result ≡ cost_of self.now }
    {
        match self {
            Effect::Give(_, cost) => *cost,
            Effect::New(_, cost) => *cost,
            Effect::Put(_, _, _, cost) => *cost,
            Effect::Fail(_, cost) => *cost,
        }
    }
}

/// What is made under a budget, if anything.
pub fn made_within(made: Effect, budget: u64) -> Option<Effect>
    ensures { result ≡ payable budget made }
{
    if budget < made.cost() {
        drop(made);
        None
    } else {
        Some(made)
    }
}

/// Puts what is made into the heap; nothing is made where the budget doesn't suffice.
pub fn finish(heap: &mut Heap, made: Option<Effect>) -> Result<OpEnd, OutOfMemory>
    ensures end { IfOk result (λ e. (e, heap.new) ≡ finished heap.old made) }
    ensures cost { IfOk result (λ e. steps_of e ≡ made_cost made) }
{
    match made {
        Some(Effect::Give(v, cost)) => Ok(OpEnd::Value(v, cost)),
        Some(Effect::New(obj, cost)) => {
            let id = heap.add(obj)?;
            Ok(OpEnd::Value(Value::Ref(id), cost))
        }
        Some(Effect::Put(id, change, v, cost)) => {
            heap.change(id, change)?;
            Ok(OpEnd::Value(v, cost))
        }
        Some(Effect::Fail(raise, cost)) => Ok(OpEnd::Raised(raise, cost)),
        None => Ok(OpEnd::Exhausted),
    }
}
