// Calls of the built-in functions on numbers.

ghost use Rattle.std.specs.Prelude.{◌≡◌, IfOk};
ghost use Rattle.text_methods.specs.call_products.Products.{product_within as within_steps, wrong as wrong_call};
ghost use Rattle.number_calls.specs.Calls as calls;

use crate::best::best;
use crate::numbers::{char_of, divided, number_pair, size, sole_char, sole_number};
use crate::sums::sum_gathered;
use crate::texts::int_of_value;
use call_products::arguments::{sole, sole_text};
use call_products::elements::elements_of;
use call_products::product::{Product, plain, product_within, wrong};
use py_kinds::truth::truth;
use py_operands::numbers::number_made;
use py_values::builtin::NumberCall;
use py_values::end::Effect;
use py_values::heap::Heap;
use py_values::object::Obj;
use py_values::value::Value;
use py_values::{OutOfMemory, PyText};
use std::alloc::Global;

/// A call on numbers, or one that adds or compares elements, under a budget (Python library reference, built-in functions).
pub fn number_call(
    alloc: Global,
    heap: &Heap,
    which: NumberCall,
    args: &[Value],
    named: &[(PyText, Value)],
    budget: u64,
) -> Result<Option<Product>, OutOfMemory>
    ensures { IfOk result (λ p. p ≡ within_steps budget (calls.number_call_of which heap.now args.now named.now)) }
{
    match which {
        NumberCall::Abs => match sole_number(args, named) {
            Some(n) => {
                let made = number_made(alloc, size(n))?;
                Ok(product_within(plain(alloc, made), budget))
            }
            None => wrong_within(alloc, "abs", budget),
        },
        NumberCall::Bool => match sole(args, named) {
            Some(v) => {
                let made = Effect::Give(Value::Bool(truth(heap, v)), 0);
                Ok(product_within(plain(alloc, made), budget))
            }
            None => wrong_within(alloc, "bool", budget),
        },
        NumberCall::Chr => match char_of(sole_number(args, named)) {
            Some(c) => {
                let text = PyText::from_chars(alloc, &[c])?;
                Ok(product_within(plain(alloc, Effect::New(Obj::Text(text), 0)), budget))
            }
            None => wrong_within(alloc, "chr", budget),
        },
        NumberCall::DivMod => match number_pair(args, named) {
            Some((x, y)) => Ok(product_within(divided(alloc, x, y)?, budget)),
            None => wrong_within(alloc, "divmod", budget),
        },
        NumberCall::Int => match sole(args, named) {
            Some(v) => Ok(product_within(int_of_value(alloc, heap, v)?, budget)),
            None => wrong_within(alloc, "int", budget),
        },
        NumberCall::Max => best(alloc, heap, false, args, named, budget),
        NumberCall::Min => best(alloc, heap, true, args, named, budget),
        NumberCall::Ord => match sole_char(sole_text(heap, args, named)) {
            Some(c) => {
                let made = Effect::Give(Value::Int(c as i128), 0);
                Ok(product_within(plain(alloc, made), budget))
            }
            None => wrong_within(alloc, "ord", budget),
        },
        NumberCall::Sum => match sole(args, named) {
            Some(v) => {
                let gathered = elements_of(alloc, heap, heap.len(), v)?;
                Ok(product_within(sum_gathered(alloc, heap, gathered)?, budget))
            }
            None => wrong_within(alloc, "sum", budget),
        },
    }
}

/// What a call with wrong arguments makes, under a budget.
fn wrong_within(
    alloc: Global,
    name: &'static str,
    budget: u64,
) -> Result<Option<Product>, OutOfMemory>
    ensures { IfOk result (λ p. p ≡ within_steps budget (wrong_call name.now 0)) }
{
    Ok(product_within(wrong(alloc, name, 0)?, budget))
}
