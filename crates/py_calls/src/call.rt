// Calls of what is built in.

ghost use Rattle.std.specs.Prelude.{◌≡◌, ◌≤◌, ◌++◌, IfOk, OnOk};
ghost use Rattle.sequence_calls.specs.call_products.Products as products;
ghost use Rattle.py_calls.specs.Calls as calls;
ghost use Rattle.py_values.specs.Ends.{steps_of};

use crate::functions::{len_made, str_made};
use crate::line::{print_text, push_bytes};
use crate::made::TextResult;
use crate::methods::{dict_call, list_call, text_call, tuple_call};
use call_products::arguments::sole;
use call_products::product::{Product, finish_product, plain, product_within};
use number_calls::calls::number_call;
use object_calls::calls::object_call;
use py_values::builtin::Builtin;
use py_values::end::{Effect, OpEnd};
use py_values::heap::Heap;
use py_values::value::Value;
use py_values::{OutOfMemory, PyText};
use pytest_calls::calls::{addfinalizer_called, pytest_called};
use sequence_calls::calls::sequence_call;
use std::alloc::Global;

/// Prints a text, where the budget suffices for its length.
fn print_by(
    alloc: Global,
    printed: &mut Vec<u8>,
    text: TextResult,
    budget: u64,
) -> Result<Option<Product>, OutOfMemory>
    ensures made { IfOk result (λ p. p ≡ products.product_within budget (calls.print_by text).product) }
    ensures printed { OnOk result (printed.new.items ≡ printed.old.items ++ calls.printed_within budget (calls.print_by text)) }
{
    match text {
        TextResult::Text(text) => {
            let cost = text.chars().len() as u64;
            if budget < cost {
                return Ok(None);
            }
            push_bytes(alloc, printed, text.chars())?;
            Ok(Some(plain(alloc, Effect::Give(Value::None, cost))))
        }
        TextResult::Refused(raise) => Ok(Some(plain(alloc, Effect::Fail(raise, 0)))),
    }
}

/// What a call makes, under a budget (of a method the first argument is the value through which it was read); what it prints is put behind
/// what was printed.
#[tactic(auto, using(crate::proofs::Quiet::quiet_prints))]
pub fn called(
    alloc: Global,
    heap: &Heap,
    printed: &mut Vec<u8>,
    which: Builtin,
    args: &[Value],
    named: &[(PyText, Value)],
    budget: u64,
) -> Result<Option<Product>, OutOfMemory>
    ensures made { IfOk result (λ p. p ≡ products.product_within budget (calls.called_of which heap.now args.now named.now).product) }
    ensures printed { OnOk result
        (printed.new.items ≡ printed.old.items ++ calls.printed_within budget (calls.called_of which heap.now args.now named.now)) }
{
    match which {
        Builtin::Print => {
            let text = print_text(alloc, heap, args, named)?;
            print_by(alloc, printed, text, budget)
        }
        Builtin::Len => {
            let product = len_made(alloc, heap, sole(args, named))?;
            Ok(product_within(product, budget))
        }
        Builtin::Str => {
            let product = str_made(alloc, heap, sole(args, named))?;
            Ok(product_within(product, budget))
        }
        Builtin::Sequence(call) => sequence_call(alloc, heap, call, args, named, budget),
        Builtin::Number(call) => number_call(alloc, heap, call, args, named, budget),
        Builtin::Object(call) => {
            let product = object_call(alloc, heap, call, args, named)?;
            Ok(product_within(product, budget))
        }
        Builtin::Text(method) => {
            let product = text_call(alloc, heap, method, args, named)?;
            Ok(product_within(product, budget))
        }
        Builtin::List(method) => list_call(alloc, heap, method, args, named, budget),
        Builtin::Tuple(method) => tuple_call(alloc, heap, method, args, named, budget),
        Builtin::Dict(method) => dict_call(alloc, heap, method, args, named, budget),
        Builtin::Pytest(call) => {
            let product = pytest_called(alloc, heap, call, args, named)?;
            Ok(product_within(product, budget))
        }
        Builtin::AddFinalizer => {
            let product = addfinalizer_called(alloc, heap, args, named)?;
            Ok(product_within(product, budget))
        }
    }
}

/// A call of what is built in (Python library reference, built-in functions and types; pytest's reference), within a budget of steps.
#[tactic(auto, using(crate::proofs::Within::within_cost))]
pub fn builtin(
    alloc: Global,
    heap: &mut Heap,
    printed: &mut Vec<u8>,
    which: Builtin,
    args: &[Value],
    named: &[(PyText, Value)],
    budget: u64,
) -> Result<OpEnd, OutOfMemory>
    ensures end { IfOk result
        (λ e. (e, heap.new) ≡ products.product_finished heap.old (products.product_within budget (calls.called_of which heap.old args.now named.now).product)) }
    ensures printed { OnOk result
        (printed.new.items ≡ printed.old.items ++ calls.printed_within budget (calls.called_of which heap.old args.now named.now)) }
    ensures cost { IfOk result (λ e. steps_of e ≤ budget) }
{
    let made = called(alloc, heap, printed, which, args, named, budget)?;
    finish_product(heap, made)
}
