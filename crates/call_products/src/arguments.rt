// The arguments of calls.

ghost use Rattle.std.specs.Prelude.{◌≡◌, option_copied};
ghost use Rattle.call_products.specs.Arguments as arguments;

use py_operands::texts::text_of;
use py_values::PyText;
use py_values::heap::Heap;
use py_values::value::Value;

/// Whether a call has no arguments.
pub fn has_none(args: &[Value], named: &[(PyText, Value)]) -> bool
    ensures { result ≡ arguments.has_none args.now named.now }
{
    match (args, named) {
        ([], []) => true,
        _ => false,
    }
}

/// The one argument of a call that has no other.
pub fn sole(args: &[Value], named: &[(PyText, Value)]) -> Option<Value>
    ensures { result ≡ arguments.sole args.now named.now }
{
    match (args, named) {
        ([v], []) => Some(*v),
        _ => None,
    }
}

/// The two arguments of a call that has no others.
pub fn pair(args: &[Value], named: &[(PyText, Value)]) -> Option<(Value, Value)>
    ensures { result ≡ arguments.pair args.now named.now }
{
    match (args, named) {
        ([v, w], []) => Some((*v, *w)),
        _ => None,
    }
}

/// The text that is the one argument of a call.
pub fn sole_text<'a>(
    heap: &'a Heap,
    args: &[Value],
    named: &[(PyText, Value)],
) -> Option<&'a PyText>
    ensures { option_copied result ≡ arguments.sole_text heap.now args.now named.now }
{
    match sole(args, named) {
        Some(v) => text_of(heap, v),
        None => None,
    }
}
