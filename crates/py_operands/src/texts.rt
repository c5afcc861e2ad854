// The text that a value is.

ghost use Rattle.std.specs.Prelude.{◌≡◌, option_copied};
ghost use Rattle.py_operands.specs.Texts as texts;

use py_values::PyText;
use py_values::heap::Heap;
use py_values::object::Obj;
use py_values::value::Value;

/// The characters of a value, where it is a text.
pub fn text_of(heap: &Heap, v: Value) -> Option<&PyText>
    ensures { option_copied result ≡ texts.text_of heap.now v }
{
    let Value::Ref(id) = v else {
        return None;
    };
    match heap.get(id) {
        Some(Obj::Text(text)) => Some(text),
        _ => None,
    }
}
