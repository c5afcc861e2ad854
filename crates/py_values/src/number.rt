// The numbers that values are.

ghost use Rattle.std.specs.Prelude.{◌≡◌};
ghost use Rattle.py_values.specs.Numbers.{int_value};

use crate::value::Value;

/// The number that a value is; booleans are 0 and 1.
pub fn number(v: Value) -> Option<i128>
    ensures { result ≡ int_value v }
{
    match v {
        Value::Bool(true) => Some(1),
        Value::Bool(false) => Some(0),
        Value::Int(n) => Some(n),
        Value::None | Value::Ref(_) => None,
    }
}
