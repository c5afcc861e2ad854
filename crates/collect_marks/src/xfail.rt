// What an `xfail` mark says.

use py_values::value::Value;
use seq::PyText;

/// What an `xfail` mark says of its item: why, which exceptions it covers (all, where it names none), and whether the item must not pass.
#[derive(Drop)]
pub struct Xfail {
    pub reason: PyText,
    /// A class of exceptions, or a tuple of them.
    pub raises: Option<Value>,
    pub strict: bool,
}
