// What stands between the brackets of a subscript.

use crate::value::Value;

/// What stands between the brackets of a subscript (Language Reference, subscriptions and slicings): an index or a key, or
/// the start, stop and step of a slice.
#[derive(Clone, Copy, PartialEq, Eq)]
pub enum Index {
    At(Value),
    Slice(Option<Value>, Option<Value>, Option<Value>),
}
