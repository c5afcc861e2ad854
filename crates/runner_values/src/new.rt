// What describes an object that the runner gives the language.

use py_values::class::ExcClass;
use py_values::value::Value;
use seq::PyText;

/// What describes an object that the runner gives the language.
#[derive(Drop)]
pub enum New {
    Text(PyText),
    List(Vec<Value>),
    /// An exception of a built-in class: with this text as its one argument, or without any where the text is empty.
    Exception(ExcClass, PyText),
    /// What asks for fixtures: its fixture's name, where a fixture asks, the name of its scope, and its parameter, where it has one.
    Request {
        name: Option<PyText>,
        scope: PyText,
        param: Option<Value>,
    },
    /// A test item.
    Item {
        name: PyText,
        nodeid: PyText,
    },
    /// An instance of this class, without names.
    Instance(Value),
}
