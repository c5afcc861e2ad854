// A text, or why there is none.

use py_values::PyText;
use py_values::end::Raise;

/// A text, or the exception that is raised in its place.
#[derive(Drop)]
pub enum TextResult {
    Text(PyText),
    Refused(Raise),
}
