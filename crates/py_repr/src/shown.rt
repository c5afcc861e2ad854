// What is shown of a value.

use seq::PyText;

/// The first characters of a text, whether it is longer, and whether a value that lies too deep begins in them.
#[derive(Drop)]
pub struct Shown {
    pub text: PyText,
    pub cut: bool,
    pub deep: bool,
}
