use py_values::value::Value;

/// A file that was loaded: a test file or a conftest.
#[derive(Clone, Copy, PartialEq, Eq)]
pub struct TestFile {
    /// Its place in the walk.
    pub place: usize,
    /// Its module's object; there is none where the load has failed.
    pub object: Option<Value>,
}
