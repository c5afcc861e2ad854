// What collection finds among the names of a module.

use py_values::value::Value;
use seq::PyText;

/// A class of tests: the name to which it is bound, and its object.
pub struct TestClass {
    pub name: PyText,
    pub object: Value,
}

impl Drop for TestClass {
    fn drop(self) {
        let TestClass { name: _, object: _ } = self;
    }
}

/// A test function: the class in which it stands, where it stands in one, the name to which it is bound, and its object.
pub struct TestFunction {
    pub class: Option<TestClass>,
    pub name: PyText,
    pub function: Value,
}

impl Drop for TestFunction {
    fn drop(self) {
        let TestFunction {
            class: _,
            name: _,
            function: _,
        } = self;
    }
}
