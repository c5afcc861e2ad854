// Copies of names and tests.

ghost use Rattle.std.specs.Prelude.{◌≡◌, IfOk, option_copied};

use crate::found::{TestClass, TestFunction};
use seq::{OutOfMemory, PyText, Seq};
use std::alloc::Global;

/// A copy of a text.
pub fn copied(alloc: Global, text: &PyText) -> Result<PyText, OutOfMemory>
    ensures { IfOk result (λ t. t ≡ text.now) }
{
    PyText::from_chars(alloc, text.chars())
}

/// A copy of texts.
pub fn copied_texts(alloc: Global, texts: &[PyText]) -> Result<Seq<PyText>, OutOfMemory>
    ensures { IfOk result (λ copies. copies ≡ texts.now) }
{
    let mut copies = Seq::new(alloc);
    for text in texts {
        let one = copied(alloc, text)?;
        copies.push(one)?;
    }
    Ok(copies)
}

/// A copy of a class of tests, where there is one.
pub fn copied_class(
    alloc: Global,
    class: Option<&TestClass>,
) -> Result<Option<TestClass>, OutOfMemory>
    ensures { IfOk result (λ c. c ≡ option_copied class.entry) }
{
    match class {
        Some(class) => Ok(Some(TestClass {
            name: copied(alloc, &class.name)?,
            object: class.object,
        })),
        None => Ok(None),
    }
}

/// A copy of a test function.
pub fn copied_test(alloc: Global, test: &TestFunction) -> Result<TestFunction, OutOfMemory>
    ensures { IfOk result (λ t. t ≡ test.now) }
{
    let class = copied_class(alloc, test.class.as_ref())?;
    Ok(TestFunction {
        class,
        name: copied(alloc, &test.name)?,
        function: test.function,
    })
}
