// Classes.

use crate::builtin::Builtin;
use crate::value::ObjId;

/// The built-in classes of exceptions (Python library reference, built-in exceptions), with `Skipped`, `Failed` and
/// `StepLimit`, whose names no source can reach.
#[derive(Clone, Copy, PartialEq, Eq)]
pub enum ExcClass {
    BaseException,
    Exception,
    Skipped,
    Failed,
    StepLimit,
    ArithmeticError,
    OverflowError,
    ZeroDivisionError,
    AssertionError,
    AttributeError,
    ImportError,
    ModuleNotFoundError,
    LookupError,
    IndexError,
    KeyError,
    MemoryError,
    NameError,
    UnboundLocalError,
    RuntimeError,
    NotImplementedError,
    RecursionError,
    SyntaxError,
    TypeError,
    ValueError,
}

/// The class of an exception: a built-in one, or a class of the sources, an object of the heap.
#[derive(Clone, Copy, PartialEq, Eq)]
pub enum ClassRef {
    Builtin(ExcClass),
    Defined(ObjId),
}

/// What a class is: a class of the sources, a built-in class of exceptions, or that of a built-in kind, which is called as a
/// built-in function.
#[derive(Clone, Copy, PartialEq, Eq)]
pub enum ClassForm {
    Source,
    Exception(ExcClass),
    Kind(Builtin),
}
