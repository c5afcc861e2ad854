// The built-in names.

use crate::class::ExcClass;

/// The built-in functions that make sequences and dicts, or ask all elements (Python library reference, built-in functions).
#[derive(Clone, Copy, PartialEq, Eq)]
pub enum SequenceCall {
    All,
    Any,
    Dict,
    Enumerate,
    List,
    Range,
    Reversed,
    Sorted,
    Tuple,
    Zip,
}

/// The built-in functions on numbers, and those that add or compare elements (Python library reference, built-in functions).
#[derive(Clone, Copy, PartialEq, Eq)]
pub enum NumberCall {
    Abs,
    Bool,
    Chr,
    DivMod,
    Int,
    Max,
    Min,
    Ord,
    Sum,
}

/// The built-in functions that ask of any object (Python library reference, built-in functions).
#[derive(Clone, Copy, PartialEq, Eq)]
pub enum ObjectCall {
    Callable,
    GetAttr,
    HasAttr,
    IsInstance,
    Repr,
}

/// The methods of texts (Python library reference, string methods).
#[derive(Clone, Copy, PartialEq, Eq)]
pub enum TextMethod {
    Count,
    EndsWith,
    Find,
    IsDigit,
    Join,
    Lower,
    Replace,
    Split,
    StartsWith,
    Strip,
    Upper,
}

/// The methods of lists (Python library reference, mutable sequence types, lists).
#[derive(Clone, Copy, PartialEq, Eq)]
pub enum ListMethod {
    Append,
    Clear,
    Copy,
    Count,
    Extend,
    Index,
    Insert,
    Pop,
    Remove,
    Reverse,
    Sort,
}

/// The methods of tuples (Python library reference, common sequence operations).
#[derive(Clone, Copy, PartialEq, Eq)]
pub enum TupleMethod {
    Count,
    Index,
}

/// The methods of dicts (Python library reference, mapping types).
#[derive(Clone, Copy, PartialEq, Eq)]
pub enum DictMethod {
    Clear,
    Copy,
    Get,
    Items,
    Keys,
    Pop,
    SetDefault,
    Update,
    Values,
}

/// The functions of the module `pytest` (pytest's reference, functions).
#[derive(Clone, Copy, PartialEq, Eq)]
pub enum PytestCall {
    Fail,
    Fixture,
    HookImpl,
    Param,
    Raises,
    Skip,
}

/// The built-in functions, the classes of built-in kinds as what their calls do (Python library reference, built-in functions), the
/// methods of built-in kinds, the functions of `pytest`, and the method of `request`.
#[derive(Clone, Copy, PartialEq, Eq)]
pub enum Builtin {
    Print,
    Len,
    Str,
    Sequence(SequenceCall),
    Number(NumberCall),
    Object(ObjectCall),
    Text(TextMethod),
    List(ListMethod),
    Tuple(TupleMethod),
    Dict(DictMethod),
    Pytest(PytestCall),
    AddFinalizer,
}

/// A name of a built-in function or kind, what it stands for, and whether it is a class.
pub type BuiltinRow = (&'static str, Builtin, bool);

/// The built-in functions and kinds that are bound to names. The object of each stands in every heap from the start, at its place in
/// this table. A function without a row has no name (`builtin_name` of py_kinds), and its proof is refused there.
pub const BUILTINS: [BuiltinRow; 27] = [
    ("abs", Builtin::Number(NumberCall::Abs), false),
    ("divmod", Builtin::Number(NumberCall::DivMod), false),
    ("ord", Builtin::Number(NumberCall::Ord), false),
    ("chr", Builtin::Number(NumberCall::Chr), false),
    ("bool", Builtin::Number(NumberCall::Bool), true),
    ("len", Builtin::Len, false),
    ("callable", Builtin::Object(ObjectCall::Callable), false),
    ("isinstance", Builtin::Object(ObjectCall::IsInstance), false),
    ("getattr", Builtin::Object(ObjectCall::GetAttr), false),
    ("hasattr", Builtin::Object(ObjectCall::HasAttr), false),
    ("int", Builtin::Number(NumberCall::Int), true),
    ("str", Builtin::Str, true),
    ("repr", Builtin::Object(ObjectCall::Repr), false),
    ("print", Builtin::Print, false),
    ("list", Builtin::Sequence(SequenceCall::List), true),
    ("tuple", Builtin::Sequence(SequenceCall::Tuple), true),
    ("dict", Builtin::Sequence(SequenceCall::Dict), true),
    ("range", Builtin::Sequence(SequenceCall::Range), false),
    (
        "enumerate",
        Builtin::Sequence(SequenceCall::Enumerate),
        false,
    ),
    ("zip", Builtin::Sequence(SequenceCall::Zip), false),
    ("reversed", Builtin::Sequence(SequenceCall::Reversed), false),
    ("sorted", Builtin::Sequence(SequenceCall::Sorted), false),
    ("all", Builtin::Sequence(SequenceCall::All), false),
    ("any", Builtin::Sequence(SequenceCall::Any), false),
    ("sum", Builtin::Number(NumberCall::Sum), false),
    ("min", Builtin::Number(NumberCall::Min), false),
    ("max", Builtin::Number(NumberCall::Max), false),
];

/// The methods of texts, each to the name that `builtin_name` gives.
pub const TEXT_METHODS: [Builtin; 11] = [
    Builtin::Text(TextMethod::Count),
    Builtin::Text(TextMethod::EndsWith),
    Builtin::Text(TextMethod::Find),
    Builtin::Text(TextMethod::IsDigit),
    Builtin::Text(TextMethod::Join),
    Builtin::Text(TextMethod::Lower),
    Builtin::Text(TextMethod::Replace),
    Builtin::Text(TextMethod::Split),
    Builtin::Text(TextMethod::StartsWith),
    Builtin::Text(TextMethod::Strip),
    Builtin::Text(TextMethod::Upper),
];

/// The methods of lists.
pub const LIST_METHODS: [Builtin; 11] = [
    Builtin::List(ListMethod::Append),
    Builtin::List(ListMethod::Clear),
    Builtin::List(ListMethod::Copy),
    Builtin::List(ListMethod::Count),
    Builtin::List(ListMethod::Extend),
    Builtin::List(ListMethod::Index),
    Builtin::List(ListMethod::Insert),
    Builtin::List(ListMethod::Pop),
    Builtin::List(ListMethod::Remove),
    Builtin::List(ListMethod::Reverse),
    Builtin::List(ListMethod::Sort),
];

/// The methods of tuples.
pub const TUPLE_METHODS: [Builtin; 2] = [
    Builtin::Tuple(TupleMethod::Count),
    Builtin::Tuple(TupleMethod::Index),
];

/// The methods of dicts.
pub const DICT_METHODS: [Builtin; 9] = [
    Builtin::Dict(DictMethod::Clear),
    Builtin::Dict(DictMethod::Copy),
    Builtin::Dict(DictMethod::Get),
    Builtin::Dict(DictMethod::Items),
    Builtin::Dict(DictMethod::Keys),
    Builtin::Dict(DictMethod::Pop),
    Builtin::Dict(DictMethod::SetDefault),
    Builtin::Dict(DictMethod::Update),
    Builtin::Dict(DictMethod::Values),
];

/// The methods of `request`.
pub const REQUEST_METHODS: [Builtin; 1] = [Builtin::AddFinalizer];

/// The functions of the module `pytest` in the order in which they are bound there. The object of each stands in every heap from the
/// start, behind those of `EXCEPTIONS`, at its place in this table; behind them stand `mark` and the module.
pub const PYTEST_NAMES: [Builtin; 6] = [
    Builtin::Pytest(PytestCall::Fixture),
    Builtin::Pytest(PytestCall::Param),
    Builtin::Pytest(PytestCall::Raises),
    Builtin::Pytest(PytestCall::Skip),
    Builtin::Pytest(PytestCall::Fail),
    Builtin::Pytest(PytestCall::HookImpl),
];

/// The classes of exceptions that are bound to names (Python library reference, built-in exceptions), each to the name that
/// `class_name` gives. The object of each stands in every heap from the start, behind those of `BUILTINS`, at its place in
/// this table.
pub const EXCEPTIONS: [ExcClass; 21] = [
    ExcClass::BaseException,
    ExcClass::Exception,
    ExcClass::ArithmeticError,
    ExcClass::OverflowError,
    ExcClass::ZeroDivisionError,
    ExcClass::AssertionError,
    ExcClass::AttributeError,
    ExcClass::ImportError,
    ExcClass::ModuleNotFoundError,
    ExcClass::LookupError,
    ExcClass::IndexError,
    ExcClass::KeyError,
    ExcClass::MemoryError,
    ExcClass::NameError,
    ExcClass::UnboundLocalError,
    ExcClass::RuntimeError,
    ExcClass::NotImplementedError,
    ExcClass::RecursionError,
    ExcClass::SyntaxError,
    ExcClass::TypeError,
    ExcClass::ValueError,
];
