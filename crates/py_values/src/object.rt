// Objects.

use crate::builtin::Builtin;
use crate::class::{ClassForm, ClassRef};
use crate::dict::Dict;
use crate::names::Names;
use crate::range::RangeObj;
use crate::rows::{Params, Values};
use crate::value::{ObjId, Value};
use seq::PyText;

/// A function of the sources: the file's path, its name, the line of its `def`, its parameters, whether it yields, its
/// marks, its class where it is defined in one, and the number of its code.
pub struct FunctionObj {
    pub path: PyText,
    pub name: PyText,
    pub line: u32,
    pub params: Params,
    pub yields: bool,
    pub marks: Values,
    pub class: Option<ObjId>,
    pub code: usize,
}

impl Drop for FunctionObj {
    fn drop(self) {
        let FunctionObj {
            path: _,
            name: _,
            line: _,
            params: _,
            yields: _,
            marks: _,
            class: _,
            code: _,
        } = self;
    }
}

/// A function that was read through an instance, with the instance.
#[derive(Clone, Copy, PartialEq, Eq)]
pub struct MethodObj {
    pub function: ObjId,
    pub receiver: Value,
}

/// A built-in function, or a method of a built-in kind with the value through which it was read.
#[derive(Clone, Copy, PartialEq, Eq)]
pub struct BuiltinObj {
    pub which: Builtin,
    pub receiver: Option<Value>,
}

/// A class: its file's path, its name, the line of its `class`, what it is, its base, its marks, and its names with values
/// in order of first binding.
pub struct ClassObj {
    pub path: PyText,
    pub name: PyText,
    pub line: u32,
    pub form: ClassForm,
    pub base: Option<ObjId>,
    pub marks: Values,
    pub names: Names,
}

impl Drop for ClassObj {
    fn drop(self) {
        let ClassObj {
            path: _,
            name: _,
            line: _,
            form: _,
            base: _,
            marks: _,
            names: _,
        } = self;
    }
}

/// An instance of a class that is no class of exceptions.
pub struct InstanceObj {
    pub class: ObjId,
    pub names: Names,
}

impl Drop for InstanceObj {
    fn drop(self) {
        let InstanceObj { class: _, names: _ } = self;
    }
}

/// An exception: its class, its own name `args` where that is bound, and its other names. `args` is a tuple from the start,
/// and may be bound to something else.
pub struct ExceptionObj {
    pub class: ClassRef,
    pub args: Option<Value>,
    pub names: Names,
}

impl Drop for ExceptionObj {
    fn drop(self) {
        let ExceptionObj {
            class: _,
            args: _,
            names: _,
        } = self;
    }
}

/// A module: its path, and its names with values in order of first binding.
pub struct ModuleObj {
    pub path: PyText,
    pub names: Names,
}

impl Drop for ModuleObj {
    fn drop(self) {
        let ModuleObj { path: _, names: _ } = self;
    }
}

/// How long a fixture's value is kept (pytest's fixture reference, scope).
#[derive(Clone, Copy, PartialEq, Eq)]
pub enum FixtureScope {
    Session,
    Module,
    Class,
    Function,
}

/// A fixture: its function, where it was applied to one, and the arguments of `fixture`.
pub struct FixtureObj {
    pub function: Option<ObjId>,
    pub scope: FixtureScope,
    pub params: Option<Values>,
    pub autouse: bool,
    pub ids: Option<Values>,
    pub name: Option<PyText>,
}

impl Drop for FixtureObj {
    fn drop(self) {
        let FixtureObj {
            function: _,
            scope: _,
            params: _,
            autouse: _,
            ids: _,
            name: _,
        } = self;
    }
}

/// A mark: its name, its arguments by position and by name, and whether it was called.
pub struct MarkObj {
    pub name: PyText,
    pub args: Values,
    pub named: Names,
    pub called: bool,
}

impl Drop for MarkObj {
    fn drop(self) {
        let MarkObj {
            name: _,
            args: _,
            named: _,
            called: _,
        } = self;
    }
}

/// The arguments of `hookimpl`.
#[derive(Clone, Copy, PartialEq, Eq)]
pub struct HookObj {
    pub wrapper: bool,
    pub first: bool,
    pub last: bool,
}

/// The arguments of `param`.
pub struct ParamObj {
    pub values: Values,
    pub id: Option<PyText>,
    pub marks: Values,
}

impl Drop for ParamObj {
    fn drop(self) {
        let ParamObj {
            values: _,
            id: _,
            marks: _,
        } = self;
    }
}

/// What asks for fixtures: its fixture's name, where a fixture asks (a test has none), its scope's name, its parameter where it
/// has one, its finalizers in order, and whether it is closed.
pub struct RequestObj {
    pub name: Option<PyText>,
    pub scope: PyText,
    pub param: Option<Value>,
    pub finalizers: Values,
    pub closed: bool,
}

impl Drop for RequestObj {
    fn drop(self) {
        let RequestObj {
            name: _,
            scope: _,
            param: _,
            finalizers: _,
            closed: _,
        } = self;
    }
}

/// The arguments of `raises`: a class or a tuple of classes, and a pattern.
pub struct RaisesObj {
    pub classes: Value,
    pub pattern: Option<PyText>,
}

impl Drop for RaisesObj {
    fn drop(self) {
        let RaisesObj {
            classes: _,
            pattern: _,
        } = self;
    }
}

/// The exception that a `with raises` has taken, where there is one.
#[derive(Clone, Copy, PartialEq, Eq)]
pub struct InfoObj {
    pub value: Option<Value>,
}

/// A test item: its name and its node id.
pub struct ItemObj {
    pub name: PyText,
    pub node_id: PyText,
}

impl Drop for ItemObj {
    fn drop(self) {
        let ItemObj {
            name: _,
            node_id: _,
        } = self;
    }
}

/// An object, one variant for each kind (Language Reference, the standard type hierarchy). `MarkMaker` is `pytest.mark`.
pub enum Obj {
    Text(PyText),
    List(Values),
    Tuple(Values),
    Dict(Dict),
    Range(RangeObj),
    Function(FunctionObj),
    Method(MethodObj),
    Builtin(BuiltinObj),
    Class(ClassObj),
    Instance(InstanceObj),
    Exception(ExceptionObj),
    Module(ModuleObj),
    Fixture(FixtureObj),
    MarkMaker,
    Mark(MarkObj),
    Hook(HookObj),
    Param(ParamObj),
    Request(RequestObj),
    Raises(RaisesObj),
    Info(InfoObj),
    Item(ItemObj),
}

impl Drop for Obj {
    fn drop(self) {
        match self {
            Obj::Text(_) => {}
            Obj::List(_) => {}
            Obj::Tuple(_) => {}
            Obj::Dict(_) => {}
            Obj::Range(_) => {}
            Obj::Function(_) => {}
            Obj::Method(_) => {}
            Obj::Builtin(_) => {}
            Obj::Class(_) => {}
            Obj::Instance(_) => {}
            Obj::Exception(_) => {}
            Obj::Module(_) => {}
            Obj::Fixture(_) => {}
            Obj::MarkMaker => {}
            Obj::Mark(_) => {}
            Obj::Hook(_) => {}
            Obj::Param(_) => {}
            Obj::Request(_) => {}
            Obj::Raises(_) => {}
            Obj::Info(_) => {}
            Obj::Item(_) => {}
        }
    }
}
