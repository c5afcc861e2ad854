// Modules that rows spell: a word for each binding, with blanks between them. `f:NAME:MARKS` is a function, its decorators nearest first;
// `c:NAME:MARKS` a class, `e:NAME` a class of exceptions, `x:NAME` a built-in class of exceptions, `k:NAME` a built-in kind's; `m:NAME:MARKS` is a
// method of the class before it, `i:NAME` a number bound there, `q:MARKS` and `Q:MARK` its `pytestmark`, a list or one value; `p:MARKS` and `P:MARK`
// are the module's; `n:NAME` binds a number, and `a:NAME:OLD` what `OLD` is bound to.

use crate::collection::marks::{all_marks, marked};
use crate::objects::{added, builtin_class, class, function};
use crate::spelled::MemoryResult;
use crate::values::name;
use py_values::builtin::Builtin;
use py_values::class::{ClassForm, ExcClass};
use py_values::heap::Heap;
use py_values::names::{Name, Names};
use py_values::object::{ClassObj, Obj};
use py_values::value::{ObjId, Value};
use std::alloc::Global;

/// A class that goes on.
#[derive(Drop)]
struct Open {
    name: Name,
    class: ClassObj,
}

/// A module that goes on: the heap, its names, and the class to which methods are added.
#[derive(Drop)]
pub struct Module {
    pub heap: Heap,
    pub names: Names,
    open: Option<Open>,
}

/// Whether a word binds a name of the class that goes on.
fn is_inner(kind: &str) -> bool {
    matches!(kind, "m" | "i" | "q" | "Q")
}

/// The name that a word binds.
fn bound_by<'a>(kind: &str, spelled: &'a str) -> &'a str {
    match kind {
        "p" | "P" | "q" | "Q" => "pytestmark",
        _ => spelled,
    }
}

fn form_of(kind: &str) -> ClassForm {
    match kind {
        "x" => ClassForm::Exception(ExcClass::KeyError),
        "k" => ClassForm::Kind(Builtin::Str),
        _ => ClassForm::Source,
    }
}

/// The base of a class of exceptions of the sources.
fn base_of(alloc: Global, heap: &mut Heap, kind: &str) -> MemoryResult<Option<ObjId>> {
    match kind {
        "e" => Ok(Some(heap.add(builtin_class(alloc, "Exception")?)?)),
        _ => Ok(None),
    }
}

impl Module {
    /// Binds the class that goes on.
    fn close(&mut self) -> MemoryResult<()> {
        match self.open.take() {
            Some(Open { name, class }) => {
                let v = added(&mut self.heap, Obj::Class(class))?;
                self.names.bind(name, v)
            }
            None => Ok(()),
        }
    }

    fn begin_class(
        &mut self,
        alloc: Global,
        kind: &str,
        spelled: &str,
        marks: &str,
    ) -> MemoryResult<()> {
        let name = name(alloc, spelled)?;
        let base = base_of(alloc, &mut self.heap, kind)?;
        let marks = all_marks(alloc, &mut self.heap, marks)?;
        let class = class(alloc, spelled, form_of(kind), base, marks)?;
        self.open = Some(Open { name, class });
        Ok(())
    }

    fn function(&mut self, alloc: Global, spelled: &str, marks: &str) -> MemoryResult<Value> {
        let marks = all_marks(alloc, &mut self.heap, marks)?;
        added(&mut self.heap, function(alloc, spelled, marks)?)
    }

    fn list(&mut self, alloc: Global, marks: &str) -> MemoryResult<Value> {
        let marks = all_marks(alloc, &mut self.heap, marks)?;
        added(&mut self.heap, Obj::List(marks))
    }

    /// The value of a name of the module.
    fn old(&self, alloc: Global, spelled: &str) -> MemoryResult<Value> {
        let name = name(alloc, spelled)?;
        Ok(self.names.find(&name).unwrap_or(Value::None))
    }

    /// The value that a word binds.
    fn value(
        &mut self,
        alloc: Global,
        kind: &str,
        spelled: &str,
        more: &str,
    ) -> MemoryResult<Value> {
        match kind {
            "f" | "m" => self.function(alloc, spelled, more),
            "p" | "q" => self.list(alloc, spelled),
            "P" | "Q" => marked(alloc, &mut self.heap, spelled),
            "a" => self.old(alloc, more),
            _ => Ok(Value::Int(3)),
        }
    }

    /// Binds a name of the class that goes on.
    fn bind_inner(&mut self, name: Name, v: Value) -> MemoryResult<()> {
        match &mut self.open {
            Some(open) => open.class.names.bind(name, v),
            None => Ok(()),
        }
    }

    fn bind(&mut self, alloc: Global, kind: &str, spelled: &str, more: &str) -> MemoryResult<()> {
        let v = self.value(alloc, kind, spelled, more)?;
        let name = name(alloc, bound_by(kind, spelled))?;
        if is_inner(kind) {
            return self.bind_inner(name, v);
        }
        self.names.bind(name, v)
    }

    fn take(&mut self, alloc: Global, word: &str) -> MemoryResult<()> {
        let (kind, rest) = word.split_once(':').unwrap_or((word, ""));
        let (spelled, more) = rest.split_once(':').unwrap_or((rest, ""));
        if !is_inner(kind) {
            self.close()?;
        }
        match kind {
            "c" | "e" | "x" | "k" => self.begin_class(alloc, kind, spelled, more),
            _ => self.bind(alloc, kind, spelled, more),
        }
    }

    /// Binds what all words of a row bind.
    fn take_all(&mut self, alloc: Global, spelled: &str) -> MemoryResult<()> {
        for word in spelled.split(' ') {
            self.take(alloc, word)?;
        }
        self.close()
    }
}

/// The module that a row spells.
pub fn module_of(alloc: Global, spelled: &str) -> MemoryResult<Module> {
    let mut module = Module {
        heap: Heap::new(alloc)?,
        names: Names::new(alloc),
        open: None,
    };
    match module.take_all(alloc, spelled) {
        Ok(()) => Ok(module),
        Err(error) => {
            drop(module);
            Err(error)
        }
    }
}
