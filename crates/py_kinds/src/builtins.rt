// What follows from the tables of built-in names.

ghost use Rattle.std.specs.Prelude.{◌≡◌, ◌++◌, ◌≤◌, length, map, option_map, IfOk, OnOk, IfSome};
ghost use Rattle.py_kinds.specs.Builtins as builtins;
ghost use Rattle.py_kinds.specs.Classes.{exc_base as exc_base_of};
ghost use Rattle.py_values.specs.Ends.{id_at};
ghost use Rattle.py_values.specs.Names.{find_name, name_eq};
ghost use Rattle.py_values.specs.declared.value.Value.TheVariants.{Ref};

use crate::classes::exc_base;
use crate::kinds::class_name;
use py_values::builtin::{
    BUILTINS, Builtin, BuiltinRow, DICT_METHODS, DictMethod, EXCEPTIONS, LIST_METHODS, ListMethod,
    PYTEST_NAMES, PytestCall, REQUEST_METHODS, TEXT_METHODS, TUPLE_METHODS, TextMethod,
    TupleMethod,
};
use py_values::class::{ClassForm, ExcClass};
use py_values::end::push_ascii;
use py_values::heap::Heap;
use py_values::names::{Name, Names};
use py_values::object::{BuiltinObj, ClassObj, ModuleObj, Obj};
use py_values::rows::Values;
use py_values::value::{ObjId, Value};
use py_values::{OutOfMemory, PyText};
use std::alloc::Global;

/// The name of a method of texts.
pub fn text_method_name(which: TextMethod) -> &'static str
    ensures { result.now ≡ builtins.text_method_name which }
{
    match which {
        TextMethod::Count => "count",
        TextMethod::EndsWith => "endswith",
        TextMethod::Find => "find",
        TextMethod::IsDigit => "isdigit",
        TextMethod::Join => "join",
        TextMethod::Lower => "lower",
        TextMethod::Replace => "replace",
        TextMethod::Split => "split",
        TextMethod::StartsWith => "startswith",
        TextMethod::Strip => "strip",
        TextMethod::Upper => "upper",
    }
}

/// The name of a method of lists.
pub fn list_method_name(which: ListMethod) -> &'static str
    ensures { result.now ≡ builtins.list_method_name which }
{
    match which {
        ListMethod::Append => "append",
        ListMethod::Clear => "clear",
        ListMethod::Copy => "copy",
        ListMethod::Count => "count",
        ListMethod::Extend => "extend",
        ListMethod::Index => "index",
        ListMethod::Insert => "insert",
        ListMethod::Pop => "pop",
        ListMethod::Remove => "remove",
        ListMethod::Reverse => "reverse",
        ListMethod::Sort => "sort",
    }
}

/// The name of a method of tuples.
pub fn tuple_method_name(which: TupleMethod) -> &'static str
    ensures { result.now ≡ builtins.tuple_method_name which }
{
    match which {
        TupleMethod::Count => "count",
        TupleMethod::Index => "index",
    }
}

/// The name of a method of dicts.
pub fn dict_method_name(which: DictMethod) -> &'static str
    ensures { result.now ≡ builtins.dict_method_name which }
{
    match which {
        DictMethod::Clear => "clear",
        DictMethod::Copy => "copy",
        DictMethod::Get => "get",
        DictMethod::Items => "items",
        DictMethod::Keys => "keys",
        DictMethod::Pop => "pop",
        DictMethod::SetDefault => "setdefault",
        DictMethod::Update => "update",
        DictMethod::Values => "values",
    }
}

/// The name of a function of `pytest`.
pub fn pytest_call_name(which: PytestCall) -> &'static str
    ensures { result.now ≡ builtins.pytest_call_name which }
{
    match which {
        PytestCall::Fail => "fail",
        PytestCall::Fixture => "fixture",
        PytestCall::HookImpl => "hookimpl",
        PytestCall::Param => "param",
        PytestCall::Raises => "raises",
        PytestCall::Skip => "skip",
    }
}

/// The name of the first row of a table that stands for a built-in function.
fn name_in(which: Builtin, table: &[BuiltinRow]) -> Option<&'static str>
    ensures { option_map builtins.lent_name result ≡ builtins.name_in which (map builtins.entry_of table.now) }
{
    for row in table {
        if row.1 == which {
            return Some(row.0);
        }
    }
    None
}

/// The name of a built-in function by its row.
#[tactic(auto, unfolding(crate::specs::Builtins::rows))]
fn row_name(which: Builtin) -> Option<&'static str>
    ensures { option_map builtins.lent_name result ≡ builtins.name_in which builtins.rows }
{
    name_in(which, &BUILTINS)
}

/// The name of a built-in function, of a method of a built-in kind, or of a function of `pytest`.
pub fn builtin_name(which: Builtin) -> Option<&'static str>
    ensures { option_map builtins.lent_name result ≡ builtins.builtin_name which }
{
    match which {
        Builtin::Print
        | Builtin::Len
        | Builtin::Str
        | Builtin::Sequence(_)
        | Builtin::Number(_)
        | Builtin::Object(_) => row_name(which),
        Builtin::Text(method) => Some(text_method_name(method)),
        Builtin::List(method) => Some(list_method_name(method)),
        Builtin::Tuple(method) => Some(tuple_method_name(method)),
        Builtin::Dict(method) => Some(dict_method_name(method)),
        Builtin::Pytest(call) => Some(pytest_call_name(call)),
        Builtin::AddFinalizer => Some("addfinalizer"),
    }
}

fn is_text(name: &[char], text: &str) -> bool
    ensures { result ≡ name_eq name.now text.now }
{
    let bytes = text.as_bytes();
    if name.len() != bytes.len() {
        return false;
    }
    for i in 0..bytes.len() {
        if name[i] != char::from(bytes[i]) {
            return false;
        }
    }
    true
}

/// The value of a name of a table of built-in functions and kinds, whose objects stand from the start.
fn row_in(name: &[char], table: &[BuiltinRow]) -> Option<Value>
    ensures { result ≡ find_name name.now (builtins.names_from 0 (map builtins.entry_of table.now)) }
{
    for at in 0..table.len() {
        if is_text(name, table[at].0) {
            return Some(Value::Ref(ObjId { at }));
        }
    }
    None
}

/// The value of a name of a built-in function or kind.
#[tactic(auto, unfolding(crate::specs::Builtins::rows))]
fn row_value(name: &[char]) -> Option<Value>
    ensures { result ≡ find_name name.now (builtins.names_from 0 builtins.rows) }
{
    row_in(name, &BUILTINS)
}

/// Whether a name is that of a built-in function or method.
fn is_named(name: &[char], which: Builtin) -> bool
    ensures { result ≡ builtins.is_named name.now (builtins.builtin_name which) }
{
    match builtin_name(which) {
        Some(own) => is_text(name, own),
        None => false,
    }
}

/// The one of a table that has a name.
fn method_in(name: &[char], table: &[Builtin]) -> Option<Builtin>
    ensures { result ≡ builtins.method_in name.now table.now }
{
    for which in table {
        if is_named(name, *which) {
            return Some(*which);
        }
    }
    None
}

/// The method of texts that has a name.
#[tactic(auto, unfolding(crate::specs::Builtins::text_methods))]
pub fn text_method_named(name: &[char]) -> Option<Builtin>
    ensures { result ≡ builtins.method_in name.now builtins.text_methods }
{
    method_in(name, &TEXT_METHODS)
}

/// The method of lists that has a name.
#[tactic(auto, unfolding(crate::specs::Builtins::list_methods))]
pub fn list_method_named(name: &[char]) -> Option<Builtin>
    ensures { result ≡ builtins.method_in name.now builtins.list_methods }
{
    method_in(name, &LIST_METHODS)
}

/// The method of tuples that has a name.
#[tactic(auto, unfolding(crate::specs::Builtins::tuple_methods))]
pub fn tuple_method_named(name: &[char]) -> Option<Builtin>
    ensures { result ≡ builtins.method_in name.now builtins.tuple_methods }
{
    method_in(name, &TUPLE_METHODS)
}

/// The method of dicts that has a name.
#[tactic(auto, unfolding(crate::specs::Builtins::dict_methods))]
pub fn dict_method_named(name: &[char]) -> Option<Builtin>
    ensures { result ≡ builtins.method_in name.now builtins.dict_methods }
{
    method_in(name, &DICT_METHODS)
}

/// The method of `request` that has a name.
#[tactic(auto, unfolding(crate::specs::Builtins::request_methods))]
pub fn request_method_named(name: &[char]) -> Option<Builtin>
    ensures { result ≡ builtins.method_in name.now builtins.request_methods }
{
    method_in(name, &REQUEST_METHODS)
}

/// The index of a class in a table of classes.
fn index_in(class: ExcClass, table: &[ExcClass]) -> Option<usize>
    ensures index { result ≡ builtins.index_from 0 class table.now }
    ensures small { IfSome result (λ i. i ≤ length table.now) }
{
    for i in 0..table.len() {
        if table[i] == class {
            return Some(i);
        }
    }
    None
}

/// The place of the object of a class of exceptions, where it is bound to a name.
#[tactic(auto, unfolding(crate::specs::Builtins::rows, crate::specs::Builtins::classes))]
pub fn class_place(class: ExcClass) -> Option<ObjId>
    ensures { result ≡ builtins.class_place class }
{
    match index_in(class, &EXCEPTIONS) {
        Some(i) => Some(ObjId {
            at: i + BUILTINS.len(),
        }),
        None => None,
    }
}

/// The index of the class of a table that has a name.
fn class_named(name: &[char], table: &[ExcClass]) -> Option<usize>
    ensures index { result ≡ builtins.class_named name.now 0 table.now }
    ensures small { IfSome result (λ i. i ≤ length table.now) }
{
    for i in 0..table.len() {
        if is_text(name, class_name(table[i])) {
            return Some(i);
        }
    }
    None
}

/// The value of a name of a class of exceptions.
#[tactic(auto, using(crate::proofs::Finding::find_class), unfolding(crate::specs::Builtins::rows, crate::specs::Builtins::classes))]
fn class_value(name: &[char]) -> Option<Value>
    ensures { result ≡ find_name name.now (builtins.classes_from (length builtins.rows) builtins.classes) }
{
    match class_named(name, &EXCEPTIONS) {
        Some(i) => Some(Value::Ref(ObjId {
            at: i + BUILTINS.len(),
        })),
        None => None,
    }
}

/// The value of a built-in name.
#[tactic(auto, using(crate::proofs::Finding::find_behind))]
pub fn builtin_value(name: &[char]) -> Option<Value>
    ensures { result ≡ find_name name.now builtins.builtin_names }
{
    match row_value(name) {
        Some(v) => Some(v),
        None => class_value(name),
    }
}

fn class_object(
    alloc: Global,
    name: &str,
    form: ClassForm,
    base: Option<ObjId>,
) -> Result<Obj, OutOfMemory>
    ensures { IfOk result (λ o. o ≡ builtins.class_object name.now form base) }
{
    let mut chars = Vec::new(alloc);
    push_ascii(&mut chars, name)?;
    Ok(Obj::Class(ClassObj {
        path: PyText::from_chars(alloc, &[])?,
        name: PyText::from_chars(alloc, &chars)?,
        line: 0,
        form,
        base,
        marks: Values::new(alloc),
        names: Names::new(alloc),
    }))
}

fn function_object(which: Builtin) -> Obj
    ensures { result ≡ builtins.function_object which }
{
    Obj::Builtin(BuiltinObj {
        which,
        receiver: None,
    })
}

fn row_object(alloc: Global, name: &str, which: Builtin, class: bool) -> Result<Obj, OutOfMemory>
    ensures { IfOk result (λ o. o ≡ builtins.object_by name.now which class) }
{
    if class {
        return class_object(alloc, name, ClassForm::Kind(which), None);
    }
    Ok(function_object(which))
}

/// Puts the objects of a table of built-in functions and kinds behind others.
fn add_rows(alloc: Global, heap: &mut Heap, table: &[BuiltinRow]) -> Result<(), OutOfMemory>
    ensures { OnOk result (heap.new ≡ heap.old ++ map builtins.row_object (map builtins.entry_of table.now)) }
{
    for row in table {
        let object = row_object(alloc, row.0, row.1, row.2)?;
        heap.add(object)?;
    }
    Ok(())
}

/// The place of the object of the class on which a class of exceptions stands.
pub fn base_place(class: ExcClass) -> Option<ObjId>
    ensures { result ≡ builtins.base_place (exc_base_of class) }
{
    match exc_base(class) {
        Some(base) => class_place(base),
        None => None,
    }
}

fn exception_class(alloc: Global, class: ExcClass) -> Result<Obj, OutOfMemory>
    ensures { IfOk result (λ o. o ≡ builtins.exception_class class) }
{
    class_object(
        alloc,
        class_name(class),
        ClassForm::Exception(class),
        base_place(class),
    )
}

/// Puts the objects of the classes of exceptions behind others.
#[tactic(auto, unfolding(crate::specs::Builtins::classes))]
fn add_classes(alloc: Global, heap: &mut Heap) -> Result<(), OutOfMemory>
    ensures { OnOk result (heap.new ≡ heap.old ++ map builtins.exception_class builtins.classes) }
{
    for class in &EXCEPTIONS {
        let object = exception_class(alloc, *class)?;
        heap.add(object)?;
    }
    Ok(())
}

/// Puts the objects of the functions of `pytest` behind others.
#[tactic(auto, unfolding(crate::specs::Builtins::pytest_names))]
fn add_functions(heap: &mut Heap) -> Result<(), OutOfMemory>
    ensures { OnOk result (heap.new ≡ heap.old ++ map builtins.function_object builtins.pytest_names) }
{
    for which in &PYTEST_NAMES {
        heap.add(function_object(*which))?;
    }
    Ok(())
}

fn ascii_name(alloc: Global, text: &str) -> Result<Name, OutOfMemory>
    ensures { IfOk result (λ n. n ≡ text.now) }
{
    let mut chars = Vec::new(alloc);
    push_ascii(&mut chars, text)?;
    Name::from_chars(alloc, &chars)
}

/// Binds the name of a function to its object.
fn bind_function(
    alloc: Global,
    names: &mut Names,
    which: Builtin,
    at: usize,
) -> Result<(), OutOfMemory>
    ensures { OnOk result (names.new ≡ builtins.bind_named (builtins.builtin_name which) (Ref (id_at at)) names.old) }
{
    if let Some(text) = builtin_name(which) {
        let name = ascii_name(alloc, text)?;
        names.bind(name, Value::Ref(ObjId { at }))?;
    }
    Ok(())
}

/// Binds names to the objects of functions, the first of which stands at a place.
fn bind_functions(
    alloc: Global,
    names: &mut Names,
    from: usize,
    table: &[Builtin],
) -> Result<(), OutOfMemory>
    ensures { OnOk result (names.new ≡ builtins.bound_functions from table.now names.old) }
{
    for i in 0..table.len() {
        let Some(at) = from.checked_add(i) else {
            return Err(OutOfMemory);
        };
        bind_function(alloc, names, table[i], at)?;
    }
    Ok(())
}

/// The place of the first object of a function of `pytest`.
#[tactic(auto, unfolding(crate::specs::Builtins::rows, crate::specs::Builtins::classes))]
fn pytest_place() -> usize
    ensures place { result ≡ builtins.pytest_place }
    ensures small { result ≤ 1000 }
{
    BUILTINS.len() + EXCEPTIONS.len()
}

#[tactic(auto, unfolding(crate::specs::Builtins::pytest_names))]
fn mark_place() -> usize
    ensures place { result ≡ builtins.mark_place }
    ensures small { result ≤ 2000 }
{
    pytest_place() + PYTEST_NAMES.len()
}

/// The module `pytest`, which stands in every heap from the start.
pub fn pytest_module() -> ObjId
    ensures { result ≡ builtins.pytest_module }
{
    ObjId {
        at: mark_place() + 2,
    }
}

/// The names of the module `pytest`.
#[tactic(auto, unfolding(crate::specs::Builtins::pytest_names))]
fn module_names(alloc: Global) -> Result<Names, OutOfMemory>
    ensures { IfOk result (λ n. n ≡ builtins.module_names) }
{
    let mark = mark_place();
    let mut names = Names::new(alloc);
    let name = ascii_name(alloc, "__name__")?;
    names.bind(name, Value::Ref(ObjId { at: mark + 1 }))?;
    bind_functions(alloc, &mut names, pytest_place(), &PYTEST_NAMES)?;
    let name = ascii_name(alloc, "mark")?;
    names.bind(name, Value::Ref(ObjId { at: mark }))?;
    Ok(names)
}

/// A text of ASCII characters.
pub fn ascii_text(alloc: Global, text: &str) -> Result<PyText, OutOfMemory>
    ensures { IfOk result (λ t. t ≡ text.now) }
{
    let mut chars = Vec::new(alloc);
    push_ascii(&mut chars, text)?;
    PyText::from_chars(alloc, &chars)
}

/// Puts `mark`, the text of the module's name and the module `pytest` behind other objects.
fn add_module(alloc: Global, heap: &mut Heap) -> Result<(), OutOfMemory>
    ensures { OnOk result (heap.new ≡ heap.old ++ builtins.module_objects) }
{
    heap.add(Obj::MarkMaker)?;
    let text = ascii_text(alloc, "pytest")?;
    heap.add(Obj::Text(text))?;
    let path = ascii_text(alloc, "pytest")?;
    let names = module_names(alloc)?;
    heap.add(Obj::Module(ModuleObj { path, names }))?;
    Ok(())
}

/// The heap from the start: the objects of the built-in names, and those of `pytest`.
#[tactic(auto, unfolding(crate::specs::Builtins::rows))]
pub fn first_heap(alloc: Global) -> Result<Heap, OutOfMemory>
    ensures { IfOk result (λ h. h ≡ builtins.first_heap) }
{
    let mut heap = Heap::new(alloc)?;
    add_rows(alloc, &mut heap, &BUILTINS)?;
    add_classes(alloc, &mut heap)?;
    add_functions(&mut heap)?;
    add_module(alloc, &mut heap)?;
    Ok(heap)
}
