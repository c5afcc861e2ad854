// The hooks among the names of a conftest.

ghost use Rattle.std.specs.Prelude.{◌≡◌, ◌++◌, ◌∷◌, [], IfOk, OnOk, option_copied};
ghost use Rattle.py_values.specs.declared.object.Obj.{Obj as Object};
ghost use Rattle.fixture_definitions.specs.Arguments.{asked_params};
ghost use Rattle.conftest_hooks.specs.Names as names;
ghost use Rattle.conftest_hooks.specs.Reading as reading;

use crate::hook_name::HookName;
use crate::names::{first_untaken, hook_arguments, hook_named, is_plugin_name};
use collect_names::objects::{function_at, object_in};
use fixture_definitions::{asked_params, def_place};
use py_values::end::push_ascii;
use py_values::heap::Heap;
use py_values::object::{FunctionObj, HookObj, Obj};
use py_values::value::Value;
use py_world::TraceFrame;
use seq::{OutOfMemory, PyText, Seq};
use std::alloc::Global;
use test_suite::Hook;

/// A hook that was found: which it is, and the flags that `hookimpl` gave it.
#[derive(Drop)]
pub struct FoundHook {
    pub name: HookName,
    pub hook: Hook,
    pub flags: HookObj,
}

/// Why a conftest is refused: the text of the fault, and the place of the function's `def`.
#[derive(Drop)]
pub struct HookFault {
    pub text: PyText,
    pub defined: TraceFrame,
}

/// What the value of a name is.
#[derive(Drop)]
pub enum Looked {
    Other,
    Found(FoundHook),
    Faulty(HookFault),
}

/// What `hookimpl` made.
fn hookimpl_at(obj: Option<&Obj>) -> Option<HookObj>
    ensures { result ≡ reading.hookimpl_at (option_copied obj.entry) }
{
    match obj {
        Some(Obj::Hook(flags)) => Some(*flags),
        Some(
            Obj::Text(_)
            | Obj::List(_)
            | Obj::Tuple(_)
            | Obj::Dict(_)
            | Obj::Range(_)
            | Obj::Function(_)
            | Obj::Method(_)
            | Obj::Builtin(_)
            | Obj::Class(_)
            | Obj::Instance(_)
            | Obj::Exception(_)
            | Obj::Module(_)
            | Obj::Fixture(_)
            | Obj::MarkMaker
            | Obj::Mark(_)
            | Obj::Param(_)
            | Obj::Request(_)
            | Obj::Raises(_)
            | Obj::Info(_)
            | Obj::Item(_),
        )
        | None => None,
    }
}

fn flags_or(flags: HookObj, found: Option<HookObj>) -> HookObj
    ensures { result ≡ reading.flags_or flags found }
{
    match found {
        Some(found) => found,
        None => flags,
    }
}

/// The flags of the last `hookimpl` among the marks of a function, or else these.
fn last_flags(heap: &Heap, flags: HookObj, marks: &[Value]) -> HookObj
    ensures { result ≡ reading.last_flags heap.now flags marks.now }
{
    let mut last = flags;
    let mut rest = marks;
    'marks: while let Some((mark, others)) = rest.split_first() {
        last = flags_or(last, hookimpl_at(object_in(heap, *mark)));
        rest = others;
    }
    last
}

fn no_flags() -> HookObj
    ensures { result ≡ reading.no_flags }
{
    HookObj {
        wrapper: false,
        first: false,
        last: false,
    }
}

fn unknown_text(alloc: Global, name: &[char]) -> Result<PyText, OutOfMemory>
    ensures { IfOk result (λ text. text ≡ reading.unknown_text name.now) }
{
    let mut text = Vec::new(alloc);
    push_ascii(&mut text, "unknown hook '")?;
    text.extend_from_slice(name)?;
    push_ascii(&mut text, "'")?;
    Ok(PyText::from_vec(text))
}

fn untaken_text(alloc: Global, name: &[char], argument: &[char]) -> Result<PyText, OutOfMemory>
    ensures { IfOk result (λ text. text ≡ reading.untaken_text name.now argument.now) }
{
    let mut text = Vec::new(alloc);
    push_ascii(&mut text, "hook '")?;
    text.extend_from_slice(name)?;
    push_ascii(&mut text, "' has no argument '")?;
    text.extend_from_slice(argument)?;
    push_ascii(&mut text, "'")?;
    Ok(PyText::from_vec(text))
}

fn yields_text(alloc: Global, name: &[char]) -> Result<PyText, OutOfMemory>
    ensures { IfOk result (λ text. text ≡ reading.yields_text name.now) }
{
    let mut text = Vec::new(alloc);
    push_ascii(&mut text, "hook '")?;
    text.extend_from_slice(name)?;
    push_ascii(&mut text, "' yields")?;
    Ok(PyText::from_vec(text))
}

/// A fault of a function.
fn faulty(alloc: Global, function: &FunctionObj, text: PyText) -> Result<Looked, OutOfMemory>
    ensures { IfOk result (λ looked. looked ≡ Faulty (reading.fault_of function.now text)) }
{
    let defined = def_place(alloc, function)?;
    Ok(Looked::Faulty(HookFault { text, defined }))
}

ghost use Rattle.conftest_hooks.specs.declared.looking.Looked.TheVariants.{Faulty, Found};

/// A function that is a hook of the items in a folder.
fn hook_made(
    alloc: Global,
    folder: &[u8],
    name: HookName,
    flags: HookObj,
    v: Value,
    function: &FunctionObj,
    asked: &[PyText],
) -> Result<Looked, OutOfMemory>
    requires asked { asked.now ≡ asked_params false function.now.params }
    ensures { IfOk result (λ looked. looked ≡ Found (reading.hook_made folder.now name flags v function.now)) }
{
    let arguments = hook_arguments(alloc, asked)?;
    let defined = def_place(alloc, function)?;
    let folder = Seq::from_slice(alloc, folder)?;
    Ok(Looked::Found(FoundHook {
        name,
        hook: Hook {
            function: v,
            arguments,
            folder,
            defined,
        },
        flags,
    }))
}

ghost use Rattle.std.specs.Prelude.{None as Nothing, Some as Just, false};

/// A function whose arguments a hook has: it may yield where it is a wrapper alone.
fn looked_yielding(
    alloc: Global,
    folder: &[u8],
    name: &PyText,
    hook: HookName,
    flags: HookObj,
    v: Value,
    function: &FunctionObj,
    asked: &[PyText],
) -> Result<Looked, OutOfMemory>
    requires asked { asked.now ≡ asked_params false function.now.params }
    ensures { IfOk result (λ looked. looked ≡ reading.looked_taken folder.now name.now hook flags v function.now Nothing) }
{
    if function.yields && !flags.wrapper {
        return faulty(alloc, function, yields_text(alloc, name.chars())?);
    }
    hook_made(alloc, folder, hook, flags, v, function, asked)
}

/// A function with the name of a hook.
fn looked_named(
    alloc: Global,
    heap: &Heap,
    folder: &[u8],
    name: &PyText,
    v: Value,
    function: &FunctionObj,
    hook: HookName,
) -> Result<Looked, OutOfMemory>
    ensures { IfOk result (λ looked. looked ≡ reading.looked_named heap.now folder.now name.now v function.now (Just hook)) }
{
    let asked = asked_params(alloc, false, function.params.items())?;
    let flags = last_flags(heap, no_flags(), function.marks.items());
    match first_untaken(hook, asked.items()) {
        Some(argument) => {
            let text = untaken_text(alloc, name.chars(), argument.chars())?;
            faulty(alloc, function, text)
        }
        None => looked_yielding(alloc, folder, name, hook, flags, v, function, asked.items()),
    }
}

fn looked_function(
    alloc: Global,
    heap: &Heap,
    folder: &[u8],
    name: &PyText,
    v: Value,
    function: &FunctionObj,
) -> Result<Looked, OutOfMemory>
    ensures { IfOk result (λ looked. looked ≡ reading.looked_function heap.now folder.now name.now v (Just function.now)) }
{
    match hook_named(name) {
        Some(hook) => looked_named(alloc, heap, folder, name, v, function, hook),
        None => faulty(alloc, function, unknown_text(alloc, name.chars())?),
    }
}

/// What the value of a name is.
pub(crate) fn looked_at(
    alloc: Global,
    heap: &Heap,
    folder: &[u8],
    name: &PyText,
    v: Value,
) -> Result<Looked, OutOfMemory>
    ensures { IfOk result (λ looked. looked ≡ reading.looked_at heap.now folder.now (name.now, v)) }
{
    if !is_plugin_name(name) {
        return Ok(Looked::Other);
    }
    match function_at(object_in(heap, v)) {
        Some(function) => looked_function(alloc, heap, folder, name, v, function),
        None => Ok(Looked::Other),
    }
}
