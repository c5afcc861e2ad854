// What `skip`, `skipif` and `xfail` say of an item.

ghost use Rattle.std.specs.Prelude.{◌≡◌, IfOk, codes, find, option_copied, option_map};
ghost use Rattle.py_values.specs.Names.{find_name, name_eq};
ghost use Rattle.collect_marks.specs.Names.{marks_in};
ghost use Rattle.collect_marks.specs.Says as says;

use crate::given::mark_in;
use crate::xfail::Xfail;
use collect_names::objects::object_in;
use py_kinds::truth::truth;
use py_values::heap::Heap;
use py_values::names::Name;
use py_values::object::{MarkObj, Obj};
use py_values::value::Value;
use seq::{OutOfMemory, PyText};
use std::alloc::Global;

/// The text that an object is, and empty where it is none.
fn shown_text(alloc: Global, obj: Option<&Obj>) -> Result<PyText, OutOfMemory>
    ensures { IfOk result (λ t. t ≡ says.shown_text (option_copied obj.entry)) }
{
    match obj {
        Some(Obj::Text(text)) => PyText::from_chars(alloc, text.chars()),
        Some(
            Obj::List(_)
            | Obj::Tuple(_)
            | Obj::Dict(_)
            | Obj::Range(_)
            | Obj::Function(_)
            | Obj::Method(_)
            | Obj::Builtin(_)
            | Obj::Class(_)
            | Obj::Instance(_)
            | Obj::Exception(_)
            | Obj::Module(_)
            | Obj::Fixture(_)
            | Obj::MarkMaker
            | Obj::Mark(_)
            | Obj::Hook(_)
            | Obj::Param(_)
            | Obj::Request(_)
            | Obj::Raises(_)
            | Obj::Info(_)
            | Obj::Item(_),
        )
        | None => Ok(PyText::from_vec(Vec::new(alloc))),
    }
}

fn reason_text(alloc: Global, heap: &Heap, v: Option<Value>) -> Result<PyText, OutOfMemory>
    ensures { IfOk result (λ t. t ≡ says.reason_text heap.now v) }
{
    match v {
        Some(v) => shown_text(alloc, object_in(heap, v)),
        None => Ok(PyText::from_vec(Vec::new(alloc))),
    }
}

/// An argument of a mark by its name.
fn named(alloc: Global, mark: &MarkObj, name: &[char]) -> Result<Option<Value>, OutOfMemory>
    ensures { IfOk result (λ v. v ≡ find_name name.now mark.now.named) }
{
    let name = Name::from_chars(alloc, name)?;
    Ok(mark.named.find(&name))
}

/// The reason that a mark gives; empty where it gives none.
fn mark_reason(alloc: Global, heap: &Heap, mark: &MarkObj) -> Result<PyText, OutOfMemory>
    ensures { IfOk result (λ t. t ≡ says.mark_reason heap.now mark.now) }
{
    let reason = named(alloc, mark, &['r', 'e', 'a', 's', 'o', 'n'])?;
    reason_text(alloc, heap, reason)
}

fn is_called(name: &[char], mark: &MarkObj) -> bool
    ensures { result ≡ says.is_called name.now mark.now }
{
    name == mark.name.chars()
}

/// The condition of a mark, its first argument.
fn condition(args: &[Value]) -> Option<Value>
    ensures { result ≡ says.condition args.now }
{
    match args {
        [v, ..] => Some(*v),
        [] => None,
    }
}

/// Whether a condition is true, or what is said where there is none.
fn is_met(heap: &Heap, absent: bool, v: Option<Value>) -> bool
    ensures { result ≡ says.is_met heap.now absent v }
{
    match v {
        Some(v) => truth(heap, v),
        None => absent,
    }
}

/// Whether a mark is a `skipif` whose condition is true.
fn skips_if(heap: &Heap, mark: &MarkObj) -> bool
    ensures { result ≡ says.skips_if heap.now mark.now }
{
    is_called(&['s', 'k', 'i', 'p', 'i', 'f'], mark)
        && is_met(heap, false, condition(mark.args.items()))
}

/// Whether a mark is a `skip`.
fn skips(mark: &MarkObj) -> bool
    ensures { result ≡ says.is_called (codes "skip") mark.now }
{
    is_called(&['s', 'k', 'i', 'p'], mark)
}

/// Whether a mark is an `xfail` whose condition is true or absent.
fn expects(heap: &Heap, mark: &MarkObj) -> bool
    ensures { result ≡ says.expects heap.now mark.now }
{
    is_called(&['x', 'f', 'a', 'i', 'l'], mark) && is_met(heap, true, condition(mark.args.items()))
}

/// The nearest `skipif` whose condition is true.
fn skip_if_mark<'a>(heap: &'a Heap, marks: &[Value]) -> Option<&'a MarkObj>
    ensures { option_copied result ≡ find (says.skips_if heap.now) (marks_in heap.now marks.now) }
{
    for v in marks {
        if let Some(mark) = mark_in(heap, *v) {
            if skips_if(heap, mark) {
                return Some(mark);
            }
        }
    }
    None
}

/// The nearest `skip`.
fn skip_mark<'a>(heap: &'a Heap, marks: &[Value]) -> Option<&'a MarkObj>
    ensures { option_copied result ≡ find (says.is_called (codes "skip")) (marks_in heap.now marks.now) }
{
    for v in marks {
        if let Some(mark) = mark_in(heap, *v) {
            if skips(mark) {
                return Some(mark);
            }
        }
    }
    None
}

/// The nearest `xfail` that applies.
fn xfail_mark<'a>(heap: &'a Heap, marks: &[Value]) -> Option<&'a MarkObj>
    ensures { option_copied result ≡ find (says.expects heap.now) (marks_in heap.now marks.now) }
{
    for v in marks {
        if let Some(mark) = mark_in(heap, *v) {
            if expects(heap, mark) {
                return Some(mark);
            }
        }
    }
    None
}

/// The mark by which an item is skipped.
fn skipping_mark<'a>(heap: &'a Heap, marks: &[Value]) -> Option<&'a MarkObj>
    ensures { option_copied result ≡ says.sooner_mark (find (says.skips_if heap.now) (marks_in heap.now marks.now)) (find (says.is_called (codes "skip")) (marks_in heap.now marks.now)) }
{
    match skip_if_mark(heap, marks) {
        Some(mark) => Some(mark),
        None => skip_mark(heap, marks),
    }
}

fn reason_if(
    alloc: Global,
    heap: &Heap,
    mark: Option<&MarkObj>,
) -> Result<Option<PyText>, OutOfMemory>
    ensures { IfOk result (λ t. t ≡ option_map (says.mark_reason heap.now) (option_copied mark.entry)) }
{
    match mark {
        Some(mark) => Ok(Some(mark_reason(alloc, heap, mark)?)),
        None => Ok(None),
    }
}

/// Why an item with these marks is skipped, where it is: by the nearest `skipif` whose condition is true, else by the nearest `skip`.
#[tactic(auto, unfolding(crate::specs::Says::skipped_by))]
pub fn skipped_by(
    alloc: Global,
    heap: &Heap,
    marks: &[Value],
) -> Result<Option<PyText>, OutOfMemory>
    ensures { IfOk result (λ t. t ≡ says.skipped_by heap.now (marks_in heap.now marks.now)) }
{
    reason_if(alloc, heap, skipping_mark(heap, marks))
}

/// `raises=None` is as no `raises`.
fn unless_none(v: Option<Value>) -> Option<Value>
    ensures { result ≡ says.unless_none v }
{
    match v {
        Some(Value::None) | None => None,
        Some(Value::Bool(b)) => Some(Value::Bool(b)),
        Some(Value::Int(n)) => Some(Value::Int(n)),
        Some(Value::Ref(id)) => Some(Value::Ref(id)),
    }
}

fn xfail_said(alloc: Global, heap: &Heap, mark: &MarkObj) -> Result<Xfail, OutOfMemory>
    ensures { IfOk result (λ x. x ≡ says.xfail_said heap.now mark.now) }
{
    let reason = mark_reason(alloc, heap, mark)?;
    let raises = named(alloc, mark, &['r', 'a', 'i', 's', 'e', 's'])?;
    let strict = named(alloc, mark, &['s', 't', 'r', 'i', 'c', 't'])?;
    Ok(Xfail {
        reason,
        raises: unless_none(raises),
        strict: is_met(heap, false, strict),
    })
}

/// What is expected of an item with these marks, where something is: by the nearest `xfail` that applies.
#[tactic(auto, unfolding(crate::specs::Says::xfail_of))]
pub fn xfail_of(alloc: Global, heap: &Heap, marks: &[Value]) -> Result<Option<Xfail>, OutOfMemory>
    ensures { IfOk result (λ x. x ≡ says.xfail_of heap.now (marks_in heap.now marks.now)) }
{
    match xfail_mark(heap, marks) {
        Some(mark) => Ok(Some(xfail_said(alloc, heap, mark)?)),
        None => Ok(None),
    }
}
