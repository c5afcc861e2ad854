// The call of a mark.

ghost use Rattle.std.specs.Prelude.{◌≡◌, ◌||◌, [], IfOk, option_copied};
ghost use Rattle.std.specs.List.{list_all};
ghost use Rattle.py_repr.specs.py_kinds.Classes.{are_exc_classes};
ghost use Rattle.pytest_arguments.specs.Forms.{unless_bad};
ghost use Rattle.pytest_arguments.specs.Given as given;
ghost use Rattle.pytest_calls.specs.Marks as marks;

use call_products::product::{Product, plain, wrong};
use py_kinds::classes::are_exc_classes;
use py_operands::texts::text_of;
use py_values::end::Effect;
use py_values::heap::Heap;
use py_values::names::{Name, Names};
use py_values::object::{MarkObj, Obj};
use py_values::rows::Values;
use py_values::value::Value;
use py_values::{OutOfMemory, PyText};
use pytest_arguments::form::{
    Argument, OwnMark, bad, mark_fits, named_value, own_mark, own_mark_name,
};
use pytest_arguments::given::{
    are_texts, boolean_or_absent, each_is_text, is_boolean, is_row, is_text_value,
    no_other_than_ids, row_at, text_or_absent, values_copied,
};
use std::alloc::Global;

fn first_is_boolean(args: &[Value]) -> bool
    ensures { result ≡ marks.if_first given.is_boolean args.now }
{
    match args {
        [v, ..] => is_boolean(*v),
        [] => true,
    }
}

/// The reason where it is bad, else what is bad behind it.
fn reason_bad(heap: &Heap, named: &[(PyText, Value)], next: Option<Argument>) -> Option<Argument>
    ensures { result ≡ marks.reason_bad heap.now named.now next }
{
    if text_or_absent(heap, named_value(Argument::Reason, named)) {
        next
    } else {
        Some(Argument::Reason)
    }
}

fn has_comma(text: &[char]) -> bool
    ensures { result ≡ marks.has_comma text.now }
{
    text.iter().any(|c| *c == ',')
}

/// Whether a text is one name.
fn is_one_name(text: Option<&PyText>) -> bool
    ensures { result ≡ marks.is_one_name (option_copied text.entry) }
{
    match text {
        Some(text) => !has_comma(text.chars()),
        None => false,
    }
}

fn is_param(heap: &Heap, v: Value) -> bool
    ensures { result ≡ marks.is_param heap.now v }
{
    let Value::Ref(id) = v else {
        return false;
    };
    match heap.get(id) {
        Some(Obj::Param(_)) => true,
        _ => false,
    }
}

fn each_is_row(heap: &Heap, rows: &[Value]) -> bool
    ensures { result ≡ list_all (λ v. given.is_row heap.now v || marks.is_param heap.now v) rows.now }
{
    rows.iter().all(|v| is_row(heap, *v) || is_param(heap, *v))
}

fn rows_fit(heap: &Heap, one: bool, rows: Option<&Values>) -> bool
    ensures { result ≡ marks.rows_fit heap.now one (option_copied rows.entry) }
{
    match rows {
        Some(rows) => one || each_is_row(heap, rows.items()),
        None => false,
    }
}

fn are_rows(heap: &Heap, names: Value, rows: Value) -> bool
    ensures { result ≡ marks.are_rows heap.now names rows }
{
    rows_fit(heap, is_one_name(text_of(heap, names)), row_at(heap, rows))
}

fn are_names(heap: &Heap, v: Value) -> bool
    ensures { result ≡ marks.are_names heap.now v }
{
    is_text_value(heap, v) || are_texts(heap, v)
}

fn parametrize_bad(heap: &Heap, args: &[Value], named: &[(PyText, Value)]) -> Option<Argument>
    ensures { result ≡ marks.parametrize_bad heap.now args.now named.now }
{
    let [names, rows, ..] = args else {
        return None;
    };
    if !are_names(heap, *names) {
        return Some(Argument::Names);
    }
    if !are_rows(heap, *names, *rows) {
        return Some(Argument::Rows);
    }
    if !no_other_than_ids(heap, named_value(Argument::Ids, named)) {
        return Some(Argument::Ids);
    }
    None
}

fn classes_or_none(heap: &Heap, v: Value) -> bool
    ensures { result ≡ given.unless_none (are_exc_classes heap.now) v }
{
    match v {
        Value::None => true,
        Value::Bool(_) | Value::Int(_) | Value::Ref(_) => are_exc_classes(heap, v),
    }
}

fn no_other_than_classes(heap: &Heap, v: Option<Value>) -> bool
    ensures { result ≡ given.if_given (given.unless_none (are_exc_classes heap.now)) v }
{
    match v {
        Some(v) => classes_or_none(heap, v),
        None => true,
    }
}

/// What is bad behind the reason.
fn outcome_bad(heap: &Heap, named: &[(PyText, Value)]) -> Option<Argument>
    ensures { result ≡ marks.outcome_bad heap.now named.now }
{
    if !no_other_than_classes(heap, named_value(Argument::Raises, named)) {
        return Some(Argument::Raises);
    }
    if !boolean_or_absent(named_value(Argument::Strict, named)) {
        return Some(Argument::Strict);
    }
    None
}

/// The condition where it is bad, else what is bad behind it.
fn condition_bad(args: &[Value], next: Option<Argument>) -> Option<Argument>
    ensures { result ≡ marks.condition_bad args.now next }
{
    if first_is_boolean(args) {
        next
    } else {
        Some(Argument::Condition)
    }
}

/// The first argument of a call whose form fits that is bad.
#[tactic(auto, unfolding(crate::specs::Marks::mark_bad))]
fn mark_bad(
    which: OwnMark,
    heap: &Heap,
    args: &[Value],
    named: &[(PyText, Value)],
) -> Option<Argument>
    ensures { result ≡ marks.mark_bad which heap.now args.now named.now }
{
    match which {
        OwnMark::Parametrize => parametrize_bad(heap, args, named),
        OwnMark::Skip => reason_bad(heap, named, None),
        OwnMark::SkipIf => condition_bad(args, reason_bad(heap, named, None)),
        OwnMark::UseFixtures => {
            if each_is_text(heap, args) {
                None
            } else {
                Some(Argument::Name)
            }
        }
        OwnMark::XFail => condition_bad(args, reason_bad(heap, named, outcome_bad(heap, named))),
    }
}

fn bound_all(alloc: Global, named: &[(PyText, Value)]) -> Result<Names, OutOfMemory>
    ensures { IfOk result (λ ns. ns ≡ marks.bound_all named.now []) }
{
    let mut names = Names::new(alloc);
    for entry in named {
        let name = Name::from_chars(alloc, entry.0.chars())?;
        names.bind(name, entry.1)?;
    }
    Ok(names)
}

fn mark_made(
    alloc: Global,
    name: &[char],
    args: &[Value],
    named: &[(PyText, Value)],
) -> Result<Product, OutOfMemory>
    ensures { IfOk result (λ p. p ≡ marks.mark_made name.now args.now named.now) }
{
    let name = PyText::from_chars(alloc, name)?;
    let args = values_copied(alloc, args)?;
    let named = bound_all(alloc, named)?;
    let mark = MarkObj {
        name,
        args,
        named,
        called: true,
    };
    Ok(plain(alloc, Effect::New(Obj::Mark(mark), 0)))
}

fn mark_unless(
    alloc: Global,
    fault: Option<Argument>,
    name: &[char],
    args: &[Value],
    named: &[(PyText, Value)],
) -> Result<Product, OutOfMemory>
    ensures { IfOk result (λ p. p ≡ unless_bad fault (marks.mark_made name.now args.now named.now)) }
{
    match fault {
        Some(argument) => bad(alloc, argument),
        None => mark_made(alloc, name, args, named),
    }
}

/// The call of a mark that wasn't called yet (pytest's reference, marks).
#[tactic(auto, unfolding(crate::specs::Marks::mark_called))]
pub fn mark_called(
    alloc: Global,
    heap: &Heap,
    mark: &MarkObj,
    args: &[Value],
    named: &[(PyText, Value)],
) -> Result<Product, OutOfMemory>
    ensures { IfOk result (λ p. p ≡ marks.mark_called mark.now heap.now args.now named.now) }
{
    let name = mark.name.chars();
    let Some(which) = own_mark(name) else {
        return mark_made(alloc, name, args, named);
    };
    if !mark_fits(which, args, named) {
        return wrong(alloc, own_mark_name(which), 0);
    }
    mark_unless(alloc, mark_bad(which, heap, args, named), name, args, named)
}
