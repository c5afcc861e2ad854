// The forms of the calls of pytest's names: which arguments they take, and the errors of what doesn't fit.

ghost use Rattle.std.specs.Prelude.{◌≡◌, IfOk};
ghost use Rattle.py_values.specs.Names.{find_name, name_eq};
ghost use Rattle.pytest_arguments.specs.Forms as forms;

use call_products::product::{Product, plain};
use py_values::builtin::PytestCall;
use py_values::class::ExcClass;
use py_values::end::{Effect, Raise, push_ascii};
use py_values::value::Value;
use py_values::{OutOfMemory, PyText};
use std::alloc::Global;

/// An argument of a function of `pytest` or of one of its own marks.
#[derive(Clone, Copy, PartialEq, Eq)]
pub enum Argument {
    AutoUse,
    Condition,
    Id,
    Ids,
    Marks,
    Match,
    Name,
    Names,
    Params,
    Raises,
    Reason,
    Rows,
    Scope,
    Strict,
    TryFirst,
    TryLast,
    Wrapper,
}

/// One of pytest's own marks (pytest's reference, marks).
#[derive(Clone, Copy, PartialEq, Eq)]
pub enum OwnMark {
    Parametrize,
    Skip,
    SkipIf,
    UseFixtures,
    XFail,
}

fn argument_name(argument: Argument) -> &'static str
    ensures { result.now ≡ forms.argument_name argument }
{
    match argument {
        Argument::AutoUse => "autouse",
        Argument::Condition => "condition",
        Argument::Id => "id",
        Argument::Ids => "ids",
        Argument::Marks => "marks",
        Argument::Match => "match",
        Argument::Name => "name",
        Argument::Names => "names",
        Argument::Params => "params",
        Argument::Raises => "raises",
        Argument::Reason => "reason",
        Argument::Rows => "rows",
        Argument::Scope => "scope",
        Argument::Strict => "strict",
        Argument::TryFirst => "tryfirst",
        Argument::TryLast => "trylast",
        Argument::Wrapper => "wrapper",
    }
}

/// The name of one of pytest's own marks.
pub fn own_mark_name(mark: OwnMark) -> &'static str
    ensures { result.now ≡ forms.own_mark_name mark }
{
    match mark {
        OwnMark::Parametrize => "parametrize",
        OwnMark::Skip => "skip",
        OwnMark::SkipIf => "skipif",
        OwnMark::UseFixtures => "usefixtures",
        OwnMark::XFail => "xfail",
    }
}

/// Whether a word of ASCII characters is a name.
pub fn is_word(word: &str, name: &[char]) -> bool
    ensures { result ≡ name_eq word.now name.now }
{
    let bytes = word.as_bytes();
    if bytes.len() != name.len() {
        return false;
    }
    for i in 0..bytes.len() {
        if char::from(bytes[i]) != name[i] {
            return false;
        }
    }
    true
}

/// The one of pytest's own marks that has a name.
pub fn own_mark(name: &[char]) -> Option<OwnMark>
    ensures { result ≡ forms.mark_in name.now forms.own_marks }
{
    if is_word("parametrize", name) {
        return Some(OwnMark::Parametrize);
    }
    if is_word("skip", name) {
        return Some(OwnMark::Skip);
    }
    if is_word("skipif", name) {
        return Some(OwnMark::SkipIf);
    }
    if is_word("usefixtures", name) {
        return Some(OwnMark::UseFixtures);
    }
    if is_word("xfail", name) {
        return Some(OwnMark::XFail);
    }
    None
}

fn value_named(word: &str, named: &[(PyText, Value)]) -> Option<Value>
    ensures { result ≡ find_name word.now named.now }
{
    for entry in named {
        if is_word(word, entry.0.chars()) {
            return Some(entry.1);
        }
    }
    None
}

/// The value of an argument that is given by name.
pub fn named_value(argument: Argument, named: &[(PyText, Value)]) -> Option<Value>
    ensures { result ≡ forms.named_value argument named.now }
{
    value_named(argument_name(argument), named)
}

/// Whether a name is that of one of the arguments.
fn names_one(arguments: &[Argument], name: &[char]) -> bool
    ensures { result ≡ forms.names_one arguments.now name.now }
{
    arguments
        .iter()
        .any(|argument| is_word(argument_name(*argument), name))
}

/// Whether each argument that is given by name is one of these.
fn are_known(arguments: &[Argument], named: &[(PyText, Value)]) -> bool
    ensures { result ≡ forms.are_known arguments.now named.now }
{
    named
        .iter()
        .all(|entry| names_one(arguments, entry.0.chars()))
}

fn function_knows(which: PytestCall, named: &[(PyText, Value)]) -> bool
    ensures { result ≡ forms.are_known (forms.function_arguments which) named.now }
{
    match which {
        PytestCall::Fail | PytestCall::Skip => are_known(&[], named),
        PytestCall::Fixture => are_known(
            &[
                Argument::Scope,
                Argument::Params,
                Argument::AutoUse,
                Argument::Ids,
                Argument::Name,
            ],
            named,
        ),
        PytestCall::HookImpl => are_known(
            &[Argument::Wrapper, Argument::TryFirst, Argument::TryLast],
            named,
        ),
        PytestCall::Param => are_known(&[Argument::Id, Argument::Marks], named),
        PytestCall::Raises => are_known(&[Argument::Match], named),
    }
}

fn function_counts(which: PytestCall, count: usize) -> bool
    ensures { result ≡ forms.function_counts which count }
{
    match which {
        PytestCall::Fail | PytestCall::Skip => count < 2,
        PytestCall::Fixture | PytestCall::HookImpl => count == 0,
        PytestCall::Param => true,
        PytestCall::Raises => count == 1,
    }
}

/// Whether the form of a call of a function of `pytest` fits.
pub fn function_fits(which: PytestCall, args: &[Value], named: &[(PyText, Value)]) -> bool
    ensures { result ≡ forms.function_fits which args.now named.now }
{
    function_counts(which, args.len()) && function_knows(which, named)
}

fn mark_knows(which: OwnMark, named: &[(PyText, Value)]) -> bool
    ensures { result ≡ forms.are_known (forms.mark_arguments which) named.now }
{
    match which {
        OwnMark::Parametrize => are_known(&[Argument::Ids], named),
        OwnMark::Skip | OwnMark::SkipIf => are_known(&[Argument::Reason], named),
        OwnMark::UseFixtures => are_known(&[], named),
        OwnMark::XFail => are_known(
            &[Argument::Reason, Argument::Raises, Argument::Strict],
            named,
        ),
    }
}

fn mark_counts(which: OwnMark, count: usize) -> bool
    ensures { result ≡ forms.mark_counts which count }
{
    match which {
        OwnMark::Parametrize => count == 2,
        OwnMark::Skip => count == 0,
        OwnMark::SkipIf => count == 1,
        OwnMark::UseFixtures => true,
        OwnMark::XFail => count < 2,
    }
}

/// Whether the form of a call of one of pytest's own marks fits.
pub fn mark_fits(which: OwnMark, args: &[Value], named: &[(PyText, Value)]) -> bool
    ensures { result ≡ forms.mark_fits which args.now named.now }
{
    mark_counts(which, args.len()) && mark_knows(which, named)
}

/// The error that an argument of a name is of another kind than is wanted.
#[tactic(auto, unfolding(crate::specs::Forms::bad_named))]
pub fn bad_named(alloc: Global, name: &[char]) -> Result<Product, OutOfMemory>
    ensures { IfOk result (λ p. p ≡ forms.bad_named name.now) }
{
    let mut text = Vec::new(alloc);
    push_ascii(&mut text, "bad argument '")?;
    text.extend_from_slice(name)?;
    push_ascii(&mut text, "'")?;
    let raise = Raise::from_chars(alloc, ExcClass::ValueError, &text)?;
    Ok(plain(alloc, Effect::Fail(raise, 0)))
}

/// The error that an argument is of another kind than is wanted.
pub fn bad(alloc: Global, argument: Argument) -> Result<Product, OutOfMemory>
    ensures { IfOk result (λ p. p ≡ forms.bad argument) }
{
    let mut name = Vec::new(alloc);
    push_ascii(&mut name, argument_name(argument))?;
    bad_named(alloc, &name)
}
