// How the phases of an item have ended.

ghost use Rattle.std.specs.Prelude.{◌≡◌, option_copied};
ghost use Rattle.collect_names.specs.py_kinds.Classes.{exc_eq, if_exc};
ghost use Rattle.collect_marks.specs.Verdicts as verdicts;

use crate::xfail::Xfail;
use collect_names::objects::object_in;
use py_kinds::classes::{is_a, root_of};
use py_values::class::{ClassRef, ExcClass};
use py_values::heap::Heap;
use py_values::object::Obj;
use py_values::value::Value;

/// How a phase of an item has ended.
#[derive(Clone, Copy, Debug, PartialEq, Eq)]
pub enum Verdict {
    Passed,
    Skipped,
    /// It raised what an `xfail` mark covers.
    Xfailed,
    /// It passed under an `xfail` mark.
    Xpassed,
    /// It passed under an `xfail` mark that is strict, so it failed.
    StrictXpassed,
    Raised,
}

/// The class of the exception that an object is, where it is one.
fn exception_class(obj: Option<&Obj>) -> Option<ClassRef>
    ensures { result ≡ verdicts.exception_class (option_copied obj.entry) }
{
    match obj {
        Some(Obj::Exception(exception)) => Some(exception.class),
        Some(
            Obj::Text(_)
            | Obj::List(_)
            | Obj::Tuple(_)
            | Obj::Dict(_)
            | Obj::Range(_)
            | Obj::Function(_)
            | Obj::Method(_)
            | Obj::Builtin(_)
            | Obj::Class(_)
            | Obj::Instance(_)
            | Obj::Module(_)
            | Obj::Fixture(_)
            | Obj::MarkMaker
            | Obj::Mark(_)
            | Obj::Hook(_)
            | Obj::Param(_)
            | Obj::Request(_)
            | Obj::Raises(_)
            | Obj::Info(_)
            | Obj::Item(_),
        )
        | None => None,
    }
}

fn is_skip_root(root: Option<ExcClass>) -> bool
    ensures { result ≡ if_exc (λ c. exc_eq c ExcClass.Skipped) root }
{
    match root {
        Some(root) => root == ExcClass::Skipped,
        None => false,
    }
}

fn is_skip_class(heap: &Heap, class: Option<ClassRef>) -> bool
    ensures { result ≡ verdicts.is_skip_class heap.now class }
{
    match class {
        Some(class) => is_skip_root(root_of(heap, class)),
        None => false,
    }
}

/// Whether an exception is one that `pytest.skip` and the marks raise.
fn is_skip(heap: &Heap, e: Value) -> bool
    ensures { result ≡ verdicts.is_skip heap.now e }
{
    is_skip_class(heap, exception_class(object_in(heap, e)))
}

fn covered_by(heap: &Heap, raises: Option<Value>, e: Value) -> bool
    ensures { result ≡ verdicts.covered_by heap.now raises e }
{
    match raises {
        Some(classes) => is_a(heap, e, classes),
        None => true,
    }
}

fn covers(heap: &Heap, xfail: Option<&Xfail>, e: Value) -> bool
    ensures { result ≡ verdicts.covers heap.now (option_copied xfail.entry) e }
{
    match xfail {
        Some(xfail) => covered_by(heap, xfail.raises, e),
        None => false,
    }
}

/// How a phase has ended that raised one exception.
fn one_verdict(heap: &Heap, xfail: Option<&Xfail>, e: Value) -> Verdict
    ensures { result ≡ verdicts.raised_verdict heap.now (option_copied xfail.entry) (e ∷ []) }
{
    if is_skip(heap, e) {
        return Verdict::Skipped;
    }
    if covers(heap, xfail, e) {
        return Verdict::Xfailed;
    }
    Verdict::Raised
}

ghost use Rattle.std.specs.Prelude.{◌∷◌, []};

fn raised_verdict(heap: &Heap, xfail: Option<&Xfail>, raised: &[Value]) -> Verdict
    ensures { result ≡ verdicts.raised_verdict heap.now (option_copied xfail.entry) raised.now }
{
    match raised {
        [] => Verdict::Passed,
        [e] => one_verdict(heap, xfail, *e),
        [_, _, ..] => Verdict::Raised,
    }
}

fn passed_verdict(xfail: Option<&Xfail>) -> Verdict
    ensures { result ≡ verdicts.passed_verdict (option_copied xfail.entry) }
{
    match xfail {
        Some(xfail) => strict_verdict(xfail.strict),
        None => Verdict::Passed,
    }
}

fn strict_verdict(strict: bool) -> Verdict
    ensures { result ≡ (if strict then Verdict.StrictXpassed else Verdict.Xpassed) }
{
    if strict {
        Verdict::StrictXpassed
    } else {
        Verdict::Xpassed
    }
}

ghost use Rattle.std.specs.Prelude.{if◌then◌else◌};

/// How a set-up has ended that raised these exceptions.
#[tactic(auto, unfolding(crate::specs::Verdicts::set_up_verdict))]
pub fn set_up_verdict(heap: &Heap, xfail: Option<&Xfail>, raised: &[Value]) -> Verdict
    ensures { result ≡ verdicts.set_up_verdict heap.now (option_copied xfail.entry) raised.now }
{
    raised_verdict(heap, xfail, raised)
}

/// How the call of a test has ended that raised these exceptions; one that passes was not to pass where an `xfail` applies.
#[tactic(auto, unfolding(crate::specs::Verdicts::call_verdict))]
pub fn call_verdict(heap: &Heap, xfail: Option<&Xfail>, raised: &[Value]) -> Verdict
    ensures { result ≡ verdicts.call_verdict heap.now (option_copied xfail.entry) raised.now }
{
    match raised {
        [] => passed_verdict(xfail),
        [_, ..] => raised_verdict(heap, xfail, raised),
    }
}

/// How a teardown has ended that raised these exceptions; no `xfail` covers it.
#[tactic(auto, unfolding(crate::specs::Verdicts::teardown_verdict))]
pub fn teardown_verdict(heap: &Heap, raised: &[Value]) -> Verdict
    ensures { result ≡ verdicts.teardown_verdict heap.now raised.now }
{
    raised_verdict(heap, None, raised)
}
