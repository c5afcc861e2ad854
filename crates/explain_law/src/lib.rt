//! Explained asserts change nothing but the text of a failed one.
//!
//! # What it is for
//!
//! Which modules have their asserts explained is a choice. Here stands what it changes: two choices of modules, and one world under
//! each, in which each code is explained as the choice for its module says and all else is the same.
//!
//! # What is proved
//!
//! - `a_choice_changes_failed_asserts_alone`: of a call, a load of a module, a begin of a body that yields and a resumption, with every
//!   budget, one of three holds of what the real runs tell (`calls`, `loads`, `begins`, `resumes`; `ToldUntil`, `BegunUntil`, both
//!   `UntilAssert`). Nothing runs, and the same is told. Or neither run comes to a failed assert of a module that one choice explains
//!   and the other doesn't (`AsFar`): both note the same positions and tell the same, value or exception, trace and steps, and worlds
//!   that are alike again. Or both come to the same failed assert of such a module (`ComeToAssert`), and were the same before.
//! - That both come there is a fact about each run: the meaning in which such an assert stops the run (`stopping`) stops there under
//!   both choices, with the same positions noted and as much of the budget left, in states that are alike; and the real runs have noted
//!   and spent the same before they go on (`ComesTo`). What both raise there is an `AssertionError` with the same trace, and its
//!   argument alone differs: it is the message, where there is one, or the explanation (`SameAssert`, `FailedApart`).
//! - That both were the same before is said by more than the place: in whatever way failed asserts of such modules ended, if only alike
//!   under both choices (`EndAlike`), both runs would note and tell the same to the very end. This stands in the third case of
//!   `UntilAssert`, so two calls that come to one assert, but would go on differently behind ends that are alike, are not related.
//! - `all_else_is_the_same`: the meaning of sources is one in which such failed asserts end with their failure (`really`); and if they
//!   ended alike, whatever the end, both choices would tell the same to the very end (`calls`, `loads`, `begins`, `resumes`).
//! - What is kept of a condition (temporaries) is no part of a world, and no other code reads it.
//!
//! # What meets it, and what it refuses
//!
//! `differing_calls` proves both: two files whose worlds are alike, explained or not, whose load and whose call come to a failed assert;
//! ends that are alike; and that the relation does not hold of calls that give different results, nor of calls that differ before the
//! assert to which both come.
//!
//! # What neither shows
//!
//! What comes behind such a raise: code can read an exception's argument, and may go on otherwise. Of what remains of a real run behind
//! the assert no more is said than that it is the run's rest (`ComesTo.rest`).
#![tactic(auto)]

ghost use Rattle.std.specs.Prelude.{ℕ, ◌≡◌, List, [], Bool};
ghost use Rattle.py_values.specs.declared.value.Value.{Value as PyValue};
ghost use Rattle.source_meaning.specs.Meaning.{SourceWorld, source_semantics, source_call, source_module, source_begin, source_resume};
ghost use Rattle.explain_law.specs.Choices.{Choices, WorldsByChoice};
ghost use Rattle.explain_law.specs.Law.{ToldUntil, BegunUntil, ToldByChoice, BegunByChoice, EndAlike, differs, call_tree, load_tree, begin_tree, resume_tree};
ghost use Rattle.explain_law.specs.Stopping.{FailedEnds, answering, failed_end};
ghost use Rattle.source_meaning.specs.py_world.Runs.{call_of, module_load};
ghost use Rattle.source_meaning.specs.py_world.Resuming.{Sent, begin_of, resume_of};

/// Under two choices of the modules whose asserts are explained, a call, a load of a module, a begin and a resumption tell the same, with every budget, up to
/// the raise of the first failed assert of a module for which the choices differ; and that raise differs in its exception's argument
/// alone (pytest, assertion rewriting).
pub fn a_choice_changes_failed_asserts_alone()
    ensures calls { (choices : Choices) (w x : SourceWorld) → WorldsByChoice choices w x → (f : PyValue) (args : List PyValue) (budget : ℕ) → ToldUntil choices budget (call_tree f args w) (call_tree f args x) (source_call f args budget w) (source_call f args budget x) }
    ensures loads { (choices : Choices) (w x : SourceWorld) → WorldsByChoice choices w x → (path : List ℕ) (budget : ℕ) → ToldUntil choices budget (load_tree path w) (load_tree path x) (source_module path budget w) (source_module path budget x) }
    ensures begins { (choices : Choices) (w x : SourceWorld) → WorldsByChoice choices w x → (f : PyValue) (args : List PyValue) (budget : ℕ) → BegunUntil choices budget (begin_tree f args w) (begin_tree f args x) (source_begin f args budget w) (source_begin f args budget x) }
    ensures resumes { (choices : Choices) (w x : SourceWorld) → WorldsByChoice choices w x → (n : ℕ) (sent : Sent) (budget : ℕ) → BegunUntil choices budget (resume_tree n sent w) (resume_tree n sent x) (source_resume n sent budget w) (source_resume n sent budget x) }
{}

/// The meaning of sources is the one in which failed asserts end with their failure; and if those of modules for which the choices differ ended alike, a call, a
/// load of a module, a begin and a resumption would tell the same to the very end.
pub fn all_else_is_the_same()
    ensures really { (differs : List ℕ → Bool) → answering differs failed_end ≡ source_semantics }
    ensures calls { (choices : Choices) (ends others : FailedEnds) → EndAlike choices ends others → (w x : SourceWorld) → WorldsByChoice choices w x → (f : PyValue) (args : List PyValue) (budget : ℕ) → ToldByChoice choices (call_of (answering (differs choices) ends) f args budget w) (call_of (answering (differs choices) others) f args budget x) }
    ensures loads { (choices : Choices) (ends others : FailedEnds) → EndAlike choices ends others → (w x : SourceWorld) → WorldsByChoice choices w x → (path : List ℕ) (budget : ℕ) → ToldByChoice choices (module_load (answering (differs choices) ends) path budget w) (module_load (answering (differs choices) others) path budget x) }
    ensures begins { (choices : Choices) (ends others : FailedEnds) → EndAlike choices ends others → (w x : SourceWorld) → WorldsByChoice choices w x → (f : PyValue) (args : List PyValue) (budget : ℕ) → BegunByChoice choices (begin_of (answering (differs choices) ends) f args budget w) (begin_of (answering (differs choices) others) f args budget x) }
    ensures resumes { (choices : Choices) (ends others : FailedEnds) → EndAlike choices ends others → (w x : SourceWorld) → WorldsByChoice choices w x → (n : ℕ) (sent : Sent) (budget : ℕ) → BegunByChoice choices (resume_of (answering (differs choices) ends) n sent budget w) (resume_of (answering (differs choices) others) n sent budget x) }
{}
