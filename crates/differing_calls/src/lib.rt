//! The law of two choices, tried: runs that it relates, and runs that it must not.
//!
//! # What it is for
//!
//! `explain_law` says by a relation that explained asserts change nothing but the argument of a failed one's exception. A relation that
//! holds of any two runs would say nothing. Here stand instances of its premises, taken from sources, and statements of its form that
//! are false, each with the proof that it has none.
//!
//! # What is proved
//!
//! Instances that meet the premises:
//!
//! - `a_failed_assert_is_come_to`: a module with the line `assert False`, explained or not; the worlds are alike (`alike`), and both
//!   loads come to its assert (`comes`), so the case in which runs part is no empty one.
//! - `calls_that_differ_before_an_assert_are_not_related`: a file with a function `g` that fails an assert and a function `f` that
//!   calls it, handles the exception and returns its argument. Worlds at their start that have this file, explained or not, are alike
//!   (`sources`), and behind its load again (`loaded`); and `f(0)` comes to the assert of `g` under both (`comes`).
//! - `failed_asserts_can_end_alike`: failed asserts end alike under any two choices where each raises an `AssertionError` without
//!   argument (`bare`), or with its message alone (`messages`): the premise of `all_else_is_the_same`.
//!
//! Statements that are false:
//!
//! - `different_results_are_not_related`: a call that gives 0 and one that gives 1 (`refused`); so the law does not relate any two
//!   calls in worlds that are alike (`not_any_two`).
//! - `calls_that_differ_before_an_assert_are_not_related`: `f(0)` under one choice and `f(1)` under the other. Both come to the same
//!   failed assert in states that are alike (`both_come`), and what they return shows that they differed before (`refused`).
#![tactic(auto)]

ghost use Rattle.explain_law.specs.Choices.{Choices, WorldsByChoice};
ghost use Rattle.explain_law.specs.Law.{ToldUntil, ComeToAssert, EndAlike, call_tree};
ghost use Rattle.source_meaning.specs.Meaning.{SourceWorld, source_call};
ghost use Rattle.std.specs.Prelude.{ℕ, List, [], Bool, true, false, ◌≡◌};
ghost use Rattle.py_values.specs.declared.value.Value.{Value as PyValue};
ghost use Rattle.differing_calls.specs.Asserts.{none_or_each, with_assert, assert_load};
ghost use Rattle.differing_calls.specs.Calls.{with_abs, zero_alone, one_alone, the_function};
ghost use Rattle.differing_calls.specs.Caught.{with_caught, caught_loaded, the_f, call_of_f};
ghost use Rattle.differing_calls.specs.Endings.{without_argument, with_its_message};

/// Under any two choices, in a world that has a built-in function and no source, which is alike under both: a call of it that gives 0 and one that gives 1 are
/// not related, with a budget of 10 steps.
pub fn different_results_are_not_related()
    ensures alike { (choices : Choices) → WorldsByChoice choices with_abs with_abs }
    ensures refused { (choices : Choices) → ToldUntil choices 10 (call_tree the_function zero_alone with_abs) (call_tree the_function one_alone with_abs) (source_call the_function zero_alone 10 with_abs) (source_call the_function one_alone 10 with_abs) → ⊥ }
    ensures not_any_two { ((choices : Choices) (path : List ℕ) → choices.first path ≡ false → choices.second path ≡ true → (w x : SourceWorld) → WorldsByChoice choices w x → (f g : PyValue) (args brgs : List PyValue) (budget : ℕ) → ToldUntil choices budget (call_tree f args w) (call_tree g brgs x) (source_call f args budget w) (source_call g brgs budget x)) → ⊥ }
{}

/// Where no module's asserts are explained, or each module's: the load of a module with one assert that fails comes there under both.
pub fn a_failed_assert_is_come_to()
    ensures alike { WorldsByChoice none_or_each (with_assert false) (with_assert true) }
    ensures comes { ComeToAssert none_or_each 10 (assert_load false) (assert_load true) }
{}

/// Under any two choices: failed asserts that raise an `AssertionError` without argument end alike, and so do those that raise one with
/// their message alone.
pub fn failed_asserts_can_end_alike()
    ensures bare { (choices : Choices) → EndAlike choices without_argument without_argument }
    ensures messages { (choices : Choices) → EndAlike choices with_its_message with_its_message }
{}

/// Where no module's asserts are explained, or each module's: of a function that handles the failed assert of a function that it calls
/// and returns its own argument, the same call comes to that assert under both; so do two calls with different arguments, one under each,
/// and they are not related, with a budget of 20 steps.
pub fn calls_that_differ_before_an_assert_are_not_related()
    ensures sources { WorldsByChoice none_or_each (with_caught false) (with_caught true) }
    ensures loaded { WorldsByChoice none_or_each (caught_loaded false) (caught_loaded true) }
    ensures comes { ComeToAssert none_or_each 20 (call_of_f zero_alone false) (call_of_f zero_alone true) }
    ensures both_come { ComeToAssert none_or_each 20 (call_of_f zero_alone false) (call_of_f one_alone true) }
    ensures refused { ToldUntil none_or_each 20 (call_tree the_f zero_alone (caught_loaded false)) (call_tree the_f one_alone (caught_loaded true)) (source_call the_f zero_alone 20 (caught_loaded false)) (source_call the_f one_alone 20 (caught_loaded true)) → ⊥ }
{}
