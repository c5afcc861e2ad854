//! The same parts in the same order: the tapes of sources and of core code.
//!
//! # What it is for
//!
//! `lowering_keeps_meaning` of `lower_law` says that core code ends as its source does, and of calls that the expressions that began are
//! the same in the same order (`tapes`). Here the same is said of loads, of begins and of resumptions, so of every function, those whose
//! bodies have a `yield` among them: on both sides of the `yield`.
//!
//! # What is proved
//!
//! - `lowering_keeps_tapes`: in a sound world the tape of a load, of a begin and of a resumption is that of the meaning of sources, with
//!   every budget, also where the budget is used up (`loads`, `begins`, `resumes`).
//!
//! # What meets the laws of lowering, and what they refuse
//!
//! - A world without sources is sound, a source that `lower` of `assert_rewrite` has lowered keeps it so (`add_source` of `py_machine`), and
//!   so does each call, load, begin and resumption (`lowering_keeps_meaning`): every `World` of `py_machine` is sound, by its invariant.
//! - Refused, each as an edit of `lower_law`: that an assert that holds takes a step, that its message is dropped, that a temporary has another
//!   number, that defaults are the decorators, that a base is dropped, that a function carries another source; and here, that a resumption
//!   begins an expression more.
#![tactic(auto)]

ghost use Rattle.std.specs.Prelude.{ℕ, ◌≡◌, List};
ghost use Rattle.py_values.specs.declared.value.Value.{Value as PyValue};
ghost use Rattle.lower_law.specs.core_meaning.Meaning.{CoreWorld, core};
ghost use Rattle.lower_law.specs.source_meaning.Meaning.{source_semantics};
ghost use Rattle.lower_law.specs.py_world.Resuming.{Sent};
ghost use Rattle.lower_law.specs.View.{Sound, source_view};
ghost use Rattle.tape_law.specs.Tapes.{begin_tape, load_tape, resume_tape};

/// In a world in which each core code stands for the source that it carries, the expressions that begin in a load, in the begin of a
/// body that yields and in its resumption are those that the sources begin, in the same order.
pub fn lowering_keeps_tapes()
    ensures loads { (w : CoreWorld) → Sound w → (path : List ℕ) (budget : ℕ) → load_tape core path budget w ≡ load_tape source_semantics path budget (source_view w) }
    ensures begins { (w : CoreWorld) → Sound w → (f : PyValue) (args : List PyValue) (budget : ℕ) → begin_tape core f args budget w ≡ begin_tape source_semantics f args budget (source_view w) }
    ensures resumes { (w : CoreWorld) → Sound w → (n : ℕ) (sent : Sent) (budget : ℕ) → resume_tape core n sent budget w ≡ resume_tape source_semantics n sent budget (source_view w) }
{}
