//! Lowering keeps the meaning: which core code stands for which source, and the law that both do the same.
//!
//! # What it is for
//!
//! `Lowered` says which core code stands for which source: the same form with lowered parts at the same place; an assert stands for
//! an `if` with an empty block whose `else` is the failure; where asserts are explained, the parts of the condition that are shown
//! are kept in temporaries, numbered in the order of the text. Core code carries its source, and a world is sound where each code
//! stands for the source that it carries (`Sound`); `source_view` forgets the core side.
//!
//! # What is proved
//!
//! - `lowering_keeps_meaning`: in a sound world a call, a load, the begin of a body that yields and its resumption are equations of
//!   the meaning of sources, with every budget (`calls`, `loads`, `begins`, `resumes`, `tapes`), and leave a sound world
//!   (`sound_calls`, `sound_loads`, `sound_begins`, `sound_resumes`), for plain and explained code alike; so does a frame that is
//!   given up (`abandons`, `sound_abandons`).
#![tactic(auto)]

ghost use Rattle.std.specs.Prelude.{ℕ, ◌≡◌, List};
ghost use Rattle.py_values.specs.declared.value.Value.{Value as PyValue};
ghost use Rattle.source_meaning.specs.Meaning.{source_semantics, source_call, source_module, source_begin, source_resume};
ghost use Rattle.core_meaning.specs.Meaning.{CoreWorld, core, core_call, core_module, core_begin, core_resume};
ghost use Rattle.lower_law.specs.Law.{call_tape};
ghost use Rattle.lower_law.specs.View.{Sound, source_view, view_told, view_begun};
ghost use Rattle.source_meaning.specs.py_world.Resuming.{Sent, abandon_of};

/// In a world in which each core code stands for the source that it carries, a call and a load of a module do what the sources
/// say, with every budget: the same value or exception with the same trace, the same steps, or exhausted at the same step with the
/// same trace, and the world behind it, seen as a world of sources, is the one that the sources lead to. The expressions that began
/// are the same, in the same order. And each core code of that world stands for its source again. The same holds of the begin of a
/// body that yields, of its resumption with a value or an exception, and of a frozen frame that is given up.
pub fn lowering_keeps_meaning()
    ensures calls { (w : CoreWorld) → Sound w → (f : PyValue) (args : List PyValue) (budget : ℕ) → view_told (core_call f args budget w) ≡ source_call f args budget (source_view w) }
    ensures loads { (w : CoreWorld) → Sound w → (path : List ℕ) (budget : ℕ) → view_told (core_module path budget w) ≡ source_module path budget (source_view w) }
    ensures tapes { (w : CoreWorld) → Sound w → (f : PyValue) (args : List PyValue) (budget : ℕ) → call_tape core f args budget w ≡ call_tape source_semantics f args budget (source_view w) }
    ensures sound_calls { (w : CoreWorld) → Sound w → (f : PyValue) (args : List PyValue) (budget : ℕ) → Sound (core_call f args budget w).1 }
    ensures sound_loads { (w : CoreWorld) → Sound w → (path : List ℕ) (budget : ℕ) → Sound (core_module path budget w).1 }
    ensures begins { (w : CoreWorld) → Sound w → (f : PyValue) (args : List PyValue) (budget : ℕ) → view_begun (core_begin f args budget w) ≡ source_begin f args budget (source_view w) }
    ensures resumes { (w : CoreWorld) → Sound w → (n : ℕ) (sent : Sent) (budget : ℕ) → view_begun (core_resume n sent budget w) ≡ source_resume n sent budget (source_view w) }
    ensures abandons { (w : CoreWorld) (n : ℕ) → source_view (abandon_of n w) ≡ abandon_of n (source_view w) }
    ensures sound_begins { (w : CoreWorld) → Sound w → (f : PyValue) (args : List PyValue) (budget : ℕ) → Sound (core_begin f args budget w).1 }
    ensures sound_resumes { (w : CoreWorld) → Sound w → (n : ℕ) (sent : Sent) (budget : ℕ) → Sound (core_resume n sent budget w).1 }
    ensures sound_abandons { (w : CoreWorld) → Sound w → (n : ℕ) → Sound (abandon_of n w) }
{}
