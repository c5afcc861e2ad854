// Imports and loads go on behind the end of a module's load.

ghost use Rattle.std.specs.Prelude.{◌≡◌, ◌+◌, IfOk};
ghost use Rattle.machine_state.specs.Definings.{on_module};
ghost use Rattle.machine_state.specs.Frames.{machine_rest, site_now, state_of, Follows};
ghost use Rattle.machine_state.specs.Places.{outcome};
ghost use Rattle.machine_state.specs.Work.{stack_work, Falls};

use crate::begin::{from_behind, import_behind};
use crate::each::each_behind;
use machine_load::load::take_load;
use machine_state::frame::{End, ModuleFrame};
use machine_state::machine::{Machine, NextAction, TurnEnd};
use py_core::SrcText;
use py_tree::Alias;
use py_values::value::Value;
use seq::OutOfMemory;
use std::rc::Rc;

/// Goes on with an `import` behind the module of a beginning of its dotted name.
fn take_import(
    m: &mut Machine,
    dotted: Rc<Vec<SrcText>>,
    from: usize,
    name: SrcText,
    end: End,
) -> Result<TurnEnd, OutOfMemory>
    ensures next { IfOk result (λ t. Follows t m.new m.old.left (on_module (ModuleFrame.Import dotted from name) (site_now m.old) (outcome end (state_of m.old)) (machine_rest m.old))) }
    ensures work { IfOk result (λ t. Falls t m.new m.old.left (1 + stack_work m.old)) }
{
    match end {
        End::Value(v) => import_behind(m, dotted, from, Some(v), name),
        End::Next => Ok(TurnEnd::Go(NextAction::Back(End::Next))),
        End::Returned(v) => Ok(TurnEnd::Go(NextAction::Back(End::Returned(v)))),
        End::Broke => Ok(TurnEnd::Go(NextAction::Back(End::Broke))),
        End::Continued => Ok(TurnEnd::Go(NextAction::Back(End::Continued))),
        End::Raised(e, trace) => Ok(TurnEnd::Go(NextAction::Back(End::Raised(e, trace)))),
    }
}

/// Goes on with a `from` .. `import` behind the module of a beginning of its dotted name.
fn take_from(
    m: &mut Machine,
    dotted: Rc<Vec<SrcText>>,
    from: usize,
    all: Rc<Vec<Alias>>,
    end: End,
) -> Result<TurnEnd, OutOfMemory>
    ensures next { IfOk result (λ t. Follows t m.new m.old.left (on_module (ModuleFrame.From dotted from all) (site_now m.old) (outcome end (state_of m.old)) (machine_rest m.old))) }
    ensures work { IfOk result (λ t. Falls t m.new m.old.left (1 + stack_work m.old)) }
{
    match end {
        End::Value(v) => from_behind(m, dotted, from, Some(v), all),
        End::Next => Ok(TurnEnd::Go(NextAction::Back(End::Next))),
        End::Returned(v) => Ok(TurnEnd::Go(NextAction::Back(End::Returned(v)))),
        End::Broke => Ok(TurnEnd::Go(NextAction::Back(End::Broke))),
        End::Continued => Ok(TurnEnd::Go(NextAction::Back(End::Continued))),
        End::Raised(e, trace) => Ok(TurnEnd::Go(NextAction::Back(End::Raised(e, trace)))),
    }
}

/// Goes on with a name that is none of a module's own, behind the module of a beginning of its dotted name.
fn take_each(
    m: &mut Machine,
    found: Option<Value>,
    dotted: Rc<Vec<SrcText>>,
    all: Rc<Vec<Alias>>,
    at: usize,
    from: usize,
    end: End,
) -> Result<TurnEnd, OutOfMemory>
    ensures next { IfOk result (λ t. Follows t m.new m.old.left (on_module (ModuleFrame.Each found dotted all at from) (site_now m.old) (outcome end (state_of m.old)) (machine_rest m.old))) }
    ensures work { IfOk result (λ t. Falls t m.new m.old.left (1 + stack_work m.old)) }
{
    match end {
        End::Value(v) => each_behind(m, found, dotted, all, at, from, v),
        End::Next => Ok(TurnEnd::Go(NextAction::Back(End::Next))),
        End::Returned(v) => Ok(TurnEnd::Go(NextAction::Back(End::Returned(v)))),
        End::Broke => Ok(TurnEnd::Go(NextAction::Back(End::Broke))),
        End::Continued => Ok(TurnEnd::Go(NextAction::Back(End::Continued))),
        End::Raised(e, trace) => Ok(TurnEnd::Go(NextAction::Back(End::Raised(e, trace)))),
    }
}

/// Goes on behind the end of a module's load.
pub fn take_module(m: &mut Machine, frame: ModuleFrame, end: End) -> Result<TurnEnd, OutOfMemory>
    ensures next { IfOk result (λ t. Follows t m.new m.old.left (on_module frame (site_now m.old) (outcome end (state_of m.old)) (machine_rest m.old))) }
    ensures work { IfOk result (λ t. Falls t m.new m.old.left (1 + stack_work m.old)) }
{
    match frame {
        ModuleFrame::Load(path, at) => Ok(TurnEnd::Go(take_load(m, path, at, end)?)),
        ModuleFrame::Import(dotted, from, name) => take_import(m, dotted, from, name, end),
        ModuleFrame::From(dotted, from, all) => take_from(m, dotted, from, all, end),
        ModuleFrame::Each(found, dotted, all, at, from) => {
            take_each(m, found, dotted, all, at, from, end)
        }
    }
}
