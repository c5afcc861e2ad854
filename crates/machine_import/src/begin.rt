// Imports begin, and go on behind the modules that are there (Language Reference, the import statement).

ghost use Rattle.std.specs.Prelude.{◌≡◌, ◌+◌, [], IfOk, drop};
ghost use Rattle.machine_state.specs.py_world.Imports as imports;
ghost use Rattle.machine_state.specs.core_meaning.Statements.{core_body};
ghost use Rattle.machine_state.specs.Frames.{machine_rest, site_now, state_of, todo, Follows};
ghost use Rattle.machine_state.specs.Work.{doing_work, stack_work, Falls};

use crate::each::import_rest;
use crate::faults::no_module;
use crate::walk::{ImportStep, reach, wait};
use machine_state::frame::ModuleFrame;
use machine_state::machine::{Machine, NextAction, Origin, TurnEnd};
use machine_turns::names::store;
use py_core::SrcText;
use py_tree::Alias;
use py_values::value::Value;
use seq::OutOfMemory;
use std::alloc::Global;
use std::rc::Rc;

/// The name that an import binds.
fn import_name(
    alloc: Global,
    dotted: &[SrcText],
    alias: &Option<SrcText>,
) -> Result<SrcText, OutOfMemory>
    ensures { IfOk result (λ name. name ≡ imports.import_name dotted.now alias.now) }
{
    match alias {
        Some(alias) => SrcText::from_chars(alloc, alias.chars()),
        None => match dotted {
            [first, ..] => SrcText::from_chars(alloc, first.chars()),
            [] => SrcText::from_chars(alloc, &[]),
        },
    }
}

/// Ends an import: the module is bound to the name, where it is one.
fn end_import(
    m: &mut Machine,
    found: Option<Value>,
    dotted: &[SrcText],
    name: &SrcText,
) -> Result<NextAction, OutOfMemory>
    ensures next { IfOk result (λ d. todo d m.new ≡ machine_rest m.old (imports.import_end found dotted.now name.now (site_now m.old) (state_of m.old))) }
    ensures left { m.new.left ≡ m.old.left }
    ensures work { IfOk result (λ d. doing_work d ≡ 0) }
    ensures stack { m.new.stack ≡ m.old.stack }
{
    match found {
        Some(v) => store(m, name, v),
        None => {
            let raise = no_module(m.alloc, dotted)?;
            m.raise(raise, Origin::Code)
        }
    }
}

/// Imports a module, whose dotted name's beginnings from a place on are still to be looked for.
pub fn import_behind(
    m: &mut Machine,
    dotted: Rc<Vec<SrcText>>,
    from: usize,
    last: Option<Value>,
    name: SrcText,
) -> Result<TurnEnd, OutOfMemory>
    ensures next { IfOk result (λ t. Follows t m.new m.old.left (imports.modules_at core_body (drop from (imports.prefixes_behind [] dotted.value.items)) last (site_now m.old) (state_of m.old) (machine_rest m.old)
        (λ v s. machine_rest m.old (imports.import_end v dotted.value.items name (site_now m.old) s)))) }
    ensures left { m.new.left ≡ m.old.left }
    ensures work { IfOk result (λ t. Falls t m.new m.old.left (1 + stack_work m.old)) }
{
    let reached = reach(m, &dotted, from, last)?;
    match reached {
        ImportStep::Module(found) => Ok(TurnEnd::Go(end_import(m, found, &dotted, &name)?)),
        ImportStep::Load(next) => {
            let frame = ModuleFrame::Import(dotted, next.looked, name);
            wait(m, frame, next.path)
        }
    }
}

/// Imports names from a module, whose dotted name's beginnings from a place on are still to be looked for.
pub fn from_behind(
    m: &mut Machine,
    dotted: Rc<Vec<SrcText>>,
    from: usize,
    last: Option<Value>,
    all: Rc<Vec<Alias>>,
) -> Result<TurnEnd, OutOfMemory>
    ensures next { IfOk result (λ t. Follows t m.new m.old.left (imports.modules_at core_body (drop from (imports.prefixes_behind [] dotted.value.items)) last (site_now m.old) (state_of m.old) (machine_rest m.old)
        (λ v s. imports.import_each core_body v dotted.value.items all.value.items (site_now m.old) s (machine_rest m.old)))) }
    ensures left { m.new.left ≡ m.old.left }
    ensures work { IfOk result (λ t. Falls t m.new m.old.left (1 + stack_work m.old)) }
{
    let reached = reach(m, &dotted, from, last)?;
    match reached {
        ImportStep::Module(found) => import_rest(m, found, dotted, all, 0),
        ImportStep::Load(next) => {
            let frame = ModuleFrame::From(dotted, next.looked, all);
            wait(m, frame, next.path)
        }
    }
}

/// Begins an `import`.
pub fn begin_import(
    m: &mut Machine,
    dotted: &Rc<Vec<SrcText>>,
    alias: &Option<SrcText>,
) -> Result<TurnEnd, OutOfMemory>
    ensures next { IfOk result (λ t. Follows t m.new m.old.left (imports.import_statement core_body dotted.now.value.items alias.now (site_now m.old) (state_of m.old) (machine_rest m.old))) }
    ensures left { m.new.left ≡ m.old.left }
{
    let name = import_name(m.alloc, dotted, alias)?;
    import_behind(m, dotted.clone()?, 0, None, name)
}

/// Begins a `from` .. `import`.
pub fn begin_import_from(
    m: &mut Machine,
    dotted: &Rc<Vec<SrcText>>,
    all: &Rc<Vec<Alias>>,
) -> Result<TurnEnd, OutOfMemory>
    ensures next { IfOk result (λ t. Follows t m.new m.old.left (imports.import_from core_body dotted.now.value.items all.now.value.items (site_now m.old) (state_of m.old) (machine_rest m.old))) }
    ensures left { m.new.left ≡ m.old.left }
{
    from_behind(m, dotted.clone()?, 0, None, all.clone()?)
}
