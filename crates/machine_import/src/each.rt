// Names are imported from a module, one after another (Language Reference, the import statement).

ghost use Rattle.std.specs.Prelude.{◌≡◌, ◌+◌, ◌<◌, ◌++◌, ◌∷◌, [], List, IfOk, drop, length};
ghost use Rattle.py_tree.specs.declared.stmt.Alias.{Alias};
ghost use Rattle.machine_state.specs.py_world.Imports as imports;
ghost use Rattle.machine_state.specs.core_meaning.Statements.{core_body};
ghost use Rattle.machine_state.specs.Definings.{each_behind};
ghost use Rattle.machine_state.specs.Frames.{machine_rest, site_now, state_of, Follows};
ghost use Rattle.machine_state.specs.Work.{stack_work, Falls};
ghost use Rattle.machine_import.specs.Names.{not_there, named_behind, submodule_behind, Imported, LessToDo};

use crate::faults::{no_module, not_imported};
use crate::paths::is_pytest;
use crate::walk::{ImportStep, reach, wait};
use machine_state::frame::{End, ModuleFrame};
use machine_state::machine::{Machine, NextAction, Origin, TurnEnd};
use machine_turns::names::bind;
use py_attributes::names::own_value;
use py_core::SrcText;
use py_tree::Alias;
use py_values::end::Raise;
use py_values::names::Name;
use py_values::value::Value;
use seq::OutOfMemory;
use std::alloc::Global;
use std::rc::Rc;

/// The name to which an imported name is bound.
fn bound_name(alias: &Alias) -> &SrcText
    ensures { result.now ≡ imports.alias_name alias.now }
{
    match &alias.alias {
        Some(name) => name,
        None => &alias.name,
    }
}

/// The value of a name of a module.
fn own_name(m: &Machine, found: Option<Value>, name: &SrcText) -> Result<Option<Value>, OutOfMemory>
    ensures { IfOk result (λ v. v ≡ imports.name_of_module m.now.heap name.now found) }
{
    match found {
        Some(module) => {
            let key = Name::from_chars(m.alloc, name.chars())?;
            Ok(own_value(&m.heap, module, &key))
        }
        None => Ok(None),
    }
}

/// A dotted name with a name behind it.
fn submodule(alloc: Global, dotted: &[SrcText], name: &SrcText) -> Result<Vec<SrcText>, OutOfMemory>
    ensures { IfOk result (λ d. d.items ≡ dotted.now ++ name.now ∷ []) }
{
    let mut all = Vec::new(alloc);
    for part in dotted {
        all.push(part.clone()?)?;
    }
    all.push(name.clone()?)?;
    Ok(all)
}

/// What is raised for a name that is neither a module's own nor a module in it.
fn missing(
    alloc: Global,
    found: Option<Value>,
    dotted: &[SrcText],
    name: &SrcText,
) -> Result<Raise, OutOfMemory>
    ensures { IfOk result (λ r. r ≡ not_there found dotted.now name.now) }
{
    match found {
        Some(_) => not_imported(alloc, name),
        None => no_module(alloc, dotted),
    }
}

/// Binds the module of a name in another, where it is one.
fn bind_submodule(
    m: &mut Machine,
    found: Option<Value>,
    dotted: &[SrcText],
    alias: &Alias,
    inner: Option<Value>,
) -> Result<Option<TurnEnd>, OutOfMemory>
    ensures next { IfOk result (λ t. (rest : List Alias) → Imported t m.old m.new (submodule_behind found dotted.now alias.now rest inner (site_now m.old) (state_of m.old) (machine_rest m.old)) found dotted.now rest) }
    ensures left { m.new.left ≡ m.old.left }
    ensures work { IfOk result (λ t. LessToDo t m.old m.new) }
{
    match inner {
        Some(v) => {
            bind(m, bound_name(alias), v)?;
            Ok(None)
        }
        None => {
            let raise = missing(m.alloc, found, dotted, &alias.name)?;
            Ok(Some(TurnEnd::Go(m.raise(raise, Origin::Code)?)))
        }
    }
}

/// Imports a name that is none of a module's own: the module of that name in it, whose dotted name's beginnings from a place on are still
/// to be looked for.
fn import_submodule(
    m: &mut Machine,
    found: Option<Value>,
    dotted: &Rc<Vec<SrcText>>,
    all: &Rc<Vec<Alias>>,
    at: usize,
    from: usize,
    last: Option<Value>,
) -> Result<Option<TurnEnd>, OutOfMemory>
    requires { at < length all.now.value.items }
    ensures next { IfOk result (λ t. Imported t m.old m.new (named_behind found dotted.now.value.items (drop at all.now.value.items) from last (site_now m.old) (state_of m.old) (machine_rest m.old)) found dotted.now.value.items (drop (at + 1) all.now.value.items)) }
    ensures left { m.new.left ≡ m.old.left }
    ensures work { IfOk result (λ t. LessToDo t m.old m.new) }
{
    let alias = &all[at];
    let name = submodule(m.alloc, dotted, &alias.name)?;
    let reached = reach(m, &name, from, last)?;
    match reached {
        ImportStep::Module(inner) => bind_submodule(m, found, dotted, alias, inner),
        ImportStep::Load(next) => {
            let dotted = dotted.clone()?;
            let all = all.clone()?;
            let frame = ModuleFrame::Each(found, dotted, all, at, next.looked);
            Ok(Some(wait(m, frame, next.path)?))
        }
    }
}

/// Refuses to import a name that the built-in module does not have.
fn refuse_name(m: &mut Machine, alias: &Alias) -> Result<NextAction, OutOfMemory>
    ensures next { IfOk result (λ d. todo d m.new ≡ machine_rest m.old (raised_at (imports.not_imported alias.now.name) (site_now m.old) (state_of m.old))) }
    ensures left { m.new.left ≡ m.old.left }
    ensures work { IfOk result (λ d. doing_work d ≡ 0) }
    ensures stack { m.new.stack ≡ m.old.stack }
{
    let raise = not_imported(m.alloc, &alias.name)?;
    m.raise(raise, Origin::Code)
}

ghost use Rattle.machine_state.specs.py_world.Outcome.{raised_at};
ghost use Rattle.machine_state.specs.Frames.{todo};
ghost use Rattle.machine_state.specs.Work.{doing_work};

/// Imports the name at a place.
fn import_one(
    m: &mut Machine,
    found: Option<Value>,
    dotted: &Rc<Vec<SrcText>>,
    all: &Rc<Vec<Alias>>,
    at: usize,
) -> Result<Option<TurnEnd>, OutOfMemory>
    requires { at < length all.now.value.items }
    ensures next { IfOk result (λ t. Imported t m.old m.new (imports.import_each core_body found dotted.now.value.items (drop at all.now.value.items) (site_now m.old) (state_of m.old) (machine_rest m.old)) found dotted.now.value.items (drop (at + 1) all.now.value.items)) }
    ensures left { m.new.left ≡ m.old.left }
    ensures work { IfOk result (λ t. LessToDo t m.old m.new) }
{
    let alias = &all[at];
    match own_name(m, found, &alias.name)? {
        Some(v) => {
            bind(m, bound_name(alias), v)?;
            Ok(None)
        }
        None => {
            if is_pytest(dotted) {
                return Ok(Some(TurnEnd::Go(refuse_name(m, alias)?)));
            }
            import_submodule(m, found, dotted, all, at, 0, None)
        }
    }
}

/// Imports the names from a place on.
pub fn import_rest(
    m: &mut Machine,
    found: Option<Value>,
    dotted: Rc<Vec<SrcText>>,
    all: Rc<Vec<Alias>>,
    from: usize,
) -> Result<TurnEnd, OutOfMemory>
    ensures next { IfOk result (λ t. Follows t m.new m.old.left (imports.import_each core_body found dotted.value.items (drop from all.value.items) (site_now m.old) (state_of m.old) (machine_rest m.old))) }
    ensures left { m.new.left ≡ m.old.left }
    ensures work { IfOk result (λ t. Falls t m.new m.old.left (1 + stack_work m.old)) }
{
    for at in from..all.len() {
        if let Some(turned) = import_one(m, found, &dotted, &all, at)? {
            return Ok(turned);
        }
    }
    Ok(TurnEnd::Go(NextAction::Back(End::Next)))
}

/// Goes on behind the load of a beginning of the dotted name of a module in another.
pub fn each_behind(
    m: &mut Machine,
    found: Option<Value>,
    dotted: Rc<Vec<SrcText>>,
    all: Rc<Vec<Alias>>,
    at: usize,
    from: usize,
    v: Value,
) -> Result<TurnEnd, OutOfMemory>
    ensures next { IfOk result (λ t. Follows t m.new m.old.left (each_behind found dotted.value.items (drop at all.value.items) from (site_now m.old) v (state_of m.old) (machine_rest m.old))) }
    ensures work { IfOk result (λ t. Falls t m.new m.old.left (1 + stack_work m.old)) }
{
    if at >= all.len() {
        return Ok(TurnEnd::Go(NextAction::Back(End::Next)));
    }
    match import_submodule(m, found, &dotted, &all, at, from, Some(v))? {
        Some(turned) => Ok(turned),
        None => import_rest(m, found, dotted, all, at + 1),
    }
}
