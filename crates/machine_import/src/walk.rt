// The dotted names that a dotted name begins with, one after another.

ghost use Rattle.std.specs.Prelude.{◌≡◌, ℕ, [], IfOk, drop};
ghost use Rattle.machine_state.specs.py_world.Imports.{faulty, source_paths, prefixes_behind};
ghost use Rattle.machine_state.specs.py_world.Runs.{load_part};
ghost use Rattle.machine_state.specs.core_meaning.Statements.{core_body};
ghost use Rattle.machine_state.specs.Definings.{on_module};
ghost use Rattle.machine_state.specs.Frames.{machine_rest, site_now, state_of, Follows};
ghost use Rattle.machine_state.specs.Places.{path_in};
ghost use Rattle.machine_state.specs.Work.{Falls};
ghost use Rattle.machine_import.specs.Walks.{built_in, found_from, last_value, source_path, Reaches};

use crate::paths::{import_path, is_pytest};
use machine_state::frame::{Frame, ModuleFrame};
use machine_state::machine::{Entry, Machine, TurnEnd};
use py_core::SrcText;
use py_kinds::builtins::pytest_module;
use py_values::value::Value;
use seq::{OutOfMemory, PyText};

/// A module that is loaded next: its path, and how many beginnings of the dotted name are looked for with it.
#[derive(Drop)]
pub struct NextModule {
    pub path: PyText,
    pub looked: usize,
}

/// The path of the source of a dotted name; the built-in module has none.
fn source_path(m: &Machine, dotted: &[SrcText]) -> Result<Option<PyText>, OutOfMemory>
    ensures { IfOk result (λ path. path ≡ source_path (source_paths m.now.sources) (path_in m.now.here.place) dotted.now) }
{
    if is_pytest(dotted) {
        return Ok(None);
    }
    import_path(m, dotted)
}

/// The first beginning of a dotted name, from a place on, of which there is a source.
#[tactic(auto, using(crate::proofs::Walking::found_here, crate::proofs::Walking::found_on, crate::proofs::Walking::found_none))]
fn next_found(
    m: &Machine,
    dotted: &[SrcText],
    from: usize,
) -> Result<Option<NextModule>, OutOfMemory>
    ensures { IfOk result (λ f. f ≡ found_from (source_paths m.now.sources) (path_in m.now.here.place) from (drop from (prefixes_behind [] dotted.now))) }
{
    for at in from..dotted.len() {
        if let Some(path) = source_path(m, &dotted[..at + 1])? {
            return Ok(Some(NextModule {
                path,
                looked: at + 1,
            }));
        }
    }
    Ok(None)
}

/// What the beginnings of a dotted name lead to.
#[derive(Drop)]
pub enum ImportStep {
    /// All are looked for; the module of the whole one, where it is one.
    Module(Option<Value>),
    /// This one is loaded next.
    Load(NextModule),
}

/// The built-in module, where a dotted name is its.
fn built_in(dotted: &[SrcText]) -> Option<Value>
    ensures { result ≡ built_in (is_its dotted.now) }
{
    if is_pytest(dotted) {
        Some(Value::Ref(pytest_module()))
    } else {
        None
    }
}

ghost use Rattle.machine_state.specs.py_world.Imports.{is_pytest as is_its};

/// The module of the whole dotted name where no beginning of it from a place on has a source.
fn last_value(dotted: &[SrcText], from: usize, last: Option<Value>) -> Option<Value>
    ensures { result ≡ last_value (drop from (prefixes_behind [] dotted.now)) last }
{
    if from < dotted.len() {
        built_in(dotted)
    } else {
        last
    }
}

/// Looks for the beginnings of a dotted name from a place on, behind the module of the one before.
pub fn reach(
    m: &Machine,
    dotted: &[SrcText],
    from: usize,
    last: Option<Value>,
) -> Result<ImportStep, OutOfMemory>
    ensures { IfOk result (λ r. Reaches r dotted.now from last m.now) }
{
    match next_found(m, dotted, from)? {
        Some(found) => Ok(ImportStep::Load(found)),
        None => Ok(ImportStep::Module(last_value(dotted, from, last))),
    }
}

/// Loads a module, behind whose end this frame goes on.
#[tactic(auto, using(crate::proofs::Waiting::load_waits))]
pub fn wait(m: &mut Machine, frame: ModuleFrame, path: PyText) -> Result<TurnEnd, OutOfMemory>
    ensures next { IfOk result (λ t. Follows t m.new m.old.left (load_part core_body path (faulty path) (site_now m.old) (state_of m.old) (λ o. on_module frame (site_now m.old) o (machine_rest m.old)))) }
    ensures left { m.new.left ≡ m.old.left }
    ensures work { IfOk result (λ t. (work : ℕ) → Falls t m.new m.old.left work) }
{
    m.stack.push(Frame::Module(frame))?;
    Ok(TurnEnd::Enter(Entry::Load(path)))
}
