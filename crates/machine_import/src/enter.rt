// The loads of modules in mid-run (Language Reference, the import system).

ghost use Rattle.std.specs.Prelude.{◌≡◌, List, ℕ, Some, IfOk};
ghost use Rattle.machine_state.specs.py_world.Imports as imports;
ghost use Rattle.machine_state.specs.py_world.Outcome.{Denotation};
ghost use Rattle.machine_state.specs.py_world.Runs as runs;
ghost use Rattle.machine_state.specs.core_meaning.Requests.{core_kinds};
ghost use Rattle.machine_state.specs.core_meaning.Statements.{core_body};
ghost use Rattle.machine_state.specs.Frames.{machine_rest, site_now, state_of, todo};
ghost use Rattle.machine_import.specs.Codes.{IsCodeOf};

use crate::faults::{no_source, source_error};
use machine_load::Load;
use machine_load::begin::begin_by_code;
use machine_state::frame::End;
use machine_state::machine::{Machine, NextAction, Origin};
use machine_state::source::SourceCode;
use machine_state::sources::SourceTable;
use machine_state::traces::copy_trace;
use py_core::CoreBlock;
use py_source::SourceFault;
use py_values::throw::throw;
use py_values::value::Value;
use seq::{OutOfMemory, PyText};
use std::rc::Rc;

/// What a module that is known gives: itself, or what its load has raised.
fn known(m: &Machine, load: &Load) -> Result<NextAction, OutOfMemory>
    ensures { IfOk result (λ d. (path : List ℕ) → (missing : Denotation core_kinds) → todo d m.now ≡ runs.load_by core_body (Some load.now) path missing (site_now m.now) (state_of m.now) (machine_rest m.now)) }
{
    match load {
        Load::Running(id) => Ok(NextAction::Back(End::Value(Value::Ref(*id)))),
        Load::Loaded(id) => Ok(NextAction::Back(End::Value(Value::Ref(*id)))),
        Load::Failed(exc, trace) => {
            let exc = *exc;
            let trace = copy_trace(m.alloc, trace)?;
            Ok(NextAction::Back(End::Raised(exc, trace)))
        }
    }
}

/// The code of the source of a path.
fn code_of(sources: &SourceTable, path: &PyText) -> Result<Option<Rc<CoreBlock>>, OutOfMemory>
    ensures { IfOk result (λ b. IsCodeOf b (runs.coded (runs.source_at path.now sources.now))) }
{
    let Some(source) = sources.find(path) else {
        return Ok(None);
    };
    match source.code() {
        SourceCode::Code(core) => {
            let body = core.body.clone()?;
            Ok(Some(body))
        }
        SourceCode::Fault(_) => Ok(None),
    }
}

/// The fault of the source of a path.
fn fault_of(sources: &SourceTable, path: &PyText) -> Option<SourceFault>
    ensures { result ≡ imports.fault_in (runs.source_at path.now sources.now) }
{
    match sources.find(path)?.code() {
        SourceCode::Code(_) => None,
        SourceCode::Fault(fault) => Some(*fault),
    }
}

/// Fails the load of a source with a fault.
fn fail_load(m: &mut Machine, path: PyText, fault: SourceFault) -> Result<NextAction, OutOfMemory>
    ensures next { IfOk result (λ d. todo d m.new ≡ machine_rest m.old (imports.faulty_by (Some fault) path (site_now m.old) (state_of m.old))) }
    ensures left { m.new.left ≡ m.old.left }
{
    let raise = source_error(m.alloc, &path, fault)?;
    let trace = m.trace(Origin::Code)?;
    let kept = copy_trace(m.alloc, &trace)?;
    let exc = throw(m.alloc, &mut m.heap, raise)?;
    m.modules.put(path, Load::Failed(exc, kept))?;
    Ok(NextAction::Back(End::Raised(exc, trace)))
}

/// A path without code is not executed.
fn refuse_load(m: &mut Machine, path: PyText) -> Result<NextAction, OutOfMemory>
    ensures next { IfOk result (λ d. todo d m.new ≡ imports.faulty path (site_now m.old) (state_of m.old) (machine_rest m.old)) }
    ensures left { m.new.left ≡ m.old.left }
{
    match fault_of(&m.sources, &path) {
        Some(fault) => fail_load(m, path, fault),
        None => {
            let raise = no_source(m.alloc, &path)?;
            m.raise(raise, Origin::Code)
        }
    }
}

/// Loads the module of a path, which is executed once.
pub fn enter_load(m: &mut Machine, path: PyText) -> Result<NextAction, OutOfMemory>
    ensures next { IfOk result (λ d. todo d m.new ≡ runs.load_part core_body path (imports.faulty path) (site_now m.old) (state_of m.old) (machine_rest m.old)) }
    ensures left { m.new.left ≡ m.old.left }
{
    if let Some(load) = m.modules.find(&path) {
        return known(m, load);
    }
    match code_of(&m.sources, &path)? {
        Some(body) => begin_by_code(m, path, body),
        None => refuse_load(m, path),
    }
}
