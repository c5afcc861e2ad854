// The load of a file.

ghost use Rattle.std.specs.Prelude.{◌≡◌, IfOk, IfSome, IsSome, chars};
ghost use Rattle.py_world.specs.Runs.{source_at};
ghost use Rattle.assert_rewrite.specs.source_meaning.Meaning.{source_module};
ghost use Rattle.py_load.specs.Loading.{after_run, end_told, load_of, run_end};

use crate::error::{LoadError, fault_error};
use py_machine::{ModuleId, World, fault, run_module};
use py_values::value::Value;
use py_world::Outcome;
use seq::OutOfMemory;

fn end_of(out: Outcome) -> Result<Value, LoadError>
    ensures { result ≡ run_end out }
{
    match out {
        Outcome::Value(v) => Ok(v),
        Outcome::Raised(thrown) => Err(LoadError::Raised(thrown)),
        Outcome::Exhausted(trace) => Err(LoadError::Exhausted(trace)),
    }
}

fn run(world: &mut World, path: &str, budget: u64) -> Result<Result<Value, LoadError>, OutOfMemory>
    ensures { IfOk result (λ end. (end, world.new) ≡ after_run (source_module (chars path.now) budget world.old)) }
{
    let ended = run_module(world, path, budget)?;
    Ok(end_of(ended.out))
}

/// Loads a source: its module, or why there is none.
pub fn load(
    world: &mut World,
    path: &str,
    budget: u64,
) -> Result<Result<Value, LoadError>, OutOfMemory>
    ensures { IfOk result (λ end. (end, world.new) ≡ load_of (chars path.now) budget world.old) }
{
    match fault(world, path) {
        Some(fault) => Ok(Err(fault_error(fault))),
        None => run(world, path, budget),
    }
}

/// The place of the object that a module is.
fn place_of(v: Value) -> Result<ModuleId, LoadError>
    ensures { IfSome (end_told result) (λ end. end ≡ Module v) }
{
    match v {
        Value::Ref(id) => Ok(id),
        Value::None | Value::Bool(_) | Value::Int(_) => Err(LoadError::OutOfMemory),
    }
}

ghost use Rattle.std.specs.Prelude.{Ok as Module};

/// Loads a source within a budget of steps, as one activity: a source that has a fault is told by it, and another is executed, at
/// most once per world.
pub fn load_module(world: &mut World, path: &str, budget: u64) -> Result<ModuleId, LoadError>
    requires { IsSome (source_at (chars path.now) world.old.sources) }
    ensures { IfSome (end_told result) (λ end. (end, world.new) ≡ load_of (chars path.now) budget world.old) }
{
    match load(world, path, budget)? {
        Ok(v) => place_of(v),
        Err(error) => Err(error),
    }
}
