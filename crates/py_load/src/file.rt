// A file that is loaded, and what it printed.

ghost use Rattle.std.specs.Prelude.{◌≡◌, IfOk};
ghost use Rattle.py_load.specs.InTurn.{file_load, file_told};

use crate::error::LoadError;
use crate::load::load;
use py_machine::{World, take_printed};
use py_values::value::Value;
use seq::OutOfMemory;

/// What is known of a file behind its load.
#[derive(Drop)]
pub struct LoadedFile {
    /// Its module's object, or why there is none.
    pub end: Result<Value, LoadError>,
    /// The text that was printed meanwhile, also by what it imported first.
    pub printed: Vec<u8>,
}

/// Loads a file within a step limit, as one activity, and takes what was printed.
pub fn load_file(world: &mut World, path: &str, limit: u64) -> Result<LoadedFile, OutOfMemory>
    ensures { IfOk result (λ file. (file_told file, world.new) ≡ file_load limit path.now world.old) }
{
    let end = load(world, path, limit)?;
    let printed = take_printed(world);
    Ok(LoadedFile { end, printed })
}
