// Laws of the definitions.

ghost use Rattle.std.specs.Prelude.{◌≡◌, List, ℕ, Ok, Err, Some};
ghost use Rattle.edge_io.specs.Files.{File};
ghost use Rattle.py_values.specs.declared.value.ObjId.{ObjId};
ghost use Rattle.py_values.specs.declared.value.Value.{Value};
ghost use Rattle.py_values.specs.declared.value.Value.TheVariants.{Ref};
ghost use Rattle.py_world.specs.declared.load.Load.TheVariants.{Loaded, Failed};
ghost use Rattle.py_world.specs.declared.trace.TraceFrame.{TraceFrame};
ghost use Rattle.py_world.specs.Runs.{load_at};
ghost use Rattle.assert_rewrite.specs.source_meaning.Meaning.{SourceWorld};
ghost use Rattle.py_load.specs.Loading.{load_of, after_run};
ghost use Rattle.py_load.specs.Reading.{AreRead, ReadFile};

use file_source::{has_source, one_source};

/// A law: files are read in one way.
pub fn one_reading()
    ensures { (files : List File) (a b : List ReadFile) → AreRead files a → AreRead files b → a ≡ b }
{
    one_source();
}

/// A law: they are read.
pub fn has_reading()
    ensures { (files : List File) → (reads : List ReadFile) × AreRead files reads }
{
    has_source();
}

/// A law: what was loaded is not executed again.
pub fn loaded_once()
    ensures loaded { (path : List ℕ) (budget : ℕ) (w : SourceWorld) (id : ObjId) → load_at path w.modules ≡ Some (Loaded id) → source_module path budget w ≡ ended_value (Ref id) 0 w }
    ensures failed { (path : List ℕ) (budget : ℕ) (w : SourceWorld) (exc : Value) (trace : List TraceFrame) → load_at path w.modules ≡ Some (Failed exc trace) → source_module path budget w ≡ ended_raised exc trace 0 w }
{}

ghost use Rattle.assert_rewrite.specs.source_meaning.Meaning.{source_module};
ghost use Rattle.py_world.specs.Runs.{ended_value, ended_raised};
