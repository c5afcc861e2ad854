// The loads of test files.

ghost use Rattle.std.specs.Prelude.{◌≡◌, IfOk, IfSome, OnOk, chars};
ghost use Rattle.collect_tree.specs.Loads as loads;

use collect_words::Walk;
use collection_nodes::{TestFile, path_text};
use fixture_world::{World, exception_text, fault_text, heap, limit_text, told};
use py_load::{LoadError, LoadedFile, load_file};
use py_source::SourceFault;
use py_world::{Trace, TraceFrame};
use report_parts::{CollectReport, OutOfMemory, Text, Told};
use seq::PyText;
use std::alloc::Global;

/// A source's fault, at its place in the module.
fn fault_here(
    alloc: Global,
    world: &World,
    path: &str,
    fault: SourceFault,
) -> Result<Told, OutOfMemory>
    ensures { IfOk result (λ t. t ≡ loads.fault_here path.now fault world.now) }
{
    let mut frames = Vec::new(alloc);
    frames.push(TraceFrame {
        path: PyText::from_str(alloc, path)?,
        line: fault.line(),
        name: PyText::from_chars(alloc, &['<', 'm', 'o', 'd', 'u', 'l', 'e', '>'])?,
    })?;
    told(
        alloc,
        world,
        &Trace::from_vec(frames),
        fault_text(alloc, fault)?,
    )
}

/// What is told of a load that gave no module.
pub fn load_told(
    alloc: Global,
    world: &World,
    limit: u64,
    path: &str,
    error: &LoadError,
) -> Result<Told, OutOfMemory>
    ensures { IfOk result (λ t. t ≡ loads.load_told limit path.now error.now world.now) }
{
    match error {
        LoadError::Syntax(at, kind) => {
            fault_here(alloc, world, path, SourceFault::Syntax(*at, *kind))
        }
        LoadError::NotUtf8(line) => fault_here(alloc, world, path, SourceFault::NotUtf8(*line)),
        LoadError::Raised(thrown) => {
            let text = exception_text(alloc, heap(world), thrown.exc)?;
            told(alloc, world, &thrown.trace, text)
        }
        LoadError::Exhausted(trace) => told(alloc, world, trace, limit_text(alloc, limit)?),
        LoadError::OutOfMemory => Err(OutOfMemory),
    }
}

/// The error of collection that a failed load is.
fn collect_error(
    alloc: Global,
    world: &World,
    limit: u64,
    path: &str,
    error: &LoadError,
    printed: &[u8],
) -> Result<CollectReport, OutOfMemory>
    ensures { IfOk result (λ r. r ≡ loads.collect_error limit path.now error.now printed.now world.now) }
{
    let told = load_told(alloc, world, limit, path, error)?;
    Ok(CollectReport {
        file: Text::from_str(alloc, path)?,
        told,
        captured: Text::from_string(String::from_utf8_lossy(alloc, printed)?),
    })
}

/// How the load of a test file has ended.
#[derive(Drop)]
pub struct LoadEnd {
    /// The error that it is, where it has failed.
    pub error: Option<CollectReport>,
    /// What was printed in it.
    pub captured: Text,
}

/// Test files that were loaded.
#[derive(Drop)]
pub struct LoadedTests {
    pub files: Vec<TestFile>,
    /// How the load of each has ended.
    pub ends: Vec<LoadEnd>,
}

fn load_end(
    alloc: Global,
    error: Option<CollectReport>,
    printed: &[u8],
) -> Result<LoadEnd, OutOfMemory>
    ensures { IfOk result (λ end. end ≡ loads.load_end error printed.now) }
{
    let captured = String::from_utf8_lossy(alloc, printed)?;
    Ok(LoadEnd {
        error,
        captured: Text::from_string(captured),
    })
}

fn push_loaded(
    loaded: &mut LoadedTests,
    place: usize,
    object: Option<Value>,
    end: LoadEnd,
) -> Result<(), OutOfMemory>
    ensures files { OnOk result (loaded.new.files.items ≡ loaded.old.files.items ++ loads.test_file place object ∷ []) }
    ensures ends { OnOk result (loaded.new.ends.items ≡ loaded.old.ends.items ++ end ∷ []) }
{
    loaded.ends.push(end)?;
    loaded.files.push(TestFile { place, object })?;
    Ok(())
}

ghost use Rattle.std.specs.Prelude.{◌++◌, ◌∷◌, [], Some, None};

use py_values::value::Value;

/// Puts a file behind the others, with how its load has ended in this world.
fn push_end(
    alloc: Global,
    world: &World,
    limit: u64,
    path: &str,
    place: usize,
    file: &LoadedFile,
    loaded: &mut LoadedTests,
) -> Result<(), OutOfMemory>
    ensures { OnOk result (LoadsOne loaded.old loaded.new (loads.ended_before limit path.now place (file_told file.now) world.now)) }
{
    match &file.end {
        Ok(v) => {
            let end = load_end(alloc, None, &file.printed)?;
            push_loaded(loaded, place, Some(*v), end)?;
            Ok(())
        }
        Err(error) => {
            let report = collect_error(alloc, world, limit, path, error, &file.printed)?;
            let end = load_end(alloc, Some(report), &file.printed)?;
            push_loaded(loaded, place, None, end)?;
            Ok(())
        }
    }
}

ghost use Rattle.collect_tree.specs.Told.{LoadsOne, after_loads, loaded_told};
ghost use Rattle.py_load.specs.InTurn.{file_load, file_told};

/// Loads a test file, and puts it behind the others.
fn load_test(
    alloc: Global,
    world: &mut World,
    limit: u64,
    walk: &Walk,
    place: usize,
    loaded: &mut LoadedTests,
) -> Result<(), OutOfMemory>
    ensures { OnOk result ((places : List ℕ) → after_loads loaded.old (loads.test_loads limit walk.now (place ∷ places) world.old) ≡ after_loads loaded.new (loads.test_loads limit walk.now places world.new)) }
{
    let path = path_text(walk, place);
    let file = load_file(world, path, limit)?;
    push_end(alloc, world, limit, path, place, &file, loaded)?;
    Ok(())
}

ghost use Rattle.std.specs.Prelude.{List, ℕ};

/// Loads test files one after another, each as one activity with this step limit.
pub fn load_tests(
    alloc: Global,
    world: &mut World,
    limit: u64,
    walk: &Walk,
    places: &[usize],
) -> Result<LoadedTests, OutOfMemory>
    ensures { IfOk result (λ loaded. loads.test_loads limit walk.now places.now world.old ≡ loaded_told loaded world.new) }
{
    let mut loaded = LoadedTests {
        files: Vec::new(alloc),
        ends: Vec::new(alloc),
    };
    for place in places {
        load_test(alloc, world, limit, walk, *place, &mut loaded)?;
    }
    Ok(loaded)
}
