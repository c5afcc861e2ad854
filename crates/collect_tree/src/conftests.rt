// The loads of conftests, with their hooks.

ghost use Rattle.std.specs.Prelude.{◌≡◌, ◌++◌, ◌∷◌, ℕ, IfOk, List, OnOk, codes};
ghost use Rattle.conftest_hooks.specs.Told.{hooks_told};
ghost use Rattle.collect_tree.specs.Conftests as conftests;
ghost use Rattle.collect_tree.specs.Conftests.{ConftestsLoaded};
ghost use Rattle.collect_tree.specs.ConftestsTold.{after_found, conftests_told, found_or_failed};
ghost use Rattle.collect_tree.specs.Loads as loads;
ghost use Rattle.fixture_world.specs.tracebacks.source_meaning.Meaning.{SourceWorld};

use crate::loads::load_told;
use collection_nodes::{TestFile, names_of_file};
use conftest_hooks::{FoundHook, HookFault, conftest_folder, hooks_among};
use fixture_world::{World, heap, told};
use py_load::{LoadError, LoadedFile, load_file};
use py_values::end::push_ascii;
use py_values::value::Value;
use py_world::Trace;
use report_parts::{OutOfMemory, Text, Told};
use seq::PyText;
use std::alloc::Global;

/// Conftests that were loaded.
#[derive(Drop)]
pub struct LoadedConftests {
    pub modules: Vec<Value>,
    /// Their hooks, in order of loading.
    pub hooks: Vec<FoundHook>,
}

/// A conftest that failed, and what is told of it.
#[derive(Drop)]
pub struct FailedConftest {
    pub path: Text,
    pub told: Told,
}

fn fault_text(alloc: Global, text: &[char]) -> Result<PyText, OutOfMemory>
    ensures { IfOk result (λ all. all ≡ codes "ValueError: " ++ text.now) }
{
    let mut all = Vec::new(alloc);
    push_ascii(&mut all, "ValueError: ")?;
    all.extend_from_slice(text)?;
    Ok(PyText::from_vec(all))
}

/// What is told of a fault of a hook.
fn hook_fault_told(alloc: Global, world: &World, fault: HookFault) -> Result<Told, OutOfMemory>
    ensures { IfOk result (λ t. t ≡ conftests.hook_fault_told fault world.now) }
{
    let HookFault { text, defined } = fault;
    let mut frames = Vec::new(alloc);
    frames.push(defined)?;
    let text = fault_text(alloc, text.chars())?;
    told(alloc, world, &Trace::from_vec(frames), text)
}

/// The hooks among the names of a conftest's module.
fn hooks_of_module(
    alloc: Global,
    world: &World,
    path: &str,
    object: Value,
) -> Result<Result<Vec<FoundHook>, HookFault>, OutOfMemory>
    ensures { IfOk result (λ end. hooks_told end ≡ conftests.hooks_of_module path.now object world.now) }
{
    let file = TestFile {
        place: 0,
        object: Some(object),
    };
    match names_of_file(heap(world), file) {
        Some(names) => hooks_among(alloc, heap(world), conftest_folder(path.as_bytes()), names),
        None => Ok(Ok(Vec::new(alloc))),
    }
}

fn push_all(hooks: &mut Vec<FoundHook>, more: Vec<FoundHook>) -> Result<(), OutOfMemory>
    ensures { OnOk result (hooks.new.items ≡ hooks.old.items ++ more.items) }
{
    let mut left = more;
    'more: while !left.is_empty() {
        let one = left.remove(0);
        hooks.push(one)?;
    }
    Ok(())
}

fn failed(alloc: Global, path: &str, told: Told) -> Result<FailedConftest, OutOfMemory>
    ensures { IfOk result (λ f. (f.path ≡ path.now) × (f.told ≡ told)) }
{
    match Text::from_str(alloc, path) {
        Ok(path) => Ok(FailedConftest { path, told }),
        Err(fault) => {
            drop(told);
            Err(fault)
        }
    }
}

/// A conftest with this module joins the others, with its hooks; or why it fails.
#[tactic(auto, using(crate::proofs::Hooked::joined, crate::proofs::Hooked::stopped))]
fn push_conftest(
    alloc: Global,
    world: &World,
    path: &str,
    object: Value,
    loaded: &mut LoadedConftests,
) -> Result<Option<FailedConftest>, OutOfMemory>
    ensures { IfOk result (λ end. (rest : ConftestsLoaded × SourceWorld) → after_found loaded.old (conftests.behind_hooks path.now object (conftests.hooks_of_module path.now object world.now) rest world.now) ≡ found_or_failed loaded.new end rest world.now) }
{
    match hooks_of_module(alloc, world, path, object)? {
        Ok(hooks) => {
            push_all(&mut loaded.hooks, hooks)?;
            loaded.modules.push(object)?;
            Ok(None)
        }
        Err(fault) => {
            let told = hook_fault_told(alloc, world, fault)?;
            let failed = failed(alloc, path, told)?;
            Ok(Some(failed))
        }
    }
}

/// A conftest without module fails.
fn fail_load(
    alloc: Global,
    world: &World,
    limit: u64,
    path: &str,
    error: LoadError,
) -> Result<FailedConftest, OutOfMemory>
    ensures { IfOk result (λ f. (f.path ≡ path.now) × (f.told ≡ loads.load_told limit path.now error world.now)) }
{
    let told = load_told(alloc, world, limit, path, &error);
    drop(error);
    failed(alloc, path, told?)
}

/// A conftest whose load has ended so joins the others; or why it fails.
fn push_end(
    alloc: Global,
    world: &World,
    limit: u64,
    path: &str,
    end: Result<Value, LoadError>,
    loaded: &mut LoadedConftests,
) -> Result<Option<FailedConftest>, OutOfMemory>
    ensures { IfOk result (λ failed. (printed : List ℕ) (rest : ConftestsLoaded × SourceWorld) → after_found loaded.old (conftests.behind_load limit path.now (end, printed) rest world.now) ≡ found_or_failed loaded.new failed rest world.now) }
{
    match end {
        Ok(object) => push_conftest(alloc, world, path, object, loaded),
        Err(error) => {
            let failed = fail_load(alloc, world, limit, path, error)?;
            Ok(Some(failed))
        }
    }
}

/// Loads a conftest, which joins the others; or why it fails.
#[tactic(auto, using(crate::proofs::Hooked::load_on))]
fn load_conftest(
    alloc: Global,
    world: &mut World,
    limit: u64,
    path: &str,
    loaded: &mut LoadedConftests,
) -> Result<Option<FailedConftest>, OutOfMemory>
    ensures { IfOk result (λ end. (paths : List (List ℕ)) → after_found loaded.old (conftests.conftests_loaded limit (path.now ∷ paths) world.old) ≡ found_or_failed loaded.new end (conftests.conftests_loaded limit paths world.new) world.new) }
{
    let LoadedFile { end, printed } = load_file(world, path, limit)?;
    drop(printed);
    push_end(alloc, world, limit, path, end, loaded)
}

/// Loads conftests one after another, each as one activity with this step limit, up to the first that fails: their modules and hooks, or
/// that one.
#[tactic(auto, using(crate::proofs::Hooked::none_yet, crate::proofs::Hooked::all_loaded, crate::proofs::Hooked::another_on, crate::proofs::Hooked::failed_on))]
pub fn load_conftests(
    alloc: Global,
    world: &mut World,
    limit: u64,
    paths: &[Text],
) -> Result<Result<LoadedConftests, FailedConftest>, OutOfMemory>
    ensures { IfOk result (λ end. (conftests_told end, world.new) ≡ conftests.conftests_loaded limit paths.now world.old) }
{
    let mut loaded = LoadedConftests {
        modules: Vec::new(alloc),
        hooks: Vec::new(alloc),
    };
    for path in paths {
        if let Some(failed) = load_conftest(alloc, world, limit, path.text(), &mut loaded)? {
            drop(loaded);
            return Ok(Err(failed));
        }
    }
    Ok(Ok(loaded))
}
