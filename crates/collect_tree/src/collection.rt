// The collection.

ghost use Rattle.std.specs.Prelude.{◌≡◌, [], IfOk, IfSome, Ok as Meant};
ghost use Rattle.edge_io.specs.Files.{InOrder, paths_of};
ghost use Rattle.py_load.specs.Reading.{AreRead, ReadFile};
ghost use Rattle.fixture_world.specs.tracebacks.py_machine.Worlds.{empty};
ghost use Rattle.selection.specs.Exprs.{AreExprs};
ghost use Rattle.collect_words.specs.Files as files;
ghost use Rattle.collect_tree.specs.Collection as collection;
ghost use Rattle.collect_tree.specs.Loads.{test_loads};
ghost use Rattle.collect_tree.specs.Runnable.{IsRunnable};
ghost use Rattle.collect_tree.specs.Told.{IsWithin, collection_end, loaded_told};
ghost use Rattle.collect_tree.specs.Walk.{walk_of};

use crate::collected::Collected;
use crate::conftests::{FailedConftest, LoadedConftests, load_conftests};
use crate::errors::all_errors;
use crate::fault::{CollectFault, word_fault};
use crate::found::{FoundFiles, found_loaded};
use crate::loads::{LoadedTests, load_tests};
use crate::walk::{paths_at, walk_of_files};
use cli_words::Options;
use collect_items::{FoundItems, FoundSuite, ItemKeys, RowsFault, chosen, ordered};
use collect_words::{
    NamedWord, Walk, conftests, named_files, named_words, selected, test_files, walked,
};
use collection_nodes::{TestFile, narrow};
use conftest_hooks::{FoundHook, hook_table};
use edge_io::Files;
use fixture_world::{World, heap};
use py_load::{has_reading, prepare};
use py_values::value::Value;
use report_parts::{CollectReport, MOST_ITEMS, OutOfMemory};
use selection::Exprs;
use std::alloc::Global;
use test_suite::HookTable;

/// How many of the numbers are not accepted.
fn left_out(numbers: &[usize], accepted: &[u32]) -> Result<u32, OutOfMemory>
    ensures { IfOk result (λ n. n ≡ length numbers.now - length accepted.now) }
{
    narrow(numbers.len().saturating_sub(accepted.len()))
}

fn limited(errors: &[CollectReport]) -> Result<(), OutOfMemory>
    ensures { OnOk result (length errors.now ≤ most_items) }
{
    if errors.len() > MOST_ITEMS as usize {
        // More than any tree has files.
        return Err(OutOfMemory);
    }
    Ok(())
}

ghost use Rattle.std.specs.Prelude.{OnOk, length, ◌≤◌, ◌+◌, ◌-◌};
ghost use Rattle.report_parts.specs.Limits.{most_items};

/// What is collected of the items with these numbers.
fn accepted(
    alloc: Global,
    world: &World,
    options: &Options,
    exprs: &Exprs,
    found: FoundSuite,
    places: Vec<usize>,
    numbers: &[usize],
    errors: Vec<CollectReport>,
) -> Result<Collected, OutOfMemory>
    requires exprs { AreExprs options.now exprs.now }
    requires few { length numbers.now ≤ most_items }
    requires runnable { IsRunnable found }
    ensures told { IfOk result (λ c. collected_told c world.now ≡ collection.collected_with options.now found places.items numbers.now world.now errors.items) }
    ensures within { IfOk result IsWithin }
{
    limited(&errors)?;
    let items = found.suite.items.items();
    let selected = chosen(alloc, options, exprs, heap(world), items, numbers)?;
    let deselected = left_out(numbers, selected.items())?;
    Ok(Collected {
        found,
        places,
        selected,
        deselected,
        errors,
    })
}

ghost use Rattle.collect_tree.specs.Told.{collected_told};

/// What is found in loaded files, but for what words can name of it.
#[derive(Drop)]
struct FoundParts {
    found: FoundSuite,
    places: Vec<usize>,
    keys: Vec<ItemKeys>,
    faults: Vec<Option<RowsFault>>,
}

/// What is collected of the items that the words name.
#[tactic(auto, using(crate::proofs::Ordered::few_ordered))]
fn in_order(
    alloc: Global,
    world: &World,
    options: &Options,
    exprs: &Exprs,
    walk: &Walk,
    loaded: LoadedTests,
    parts: FoundParts,
    numbers: &[usize],
) -> Result<Collected, OutOfMemory>
    requires exprs { AreExprs options.now exprs.now }
    requires few { length numbers.now ≤ most_items }
    requires runnable { IsRunnable parts.found }
    ensures told { IfOk result (λ c. collected_told c world.now ≡ collection.collected_by options.now walk.now parts.found parts.places.items parts.keys.items parts.faults.items (loaded_told loaded world.now) numbers.now) }
    ensures within { IfOk result IsWithin }
{
    let FoundParts {
        found,
        places,
        keys,
        faults,
    } = parts;
    let LoadedTests { files, ends } = loaded;
    let order = ordered(alloc, &keys, numbers)?;
    let errors = all_errors(alloc, world, walk, &files, ends, &faults)?;
    accepted(alloc, world, options, exprs, found, places, &order, errors)
}

/// The numbers of the items that the words name, or why they are refused.
fn named_items(
    alloc: Global,
    walk: &Walk,
    options: &Options,
    words: &[NamedWord],
    nodes: &[FileNodes],
) -> Result<Seq<usize>, CollectFault>
    ensures ok { IfOk result (λ numbers. nodes_selected options.now walk.now nodes.now words.now ≡ Meant numbers) }
    ensures few { IfOk result (λ numbers. length numbers ≤ most_items) }
    ensures refused { IfErr result (IsWordRefusal (nodes_selected options.now walk.now nodes.now words.now)) }
{
    let tests = walked(alloc, walk, options.ignore.items())?;
    match selected(
        alloc,
        MOST_ITEMS as usize,
        walk,
        tests.items(),
        nodes,
        words,
    ) {
        Ok(numbers) => Ok(numbers),
        Err(fault) => Err(word_fault(fault)),
    }
}

ghost use Rattle.std.specs.Prelude.{IfErr};
ghost use Rattle.collect_tree.specs.Collection.{nodes_selected};
ghost use Rattle.collect_tree.specs.Told.{IsWordRefusal};

use collect_words::FileNodes;
use seq::Seq;

/// A suite whose phases run in these hooks.
fn under_hooks(hooks: HookTable, found: FoundSuite) -> FoundSuite
    ensures whole { result ≡ collection.under_hooks hooks found }
    ensures hooks { result.suite.hooks ≡ hooks }
{
    let mut found = found;
    found.suite.hooks = hooks;
    found
}

/// The collection of what was found in loaded files.
fn of_found(
    alloc: Global,
    world: &World,
    options: &Options,
    exprs: &Exprs,
    walk: &Walk,
    words: &[NamedWord],
    hooks: HookTable,
    found: FoundItems,
    loaded: LoadedTests,
) -> Result<Collected, CollectFault>
    requires exprs { AreExprs options.now exprs.now }
    requires runnable { IsRunnable (collection.under_hooks hooks found.found) }
    ensures told { (f : Findings) → IsFound walk.now found f → IfSome (collection_end result world.now) (λ e. e ≡ collection.of_found options.now walk.now words.now hooks (f, loaded_told loaded world.now)) }
    ensures within { IfOk result IsWithin }
{
    let FoundItems {
        found,
        places,
        keys,
        nodes,
        faults,
    } = found;
    let parts = FoundParts {
        found: under_hooks(hooks, found),
        places,
        keys,
        faults,
    };
    match named_items(alloc, walk, options, words, &nodes) {
        Ok(numbers) => {
            let numbers = numbers.items();
            let collected = in_order(alloc, world, options, exprs, walk, loaded, parts, numbers)?;
            Ok(collected)
        }
        Err(fault) => {
            drop(parts);
            drop(loaded);
            Err(fault)
        }
    }
}

ghost use Rattle.collect_items.specs.Items.{Findings};
ghost use Rattle.collect_tree.specs.Told.{IsFound};

/// The collection of loaded files.
fn of_loaded(
    alloc: Global,
    world: &mut World,
    options: &Options,
    exprs: &Exprs,
    walk: &Walk,
    words: &[NamedWord],
    hooks: Vec<FoundHook>,
    above: &[TestFile],
    loaded: LoadedTests,
) -> Result<Collected, CollectFault>
    requires { AreExprs options.now exprs.now }
    ensures told { IfSome (collection_end result world.new) (λ e. e ≡ collection.of_loaded options.now walk.now words.now hooks.items above.now (loaded_told loaded world.old)) }
    ensures within { IfOk result IsWithin }
{
    let hooks = hook_table(alloc, hooks)?;
    let FoundFiles { found, loaded } = found_loaded(
        alloc,
        world,
        options.step_limit,
        &hooks,
        walk,
        above,
        loaded,
    )?;
    of_found(
        alloc, world, options, exprs, walk, words, hooks, found, loaded,
    )
}

/// The collection behind the conftests.
fn with_tests(
    alloc: Global,
    world: &mut World,
    options: &Options,
    exprs: &Exprs,
    walk: &Walk,
    words: &[NamedWord],
    places: &[usize],
    hooks: Vec<FoundHook>,
    above: &[TestFile],
) -> Result<Collected, CollectFault>
    requires { AreExprs options.now exprs.now }
    ensures told { IfSome (collection_end result world.new) (λ e. e ≡ collection.of_loaded options.now walk.now words.now hooks.items above.now (test_loads options.now.step_limit walk.now places.now world.old)) }
    ensures within { IfOk result IsWithin }
{
    match load_tests(alloc, world, options.step_limit, walk, places) {
        Ok(loaded) => of_loaded(
            alloc, world, options, exprs, walk, words, hooks, above, loaded,
        ),
        Err(fault) => {
            drop(hooks);
            Err(CollectFault::from(fault))
        }
    }
}

/// The conftests that were loaded, with their modules.
fn conftest_files(
    alloc: Global,
    places: &[usize],
    modules: &[Value],
) -> Result<Vec<TestFile>, OutOfMemory>
    ensures { IfOk result (λ files. files.items ≡ collection.conftest_files places.now modules.now) }
{
    let mut files = Vec::new(alloc);
    for at in 0..places.len() {
        let Some(v) = modules.get(at) else {
            return Ok(files);
        };
        files.push(TestFile {
            place: places[at],
            object: Some(*v),
        })?;
    }
    Ok(files)
}

/// The collection behind these conftests.
fn with_modules(
    alloc: Global,
    world: &mut World,
    options: &Options,
    exprs: &Exprs,
    walk: &Walk,
    words: &[NamedWord],
    places: &[usize],
    above: &[usize],
    conftests: LoadedConftests,
) -> Result<Collected, CollectFault>
    requires { AreExprs options.now exprs.now }
    ensures told { IfSome (collection_end result world.new) (λ e. e ≡ collection.of_loaded options.now walk.now words.now conftests.hooks.items (collection.conftest_files above.now conftests.modules.items) (test_loads options.now.step_limit walk.now places.now world.old)) }
    ensures within { IfOk result IsWithin }
{
    let LoadedConftests { modules, hooks } = conftests;
    match conftest_files(alloc, above, &modules) {
        Ok(files) => with_tests(
            alloc, world, options, exprs, walk, words, places, hooks, &files,
        ),
        Err(fault) => {
            drop(hooks);
            Err(CollectFault::from(fault))
        }
    }
}

/// The refusal that a failed conftest is.
fn conftest_fault(failed: FailedConftest) -> CollectFault
    ensures { result ≡ Conftest failed.path failed.told }
{
    let FailedConftest { path, told } = failed;
    CollectFault::Conftest(path, told)
}

ghost use Rattle.collect_tree.specs.declared.fault.CollectFault.TheVariants.{Conftest};

/// The collection of test files, with the conftests above them.
fn of_files(
    alloc: Global,
    world: &mut World,
    options: &Options,
    exprs: &Exprs,
    walk: &Walk,
    words: &[NamedWord],
    places: &[usize],
) -> Result<Collected, CollectFault>
    requires { AreExprs options.now exprs.now }
    ensures told { IfSome (collection_end result world.new) (λ e. e ≡ collection.of_files options.now walk.now words.now places.now world.old) }
    ensures within { IfOk result IsWithin }
{
    let above = conftests(alloc, walk, places)?;
    let paths = paths_at(alloc, walk, above.items())?;
    match load_conftests(alloc, world, options.step_limit, paths.items())? {
        Ok(loaded) => with_modules(
            alloc,
            world,
            options,
            exprs,
            walk,
            words,
            places,
            above.items(),
            loaded,
        ),
        Err(failed) => Err(conftest_fault(failed)),
    }
}

/// The collection of the files that the words reach.
fn of_words(
    alloc: Global,
    world: &mut World,
    options: &Options,
    exprs: &Exprs,
    walk: &Walk,
    words: &[NamedWord],
) -> Result<Collected, CollectFault>
    requires { AreExprs options.now exprs.now }
    ensures told { IfSome (collection_end result world.new) (λ e. e ≡ collection.of_files options.now walk.now words.now (files.test_files walk.now (files.walked walk.now options.now.ignore) words.now) world.old) }
    ensures within { IfOk result IsWithin }
{
    let tests = walked(alloc, walk, options.ignore.items())?;
    let places = test_files(alloc, walk, tests.items(), words)?;
    of_files(alloc, world, options, exprs, walk, words, places.items())
}

/// Gives the world the sources of the files; the asserts of those that the words name are explained too.
fn prepared(
    alloc: Global,
    world: &mut World,
    files: &Files,
    walk: &Walk,
    words: &[NamedWord],
) -> Result<(), OutOfMemory>
    requires none { world.old.sources ≡ [] }
    requires order { InOrder (paths_of files.now) }
    ensures { OnOk result (IsPrepared (named_paths walk.now words.now) files.now world.old world.new) }
{
    let places = named_files(alloc, words)?;
    let named = paths_at(alloc, walk, places.items())?;
    prepare(alloc, world, files, named.items())
}

ghost use Rattle.collect_tree.specs.Collection.{named_paths};
ghost use Rattle.py_load.specs.Prepared.{IsPrepared};

/// The collection of files.
fn of_sources(
    alloc: Global,
    world: &mut World,
    files: &Files,
    options: &Options,
    exprs: &Exprs,
    walk: &Walk,
    words: &[NamedWord],
) -> Result<Collected, CollectFault>
    requires empty { world.old ≡ empty }
    requires order { InOrder (paths_of files.now) }
    requires exprs { AreExprs options.now exprs.now }
    ensures told { (sources : List ReadFile) × AreRead files.now sources × IfSome (collection_end result world.new) (λ e. e ≡ collection.of_words options.now sources walk.now (Meant words.now)) }
    ensures within { IfOk result IsWithin }
{
    has_reading();
    let Ok(()) = prepared(alloc, world, files, walk, words) else {
        return Err(CollectFault::OutOfMemory);
    };
    of_words(alloc, world, options, exprs, walk, words)
}

ghost use Rattle.std.specs.Prelude.{List};

/// The collection by the walk of the files.
fn of_walk(
    alloc: Global,
    world: &mut World,
    files: &Files,
    options: &Options,
    exprs: &Exprs,
    walk: &Walk,
) -> Result<Collected, CollectFault>
    requires empty { world.old ≡ empty }
    requires order { InOrder (paths_of files.now) }
    requires exprs { AreExprs options.now exprs.now }
    ensures told { (sources : List ReadFile) × AreRead files.now sources × IfSome (collection_end result world.new) (λ e. e ≡ collection.of_words options.now sources walk.now (named_words walk.now options.now.paths)) }
    ensures within { IfOk result IsWithin }
{
    has_reading();
    match named_words(alloc, walk, options.paths.items()) {
        Ok(words) => of_sources(alloc, world, files, options, exprs, walk, words.items()),
        Err(fault) => Err(word_fault(fault)),
    }
}

ghost use Rattle.collect_words.specs.Words.{named_words};

/// Collects what the words of these options name among the files of a tree, and `-k` and `-m` accept. The world is a new one; behind the
/// call it has all modules that were loaded.
///
/// Fails with the first refusal: `NotFound` for a path, `Conftest`, `TooManyItems`, `NotFound` behind `::`.
pub fn collect(
    alloc: Global,
    world: &mut World,
    files: &Files,
    options: &Options,
    exprs: &Exprs,
) -> Result<Collected, CollectFault>
    requires empty { world.old ≡ empty }
    requires order { InOrder (paths_of files.now) }
    requires exprs { AreExprs options.now exprs.now }
    ensures told { (sources : List ReadFile) × AreRead files.now sources × IfSome (collection_end result world.new) (λ e. e ≡ collection.collect options.now sources) }
    ensures within { IfOk result IsWithin }
{
    has_reading();
    match walk_of_files(alloc, files) {
        Ok(walk) => of_walk(alloc, world, files, options, exprs, &walk),
        Err(_) => Err(CollectFault::OutOfMemory),
    }
}
