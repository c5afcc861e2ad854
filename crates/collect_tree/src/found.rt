// What is found in loaded files.

ghost use Rattle.std.specs.Prelude.{◌≡◌, ◌++◌, ◌∷◌, [], IfOk, OnOk, map};
ghost use Rattle.collect_items.specs.Reads.{files_read};
ghost use Rattle.conftest_hooks.specs.hook_order.HookOrder.{InHookOrder};
ghost use Rattle.fixture_table.specs.Tree.{IsTree};
ghost use Rattle.collect_tree.specs.Collection as collection;
ghost use Rattle.collect_tree.specs.Told.{IsFound, loaded_told};

use crate::loads::{LoadEnd, LoadedTests};
use collect_ids::{AskedFile, asked_files};
use collect_items::{FilesRead, FoundFile, FoundItems, found_in, found_items, read_files};
use collect_words::Walk;
use collection_nodes::TestFile;
use fixture_world::{World, heap};
use report_parts::{OutOfMemory, Text};
use seq::Seq;
use std::alloc::Global;
use test_suite::HookTable;

/// What is found in loaded files, and the loads behind it.
#[derive(Drop)]
pub struct FoundFiles {
    pub found: FoundItems,
    pub loaded: LoadedTests,
}

/// How a load has ended, with what was printed behind it.
fn with_printed(end: LoadEnd, printed: &Text) -> Result<LoadEnd, OutOfMemory>
    ensures { IfOk result (λ e. e ≡ collection.with_printed end printed.now) }
{
    let LoadEnd { error, captured } = end;
    let mut text = captured.into_string();
    match text.push_str(printed.text()) {
        Ok(()) => Ok(LoadEnd {
            error,
            captured: Text::from_string(text),
        }),
        Err(_) => {
            drop(error);
            Err(OutOfMemory)
        }
    }
}

fn push_printed(ends: &mut Vec<LoadEnd>, end: LoadEnd, printed: &Text) -> Result<(), OutOfMemory>
    ensures { OnOk result (ends.new.items ≡ ends.old.items ++ collection.with_printed end printed.now ∷ []) }
{
    let one = with_printed(end, printed)?;
    ends.push(one)?;
    Ok(())
}

/// How loads have ended, each with what the hook that makes ids printed for its file.
fn ends_with_printed(
    alloc: Global,
    ends: Vec<LoadEnd>,
    asked: &[AskedFile],
) -> Result<Vec<LoadEnd>, OutOfMemory>
    ensures { IfOk result (λ all. all.items ≡ collection.ends_with_printed ends.items asked.now) }
{
    let mut all = Vec::new(alloc);
    let mut left = ends;
    for at in 0..asked.len() {
        if left.is_empty() {
            return Ok(all);
        }
        let end = left.remove(0);
        push_printed(&mut all, end, &asked[at].printed)?;
    }
    all.append(&mut left)?;
    Ok(all)
}

/// The files with their items.
fn found_files(alloc: Global, asked: Seq<AskedFile>) -> Result<Seq<FoundFile>, OutOfMemory>
    ensures { IfOk result (λ files. files ≡ map collection.found_of_asked asked) }
{
    let mut files = Seq::new(alloc);
    for one in asked.into_vec() {
        let AskedFile { found, printed } = one;
        drop(printed);
        files.push(found)?;
    }
    Ok(files)
}

/// What is found in loaded files by the hook that makes ids.
fn found_asked(
    alloc: Global,
    world: &mut World,
    limit: u64,
    hooks: &HookTable,
    walk: &Walk,
    above: &[TestFile],
    loaded: LoadedTests,
) -> Result<FoundFiles, OutOfMemory>
    requires order { InHookOrder hooks.now.ids }
    ensures found { IfOk result (λ f. IsFound walk.now f.found (collection.found_asked limit hooks.now walk.now (files_read world.old.heap walk.now above.now loaded.files.items) (loaded_told loaded world.old)).0) }
    ensures loaded { IfOk result (λ f. loaded_told f.loaded world.new ≡ (collection.found_asked limit hooks.now walk.now (files_read world.old.heap walk.now above.now loaded.files.items) (loaded_told loaded world.old)).1) }
    ensures tree { IfOk result (λ f. IsTree f.found.found.table.nodes) }
{
    let LoadedTests { files, ends } = loaded;
    let FilesRead {
        basis,
        files: tests,
    } = read_files(alloc, heap(world), walk, above, &files)?;
    let asked = asked_files(alloc, world, limit, hooks, walk, &basis, tests)?;
    let ends = ends_with_printed(alloc, ends, asked.items())?;
    let came = found_files(alloc, asked)?;
    let found = found_in(alloc, heap(world), walk, &basis, came)?;
    Ok(FoundFiles {
        found,
        loaded: LoadedTests { files, ends },
    })
}

/// What is found in loaded files without that hook.
fn found_at_once(
    alloc: Global,
    world: &World,
    walk: &Walk,
    above: &[TestFile],
    loaded: LoadedTests,
) -> Result<FoundFiles, OutOfMemory>
    ensures found { IfOk result (λ f. IsFound walk.now f.found (findings world.now.heap walk.now above.now loaded.files.items)) }
    ensures loaded { IfOk result (λ f. f.loaded ≡ loaded) }
    ensures tree { IfOk result (λ f. IsTree f.found.found.table.nodes) }
{
    let found = found_items(alloc, heap(world), walk, above, &loaded.files)?;
    Ok(FoundFiles { found, loaded })
}

ghost use Rattle.collect_items.specs.Items.{findings};

/// What is found in loaded files; where conftests have the hook that makes ids, it is asked first. Behind want of memory the world is spent.
pub fn found_loaded(
    alloc: Global,
    world: &mut World,
    limit: u64,
    hooks: &HookTable,
    walk: &Walk,
    above: &[TestFile],
    loaded: LoadedTests,
) -> Result<FoundFiles, OutOfMemory>
    requires order { InHookOrder hooks.now.ids }
    ensures found { IfOk result (λ f. IsFound walk.now f.found (collection.found_loaded limit hooks.now walk.now above.now (loaded_told loaded world.old)).0) }
    ensures loaded { IfOk result (λ f. loaded_told f.loaded world.new ≡ (collection.found_loaded limit hooks.now walk.now above.now (loaded_told loaded world.old)).1) }
    ensures tree { IfOk result (λ f. IsTree f.found.found.table.nodes) }
{
    match hooks.ids.items().first() {
        Some(_) => found_asked(alloc, world, limit, hooks, walk, above, loaded),
        None => found_at_once(alloc, world, walk, above, loaded),
    }
}
