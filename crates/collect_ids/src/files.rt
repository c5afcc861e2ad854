// Files, one after another.

ghost use Rattle.std.specs.Prelude.{◌≡◌, ◌+◌, ◌≤◌, ◌++◌, ◌∷◌, [], IfOk, OnOk, length, option_copied, true};
ghost use Rattle.collect_items.specs.Items.{fixtures_with};
ghost use Rattle.hook_order.specs.HookOrder.{InHookOrder};
ghost use Rattle.collect_ids.specs.Files as by_file;

use crate::tests::tests_asked;
use collect_items::{FileTests, FoundFile, ItemBasis, table_in};
use collect_words::Walk;
use collection_nodes::{Mentions, narrow, path_text, plus};
use fixture_definitions::Definition;
use fixture_table::Table;
use hook_order::Impl;
use report_parts::Text;
use runtest_rules::{World, take_printed};
use seq::{OutOfMemory, Seq};
use std::alloc::Global;
use test_suite::{Hook, HookTable};

/// A file with its items, and what the hook printed for it.
#[derive(Drop)]
pub struct AskedFile {
    pub found: FoundFile,
    pub printed: Text,
}

/// Whether a path stands in the folder of a hook, or below.
fn folder_has(path: &str, hook: Option<&Hook>) -> bool
    ensures { result ≡ by_file.folder_has path.now (option_copied hook.entry) }
{
    match hook {
        Some(hook) => path.as_bytes().starts_with(hook.folder.items()),
        None => false,
    }
}

/// Whether an implementation serves a file.
fn serves_file(hooks: &HookTable, path: &str, which: &Impl) -> bool
    ensures { result ≡ by_file.serves_file hooks.now path.now which.now }
{
    folder_has(path, hooks.hook(which.code))
}

/// Pushes an implementation, where it serves a file.
fn push_serving(
    serving: &mut Seq<Impl>,
    hooks: &HookTable,
    path: &str,
    which: &Impl,
) -> Result<(), OutOfMemory>
    ensures { OnOk result (serving.new ≡ serving.old ++ filter (by_file.serves_file hooks.now path.now) (which.now ∷ [])) }
{
    if serves_file(hooks, path, which) {
        return serving.push(*which);
    }
    Ok(())
}

ghost use Rattle.std.specs.List.{filter};

/// Of these implementations those that serve a file, in their order.
fn serving_among(
    alloc: Global,
    hooks: &HookTable,
    impls: &[Impl],
    path: &str,
) -> Result<Seq<Impl>, OutOfMemory>
    ensures { IfOk result (λ serving. serving ≡ by_file.serving_file hooks.now impls.now path.now) }
{
    let mut serving = Seq::new(alloc);
    for which in impls {
        push_serving(&mut serving, hooks, path, which)?;
    }
    Ok(serving)
}

/// The same of implementations in hook order, which those are too.
fn serving_file(
    alloc: Global,
    hooks: &HookTable,
    impls: &[Impl],
    path: &str,
) -> Result<Seq<Impl>, OutOfMemory>
    requires order { InHookOrder impls.now }
    ensures serving { IfOk result (λ serving. serving ≡ by_file.serving_file hooks.now impls.now path.now) }
    ensures order { IfOk result (λ serving. InHookOrder serving) }
{
    let serving = serving_among(alloc, hooks, impls, path)?;
    Ok(serving)
}

/// Whether so many nodes from this one on are among the nodes.
fn is_within(node: u32, many: usize, count: usize) -> bool
    ensures { result ≡ true → node + many ≤ count }
{
    match (node as usize).checked_add(many) {
        Some(end) => end <= count,
        None => false,
    }
}

/// What the hook printed.
fn printed(alloc: Global, world: &mut World) -> Result<Text, OutOfMemory>
    ensures printed { IfOk result (λ text. text ≡ utf8_lossy world.old.printed) }
    ensures same { world.new ≡ world_with_printed [] world.old }
{
    let bytes = take_printed(world);
    let text = String::from_utf8_lossy(alloc, &bytes)?;
    Ok(Text::from_string(text))
}

ghost use Rattle.std.specs.Str.Lossy.{utf8_lossy};
ghost use Rattle.py_world.specs.World.{world_with_printed};

/// Asks for the ids of a file, whose tests' nodes follow one another from this one on.
fn file_asked(
    alloc: Global,
    world: &mut World,
    limit: u64,
    hooks: &HookTable,
    walk: &Walk,
    table: &Table,
    count: usize,
    names: &Mentions,
    definitions: &[Definition],
    node: u32,
    file: FileTests,
) -> Result<AskedFile, OutOfMemory>
    requires order { InHookOrder hooks.now.ids }
    requires same { length definitions.now ≡ length table.now.defs }
    requires count { count ≡ length table.now.nodes }
    ensures { IfOk result (λ asked. (asked, world.new) ≡ by_file.file_asked limit hooks.now (fixtures_with table.now names.now definitions.now) hooks.now.ids walk.now node file world.old) }
{
    let FileTests {
        placed,
        classes,
        tests,
    } = file;
    if !is_within(node, tests.len(), count) {
        // Each test has a node.
        return Err(OutOfMemory);
    }
    let path = path_text(walk, placed.file.place);
    let all = hooks.ids.items();
    let serving = serving_file(alloc, hooks, all, path)?;
    let impls = serving.items();
    let listed = tests.items();
    let items = tests_asked(
        alloc,
        world,
        limit,
        hooks,
        impls,
        table,
        names,
        definitions,
        node,
        listed,
    )?;
    let found = FoundFile {
        file: placed.file,
        classes,
        items,
    };
    let printed = printed(alloc, world)?;
    Ok(AskedFile { found, printed })
}

/// The node behind so many others.
fn behind(node: u32, many: usize) -> Result<u32, OutOfMemory>
    ensures { IfOk result (λ n. n ≡ node + many) }
{
    match u32::try_from(many) {
        Ok(many) => plus(node, many),
        // No memory holds so many.
        Err(_) => Err(OutOfMemory),
    }
}

/// Asks for the ids of files, whose tests' nodes follow one another from this one on.
fn all_asked(
    alloc: Global,
    world: &mut World,
    limit: u64,
    hooks: &HookTable,
    walk: &Walk,
    table: &Table,
    count: usize,
    names: &Mentions,
    definitions: &[Definition],
    first: u32,
    files: Seq<FileTests>,
) -> Result<Seq<AskedFile>, OutOfMemory>
    requires order { InHookOrder hooks.now.ids }
    requires same { length definitions.now ≡ length table.now.defs }
    requires count { count ≡ length table.now.nodes }
    ensures { IfOk result (λ asked. (asked, world.new) ≡ by_file.all_asked limit hooks.now (fixtures_with table.now names.now definitions.now) hooks.now.ids walk.now first files world.old) }
{
    let mut all = Seq::new(alloc);
    let mut node = first;
    for file in files.into_vec() {
        let next = behind(node, file.tests.len())?;
        let one = file_asked(
            alloc,
            world,
            limit,
            hooks,
            walk,
            table,
            count,
            names,
            definitions,
            node,
            file,
        )?;
        all.push(one)?;
        node = next;
    }
    Ok(all)
}

/// Asks for the ids of the files that were read, each with the step limit for each call of a hook. Behind want of memory the world is spent.
#[tactic(auto, unfolding(crate::specs::Files::files_asked))]
pub fn asked_files(
    alloc: Global,
    world: &mut World,
    limit: u64,
    hooks: &HookTable,
    walk: &Walk,
    basis: &ItemBasis,
    read: Seq<FileTests>,
) -> Result<Seq<AskedFile>, OutOfMemory>
    requires order { InHookOrder hooks.now.ids }
    ensures { IfOk result (λ asked. (asked, world.new) ≡ by_file.files_asked limit hooks.now walk.now (record { basis = basis.now; files = read }) world.old) }
{
    let first = narrow(basis.outer.len())?;
    let Some(count) = basis.outer.len().checked_add(basis.parents.len()) else {
        // No memory holds so many nodes.
        return Err(OutOfMemory);
    };
    let table = table_in(alloc, basis)?;
    let asked = all_asked(
        alloc,
        world,
        limit,
        hooks,
        walk,
        &table,
        count,
        &basis.names,
        basis.definitions.items(),
        first,
        read,
    );
    drop(table);
    asked
}
