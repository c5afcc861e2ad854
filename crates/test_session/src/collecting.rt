// The collection.

ghost use Rattle.std.specs.Prelude.{◌≡◌, IfErr, IfOk, IfSome, List};
ghost use Rattle.collect_tree.specs.Collection.{collect};
ghost use Rattle.collect_tree.specs.Told.{IsWithin};
ghost use Rattle.collect_tree.specs.py_load.Reading.{AreRead, ReadFile};
ghost use Rattle.edge_io.specs.Files.{InOrder, paths_of};
ghost use Rattle.py_machine.specs.Worlds.{empty};
ghost use Rattle.selection.specs.Exprs.{AreExprs};
ghost use Rattle.test_session.specs.Collections.{CanRun, Shows, ShowsCollection, refused_as};
ghost use Rattle.test_session.specs.Stacks.{KnowsTable, NoneOut, StandsIn};

use crate::collected::Collected;
use crate::hooks::{codes_of, hooks_shown};
use crate::items::items_shown;
use crate::naming::fixture_names;
use crate::stack::stacked;
use cli_words::Options;
use collect_tree::{CollectFault, FoundSuite, RunSetting};
use collection_nodes::narrow;
use edge_io::Files;
use py_load::has_reading;
use py_machine::World;
use run_items::Plan;
use selection::Exprs;
use seq::OutOfMemory;
use session_frames::collection_leaves_no_frame_out;
use std::alloc::Global;

/// What is shown of what was collected in this world.
fn shown(
    alloc: Global,
    world: World,
    limit: u64,
    found: collect_tree::Collected,
) -> Result<Collected, OutOfMemory>
    requires within { IsWithin found }
    ensures world { IfOk result (λ c. c.world ≡ world) }
    ensures shows { IfOk result (Shows found) }
    ensures known { IfOk result (λ c. KnowsTable c.stack) }
{
    let suite = &found.found.suite;
    let count = narrow(suite.fixtures.items().len())?;
    let items = items_shown(alloc, suite.items.items(), found.selected.items())?;
    let hooks = hooks_shown(alloc, count, &suite.hooks)?;
    let codes = codes_of(alloc, suite)?;
    let names = fixture_names(alloc, suite.fixtures.items())?;
    let collect_tree::Collected {
        found,
        places,
        selected,
        deselected,
        errors,
    } = found;
    drop(places);
    drop(selected);
    let FoundSuite { suite, table } = found;
    let run = RunSetting { limit, suite };
    match stacked(alloc, Plan { run, table }, true, codes, names) {
        Ok(stack) => Ok(Collected {
            world,
            stack,
            hooks,
            items,
            deselected,
            errors,
        }),
        Err(fault) => {
            drop(world);
            drop(hooks);
            drop(items);
            drop(errors);
            Err(fault)
        }
    }
}

/// The collection in a new world.
fn collect_in(
    alloc: Global,
    world: World,
    files: &Files,
    options: &Options,
    exprs: &Exprs,
) -> Result<Collected, CollectFault>
    requires empty { world ≡ empty }
    requires order { InOrder (paths_of files.now) }
    requires exprs { AreExprs options.now exprs.now }
    ensures told { IfOk result (λ c. (sources : List ReadFile) × AreRead files.now sources × ShowsCollection options.now sources c) }
    ensures refused { IfErr result (λ fault. (sources : List ReadFile) × AreRead files.now sources × IfSome (refused_as fault) (λ e. e ≡ collect options.now sources)) }
    ensures known { IfOk result (λ c. KnowsTable c.stack) }
    ensures runs { IfOk result CanRun }
    ensures frames { IfOk result (λ c. StandsIn c.world c.stack) }
    ensures none_out { IfOk result (λ c. NoneOut c.world) }
{
    has_reading();
    collection_leaves_no_frame_out();
    let mut world = world;
    match collect_tree::collect(alloc, &mut world, files, options, exprs) {
        Ok(found) => match shown(alloc, world, options.step_limit, found) {
            Ok(collected) => Ok(collected),
            Err(OutOfMemory) => Err(CollectFault::OutOfMemory),
        },
        Err(fault) => {
            drop(world);
            Err(fault)
        }
    }
}

/// Collects what the words of these options name among the files of a tree, and `-k` and `-m` accept, in a new world.
///
/// Fails with the first refusal: `NotFound` for a path, `Conftest`, `TooManyItems`, `NotFound` behind `::`.
pub fn collect(
    alloc: Global,
    files: &Files,
    options: &Options,
    exprs: &Exprs,
) -> Result<Collected, CollectFault>
    requires order { InOrder (paths_of files.now) }
    requires exprs { AreExprs options.now exprs.now }
    ensures told { IfOk result (λ c. (sources : List ReadFile) × AreRead files.now sources × ShowsCollection options.now sources c) }
    ensures refused { IfErr result (λ fault. (sources : List ReadFile) × AreRead files.now sources × IfSome (refused_as fault) (λ e. e ≡ collect options.now sources)) }
    ensures known { IfOk result (λ c. KnowsTable c.stack) }
    ensures runs { IfOk result CanRun }
    ensures frames { IfOk result (λ c. StandsIn c.world c.stack) }
    ensures none_out { IfOk result (λ c. NoneOut c.world) }
{
    has_reading();
    match World::new(alloc) {
        Ok(world) => collect_in(alloc, world, files, options, exprs),
        Err(_) => Err(CollectFault::OutOfMemory),
    }
}
