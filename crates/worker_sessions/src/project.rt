// What workers share of a project.

ghost use Rattle.std.specs.Prelude.{◌≡◌, ◌<◌, ◌^◌, length};
ghost use Rattle.edge_io.specs.Files.{InOrder, paths_of};
ghost use Rattle.run_items.specs.report_rules.Collected.{Collected as Collection};
ghost use Rattle.run_items.specs.runtest_rules.Language.{python};
ghost use Rattle.run_items.specs.test_suite.declared.suite.Suite.{Suite as SuiteValue};
ghost use Rattle.selection.specs.Exprs.{AreExprs};
ghost use Rattle.worker_sessions.specs.Project.{Collects, group_sizes};

use crate::session::run_collected;
use cli_words::Options;
use collect_tree::{CollectFault, collect, what_is_collected_fits};
use edge_io::Files;
use py_values::value::Value;
use report_parts::ItemReport;
use run_items::{Failure, Frozen, World};
use selection::Exprs;
use seq::OutOfMemory;
use share_files::Feed;
use std::alloc::Global;
use std::marker::Model;
use test_suite::Suite;
use worker_runs::Bench;

/// The files of a project, the options, the expressions of `-k` and `-m`, and the number of items of each group of its collection.
#[derive(Drop)]
pub struct Project<'a> {
    files: &'a Files,
    options: &'a Options,
    exprs: &'a Exprs,
    sizes: Vec<u32>,
}

impl<'a> Model for Project<'a> {
    ghost use Rattle.worker_sessions.specs.Project.{IsProject, ProjectParts};

    ghost Value = { ProjectParts };

    ghost view = { λ p. record { files = p.files.now; options = p.options.now; sizes = p.sizes.items } };

    ghost invariant = { λ p. IsProject p.files.now p.options.now p.exprs.now p.sizes.items };
}

impl<'a> Project<'a> {
    /// A project whose collection is whole, with so many items in each group.
    pub fn new(
        files: &'a Files,
        options: &'a Options,
        exprs: &'a Exprs,
        sizes: Vec<u32>,
    ) -> Project<'a>
        requires order { InOrder (paths_of files.now) }
        requires exprs { AreExprs options.now exprs.now }
        requires whole { options.now.maxfail ≡ 0 }
        requires few { length sizes.items < 2 ^ 32 }
        requires collected { (c : Collection python SuiteValue) × Collects files.now options.now c × (sizes.items ≡ group_sizes c) }
        ensures { result ≡ record { files = files.now; options = options.now; sizes = sizes.items } }
    {
        Project {
            files,
            options,
            exprs,
            sizes,
        }
    }
}

impl<'a> Bench for Project<'a> {
    ghost use Rattle.std.specs.Prelude.{length};
    ghost use Rattle.run_items.specs.Texts.{fixture_texts};
    ghost use Rattle.run_items.specs.runtest_rules.Rules.{rules};
    ghost use Rattle.worker_sessions.specs.Project.{Collects};

    type World = World;

    type Value = Value;

    type Thrown = Failure;

    type Rest = Frozen;

    type Table = Suite;

    ghost collects = { λ project c. Collects project.files project.options c };

    ghost rules = { λ project suite. rules project.options suite };

    ghost fixture = { λ project suite. fixture_texts suite };

    ghost options = { λ project. project.options };

    ghost groups = { λ project. length project.sizes };

    fn sizes(&self) -> &[u32] {
        self.sizes.as_slice()
    }

    fn run<F: Feed>(&self, alloc: Global, feed: &mut F) -> Result<Vec<ItemReport>, OutOfMemory> {
        what_is_collected_fits();
        let mut world = World::new(alloc)?;
        match collect(alloc, &mut world, self.files, self.options, self.exprs) {
            Ok(collected) => run_collected(alloc, self.options, world, collected, feed),
            Err(fault) => {
                drop(world);
                Err(memory_fault(&fault))
            }
        }
    }
}

/// The fault of a collection that was whole before: want of memory.
fn memory_fault(fault: &CollectFault) -> OutOfMemory
    requires { fault.now ≡ CollectFault.OutOfMemory }
{
    match fault {
        CollectFault::OutOfMemory => OutOfMemory,
        CollectFault::NotFound(_) | CollectFault::TooManyItems | CollectFault::Conftest(_, _) =>
            unreachable!(),
    }
}
