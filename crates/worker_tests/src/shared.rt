// Workers on the bench of eight tests.

ghost use Rattle.std.specs.Prelude.{◌≤◌, IfOk};
ghost use Rattle.cli_words.specs.Options.{defaults};
ghost use Rattle.worker_runs.specs.Runs.{IsRunOfWorkers};
ghost use Rattle.worker_tests.specs.Letters.{letters, letters_rules, letters_fixture};

use crate::letters::Letters;
use edge_io::Gate;
use seq::OutOfMemory;
use std::alloc::Global;
use std::thread::Threads;
use worker_runs::{WorkersRun, run_workers};

/// Lets so many workers run the eight tests: by some way to share the files among them, each is one thread over the tests of its files.
pub fn run_letters<R: Threads + Sync, G: Gate + Sync>(
    rt: &R,
    alloc: Global,
    workers: u32,
    gate: &G,
) -> Result<WorkersRun, OutOfMemory>
    requires { (1 ≤ workers) × (workers ≤ 4) }
    ensures { IfOk result (λ run. IsRunOfWorkers letters_rules letters_fixture defaults letters workers run) }
{
    let bench = Letters {
        sizes: [2, 2, 2, 2],
    };
    run_workers(rt, alloc, &bench, workers, gate)
}
