ghost use Rattle.std.specs.Prelude.{◌≡◌, IfSome, map, string_bytes};
ghost use Rattle.edge_io.specs.Causes.{Rose};
ghost use Rattle.pytest_core.specs.Report.{AskForRun, IsTreeReport};
ghost use Rattle.pytest_core.specs.Written.{Wrote};

use crate::answer::put_answer;
use crate::refusal::RunFault;
use crate::status::Status;
use edge_io::{Gate, Sink, Tree};
use std::alloc::Global;
use std::thread::Threads;

/// Runs the tests that the words name, and writes the report as it becomes known: the head when the tests are collected, the progress of
/// each test as it ends, and then the rest.
///
/// The words are those of the command line behind the program's name. Nothing is written before all
/// files were read, and nothing runs or is put behind a fault of the sink.
pub fn pytest_main<R: Threads + Sync, T: Tree, S: Sink, G: Gate + Sync>(
    rt: &R,
    alloc: Global,
    words: &[String],
    tree: &mut T,
    out: &mut S,
    gate: &G,
) -> Status
    // The bytes written and the status are the report's: all of them, or under a fault a prefix.
    ensures report { IfSome (T.files tree.old) (λ files. Wrote (IsTreeReport (map string_bytes words.now) files) (S.told out.old) (S.told out.new) result) }
    // The tree's fault comes only where its count rose, and the words ask for a run.
    ensures tree { result ≡ Status.TreeFault → Rose (T.faults tree.old) (T.faults tree.new) }
    // Nothing is written then, whatever the tree is.
    ensures untouched { result ≡ Status.TreeFault → S.told out.new ≡ S.told out.old }
    ensures read { result ≡ Status.TreeFault → AskForRun (map string_bytes words.now) }
    // The sink's fault comes only where its count rose.
    ensures sink { result ≡ Status.SinkFault → Rose (S.faults out.old) (S.faults out.new) }
{
    match put_answer(rt, alloc, words, tree, out, gate) {
        Ok(status) => status,
        Err(RunFault::Tree) => Status::TreeFault,
        Err(RunFault::Sink) => Status::SinkFault,
        Err(RunFault::OutOfMemory) => Status::OutOfMemory,
    }
}
