use crate::case::{Case, Outside};
use crate::draws::DrawGate;
use crate::scarce::Scarce;
use edge_io::{MemSink, MemTree, SureTree};
use pytest_core::{pytest_main, refuse_unread_words};
use std::alloc::{AllocError, Global};
use std::sync::atomic::Ordering;
use std::thread::Threads;

/// What a run wrote and answered, how often it put something, and how often one of its workers was held for too long.
#[derive(Drop)]
pub struct Run {
    pub output: Vec<u8>,
    pub status: u8,
    pub puts: u64,
    pub late: u64,
}

/// Files that are others' equals.
pub fn copied(
    alloc: Global,
    files: &[(String, Vec<u8>)],
) -> Result<Vec<(String, Vec<u8>)>, AllocError> {
    let mut copies = Vec::new(alloc);
    for file in files {
        copies.push((file.0.clone()?, file.1.clone()?))?;
    }
    Ok(copies)
}

/// Runs the words of a case over files.
pub fn run_case<R: Threads + Sync>(
    rt: &R,
    alloc: Global,
    case: &Case,
    files: Vec<(String, Vec<u8>)>,
    outside: Outside,
) -> Result<Run, AllocError> {
    let tree = SureTree::new(alloc, files);
    let mut tree = Scarce {
        outside: MemTree::new(tree, vec![in alloc; outside.tree_fails]?),
        wants_memory: outside.wants_memory,
    };
    let sink_fails = vec![in alloc; outside.sink_fails]?;
    let mut out = Scarce {
        outside: MemSink::new(alloc, outside.sink_takes, sink_fails),
        wants_memory: outside.wants_memory,
    };
    let gate = DrawGate::new(case.draws.clone()?);
    let status = if outside.has_unread_word {
        refuse_unread_words(alloc, &mut out)
    } else {
        pytest_main(rt, alloc, &case.words, &mut tree, &mut out, &gate)
    };
    Ok(Run {
        output: Vec::from_slice(alloc, out.outside.bytes())?,
        status: status.number(),
        puts: out.outside.calls(),
        late: gate.late.load(Ordering::SeqCst),
    })
}
