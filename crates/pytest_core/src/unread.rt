// A command line with a word that is no text.

ghost use Rattle.std.specs.Prelude.{◌≡◌};
ghost use Rattle.edge_io.specs.Causes.{Rose};
ghost use Rattle.pytest_core.specs.Unread.{unread_words};
ghost use Rattle.pytest_core.specs.Written.{Wrote};

use crate::refusal::refuse;
use crate::status::Status;
use edge_io::{Sink, SinkFail, put_all};
use report_text::OutOfMemory;
use std::alloc::Global;

/// Refuses a command line with a word that is not UTF-8. No tree is read.
pub fn refuse_unread_words<S: Sink>(alloc: Global, out: &mut S) -> Status
    ensures report { Wrote (λ answer. answer ≡ unread_words) (S.told out.old) (S.told out.new) result }
    ensures tree { ¬ (result ≡ Status.TreeFault) }
    ensures sink { result ≡ Status.SinkFault → Rose (S.faults out.old) (S.faults out.new) }
{
    let (bytes, status) = match refuse(alloc, "a word is not UTF-8") {
        Ok(response) => response,
        Err(OutOfMemory) => return Status::OutOfMemory,
    };
    match put_all(out, &bytes) {
        Ok(()) => status,
        Err(SinkFail::Failed) => Status::SinkFault,
        Err(SinkFail::OutOfMemory) => Status::OutOfMemory,
    }
}
