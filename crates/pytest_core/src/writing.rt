// What is put into the sink.

ghost use Rattle.std.specs.Prelude.{◌≡◌, IfErr, OnOk};
ghost use Rattle.edge_io.specs.Causes.{HasCause};
ghost use Rattle.edge_io.specs.Told.{Appends, AppendsPrefix};
ghost use Rattle.pytest_core.specs.Streamed.{Broke, PutBy};

use crate::refusal::{Response, RunFault};
use crate::status::Status;
use edge_io::{Sink, SinkFail, put_all};

/// Writes bytes.
pub fn put<S: Sink>(bytes: &[u8], out: &mut S) -> Result<(), RunFault>
    ensures ok { OnOk result (Appends (S.told out.old) (S.told out.new) bytes.now) }
    ensures broke { IfErr result (Broke (AppendsPrefix (S.told out.old) (S.told out.new) bytes.now)) }
    ensures sink { HasCause RunFault.Sink (S.faults out.old) (S.faults out.new) result }
{
    match put_all(out, bytes) {
        Ok(()) => Ok(()),
        Err(SinkFail::Failed) => Err(RunFault::Sink),
        Err(SinkFail::OutOfMemory) => Err(RunFault::OutOfMemory),
    }
}

/// Writes a response.
pub fn put_response<S: Sink>(response: Response, out: &mut S) -> Result<Status, RunFault>
    ensures put { PutBy response.0.items response.1 (S.told out.old) (S.told out.new) result }
    ensures sink { HasCause RunFault.Sink (S.faults out.old) (S.faults out.new) result }
{
    let (bytes, status) = response;
    match put(bytes.as_slice(), out) {
        Ok(()) => Ok(status),
        Err(fault) => Err(fault),
    }
}
