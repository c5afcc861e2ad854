ghost use Rattle.std.specs.Prelude.{◌≡◌, ℕ, ◌<◌, ◌≤◌, List, Option, None, length, take, IfOk, OnOk, OnErr};
ghost use Rattle.edge_io.specs.Causes.{HasCause};
ghost use Rattle.edge_io.specs.Told.{Appends, AppendsPrefix};

use std::io::Write;
use std::marker::Model;

/// Why a sink took nothing.
#[derive(Clone, Copy, Debug, PartialEq, Eq)]
pub enum SinkFail {
    /// The sink failed, and its count of faults rose.
    Failed,
    OutOfMemory,
}

/// Where bytes are written.
pub trait Sink {
    /// The bytes written, where the sink tells them.
    ghost told: { Self → Option (List ℕ) };

    /// How often the sink has failed, at most 2^64 - 1. The count never falls, and one that stands at
    /// its end counts as risen.
    ghost faults: { Self → ℕ };

    /// Takes one or more bytes from the front of a piece that is not empty, and says how many.
    ///
    /// An error takes nothing.
    fn put(&mut self, bytes: &[u8]) -> Result<usize, SinkFail>
        requires { 0 < length bytes.now }
        ensures some { IfOk result (λ n. 0 < n) }
        ensures most { IfOk result (λ n. n ≤ length bytes.now) }
        ensures ok { IfOk result (λ n. Appends (told self.old) (told self.new) (take n bytes.now)) }
        ensures err { OnErr result (told self.new ≡ told self.old) }
        ensures cause { HasCause SinkFail.Failed (faults self.old) (faults self.new) result };
}

/// Writes all the bytes, or a prefix of them where the sink fails; behind a failure nothing more is put.
pub fn put_all<S: Sink>(out: &mut S, bytes: &[u8]) -> Result<(), SinkFail>
    ensures ok { OnOk result (Appends (S.told out.old) (S.told out.new) bytes.now) }
    ensures prefix { AppendsPrefix (S.told out.old) (S.told out.new) bytes.now }
    ensures cause { HasCause SinkFail.Failed (S.faults out.old) (S.faults out.new) result }
{
    let mut at = 0;
    while at < bytes.len() {
        let (_, rest) = bytes.split_at(at);
        at += out.put(rest)?;
    }
    Ok(())
}

/// A sink over any writer, as the standard output. It tells its faults alone, and is seen as their count.
#[derive(Drop)]
pub struct StdSink<W: Write + Drop> {
    writer: W,
    faults: u64,
}

impl<W: Write + Drop> Model for StdSink<W> {
    ghost use Rattle.std.specs.Prelude.{ℕ};

    ghost Value = { ℕ };

    ghost view = { λ sink. sink.faults };
}

impl<W: Write + Drop> StdSink<W> {
    /// A sink that writes to a writer, with no fault so far.
    pub fn new(writer: W) -> Self
        ensures { result ≡ 0 }
    {
        StdSink { writer, faults: 0 }
    }
}

impl<W: Write + Drop> Sink for StdSink<W> {
    ghost told = { λ _. None };

    ghost faults = { λ sink. sink };

    fn put(&mut self, bytes: &[u8]) -> Result<usize, SinkFail> {
        match self.writer.write(bytes) {
            Ok(count) if count > 0 => Ok(count),
            _ => {
                self.faults = self.faults.saturating_add(1);
                Err(SinkFail::Failed)
            }
        }
    }
}
