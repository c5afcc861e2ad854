// The reports of a run, whose progress is written as they come.

ghost use Rattle.std.specs.Prelude.{◌≡◌};

use cli_words::Options;
use edge_io::{Sink, SinkFail, put_all};
use report_parts::ItemReport;
use report_pieces::piece;
use runtest_loop::{ReceiveFail, Receiver};
use std::alloc::Global;

/// Takes the reports of a run, and writes the piece of the progress of each as it comes.
#[derive(Drop)]
pub struct ReportWriter<'a, S> {
    pub alloc: Global,
    pub options: &'a Options,
    pub out: &'a mut S,
    pub reports: Vec<ItemReport>,
    /// Whether the sink failed. Nothing is put from then on.
    pub failed: bool,
}

/// Lets go of what a writer wrote to, which stays as it is.
pub fn let_go<S>(out: &mut S)
    ensures { out.new ≡ out.old }
{}

impl<'a, S: Sink> Receiver for ReportWriter<'a, S> {
    ghost use Rattle.pytest_core.specs.Streamed.{Stems, times_failed};

    ghost taken = { λ writer. writer.reports.items };

    ghost faults = { λ writer. times_failed writer.failed };

    ghost stems = { λ first whole now. Stems S.told S.faults first whole now };

    fn report(&mut self, report: ItemReport) -> Result<(), ReceiveFail> {
        if self.failed {
            drop(report);
            return Err(ReceiveFail::OutOfMemory);
        }
        let Ok(bytes) = piece(self.alloc, self.options, self.reports.as_slice(), &report) else {
            drop(report);
            return Err(ReceiveFail::OutOfMemory);
        };
        if let Err(refused) = self.reports.push(report) {
            drop(refused);
            return Err(ReceiveFail::OutOfMemory);
        }
        match put_all(self.out, &bytes) {
            Ok(()) => Ok(()),
            Err(SinkFail::Failed) => {
                self.failed = true;
                Err(ReceiveFail::Failed)
            }
            Err(SinkFail::OutOfMemory) => Err(ReceiveFail::OutOfMemory),
        }
    }
}
