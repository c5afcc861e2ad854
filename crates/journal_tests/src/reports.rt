// Who takes the reports of a session.

use report_parts::ItemReport;
use runtest_loop::{ReceiveFail, Receiver};

/// Keeps each report.
#[derive(Drop)]
pub struct KeptReports {
    pub reports: Vec<ItemReport>,
}

impl Receiver for KeptReports {
    ghost use Rattle.std.specs.Prelude.{⊤};

    ghost taken = { λ kept. kept.reports.items };

    ghost faults = { λ kept. 0 };

    ghost stems = { λ first whole now. ⊤ };

    fn report(&mut self, report: ItemReport) -> Result<(), ReceiveFail> {
        match self.reports.push(report) {
            Ok(()) => Ok(()),
            Err(refused) => {
                drop(refused);
                Err(ReceiveFail::OutOfMemory)
            }
        }
    }
}
