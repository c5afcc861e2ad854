// A receiver that keeps the reports.

use report_parts::ItemReport;
use test_session::{ReceiveFail, Receiver};

/// The reports that were taken, in order.
#[derive(Drop)]
pub struct KeptReports {
    pub reports: Vec<ItemReport>,
}

impl Receiver for KeptReports {
    ghost use Rattle.std.specs.Prelude.{⊤};

    ghost taken = { λ kept. kept.reports.items };

    ghost faults = { λ kept. 0 };

    ghost stems = { λ first whole now. ⊤ };

    fn report(&mut self, report: ItemReport) -> Result<(), ReceiveFail> {
        if let Err(refused) = self.reports.push(report) {
            drop(refused);
            return Err(ReceiveFail::OutOfMemory);
        }
        Ok(())
    }
}
