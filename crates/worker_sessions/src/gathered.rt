// The reports of a run, gathered.

use report_parts::ItemReport;
use runtest_loop::{ReceiveFail, Receiver};

/// The reports of a run, in order.
#[derive(Drop)]
pub struct ReportList {
    pub reports: Vec<ItemReport>,
}

impl Receiver for ReportList {
    ghost use Rattle.std.specs.Prelude.{⊤};

    ghost taken = { λ gathered. gathered.reports.items };

    ghost faults = { λ gathered. 0 };

    ghost stems = { λ first whole now. ⊤ };

    fn report(&mut self, report: ItemReport) -> Result<(), ReceiveFail> {
        match self.reports.push(report) {
            Ok(()) => Ok(()),
            Err(refused) => {
                drop(refused);
                Err(ReceiveFail::OutOfMemory)
            }
        }
    }
}
