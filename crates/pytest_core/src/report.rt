// The report of what was collected.

ghost use Rattle.std.specs.Prelude.{◌≡◌, ◌+◌, ◌≤◌, IfOk, IsTrue, length, if◌then◌else◌};
ghost use Rattle.std.specs.List.{list_any};
ghost use Rattle.pytest_core.specs.Status.{is_said, status_seen};
ghost use Rattle.pytest_core.specs.Streamed.{rest_of};
ghost use Rattle.report_parts.specs.Limits.{most_items};
ghost use Rattle.worker_sessions.specs.run_items.report_rules.Answer as rules;

use crate::status::Status;
use cli_words::Options;
use report_parts::{is_failed, is_raised};
use report_text::{CollectReport, ItemReport, OutOfMemory, sections, summary};
use std::alloc::Global;

/// Whether an item failed or had an error.
fn is_bad(report: &ItemReport) -> bool
    ensures { result ≡ rules.is_bad report.now }
{
    is_failed(&report.call) || (is_raised(&report.setup) || is_raised(&report.teardown))
}

/// The status of a run that was interrupted, has failed or has no items: the first of these counts.
fn status_by(interrupted: bool, failed: bool, empty: bool) -> Status
    ensures answer { result ≡ status_seen (if interrupted then rules.Interrupted else (if failed then rules.Failed else (if empty then rules.NoTests else rules.Passed))) }
    ensures said { IsTrue (is_said result) }
{
    if interrupted {
        return Status::Interrupted;
    }
    if failed {
        return Status::Failed;
    }
    if empty {
        return Status::NoTests;
    }
    Status::Passed
}

fn any_bad(reports: &[ItemReport]) -> bool
    ensures { result ≡ list_any rules.is_bad reports.now }
{
    reports.iter().any(|report| is_bad(report))
}

/// The status of a report: files that could not be collected come first, then failures and errors.
pub fn status_of(selected: u32, errors: &[CollectReport], reports: &[ItemReport]) -> Status
    ensures answer { result ≡ status_seen (rules.status_of selected errors.now reports.now) }
    ensures said { IsTrue (is_said result) }
{
    status_by(!errors.is_empty(), any_bad(reports), selected == 0)
}

/// What stands behind what is written of the progress: the sections and the summary.
pub fn rest_bytes(
    alloc: Global,
    options: &Options,
    selected: u32,
    deselected: u32,
    errors: &[CollectReport],
    left: Vec<u8>,
    reports: &[ItemReport],
    stopped: bool,
) -> Result<Vec<u8>, OutOfMemory>
    requires items { selected + deselected ≤ most_items }
    requires errors { length errors.now ≤ most_items }
    ensures { IfOk result (λ bytes. bytes.items ≡ rest_of options.now selected deselected errors.now left.items reports.now stopped) }
{
    let mut out = left;
    let sections = sections(alloc, options, errors, reports)?;
    let summary = summary(
        alloc, options, errors, reports, selected, deselected, stopped,
    )?;
    out.extend_from_slice(&sections)?;
    out.extend_from_slice(&summary)?;
    Ok(out)
}
