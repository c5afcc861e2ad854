ghost use Rattle.std.specs.Prelude.{◌≡◌, [], ◌++◌, ◌||◌, codes, OnOk, string_bytes, flat_map};
ghost use Rattle.std.specs.List.{list_any};
ghost use Rattle.report_parts.specs.Outcomes.{has_error, has_failed, not_empty};
ghost use Rattle.report_text.specs.Summary.{collect_line, end_text, item_error_lines, failed_line, first_told, setup_line, short_summary, summary_line, teardown_line};

use report_parts::{
    CollectReport, ItemReport, PhaseEnd, Told, any_error, any_failed, is_failed, is_raised,
    push_first_line, push_strict_first,
};
use std::alloc::AllocError;
use std::fmt::Write;
use texts::push_title;

fn push_first_told(out: &mut String, tolds: &[Told]) -> Result<(), AllocError>
    ensures { OnOk result (string_bytes out.new ≡ string_bytes out.old ++ first_told tolds.now) }
{
    if let Some((told, _)) = tolds.split_first() {
        push_first_line(out, told.text.chars())?;
    }
    Ok(())
}

fn push_end_text(out: &mut String, end: &PhaseEnd) -> Result<(), AllocError>
    ensures { OnOk result (string_bytes out.new ≡ string_bytes out.old ++ end_text end.now) }
{
    match end {
        PhaseEnd::StrictXpassed(_, reason) => push_strict_first(out, reason.chars())?,
        PhaseEnd::Raised(tolds) => push_first_told(out, tolds.items())?,
        PhaseEnd::NotRun
        | PhaseEnd::Passed
        | PhaseEnd::Skipped
        | PhaseEnd::Xfailed
        | PhaseEnd::Xpassed => {}
    }
    Ok(())
}

#[tactic(auto, unfolding(crate::specs::Summary::summary_line))]
fn push_summary_line(
    out: &mut String,
    kind: &str,
    name: &str,
    end: &PhaseEnd,
) -> Result<(), AllocError>
    ensures { OnOk result (string_bytes out.new ≡ string_bytes out.old ++ summary_line kind.now name.now (end_text end.now)) }
{
    write!(out, "{kind} {name} - ")?;
    push_end_text(out, end)?;
    out.push_str("\n")?;
    Ok(())
}

#[tactic(auto, unfolding(crate::specs::Summary::failed_line))]
fn push_failed_line(out: &mut String, report: &ItemReport) -> Result<(), AllocError>
    ensures { OnOk result (string_bytes out.new ≡ string_bytes out.old ++ failed_line report.now) }
{
    if is_failed(&report.call) {
        push_summary_line(out, "FAILED", report.node_id.text(), &report.call)?;
    }
    Ok(())
}

#[tactic(auto, unfolding(crate::specs::Summary::setup_line))]
fn push_setup_line(out: &mut String, report: &ItemReport) -> Result<(), AllocError>
    ensures { OnOk result (string_bytes out.new ≡ string_bytes out.old ++ setup_line report.now) }
{
    if is_raised(&report.setup) {
        push_summary_line(out, "ERROR", report.node_id.text(), &report.setup)?;
    }
    Ok(())
}

#[tactic(auto, unfolding(crate::specs::Summary::teardown_line))]
fn push_teardown_line(out: &mut String, report: &ItemReport) -> Result<(), AllocError>
    ensures { OnOk result (string_bytes out.new ≡ string_bytes out.old ++ teardown_line report.now) }
{
    if is_raised(&report.teardown) {
        push_summary_line(out, "ERROR", report.node_id.text(), &report.teardown)?;
    }
    Ok(())
}

#[tactic(auto, unfolding(crate::specs::Summary::item_error_lines))]
fn push_item_error_lines(out: &mut String, report: &ItemReport) -> Result<(), AllocError>
    ensures { OnOk result (string_bytes out.new ≡ string_bytes out.old ++ item_error_lines report.now) }
{
    push_setup_line(out, report)?;
    push_teardown_line(out, report)?;
    Ok(())
}

#[tactic(auto, unfolding(crate::specs::Summary::collect_line, crate::specs::Summary::summary_line))]
fn push_collect_line(out: &mut String, error: &CollectReport) -> Result<(), AllocError>
    ensures { OnOk result (string_bytes out.new ≡ string_bytes out.old ++ collect_line error.now) }
{
    let file = error.file.text();
    write!(out, "ERROR {file} - ")?;
    push_first_line(out, error.told.text.chars())?;
    out.push_str("\n")?;
    Ok(())
}

fn push_failed_lines(out: &mut String, reports: &[ItemReport]) -> Result<(), AllocError>
    ensures { OnOk result (string_bytes out.new ≡ string_bytes out.old ++ flat_map failed_line reports.now) }
{
    for report in reports {
        push_failed_line(out, report)?;
    }
    Ok(())
}

fn push_collect_lines(out: &mut String, errors: &[CollectReport]) -> Result<(), AllocError>
    ensures { OnOk result (string_bytes out.new ≡ string_bytes out.old ++ flat_map collect_line errors.now) }
{
    for error in errors {
        push_collect_line(out, error)?;
    }
    Ok(())
}

fn push_all_item_error_lines(out: &mut String, reports: &[ItemReport]) -> Result<(), AllocError>
    ensures { OnOk result (string_bytes out.new ≡ string_bytes out.old ++ flat_map item_error_lines reports.now) }
{
    for report in reports {
        push_item_error_lines(out, report)?;
    }
    Ok(())
}

/// Pushes a line for each failure and error, where there are some.
#[tactic(auto, unfolding(crate::specs::Summary::short_summary))]
pub(crate) fn push_short_summary(
    out: &mut String,
    errors: &[CollectReport],
    reports: &[ItemReport],
) -> Result<(), AllocError>
    ensures { OnOk result (string_bytes out.new ≡ string_bytes out.old ++ short_summary errors.now reports.now) }
{
    if any_failed(reports) || any_error(errors, reports) {
        push_title(out, '=', "short test summary info")?;
        push_failed_lines(out, reports)?;
        push_collect_lines(out, errors)?;
        push_all_item_error_lines(out, reports)?;
    }
    Ok(())
}
