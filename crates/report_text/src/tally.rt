ghost use Rattle.std.specs.Prelude.{◌≡◌, ◌≤◌, ◌*◌, ◌+◌, ◌++◌, length, codes, IfOk, OnOk, string_bytes, map};
ghost use Rattle.report_text.specs.Summary.{count_piece, counts_text, error_piece, first_pieces, last_pieces, times, times_in};

use report_parts::{CollectReport, ItemReport, Outcome, Phase};
use std::alloc::{AllocError, Global};
use texts::{push_counted, push_joined};

/// How often an item shows an outcome.
fn times_in(outcome: Outcome, report: &ItemReport) -> usize
    ensures count { result ≡ times_in outcome report.now }
    ensures most { result ≤ 3 }
{
    let setup = outcome.once(Phase::Setup.outcome(&report.setup));
    let call = outcome.once(Phase::Call.outcome(&report.call));
    let teardown = outcome.once(Phase::Teardown.outcome(&report.teardown));
    setup + call + teardown
}

/// How often an outcome is shown.
fn times(outcome: Outcome, reports: &[ItemReport]) -> usize
    ensures count { result ≡ times outcome reports.now }
    ensures most { result ≤ 3 * length reports.now }
{
    let mut count = 0;
    for report in reports {
        count += times_in(outcome, report);
    }
    count
}

fn push_count(
    alloc: Global,
    pieces: &mut Vec<String>,
    count: usize,
    noun: &str,
) -> Result<(), AllocError>
    ensures { OnOk result (map string_bytes pieces.new.items ≡ map string_bytes pieces.old.items ++ count_piece count noun.now) }
{
    if count > 0 {
        pieces.push(format!(in alloc; "{count} {noun}")?)?;
    }
    Ok(())
}

fn push_error_count(alloc: Global, pieces: &mut Vec<String>, count: usize) -> Result<(), AllocError>
    ensures { OnOk result (map string_bytes pieces.new.items ≡ map string_bytes pieces.old.items ++ error_piece count) }
{
    if count > 0 {
        let mut piece = String::new(alloc);
        push_counted(&mut piece, count, "error")?;
        pieces.push(piece)?;
    }
    Ok(())
}

#[tactic(auto, unfolding(crate::specs::Summary::first_pieces))]
fn push_first_counts(
    alloc: Global,
    pieces: &mut Vec<String>,
    reports: &[ItemReport],
    deselected: u32,
) -> Result<(), AllocError>
    ensures { OnOk result (map string_bytes pieces.new.items ≡ map string_bytes pieces.old.items ++ first_pieces reports.now deselected) }
{
    push_count(alloc, pieces, times(Outcome::Failed, reports), "failed")?;
    push_count(alloc, pieces, times(Outcome::Passed, reports), "passed")?;
    push_count(alloc, pieces, times(Outcome::Skipped, reports), "skipped")?;
    push_count(alloc, pieces, deselected as usize, "deselected")?;
    Ok(())
}

fn error_count(errors: &[CollectReport], reports: &[ItemReport]) -> usize
    ensures { result ≡ times Outcome.Error reports.now + length errors.now }
{
    times(Outcome::Error, reports) + errors.len()
}

#[tactic(auto, unfolding(crate::specs::Summary::last_pieces))]
fn push_last_counts(
    alloc: Global,
    pieces: &mut Vec<String>,
    errors: &[CollectReport],
    reports: &[ItemReport],
) -> Result<(), AllocError>
    ensures { OnOk result (map string_bytes pieces.new.items ≡ map string_bytes pieces.old.items ++ last_pieces errors.now reports.now) }
{
    push_count(alloc, pieces, times(Outcome::Xfailed, reports), "xfailed")?;
    push_count(alloc, pieces, times(Outcome::Xpassed, reports), "xpassed")?;
    push_error_count(alloc, pieces, error_count(errors, reports))?;
    Ok(())
}

/// The counts that are above 0, in their order.
fn count_pieces(
    alloc: Global,
    errors: &[CollectReport],
    reports: &[ItemReport],
    deselected: u32,
) -> Result<Vec<String>, AllocError>
    ensures { IfOk result (λ pieces. map string_bytes pieces.items ≡ first_pieces reports.now deselected ++ last_pieces errors.now reports.now) }
{
    let mut pieces = Vec::new(alloc);
    push_first_counts(alloc, &mut pieces, reports, deselected)?;
    push_last_counts(alloc, &mut pieces, errors, reports)?;
    Ok(pieces)
}

fn push_pieces(out: &mut String, pieces: &[String]) -> Result<(), AllocError>
    ensures { OnOk result (string_bytes out.new ≡ string_bytes out.old ++ counts_text (map string_bytes pieces.now)) }
{
    match pieces {
        [] => out.push_str("no tests ran")?,
        _ => push_joined(out, ", ", pieces)?,
    }
    Ok(())
}

/// Pushes the counts of the outcomes.
pub(crate) fn push_counts(
    alloc: Global,
    out: &mut String,
    errors: &[CollectReport],
    reports: &[ItemReport],
    deselected: u32,
) -> Result<(), AllocError>
    ensures { OnOk result (string_bytes out.new ≡ string_bytes out.old ++ counts_text (first_pieces reports.now deselected ++ last_pieces errors.now reports.now)) }
{
    let pieces = count_pieces(alloc, errors, reports, deselected)?;
    push_pieces(out, &pieces)?;
    Ok(())
}
