ghost use Rattle.std.specs.Prelude.{◌≡◌, ◌≤◌, ◌+◌, ◌++◌, length, IfOk, OnOk, string_bytes};
ghost use Rattle.report_parts.specs.Limits.{most_items};
ghost use Rattle.report_text.specs.Summary.{collect_errors_behind, collected_text, deselected_behind, interrupted_text, last_text, stop_line, stopping_text, summary_of, tests_text};

use crate::short::push_short_summary;
use crate::tally::push_counts;
use cli_words::Options;
use report_parts::{CollectReport, ItemReport};
use seq::OutOfMemory;
use std::alloc::{AllocError, Global};
use std::fmt::Write;
use texts::{push_counted, push_title};

#[tactic(auto, unfolding(crate::specs::Summary::deselected_behind))]
fn push_deselected_behind(out: &mut String, deselected: u32) -> Result<(), AllocError>
    ensures { OnOk result (string_bytes out.new ≡ string_bytes out.old ++ deselected_behind deselected) }
{
    if deselected > 0 {
        write!(out, " ({deselected} deselected)")?;
    }
    Ok(())
}

#[tactic(auto, unfolding(crate::specs::Summary::collect_errors_behind))]
fn push_collect_errors_behind(out: &mut String, errors: usize) -> Result<(), AllocError>
    ensures { OnOk result (string_bytes out.new ≡ string_bytes out.old ++ collect_errors_behind errors) }
{
    if errors > 0 {
        out.push_str(", ")?;
        push_counted(out, errors, "error")?;
    }
    Ok(())
}

#[tactic(auto, unfolding(crate::specs::Summary::tests_text))]
fn push_tests(out: &mut String, selected: u32, deselected: u32) -> Result<(), AllocError>
    requires { selected + deselected ≤ most_items }
    ensures { OnOk result (string_bytes out.new ≡ string_bytes out.old ++ tests_text selected deselected) }
{
    if selected == 0 {
        out.push_str("no tests")?;
        return Ok(());
    }
    if deselected == 0 {
        push_counted(out, selected as usize, "test")?;
        return Ok(());
    }
    let all = selected + deselected;
    write!(out, "{selected}/{all} tests")?;
    Ok(())
}

#[tactic(auto, unfolding(crate::specs::Summary::collected_text))]
fn push_collected(
    out: &mut String,
    selected: u32,
    deselected: u32,
    errors: usize,
) -> Result<(), AllocError>
    requires { selected + deselected ≤ most_items }
    ensures { OnOk result (string_bytes out.new ≡ string_bytes out.old ++ collected_text selected deselected errors) }
{
    push_tests(out, selected, deselected)?;
    out.push_str(" collected")?;
    push_deselected_behind(out, deselected)?;
    push_collect_errors_behind(out, errors)?;
    Ok(())
}

#[tactic(auto, unfolding(crate::specs::Summary::interrupted_text))]
fn push_interrupted(out: &mut String, errors: usize) -> Result<(), AllocError>
    ensures { OnOk result (string_bytes out.new ≡ string_bytes out.old ++ interrupted_text errors) }
{
    out.push_str("Interrupted: ")?;
    push_counted(out, errors, "error")?;
    out.push_str(" during collection")?;
    Ok(())
}

#[tactic(auto, unfolding(crate::specs::Summary::stopping_text))]
fn push_stopping(out: &mut String, maxfail: u32) -> Result<(), AllocError>
    ensures { OnOk result (string_bytes out.new ≡ string_bytes out.old ++ stopping_text maxfail) }
{
    write!(out, "stopping after {maxfail} failures")
}

/// Pushes the line that says why a run stopped.
#[tactic(auto, unfolding(crate::specs::Summary::stop_line))]
fn push_stop_line(
    alloc: Global,
    out: &mut String,
    errors: usize,
    maxfail: u32,
    stopped: bool,
) -> Result<(), AllocError>
    ensures { OnOk result (string_bytes out.new ≡ string_bytes out.old ++ stop_line errors maxfail stopped) }
{
    let mut text = String::new(alloc);
    if errors > 0 {
        push_interrupted(&mut text, errors)?;
        push_title(out, '!', text.as_str())?;
        return Ok(());
    }
    if stopped {
        push_stopping(&mut text, maxfail)?;
        push_title(out, '!', text.as_str())?;
    }
    Ok(())
}

#[tactic(auto, unfolding(crate::specs::Summary::last_text))]
fn push_last_text(
    alloc: Global,
    out: &mut String,
    options: &Options,
    errors: &[CollectReport],
    reports: &[ItemReport],
    selected: u32,
    deselected: u32,
) -> Result<(), AllocError>
    requires { selected + deselected ≤ most_items }
    ensures { OnOk result (string_bytes out.new ≡ string_bytes out.old ++ last_text options.now errors.now reports.now selected deselected) }
{
    if options.collect_only {
        push_collected(out, selected, deselected, errors.len())?;
        return Ok(());
    }
    push_counts(alloc, out, errors, reports, deselected)?;
    Ok(())
}

#[tactic(auto, unfolding(crate::specs::Summary::summary_of))]
fn push_summary(
    alloc: Global,
    out: &mut String,
    options: &Options,
    errors: &[CollectReport],
    reports: &[ItemReport],
    selected: u32,
    deselected: u32,
    stopped: bool,
) -> Result<(), AllocError>
    requires { selected + deselected ≤ most_items }
    ensures { OnOk result (string_bytes out.new ≡ string_bytes out.old ++ summary_of options.now errors.now reports.now selected deselected stopped) }
{
    let mut text = String::new(alloc);
    push_last_text(
        alloc, &mut text, options, errors, reports, selected, deselected,
    )?;
    push_short_summary(out, errors, reports)?;
    push_stop_line(alloc, out, errors.len(), options.maxfail, stopped)?;
    push_title(out, '=', text.as_str())?;
    Ok(())
}

/// The short summary, the line that says why the run stopped, and the counts.
///
/// `selected` and `deselected` count items; `stopped` says that the run ended at `maxfail` failures.
pub fn summary(
    alloc: Global,
    options: &Options,
    errors: &[CollectReport],
    reports: &[ItemReport],
    selected: u32,
    deselected: u32,
    stopped: bool,
) -> Result<Vec<u8>, OutOfMemory>
    requires { selected + deselected ≤ most_items }
    ensures { IfOk result (λ bytes. bytes.items ≡ summary_of options.now errors.now reports.now selected deselected stopped) }
{
    let mut out = String::new(alloc);
    push_summary(
        alloc, &mut out, options, errors, reports, selected, deselected, stopped,
    )?;
    Ok(out.into_bytes())
}
