ghost use Rattle.std.specs.Prelude.{◌≡◌, [], ◌++◌, IfOk, OnOk, string_bytes, flat_map, if◌then◌else◌};
ghost use Rattle.report_blocks.specs.Blocks.{captured_setup, captured_to_call, captured_to_teardown, collect_block, collect_captured, error_blocks, errors_section, failure_block, failures_section, is_full, sections_of, setup_block, teardown_block};

use crate::block::{
    push_captured, push_captured_to_call, push_captured_to_teardown, push_opening,
    push_setup_captured,
};
use cli_words::{Options, Tb};
use report_parts::{
    CollectReport, ItemReport, any_error, any_failed, is_failed, is_raised, push_short_told,
    push_told,
};
use seq::OutOfMemory;
use std::alloc::{AllocError, Global};
use std::fmt::Write;
use texts::push_title;

fn is_full(tb: Tb) -> bool
    ensures { result ≡ is_full tb }
{
    match tb {
        Tb::Short => true,
        Tb::Line | Tb::No => false,
    }
}

fn title_of(alloc: Global, front: &str, name: &str) -> Result<String, AllocError>
    ensures { IfOk result (λ title. string_bytes title ≡ front.now ++ name.now) }
{
    format!(in alloc; "{front}{name}")
}

fn push_setup_details(out: &mut String, tb: Tb, report: &ItemReport) -> Result<(), AllocError>
    ensures { OnOk result (string_bytes out.new ≡ string_bytes out.old ++ (if is_full tb then captured_setup report.now else [])) }
{
    if is_full(tb) {
        push_setup_captured(out, report)?;
    }
    Ok(())
}

fn push_call_details(out: &mut String, tb: Tb, report: &ItemReport) -> Result<(), AllocError>
    ensures { OnOk result (string_bytes out.new ≡ string_bytes out.old ++ (if is_full tb then captured_to_call report.now else [])) }
{
    if is_full(tb) {
        push_captured_to_call(out, report)?;
    }
    Ok(())
}

fn push_teardown_details(out: &mut String, tb: Tb, report: &ItemReport) -> Result<(), AllocError>
    ensures { OnOk result (string_bytes out.new ≡ string_bytes out.old ++ (if is_full tb then captured_to_teardown report.now else [])) }
{
    if is_full(tb) {
        push_captured_to_teardown(out, report)?;
    }
    Ok(())
}

#[tactic(auto, unfolding(crate::specs::Blocks::setup_block, crate::specs::Blocks::block_lines))]
fn push_setup_block(
    alloc: Global,
    out: &mut String,
    tb: Tb,
    report: &ItemReport,
) -> Result<(), AllocError>
    ensures { OnOk result (string_bytes out.new ≡ string_bytes out.old ++ setup_block tb report.now) }
{
    if is_raised(&report.setup) {
        let title = title_of(alloc, "ERROR at setup of ", report.title.text())?;
        push_opening(out, tb, title.as_str(), &report.setup)?;
        push_setup_details(out, tb, report)?;
    }
    Ok(())
}

#[tactic(auto, unfolding(crate::specs::Blocks::teardown_block, crate::specs::Blocks::block_lines))]
fn push_teardown_block(
    alloc: Global,
    out: &mut String,
    tb: Tb,
    report: &ItemReport,
) -> Result<(), AllocError>
    ensures { OnOk result (string_bytes out.new ≡ string_bytes out.old ++ teardown_block tb report.now) }
{
    if is_raised(&report.teardown) {
        let title = title_of(alloc, "ERROR at teardown of ", report.title.text())?;
        push_opening(out, tb, title.as_str(), &report.teardown)?;
        push_teardown_details(out, tb, report)?;
    }
    Ok(())
}

#[tactic(auto, unfolding(crate::specs::Blocks::failure_block, crate::specs::Blocks::block_lines))]
fn push_failure_block(out: &mut String, tb: Tb, report: &ItemReport) -> Result<(), AllocError>
    ensures { OnOk result (string_bytes out.new ≡ string_bytes out.old ++ failure_block tb report.now) }
{
    if is_failed(&report.call) {
        push_opening(out, tb, report.title.text(), &report.call)?;
        push_call_details(out, tb, report)?;
    }
    Ok(())
}

#[tactic(auto, unfolding(crate::specs::Blocks::error_blocks))]
fn push_error_blocks(
    alloc: Global,
    out: &mut String,
    tb: Tb,
    report: &ItemReport,
) -> Result<(), AllocError>
    ensures { OnOk result (string_bytes out.new ≡ string_bytes out.old ++ error_blocks tb report.now) }
{
    push_setup_block(alloc, out, tb, report)?;
    push_teardown_block(alloc, out, tb, report)?;
    Ok(())
}

#[tactic(auto, unfolding(crate::specs::Blocks::collect_captured))]
fn push_collect_captured(out: &mut String, error: &CollectReport) -> Result<(), AllocError>
    ensures { OnOk result (string_bytes out.new ≡ string_bytes out.old ++ collect_captured error.now) }
{
    push_captured(out, "Captured stdout", error.captured.text())?;
    Ok(())
}

#[tactic(auto, unfolding(crate::specs::Blocks::collect_block))]
fn push_collect_block(
    alloc: Global,
    out: &mut String,
    tb: Tb,
    error: &CollectReport,
) -> Result<(), AllocError>
    ensures { OnOk result (string_bytes out.new ≡ string_bytes out.old ++ collect_block tb error.now) }
{
    match tb {
        Tb::Short => {
            let title = title_of(alloc, "ERROR collecting ", error.file.text())?;
            push_title(out, '_', title.as_str())?;
            push_told(out, &error.told)?;
            push_collect_captured(out, error)?;
        }
        Tb::Line => push_short_told(out, &error.told)?,
        Tb::No => {}
    }
    Ok(())
}

fn push_all_collect_blocks(
    alloc: Global,
    out: &mut String,
    tb: Tb,
    errors: &[CollectReport],
) -> Result<(), AllocError>
    ensures { OnOk result (string_bytes out.new ≡ string_bytes out.old ++ flat_map (collect_block tb) errors.now) }
{
    for error in errors {
        push_collect_block(alloc, out, tb, error)?;
    }
    Ok(())
}

fn push_all_error_blocks(
    alloc: Global,
    out: &mut String,
    tb: Tb,
    reports: &[ItemReport],
) -> Result<(), AllocError>
    ensures { OnOk result (string_bytes out.new ≡ string_bytes out.old ++ flat_map (error_blocks tb) reports.now) }
{
    for report in reports {
        push_error_blocks(alloc, out, tb, report)?;
    }
    Ok(())
}

fn push_all_failure_blocks(
    out: &mut String,
    tb: Tb,
    reports: &[ItemReport],
) -> Result<(), AllocError>
    ensures { OnOk result (string_bytes out.new ≡ string_bytes out.old ++ flat_map (failure_block tb) reports.now) }
{
    for report in reports {
        push_failure_block(out, tb, report)?;
    }
    Ok(())
}

#[tactic(auto, unfolding(crate::specs::Blocks::errors_section))]
fn push_errors(
    alloc: Global,
    out: &mut String,
    tb: Tb,
    errors: &[CollectReport],
    reports: &[ItemReport],
) -> Result<(), AllocError>
    ensures { OnOk result (string_bytes out.new ≡ string_bytes out.old ++ errors_section tb errors.now reports.now) }
{
    if any_error(errors, reports) {
        push_title(out, '=', "ERRORS")?;
        push_all_collect_blocks(alloc, out, tb, errors)?;
        push_all_error_blocks(alloc, out, tb, reports)?;
    }
    Ok(())
}

#[tactic(auto, unfolding(crate::specs::Blocks::failures_section))]
fn push_failures(out: &mut String, tb: Tb, reports: &[ItemReport]) -> Result<(), AllocError>
    ensures { OnOk result (string_bytes out.new ≡ string_bytes out.old ++ failures_section tb reports.now) }
{
    if any_failed(reports) {
        push_title(out, '=', "FAILURES")?;
        push_all_failure_blocks(out, tb, reports)?;
    }
    Ok(())
}

#[tactic(auto, unfolding(crate::specs::Blocks::sections_of))]
fn push_sections(
    alloc: Global,
    out: &mut String,
    tb: Tb,
    errors: &[CollectReport],
    reports: &[ItemReport],
) -> Result<(), AllocError>
    ensures { OnOk result (string_bytes out.new ≡ string_bytes out.old ++ sections_of tb errors.now reports.now) }
{
    match tb {
        Tb::No => {}
        Tb::Short | Tb::Line => {
            push_errors(alloc, out, tb, errors, reports)?;
            push_failures(out, tb, reports)?;
        }
    }
    Ok(())
}

/// The blocks of the errors, and then those of the failures, each under a title.
pub fn sections(
    alloc: Global,
    options: &Options,
    errors: &[CollectReport],
    reports: &[ItemReport],
) -> Result<Vec<u8>, OutOfMemory>
    ensures { IfOk result (λ bytes. bytes.items ≡ sections_of options.now.tb errors.now reports.now) }
{
    let mut out = String::new(alloc);
    push_sections(alloc, &mut out, options.tb, errors, reports)?;
    Ok(out.into_bytes())
}
