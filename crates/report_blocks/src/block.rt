ghost use Rattle.std.specs.Prelude.{◌≡◌, [], ◌++◌, OnOk, string_bytes, flat_map, codes, if◌then◌else◌};
ghost use Rattle.report_blocks.specs.Blocks.{block_opening, captured_call, captured_lines, captured_setup, captured_teardown, captured_to_call, captured_to_teardown, end_lines, has_line_end, short_end};
ghost use Rattle.report_parts.specs.Exceptions.{short_told, told_lines};

use cli_words::Tb;
use report_parts::{
    ItemReport, PhaseEnd, Told, push_at_frame, push_short_told, push_strict, push_strict_first,
    push_told,
};
use std::alloc::AllocError;
use texts::push_title;

fn push_end_of_line(out: &mut String, text: &str) -> Result<(), AllocError>
    ensures { OnOk result (string_bytes out.new ≡ string_bytes out.old ++ (if has_line_end text.now then [] else codes "\n")) }
{
    match text.as_bytes() {
        [.., last] if *last == b'\n' => {}
        _ => out.push_str("\n")?,
    }
    Ok(())
}

/// Pushes what a phase printed, under its title.
#[tactic(auto, unfolding(crate::specs::Blocks::captured_lines))]
pub(crate) fn push_captured(out: &mut String, name: &str, text: &str) -> Result<(), AllocError>
    ensures { OnOk result (string_bytes out.new ≡ string_bytes out.old ++ captured_lines name.now text.now) }
{
    if !text.is_empty() {
        push_title(out, '-', name)?;
        out.push_str(text)?;
        push_end_of_line(out, text)?;
    }
    Ok(())
}

fn push_tolds(out: &mut String, tolds: &[Told]) -> Result<(), AllocError>
    ensures { OnOk result (string_bytes out.new ≡ string_bytes out.old ++ flat_map told_lines tolds.now) }
{
    for told in tolds {
        push_told(out, told)?;
    }
    Ok(())
}

fn push_short_tolds(out: &mut String, tolds: &[Told]) -> Result<(), AllocError>
    ensures { OnOk result (string_bytes out.new ≡ string_bytes out.old ++ flat_map short_told tolds.now) }
{
    for told in tolds {
        push_short_told(out, told)?;
    }
    Ok(())
}

fn push_end(out: &mut String, end: &PhaseEnd) -> Result<(), AllocError>
    ensures { OnOk result (string_bytes out.new ≡ string_bytes out.old ++ end_lines end.now) }
{
    match end {
        PhaseEnd::StrictXpassed(_, reason) => {
            push_strict(out, reason.chars())?;
            out.push_str("\n")?;
        }
        PhaseEnd::Raised(tolds) => push_tolds(out, tolds.items())?,
        PhaseEnd::NotRun
        | PhaseEnd::Passed
        | PhaseEnd::Skipped
        | PhaseEnd::Xfailed
        | PhaseEnd::Xpassed => {}
    }
    Ok(())
}

fn push_short_end(out: &mut String, end: &PhaseEnd) -> Result<(), AllocError>
    ensures { OnOk result (string_bytes out.new ≡ string_bytes out.old ++ short_end end.now) }
{
    match end {
        PhaseEnd::StrictXpassed(frame, reason) => {
            push_at_frame(out, frame)?;
            push_strict_first(out, reason.chars())?;
            out.push_str("\n")?;
        }
        PhaseEnd::Raised(tolds) => push_short_tolds(out, tolds.items())?,
        PhaseEnd::NotRun
        | PhaseEnd::Passed
        | PhaseEnd::Skipped
        | PhaseEnd::Xfailed
        | PhaseEnd::Xpassed => {}
    }
    Ok(())
}

#[tactic(auto, unfolding(crate::specs::Blocks::captured_setup))]
pub(crate) fn push_setup_captured(out: &mut String, report: &ItemReport) -> Result<(), AllocError>
    ensures { OnOk result (string_bytes out.new ≡ string_bytes out.old ++ captured_setup report.now) }
{
    push_captured(out, "Captured stdout setup", report.captured.0.text())?;
    Ok(())
}

#[tactic(auto, unfolding(crate::specs::Blocks::captured_call))]
fn push_call_captured(out: &mut String, report: &ItemReport) -> Result<(), AllocError>
    ensures { OnOk result (string_bytes out.new ≡ string_bytes out.old ++ captured_call report.now) }
{
    push_captured(out, "Captured stdout call", report.captured.1.text())?;
    Ok(())
}

#[tactic(auto, unfolding(crate::specs::Blocks::captured_teardown))]
fn push_teardown_captured(out: &mut String, report: &ItemReport) -> Result<(), AllocError>
    ensures { OnOk result (string_bytes out.new ≡ string_bytes out.old ++ captured_teardown report.now) }
{
    push_captured(out, "Captured stdout teardown", report.captured.2.text())?;
    Ok(())
}

pub(crate) fn push_captured_to_call(out: &mut String, report: &ItemReport) -> Result<(), AllocError>
    ensures { OnOk result (string_bytes out.new ≡ string_bytes out.old ++ captured_to_call report.now) }
{
    push_setup_captured(out, report)?;
    push_call_captured(out, report)?;
    Ok(())
}

pub(crate) fn push_captured_to_teardown(
    out: &mut String,
    report: &ItemReport,
) -> Result<(), AllocError>
    ensures { OnOk result (string_bytes out.new ≡ string_bytes out.old ++ captured_to_teardown report.now) }
{
    push_captured_to_call(out, report)?;
    push_teardown_captured(out, report)?;
    Ok(())
}

#[tactic(auto, unfolding(crate::specs::Blocks::block_opening))]
pub(crate) fn push_opening(
    out: &mut String,
    tb: Tb,
    title: &str,
    end: &PhaseEnd,
) -> Result<(), AllocError>
    ensures { OnOk result (string_bytes out.new ≡ string_bytes out.old ++ block_opening tb title.now end.now) }
{
    match tb {
        Tb::Short => {
            push_title(out, '_', title)?;
            push_end(out, end)?;
        }
        Tb::Line => push_short_end(out, end)?,
        Tb::No => {}
    }
    Ok(())
}
