// The piece of a report.

ghost use Rattle.std.specs.Prelude.{◌≡◌, ◌++◌, ◌==◌, [], codes, false, length, not, IfOk, OnOk, None, flat_map, option_copied, string_bytes, if◌then◌else◌};
ghost use Rattle.report_parts.specs.Outcomes.{outcome_of};
ghost use Rattle.report_pieces.specs.Pieces.{has_whole_lines, letters_behind, piece_of, pieces_end, pieces_of, unplaced};
ghost use Rattle.report_text.specs.Progress.{between, file_start, letter_of, letters_of, shown_line, shown_lines_of, verbose_line, verbose_lines, worker_end};

use cli_words::Options;
use report_parts::{ItemReport, Outcome, Phase, Text};
use report_text::progress;
use seq::OutOfMemory;
use std::alloc::{AllocError, Global};
use std::fmt::Write;

#[tactic(auto, unfolding(report_text::specs::Progress::letter_of))]
fn push_letter(out: &mut String, outcome: Option<Outcome>) -> Result<(), AllocError>
    ensures { OnOk result (string_bytes out.new ≡ string_bytes out.old ++ letter_of outcome) }
{
    if let Some(outcome) = outcome {
        out.push_str(outcome.letter())?;
    }
    Ok(())
}

#[tactic(auto, unfolding(report_text::specs::Progress::letters_of))]
fn push_letters(out: &mut String, report: &ItemReport) -> Result<(), AllocError>
    ensures { OnOk result (string_bytes out.new ≡ string_bytes out.old ++ letters_of report.now) }
{
    push_letter(out, Phase::Setup.outcome(&report.setup))?;
    push_letter(out, Phase::Call.outcome(&report.call))?;
    push_letter(out, Phase::Teardown.outcome(&report.teardown))
}

#[tactic(auto, unfolding(report_text::specs::Progress::file_start))]
fn push_start(out: &mut String, report: &ItemReport) -> Result<(), AllocError>
    ensures { OnOk result (string_bytes out.new ≡ string_bytes out.old ++ file_start report.now) }
{
    out.push_str(report.file.text())?;
    out.push_str(" ")
}

/// Pushes what stands between the letters of two neighbours: nothing in one file.
#[tactic(auto, unfolding(report_text::specs::Progress::worker_end))]
fn push_between(out: &mut String, last: &ItemReport, report: &ItemReport) -> Result<(), AllocError>
    ensures { OnOk result (string_bytes out.new ≡ string_bytes out.old ++ between (unplaced last.now) (unplaced report.now)) }
{
    if last.file.text() == report.file.text() {
        return Ok(());
    }
    out.push_str("\n")?;
    push_start(out, report)
}

fn push_letters_behind(
    out: &mut String,
    last: Option<&ItemReport>,
    report: &ItemReport,
) -> Result<(), AllocError>
    ensures { OnOk result (string_bytes out.new ≡ string_bytes out.old ++ letters_behind (option_copied last.entry) report.now) }
{
    match last {
        None => push_start(out, report)?,
        Some(last) => push_between(out, last, report)?,
    }
    push_letters(out, report)
}

#[tactic(auto, unfolding(report_text::specs::Progress::verbose_line, report_text::specs::Progress::worker_end))]
fn push_verbose_line(
    out: &mut String,
    node_id: &str,
    outcome: Option<Outcome>,
) -> Result<(), AllocError>
    ensures { OnOk result (string_bytes out.new ≡ string_bytes out.old ++ verbose_line node_id.now None outcome) }
{
    if let Some(outcome) = outcome {
        let word = outcome.word();
        writeln!(out, "{node_id} {word}")?;
    }
    Ok(())
}

#[tactic(auto, unfolding(report_text::specs::Progress::verbose_lines))]
fn push_verbose_lines(out: &mut String, report: &ItemReport) -> Result<(), AllocError>
    ensures { OnOk result (string_bytes out.new ≡ string_bytes out.old ++ verbose_lines (unplaced report.now)) }
{
    let node_id = report.node_id.text();
    push_verbose_line(out, node_id, Phase::Setup.outcome(&report.setup))?;
    push_verbose_line(out, node_id, Phase::Call.outcome(&report.call))?;
    push_verbose_line(out, node_id, Phase::Teardown.outcome(&report.teardown))
}

#[tactic(auto, unfolding(report_text::specs::Progress::worker_end))]
fn push_shown_line(out: &mut String, line: &str) -> Result<(), AllocError>
    ensures { OnOk result (string_bytes out.new ≡ string_bytes out.old ++ shown_line None line.now) }
{
    out.push_str(line)?;
    out.push_str("\n")
}

fn push_shown_lines(out: &mut String, lines: &[Text]) -> Result<(), AllocError>
    ensures { OnOk result (string_bytes out.new ≡ string_bytes out.old ++ flat_map (shown_line None) lines.now) }
{
    for line in lines {
        push_shown_line(out, line.text())?;
    }
    Ok(())
}

#[tactic(auto, unfolding(crate::specs::Pieces::piece_of))]
fn push_piece(
    out: &mut String,
    options: &Options,
    before: &[ItemReport],
    report: &ItemReport,
) -> Result<(), AllocError>
    ensures { OnOk result (string_bytes out.new ≡ string_bytes out.old ++ piece_of options.now before.now report.now) }
{
    if options.generated.is_some() {
        return Ok(());
    }
    if options.setup_show {
        return push_shown_lines(out, report.shown_lines.items());
    }
    if options.verbose {
        return push_verbose_lines(out, report);
    }
    push_letters_behind(out, before.last(), report)
}

/// The piece of a report, behind the reports before it.
pub fn piece(
    alloc: Global,
    options: &Options,
    before: &[ItemReport],
    report: &ItemReport,
) -> Result<Vec<u8>, OutOfMemory>
    ensures { IfOk result (λ bytes. bytes.items ≡ piece_of options.now before.now report.now) }
{
    let mut out = String::new(alloc);
    push_piece(&mut out, options, before, report)?;
    Ok(out.into_bytes())
}

/// Whether there are lines.
fn has_lines(lines: &[u8]) -> bool
    ensures { result ≡ not (length lines.now == 0) }
{
    !lines.is_empty()
}

/// Whether lines end with their pieces.
fn has_whole_lines(options: &Options) -> bool
    ensures { result ≡ has_whole_lines options.now }
{
    options.generated.is_some() || (options.setup_show || options.verbose)
}

/// The end of the last line, and an empty line, where there are lines.
fn end_of(any: bool, whole: bool) -> &'static str
    ensures { result.now ≡ (if any then (if whole then codes "\n" else codes "\n\n") else []) }
{
    if !any {
        return "";
    }
    if whole {
        return "\n";
    }
    "\n\n"
}

/// What stands behind the pieces of all reports: the end of the last line, and an empty line, where there were any.
pub fn end(
    alloc: Global,
    options: &Options,
    reports: &[ItemReport],
) -> Result<&'static str, OutOfMemory>
    requires { options.now.collect_only ≡ false }
    ensures { IfOk result (λ end. end.now ≡ pieces_end options.now (pieces_of options.now [] reports.now)) }
{
    let lines = progress(alloc, options, reports, &[])?;
    let any = has_lines(lines.as_slice());
    Ok(end_of(any, has_whole_lines(options)))
}
