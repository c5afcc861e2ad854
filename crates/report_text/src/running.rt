ghost use Rattle.std.specs.Prelude.{◌≡◌, [], ◌++◌, ◌&&◌, codes, drop, IfOk, OnOk, string_bytes, flat_map, if◌then◌else◌};
ghost use Rattle.std.specs.Str.{bytes_eq};
ghost use Rattle.report_parts.specs.Outcomes.{outcome_of};
ghost use Rattle.report_text.specs.Progress.{after_letters, between, letter_of, letters_of, worker_end, node_line, plain_lines, progress_lines, progress_of, placed_reports, same_group, same_line, shown_line, shown_lines_of, file_start, verbose_line, verbose_lines, with_gap};

use cli_words::Options;
use report_parts::{ItemReport, Outcome, Phase, Place, Text};
use seq::OutOfMemory;
use std::alloc::{AllocError, Global};
use std::fmt::Write;
use texts::push_line;

/// Pushes the end of a line, behind the worker's name.
#[tactic(auto, unfolding(crate::specs::Progress::worker_end))]
fn push_line_end(out: &mut String, place: Option<Place>) -> Result<(), AllocError>
    ensures { OnOk result (string_bytes out.new ≡ string_bytes out.old ++ worker_end place) }
{
    match place {
        None => out.push_str("\n")?,
        Some(place) => {
            let worker = place.worker;
            writeln!(out, " [gw{worker}]")?;
        }
    }
    Ok(())
}

#[tactic(auto, unfolding(crate::specs::Progress::letter_of))]
fn push_letter(out: &mut String, outcome: Option<Outcome>) -> Result<(), AllocError>
    ensures { OnOk result (string_bytes out.new ≡ string_bytes out.old ++ letter_of outcome) }
{
    if let Some(outcome) = outcome {
        out.push_str(outcome.letter())?;
    }
    Ok(())
}

#[tactic(auto, unfolding(crate::specs::Progress::letters_of))]
fn push_letters(out: &mut String, report: &ItemReport) -> Result<(), AllocError>
    ensures { OnOk result (string_bytes out.new ≡ string_bytes out.old ++ letters_of report.now) }
{
    push_letter(out, Phase::Setup.outcome(&report.setup))?;
    push_letter(out, Phase::Call.outcome(&report.call))?;
    push_letter(out, Phase::Teardown.outcome(&report.teardown))?;
    Ok(())
}

fn same_group(place: Option<Place>, next: Option<Place>) -> bool
    ensures { result ≡ same_group place next }
{
    match (place, next) {
        (None, None) => true,
        (Some(place), Some(next)) => place.group == next.group,
        (None, Some(_)) | (Some(_), None) => false,
    }
}

fn same_line(
    report: &ItemReport,
    place: Option<Place>,
    next: &ItemReport,
    next_place: Option<Place>,
) -> bool
    ensures { result ≡ same_line (report.now, place) (next.now, next_place) }
{
    report.file.text() == next.file.text() && same_group(place, next_place)
}

#[tactic(auto, unfolding(crate::specs::Progress::verbose_line))]
fn push_verbose_line(
    out: &mut String,
    node_id: &str,
    place: Option<Place>,
    outcome: Option<Outcome>,
) -> Result<(), AllocError>
    ensures { OnOk result (string_bytes out.new ≡ string_bytes out.old ++ verbose_line node_id.now place outcome) }
{
    if let Some(outcome) = outcome {
        let word = outcome.word();
        write!(out, "{node_id} {word}")?;
        push_line_end(out, place)?;
    }
    Ok(())
}

#[tactic(auto, unfolding(crate::specs::Progress::verbose_lines))]
fn push_verbose_lines(
    out: &mut String,
    report: &ItemReport,
    place: Option<Place>,
) -> Result<(), AllocError>
    ensures { OnOk result (string_bytes out.new ≡ string_bytes out.old ++ verbose_lines (report.now, place)) }
{
    let node_id = report.node_id.text();
    push_verbose_line(out, node_id, place, Phase::Setup.outcome(&report.setup))?;
    push_verbose_line(out, node_id, place, Phase::Call.outcome(&report.call))?;
    push_verbose_line(
        out,
        node_id,
        place,
        Phase::Teardown.outcome(&report.teardown),
    )?;
    Ok(())
}

fn push_shown_line(out: &mut String, line: &str, place: Option<Place>) -> Result<(), AllocError>
    ensures { OnOk result (string_bytes out.new ≡ string_bytes out.old ++ shown_line place line.now) }
{
    out.push_str(line)?;
    push_line_end(out, place)?;
    Ok(())
}

fn push_shown_lines(
    out: &mut String,
    lines: &[Text],
    place: Option<Place>,
) -> Result<(), AllocError>
    ensures { OnOk result (string_bytes out.new ≡ string_bytes out.old ++ flat_map (shown_line place) lines.now) }
{
    for line in lines {
        push_shown_line(out, line.text(), place)?;
    }
    Ok(())
}

fn push_node_lines(out: &mut String, reports: &[ItemReport]) -> Result<(), AllocError>
    ensures { OnOk result (string_bytes out.new ≡ string_bytes out.old ++ flat_map node_line reports.now) }
{
    for report in reports {
        push_line(out, report.node_id.text())?;
    }
    Ok(())
}

fn places_behind(places: &[Place]) -> &[Place]
    ensures { result.now ≡ drop 1 places.now }
{
    match places {
        [_, rest @ ..] => rest,
        [] => places,
    }
}

fn push_all_verbose_lines(
    out: &mut String,
    reports: &[ItemReport],
    places: &[Place],
) -> Result<(), AllocError>
    ensures { OnOk result (string_bytes out.new ≡ string_bytes out.old ++ flat_map verbose_lines (placed_reports reports.now places.now)) }
{
    let mut left = places;
    for report in reports {
        push_verbose_lines(out, report, left.first().copied())?;
        left = places_behind(left);
    }
    Ok(())
}

fn push_all_shown_lines(
    out: &mut String,
    reports: &[ItemReport],
    places: &[Place],
) -> Result<(), AllocError>
    ensures { OnOk result (string_bytes out.new ≡ string_bytes out.old ++ flat_map shown_lines_of (placed_reports reports.now places.now)) }
{
    let mut left = places;
    for report in reports {
        push_shown_lines(out, report.shown_lines.items(), left.first().copied())?;
        left = places_behind(left);
    }
    Ok(())
}

#[tactic(auto, unfolding(crate::specs::Progress::file_start))]
fn push_start(out: &mut String, report: &ItemReport) -> Result<(), AllocError>
    ensures { OnOk result (string_bytes out.new ≡ string_bytes out.old ++ file_start report.now) }
{
    out.push_str(report.file.text())?;
    out.push_str(" ")?;
    Ok(())
}

/// Pushes what stands between the letters of two neighbours.
fn push_between(
    out: &mut String,
    report: &ItemReport,
    place: Option<Place>,
    next: &ItemReport,
    next_place: Option<Place>,
) -> Result<(), AllocError>
    ensures { OnOk result (string_bytes out.new ≡ string_bytes out.old ++ between (report.now, place) (next.now, next_place)) }
{
    if !same_line(report, place, next, next_place) {
        push_line_end(out, place)?;
        push_start(out, next)?;
    }
    Ok(())
}

fn push_plain_lines(
    out: &mut String,
    reports: &[ItemReport],
    places: &[Place],
) -> Result<(), AllocError>
    ensures { OnOk result (string_bytes out.new ≡ string_bytes out.old ++ plain_lines (placed_reports reports.now places.now)) }
{
    let Some((first, others)) = reports.split_first() else {
        return Ok(());
    };
    push_start(out, first)?;
    push_letters(out, first)?;
    push_other_lines(
        out,
        first,
        places.first().copied(),
        others,
        places_behind(places),
    )?;
    Ok(())
}

/// Pushes what stands behind the letters of an item, to the end of its last neighbour's line.
fn push_other_lines(
    out: &mut String,
    first: &ItemReport,
    first_place: Option<Place>,
    others: &[ItemReport],
    places: &[Place],
) -> Result<(), AllocError>
    ensures { OnOk result (string_bytes out.new ≡ string_bytes out.old ++ after_letters (first.now, first_place) (placed_reports others.now places.now)) }
{
    let mut last = first;
    let mut place = first_place;
    let mut left = places;
    for report in others {
        let next = left.first().copied();
        push_between(out, last, place, report, next)?;
        push_letters(out, report)?;
        last = report;
        place = next;
        left = places_behind(left);
    }
    push_line_end(out, place)?;
    Ok(())
}

#[tactic(auto, unfolding(crate::specs::Progress::progress_lines))]
fn push_progress_lines(
    out: &mut String,
    options: &Options,
    reports: &[ItemReport],
    places: &[Place],
) -> Result<(), AllocError>
    ensures { OnOk result (string_bytes out.new ≡ string_bytes out.old ++ progress_lines options.now reports.now places.now) }
{
    if options.generated.is_some() {
        return Ok(());
    }
    if options.collect_only {
        push_node_lines(out, reports)?;
        return Ok(());
    }
    if options.setup_show {
        push_all_shown_lines(out, reports, places)?;
        return Ok(());
    }
    if options.verbose {
        push_all_verbose_lines(out, reports, places)?;
        return Ok(());
    }
    push_plain_lines(out, reports, places)?;
    Ok(())
}

fn push_gap(out: &mut String) -> Result<(), AllocError>
    ensures { OnOk result (string_bytes out.new ≡ with_gap (string_bytes out.old)) }
{
    if !out.is_empty() {
        out.push_str("\n")?;
    }
    Ok(())
}

/// The progress lines, and an empty line where there were any.
///
/// `places` is empty, which means no workers, or has one place for each report. With `--collect-only` there is a report
/// for each selected item.
#[tactic(auto, unfolding(crate::specs::Progress::progress_of))]
pub fn progress(
    alloc: Global,
    options: &Options,
    reports: &[ItemReport],
    places: &[Place],
) -> Result<Vec<u8>, OutOfMemory>
    ensures { IfOk result (λ bytes. bytes.items ≡ progress_of options.now reports.now places.now) }
{
    let mut out = String::new(alloc);
    push_progress_lines(&mut out, options, reports, places)?;
    push_gap(&mut out)?;
    Ok(out.into_bytes())
}
