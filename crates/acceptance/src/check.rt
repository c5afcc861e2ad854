use crate::calls::check_calls;
use crate::case::{Case, Each, Expectation};
use crate::ends::ends_of;
use crate::run::{Run, copied, run_case};
use journal_tests::journal_of;
use std::alloc::{AllocError, Global};
use std::thread::Threads;

/// What stands behind a part in a text, where the part stands there at the beginning of a line.
fn behind<'a>(text: &'a str, part: &str) -> Option<&'a str> {
    let mut rest = text;
    for _ in 0..=text.len() {
        if let Some(behind) = rest.strip_prefix(part) {
            return Some(behind);
        }
        let (_, next) = rest.split_once('\n')?;
        rest = next;
    }
    None
}

/// What is left of an output behind one thing wanted, or None where it is missing.
fn without<'a>(output: &str, rest: &'a str, wanted: &Expectation) -> Option<&'a str> {
    match wanted {
        Expectation::Output(text) if output == text.as_str() => Some(rest),
        Expectation::Output(_) => None,
        Expectation::Part(text) => behind(rest, text.as_str()),
    }
}

/// Whether an output has all that is wanted, in order.
fn has_all(output: &str, wanted: &[Expectation]) -> bool {
    let mut rest = output;
    for one in wanted {
        let Some(next) = without(output, rest, one) else {
            return false;
        };
        rest = next;
    }
    true
}

fn wanted_text(alloc: Global, wanted: &[Expectation]) -> Result<String, AllocError> {
    let mut text = String::new(alloc);
    for one in wanted {
        let (Expectation::Output(lines) | Expectation::Part(lines)) = one;
        text.push_str(lines.as_str())?;
    }
    Ok(text)
}

/// What is wrong with what came of a case, or an empty text.
fn fault_of(alloc: Global, case: &Case, run: &Run) -> Result<String, AllocError> {
    let Ok(output) = str::from_utf8(&run.output) else {
        return String::from_str(alloc, "the output is not UTF-8\n");
    };
    if !has_all(output, &case.wanted) {
        let text = wanted_text(alloc, &case.wanted)?;
        return format!(in alloc; "wanted\n{text}but got\n{output}");
    }
    if run.late != 0 {
        return String::from_str(alloc, "a worker was held for too long\n");
    }
    if run.status != case.status {
        let (wanted, came) = (case.status, run.status);
        return format!(in alloc; "wanted status {wanted} but got {came}\n");
    }
    if case.outside.sink_fails != 0 && run.puts != case.outside.sink_fails {
        return String::from_str(alloc, "no put was wanted behind the one that failed\n");
    }
    Ok(String::new(alloc))
}

/// What is wrong with what the runs of a case come to, where that is told, or an empty text.
fn check_ends<R: Threads + Sync>(rt: &R, alloc: Global, case: &Case) -> Result<String, AllocError> {
    if case.ends.is_empty() {
        return Ok(String::new(alloc));
    }
    let came = ends_of(rt, alloc, case)?;
    if came == case.ends {
        return Ok(String::new(alloc));
    }
    format!(in alloc; "wanted ends\n{}but got\n{came}", case.ends)
}

/// What is wrong with what the journal of a case tells, where one is asked for, or an empty text.
fn check_journal(alloc: Global, case: &Case) -> Result<String, AllocError> {
    if case.journal.is_empty() {
        return Ok(String::new(alloc));
    }
    let files = copied(alloc, &case.files)?;
    let came = journal_of(alloc, &case.words, files)?;
    if came == case.journal {
        return Ok(String::new(alloc));
    }
    format!(in alloc; "wanted journal\n{}but got\n{came}", case.journal)
}

/// Runs a case, and says what was wanted and what came where they differ.
pub fn check<R: Threads + Sync>(rt: &R, alloc: Global, case: &Case) -> Result<String, AllocError> {
    let files = copied(alloc, &case.files)?;
    let whole = run_case(rt, alloc, case, files, case.outside)?;
    let fault = fault_of(alloc, case, &whole)?;
    if !fault.is_empty() {
        return Ok(fault);
    }
    let fault = check_journal(alloc, case)?;
    if !fault.is_empty() {
        return Ok(fault);
    }
    match case.each {
        Each::Nothing | Each::Prefix => check_ends(rt, alloc, case),
        Each::TreeCall | Each::Put => check_calls(rt, alloc, case, &whole),
    }
}
