ghost use Rattle.std.specs.Prelude.{◌≡◌, ◌≤◌, ◌+◌, ◌++◌, IfOk, OnOk, string_bytes};
ghost use Rattle.report_parts.specs.Limits.{most_items};
ghost use Rattle.report_text.specs.Head.{collected_line, errors_behind, head_of, selection_behind, workers_line};

use cli_words::Options;
use seq::OutOfMemory;
use std::alloc::{AllocError, Global};
use std::fmt::Write;
use texts::{push_counted, push_title};

#[tactic(auto, unfolding(crate::specs::Head::errors_behind))]
fn push_errors_behind(out: &mut String, errors: u32) -> Result<(), AllocError>
    ensures { OnOk result (string_bytes out.new ≡ string_bytes out.old ++ errors_behind errors) }
{
    if errors > 0 {
        out.push_str(" / ")?;
        push_counted(out, errors as usize, "error")?;
    }
    Ok(())
}

#[tactic(auto, unfolding(crate::specs::Head::selection_behind))]
fn push_selection_behind(out: &mut String, selected: u32, deselected: u32) -> Result<(), AllocError>
    ensures { OnOk result (string_bytes out.new ≡ string_bytes out.old ++ selection_behind selected deselected) }
{
    if deselected > 0 {
        write!(out, " / {deselected} deselected / {selected} selected")?;
    }
    Ok(())
}

#[tactic(auto, unfolding(crate::specs::Head::collected_line))]
fn push_collected(
    out: &mut String,
    selected: u32,
    deselected: u32,
    errors: u32,
) -> Result<(), AllocError>
    requires { selected + deselected ≤ most_items }
    ensures { OnOk result (string_bytes out.new ≡ string_bytes out.old ++ collected_line selected deselected errors) }
{
    out.push_str("collected ")?;
    push_counted(out, (selected + deselected) as usize, "item")?;
    push_errors_behind(out, errors)?;
    push_selection_behind(out, selected, deselected)?;
    out.push_str("\n")?;
    Ok(())
}

#[tactic(auto, unfolding(crate::specs::Head::workers_line))]
fn push_workers(out: &mut String, selected: u32, workers: u32) -> Result<(), AllocError>
    ensures { OnOk result (string_bytes out.new ≡ string_bytes out.old ++ workers_line selected workers) }
{
    if workers > 0 {
        push_counted(out, workers as usize, "worker")?;
        out.push_str(" [")?;
        push_counted(out, selected as usize, "item")?;
        out.push_str("]\n")?;
    }
    Ok(())
}

#[tactic(auto, unfolding(crate::specs::Head::head_of))]
fn push_head(
    out: &mut String,
    selected: u32,
    deselected: u32,
    errors: u32,
    workers: u32,
) -> Result<(), AllocError>
    requires { selected + deselected ≤ most_items }
    ensures { OnOk result (string_bytes out.new ≡ string_bytes out.old ++ head_of selected deselected errors workers) }
{
    push_title(out, '=', "test session starts")?;
    push_collected(out, selected, deselected, errors)?;
    push_workers(out, selected, workers)?;
    out.push_str("\n")?;
    Ok(())
}

/// The lines above the progress.
///
/// `selected` and `deselected` count items, `errors` the files whose collection failed; `workers` is 0 where there are none.
pub fn head(
    alloc: Global,
    _options: &Options,
    selected: u32,
    deselected: u32,
    errors: u32,
    workers: u32,
) -> Result<Vec<u8>, OutOfMemory>
    requires { selected + deselected ≤ most_items }
    ensures { IfOk result (λ bytes. bytes.items ≡ head_of selected deselected errors workers) }
{
    let mut out = String::new(alloc);
    push_head(&mut out, selected, deselected, errors, workers)?;
    Ok(out.into_bytes())
}
