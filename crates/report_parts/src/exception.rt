ghost use Rattle.std.specs.Prelude.{◌≡◌, ◌-◌, ◌++◌, length, slice_get, OnOk, string_bytes, encode_utf8_all, flat_map};
ghost use Rattle.std.specs.List.{before_first};
ghost use Rattle.report_parts.specs.Exceptions.{at_frame, at_some, error_char, error_lines, first_line_bytes, first_reason_behind, frame_lines, is_line_feed, place_line, reason_behind, short_told, shown_source, strict_first, strict_text, told_lines};

use crate::blanks::stripped;
use crate::report::{Frame, Text, Told};
use seq::push_chars;
use std::alloc::AllocError;
use std::fmt::Write;
use texts::push_line;

fn first_line_of(chars: &[char]) -> &[char]
    ensures { result.now ≡ before_first is_line_feed chars.now }
{
    for (end, c) in chars.iter().enumerate() {
        if *c == '\n' {
            return &chars[..end];
        }
    }
    chars
}

/// Pushes the first line of a text.
#[tactic(auto, unfolding(crate::specs::Exceptions::first_line_bytes))]
pub fn push_first_line(out: &mut String, chars: &[char]) -> Result<(), AllocError>
    ensures { OnOk result (string_bytes out.new ≡ string_bytes out.old ++ first_line_bytes chars.now) }
{
    push_chars(out, first_line_of(chars))?;
    Ok(())
}

/// Pushes a character of a text, each line of which stands behind `E   `.
fn push_error_char(out: &mut String, c: char) -> Result<(), AllocError>
    ensures { OnOk result (string_bytes out.new ≡ string_bytes out.old ++ error_char c) }
{
    if c == '\n' {
        out.push_str("\nE   ")?;
    } else {
        out.push(c)?;
    }
    Ok(())
}

fn push_error_chars(out: &mut String, chars: &[char]) -> Result<(), AllocError>
    ensures { OnOk result (string_bytes out.new ≡ string_bytes out.old ++ flat_map error_char chars.now) }
{
    for c in chars {
        push_error_char(out, *c)?;
    }
    Ok(())
}

/// Pushes each line of a text behind `E   `.
fn push_error_lines(out: &mut String, chars: &[char]) -> Result<(), AllocError>
    ensures { OnOk result (string_bytes out.new ≡ string_bytes out.old ++ error_lines chars.now) }
{
    out.push_str("E   ")?;
    push_error_chars(out, chars)?;
    out.push_str("\n")?;
    Ok(())
}

#[tactic(auto, unfolding(crate::specs::Exceptions::place_line))]
fn push_place_line(out: &mut String, file: &str, line: u32, name: &str) -> Result<(), AllocError>
    ensures { OnOk result (string_bytes out.new ≡ string_bytes out.old ++ place_line file.now line name.now) }
{
    writeln!(out, "{file}:{line}: in {name}")
}

/// Pushes the line's text of a frame, without the blanks on both sides.
#[tactic(auto, unfolding(crate::specs::Exceptions::shown_source))]
fn push_source_line(out: &mut String, source: &Option<Text>) -> Result<(), AllocError>
    ensures { OnOk result (string_bytes out.new ≡ string_bytes out.old ++ shown_source source.now) }
{
    if let Some(source) = source {
        out.push_str("    ")?;
        push_line(out, stripped(source.text()))?;
    }
    Ok(())
}

#[tactic(auto, unfolding(crate::specs::Exceptions::frame_lines))]
fn push_frame(out: &mut String, frame: &Frame) -> Result<(), AllocError>
    ensures { OnOk result (string_bytes out.new ≡ string_bytes out.old ++ frame_lines frame.now) }
{
    push_place_line(out, frame.file.text(), frame.line, frame.name.text())?;
    push_source_line(out, &frame.source)?;
    Ok(())
}

fn push_frames(out: &mut String, frames: &[Frame]) -> Result<(), AllocError>
    ensures { OnOk result (string_bytes out.new ≡ string_bytes out.old ++ flat_map frame_lines frames.now) }
{
    for frame in frames {
        push_frame(out, frame)?;
    }
    Ok(())
}

/// Pushes the frames and the text of an exception.
#[tactic(auto, unfolding(crate::specs::Exceptions::told_lines))]
pub fn push_told(out: &mut String, told: &Told) -> Result<(), AllocError>
    ensures { OnOk result (string_bytes out.new ≡ string_bytes out.old ++ told_lines told.now) }
{
    push_frames(out, told.frames.items())?;
    push_error_lines(out, told.text.chars())?;
    Ok(())
}

/// Pushes where a frame stands, in front of what happened there.
#[tactic(auto, unfolding(crate::specs::Exceptions::at_frame))]
pub fn push_at_frame(out: &mut String, frame: &Frame) -> Result<(), AllocError>
    ensures { OnOk result (string_bytes out.new ≡ string_bytes out.old ++ at_frame frame.now) }
{
    let file = frame.file.text();
    let line = frame.line;
    write!(out, "{file}:{line}: ")
}

fn push_at_last(out: &mut String, frames: &[Frame]) -> Result<(), AllocError>
    ensures { OnOk result (string_bytes out.new ≡ string_bytes out.old ++ at_some (slice_get frames.now (length frames.now - 1))) }
{
    if let Some(frame) = frames.last() {
        push_at_frame(out, frame)?;
    }
    Ok(())
}

/// Pushes an exception as one line.
#[tactic(auto, unfolding(crate::specs::Exceptions::short_told))]
pub fn push_short_told(out: &mut String, told: &Told) -> Result<(), AllocError>
    ensures { OnOk result (string_bytes out.new ≡ string_bytes out.old ++ short_told told.now) }
{
    push_at_last(out, told.frames.items())?;
    push_first_line(out, told.text.chars())?;
    out.push_str("\n")?;
    Ok(())
}

#[tactic(auto, unfolding(crate::specs::Exceptions::reason_behind))]
fn push_reason(out: &mut String, reason: &[char]) -> Result<(), AllocError>
    ensures { OnOk result (string_bytes out.new ≡ string_bytes out.old ++ reason_behind reason.now) }
{
    if !reason.is_empty() {
        out.push_str(" ")?;
        push_chars(out, reason)?;
    }
    Ok(())
}

/// Pushes what a strict mark says of a test that passed.
#[tactic(auto, unfolding(crate::specs::Exceptions::strict_text))]
pub fn push_strict(out: &mut String, reason: &[char]) -> Result<(), AllocError>
    ensures { OnOk result (string_bytes out.new ≡ string_bytes out.old ++ strict_text reason.now) }
{
    out.push_str("[XPASS(strict)]")?;
    push_reason(out, reason)?;
    Ok(())
}

#[tactic(auto, unfolding(crate::specs::Exceptions::first_reason_behind))]
fn push_first_reason(out: &mut String, reason: &[char]) -> Result<(), AllocError>
    ensures { OnOk result (string_bytes out.new ≡ string_bytes out.old ++ first_reason_behind reason.now) }
{
    if !reason.is_empty() {
        out.push_str(" ")?;
        push_first_line(out, reason)?;
    }
    Ok(())
}

/// Pushes the first line of what a strict mark says.
#[tactic(auto, unfolding(crate::specs::Exceptions::strict_first))]
pub fn push_strict_first(out: &mut String, reason: &[char]) -> Result<(), AllocError>
    ensures { OnOk result (string_bytes out.new ≡ string_bytes out.old ++ strict_first reason.now) }
{
    out.push_str("[XPASS(strict)]")?;
    push_first_reason(out, reason)?;
    Ok(())
}
