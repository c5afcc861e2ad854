//! The small texts of a report: lines, titles, counts and joined lists.
//!
//! # What it is for
//!
//! The report's crates and the program's own messages push these pieces behind what a `String` holds already.
//!
//! # What is proved
//!
//! Each call pushes exactly its piece, by an equation on the bytes; after an error a part of the piece may stand there.
//!
//! - [`push_line`]: the text and a line end. [`push_title`]: the text between two bars, 80 characters in all, or more where the
//!   text has more than 76. [`push_counted`]: the number and the noun, with an `s` but for 1. [`push_joined`]: the texts with
//!   the separator between each two.
//!
//! # What tests alone show
//!
//! Some lines as a reader of the report sees them, and that the calls succeed with ample memory.
//!
//! # What neither shows
//!
//! Time.
#![tactic(auto)]

ghost use Rattle.std.specs.Prelude.{length, flat_map, ◌≡◌, ◌++◌, ◌∷◌, [], ◌<◌, OnOk, string_bytes, map, decimal, ◌==◌, if◌then◌else◌, replicate};
ghost use Rattle.std.specs.Str.{chars};
ghost use Rattle.texts.specs.Texts.{bar_length, ended, last_length, title, plural, counted, joined};

use std::alloc::AllocError;
use std::fmt::Write;

/// How many characters a title line has, where its text is short enough.
pub const TITLE_WIDTH: usize = 80;

/// Pushes a text and a line end.
pub fn push_line(out: &mut String, text: &str) -> Result<(), AllocError>
    ensures { OnOk result (string_bytes out.new ≡ string_bytes out.old ++ ended text.now) }
{
    writeln!(out, "{text}")
}

fn push_bar(out: &mut String, fill: char, count: usize) -> Result<(), AllocError>
    requires { fill < 128 }
    ensures { OnOk result (string_bytes out.new ≡ string_bytes out.old ++ replicate count fill) }
{
    for _done in 0..count {
        out.push(fill)?;
    }
    Ok(())
}

fn char_count(text: &str) -> usize
    ensures { result ≡ length (chars text.now) }
{
    text.chars().count()
}

fn first_bar(count: usize) -> usize
    ensures { result ≡ bar_length count }
{
    ((TITLE_WIDTH - 2).saturating_sub(count) / 2).max(1)
}

fn last_bar(count: usize) -> usize
    ensures { result ≡ last_length count }
{
    let bar = first_bar(count);
    if count < TITLE_WIDTH && count + 2 + 2 * bar < TITLE_WIDTH {
        return bar + 1;
    }
    bar
}

/// Pushes a title line: a blank, the text and a blank between two bars of an ASCII fill character.
///
/// The line has 80 characters, or more where the text has more than 76.
#[tactic(auto, unfolding(crate::specs::Texts::title))]
pub fn push_title(out: &mut String, fill: char, text: &str) -> Result<(), AllocError>
    requires { fill < 128 }
    ensures { OnOk result (string_bytes out.new ≡ string_bytes out.old ++ title fill text.now) }
{
    let count = char_count(text);
    push_bar(out, fill, first_bar(count))?;
    out.push(' ')?;
    out.push_str(text)?;
    out.push(' ')?;
    push_bar(out, fill, last_bar(count))?;
    out.push('\n')?;
    Ok(())
}

fn ending(count: usize) -> &'static str
    ensures { result.now ≡ plural count }
{
    if count == 1 { "" } else { "s" }
}

/// Pushes a number of things, as `1 item` or `2 items`.
pub fn push_counted(out: &mut String, count: usize, noun: &str) -> Result<(), AllocError>
    ensures { OnOk result (string_bytes out.new ≡ string_bytes out.old ++ counted count noun.now) }
{
    let ending = ending(count);
    write!(out, "{count} {noun}{ending}")
}

fn push_others(out: &mut String, separator: &str, others: &[String]) -> Result<(), AllocError>
    ensures { OnOk result (string_bytes out.new ≡ string_bytes out.old ++ flat_map (λ other. separator.now ++ other) (map string_bytes others.now)) }
{
    for other in others {
        out.push_str(separator)?;
        out.push_str(other.as_str())?;
    }
    Ok(())
}

/// Pushes the pieces with the separator between each two.
pub fn push_joined(out: &mut String, separator: &str, pieces: &[String]) -> Result<(), AllocError>
    ensures { OnOk result (string_bytes out.new ≡ string_bytes out.old ++ joined separator.now (map string_bytes pieces.now)) }
{
    let Some((first, others)) = pieces.split_first() else {
        return Ok(());
    };
    out.push_str(first.as_str())?;
    push_others(out, separator, others)?;
    Ok(())
}

#[cfg(test)]
mod tests;
