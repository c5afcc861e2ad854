// The lines of sources.

ghost use Rattle.std.specs.Prelude.{◌≡◌, ◌≤◌, ◌<◌, ◌+◌, ◌-◌, suc, if◌then◌else◌, option_map, get_or, slice_get, slice_range, drop, length, IfOk, OnOk, IsUtf8};
ghost use Rattle.std.specs.List.{count_by};
ghost use Rattle.std.specs.Str.Lines.{lines};
ghost use Rattle.machine_state.specs.Lines as told;

use seq::OutOfMemory;
use std::alloc::Global;

/// The bytes behind the byte order mark, where they begin with it.
fn without_mark(bytes: &[u8]) -> &[u8]
    ensures { result.now ≡ told.without_mark bytes.now }
{
    if bytes.starts_with(&[239, 187, 191]) {
        &bytes[3..]
    } else {
        bytes
    }
}

/// How many bytes ends of lines are counted in at once, which is quick where the count fits a byte.
const BLOCK: usize = 240;

/// How many of these bytes end a line.
fn ends_in(bytes: &[u8]) -> u8
    requires { length bytes.now < 256 }
    ensures { result ≡ count_by told.is_end bytes.now }
{
    let mut count: u8 = 0;
    for byte in bytes {
        if *byte == b'\n' {
            count += 1;
        }
    }
    count
}

/// Passes whole blocks of bytes, while fewer lines end in one than are left to pass: how far, and how many are left.
fn pass_blocks(bytes: &[u8], ends: usize) -> (usize, usize)
    ensures within { result.0 ≤ length bytes.now }
    ensures behind { told.behind result.1 (drop result.0 bytes.now) ≡ told.behind ends bytes.now }
{
    let mut at = 0;
    let mut left = ends;
    'more: while bytes.len() - at >= BLOCK {
        let to = at + BLOCK;
        let count = ends_in(&bytes[at..to]) as usize;
        if count >= left {
            break;
        }
        left -= count;
        at = to;
    }
    (at, left)
}

/// How many ends of lines are left behind a byte.
fn left_behind(byte: u8, left: usize) -> usize
    requires { 0 < left }
    ensures { result ≡ (if told.is_end byte then left - 1 else left) }
{
    if byte == b'\n' { left - 1 } else { left }
}

/// Passes ends of lines from a place on: how far.
fn pass_ends(bytes: &[u8], from: usize, ends: usize) -> usize
    requires { from ≤ length bytes.now }
    ensures within { result ≤ length bytes.now }
    ensures behind { drop result bytes.now ≡ told.behind ends (drop from bytes.now) }
{
    let mut at = from;
    let mut left = ends;
    'more: while left > 0 {
        if at >= bytes.len() {
            break;
        }
        left = left_behind(bytes[at], left);
        at += 1;
    }
    at
}

/// Where the bytes behind this many ends of lines begin.
fn line_start(bytes: &[u8], ends: usize) -> usize
    ensures within { result ≤ length bytes.now }
    ensures behind { drop result bytes.now ≡ told.behind ends bytes.now }
{
    let (from, left) = pass_blocks(bytes, ends);
    pass_ends(bytes, from, left)
}

/// The first line of a text.
fn first_line(text: &str) -> Option<&str>
    ensures { option_map told.told_line result ≡ slice_get (lines text.now) 0 }
{
    text.lines().nth(0)
}

/// The line of a text behind this many.
fn line_of(text: &str, before: usize) -> Option<&str>
    ensures { option_map told.told_line result ≡ slice_get (lines text.now) before }
{
    let at = line_start(text.as_bytes(), before);
    first_line(&text[at..])
}

/// The line of a text with this number, from 1.
fn numbered(text: &str, number: u32) -> Option<&str>
    ensures { option_map told.told_line result ≡ told.numbered number (lines text.now) }
{
    if number == 0 {
        return None;
    }
    line_of(text, (number - 1) as usize)
}

/// Notes where the next line begins, where a byte ends one.
#[tactic(auto, using(crate::proofs::Starts::starts_end, crate::proofs::Starts::starts_on))]
fn note_start(starts: &mut Vec<usize>, text: &[u8], at: usize) -> Result<(), OutOfMemory>
    requires here { at < length text.now }
    requires before { told.StartsTo at text.now starts.old.items }
    ensures { OnOk result (told.StartsTo (at + 1) text.now starts.new.items) }
{
    if text[at] == b'\n' {
        starts.push(at + 1)?;
    }
    Ok(())
}

/// Where the lines of a text begin, in their order.
#[tactic(auto, using(crate::proofs::Starts::starts_first, crate::proofs::Starts::starts_all))]
fn starts_in(alloc: Global, text: &[u8]) -> Result<Vec<usize>, OutOfMemory>
    ensures { IfOk result (λ starts. told.IsStarts text.now starts.items) }
{
    let mut starts = Vec::new(alloc);
    starts.push(0)?;
    for at in 0..text.len() {
        note_start(&mut starts, text, at)?;
    }
    Ok(starts)
}

/// Where the lines of bytes begin behind their byte order mark, in their order; nowhere, where they are no text.
#[tactic(auto, using(crate::proofs::Starts::starts_of_text, crate::proofs::Starts::no_starts))]
pub fn starts_of(alloc: Global, bytes: &[u8]) -> Result<Vec<usize>, OutOfMemory>
    ensures { IfOk result (λ starts. told.HasStarts (told.without_mark bytes.now) starts.items) }
{
    let text = without_mark(bytes);
    match str::from_utf8(text) {
        Ok(_) => starts_in(alloc, text),
        Err(_) => Ok(Vec::new(alloc)),
    }
}

/// Where the line behind this many ends, with its end.
#[tactic(auto, using(crate::proofs::Starts::piece_next, crate::proofs::Starts::piece_last))]
fn line_end(text: &[u8], starts: &[usize], before: usize) -> usize
    requires has { told.HasStarts text.now starts.now }
    requires there { before < length starts.now }
    ensures { told.IsPiece text.now (get_or starts.now before 0) result (slice_get (lines text.now) before) }
{
    if before + 1 < starts.len() {
        starts[before + 1]
    } else {
        text.len()
    }
}

/// The first line of a piece of a text.
fn piece(text: &[u8], at: usize, to: usize) -> Option<&str>
    requires low { at ≤ to }
    requires far { to ≤ length text.now }
    requires utf8 { IsUtf8 (slice_range text.now at to) }
    ensures { option_map told.told_line result ≡ slice_get (lines (slice_range text.now at to)) 0 }
{
    match str::from_utf8(&text[at..to]) {
        Ok(line) => first_line(line),
        Err(_) => None,
    }
}

/// The line behind this many, found by where the lines begin.
fn line_from<'b>(text: &'b [u8], starts: &[usize], before: usize) -> Option<&'b str>
    requires { told.HasStarts text.now starts.now }
    ensures { option_map told.told_line result ≡ told.text_line text.now (suc before) }
{
    if before >= starts.len() {
        return None;
    }
    piece(text, starts[before], line_end(text, starts, before))
}

/// The line with this number, from 1, without its end, found by where the lines begin. Bytes that are not UTF-8 have none.
pub fn line_by_starts<'b>(bytes: &'b [u8], starts: &[usize], number: u32) -> Option<&'b str>
    requires { told.HasStarts (told.without_mark bytes.now) starts.now }
    ensures { option_map told.told_line result ≡ told.source_line bytes.now number }
{
    if number == 0 {
        return None;
    }
    line_from(without_mark(bytes), starts, (number - 1) as usize)
}

/// The line with this number, from 1, without its end. Bytes that are not UTF-8 have none.
pub fn source_line(bytes: &[u8], number: u32) -> Option<&str>
    ensures { option_map told.told_line result ≡ told.source_line bytes.now number }
{
    match str::from_utf8(without_mark(bytes)) {
        Ok(text) => numbered(text, number),
        Err(_) => None,
    }
}
