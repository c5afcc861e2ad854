// What `print` writes.

ghost use Rattle.std.specs.Prelude.{◌≡◌, ◌++◌, IfOk, OnOk, true, string_bytes, encode_utf8_all};
ghost use Rattle.py_calls.specs.Printing as printing;
ghost use Rattle.py_calls.specs.Texts as texts;
ghost use Rattle.py_calls.specs.declared.made.TextResult.TheVariants as text;

use crate::made::TextResult;
use crate::style::styled;
use crate::text::{text_of, wrong};
use py_values::end::Raise;
use py_values::heap::Heap;
use py_values::value::Value;
use seq::{OutOfMemory, PyText, push_chars};
use std::alloc::Global;

fn push_gap(chars: &mut Vec<char>, first: bool, sep: &[char]) -> Result<(), OutOfMemory>
    ensures { OnOk result (text.Text chars.new.items ≡ texts.append_text (text.Text chars.old.items) (printing.gap first sep.now)) }
{
    if first {
        return Ok(());
    }
    chars.extend_from_slice(sep)?;
    Ok(())
}

/// Puts the text of a value behind others, or tells why there is none.
fn push_value(
    alloc: Global,
    heap: &Heap,
    chars: &mut Vec<char>,
    v: Value,
) -> Result<Option<Raise>, OutOfMemory>
    ensures { IfOk result (λ r. texts.append_text (text.Text chars.old.items) (texts.text_of heap.now v) ≡ texts.told_text r chars.new.items) }
{
    match text_of(alloc, heap, v)? {
        TextResult::Text(text) => {
            chars.extend_from_slice(text.chars())?;
            Ok(None)
        }
        TextResult::Refused(raise) => Ok(Some(raise)),
    }
}

/// The texts of values, a separator before each but the first, and an end.
#[tactic(auto, using(crate::proofs::Joining::joins))]
fn line(
    alloc: Global,
    heap: &Heap,
    args: &[Value],
    sep: &[char],
    end: &[char],
) -> Result<TextResult, OutOfMemory>
    ensures { IfOk result (λ t. t ≡ printing.line_of heap.now true sep.now end.now args.now) }
{
    let mut chars = Vec::new(alloc);
    let mut first = true;
    for v in args {
        push_gap(&mut chars, first, sep)?;
        first = false;
        if let Some(raise) = push_value(alloc, heap, &mut chars, *v)? {
            return Ok(TextResult::Refused(raise));
        }
    }
    chars.extend_from_slice(end)?;
    let text = PyText::from_chars(alloc, &chars)?;
    Ok(TextResult::Text(text))
}

/// What `print` writes, or why it writes nothing.
pub fn print_text(
    alloc: Global,
    heap: &Heap,
    args: &[Value],
    named: &[(PyText, Value)],
) -> Result<TextResult, OutOfMemory>
    ensures { IfOk result (λ t. t ≡ printing.print_text heap.now args.now named.now) }
{
    match styled(alloc, heap, named)? {
        Some(style) => line(alloc, heap, args, style.sep.chars(), style.end.chars()),
        None => {
            let raise = wrong(alloc, "print")?;
            Ok(TextResult::Refused(raise))
        }
    }
}

/// Puts the bytes of characters behind others.
pub fn push_bytes(alloc: Global, printed: &mut Vec<u8>, chars: &[char]) -> Result<(), OutOfMemory>
    ensures { OnOk result (printed.new.items ≡ printed.old.items ++ encode_utf8_all chars.now) }
{
    let mut text = String::new(alloc);
    push_chars(&mut text, chars)?;
    printed.extend_from_slice(text.as_bytes())?;
    Ok(())
}
