// A text within its quotes.

ghost use Rattle.std.specs.Prelude.{◌≡◌, ◌<◌, ◌++◌, OnOk};
ghost use Rattle.py_repr.specs.Words as words;

use py_repr::words::{hex_digit, quote_of};
use py_values::OutOfMemory;
use py_values::end::push_ascii;

fn push_hex(chars: &mut Vec<char>, n: u8) -> Result<(), OutOfMemory>
    ensures { OnOk result (chars.new.items ≡ chars.old.items ++ words.hex n) }
{
    push_ascii(chars, "\\x")?;
    chars.push(hex_digit(n / 16))?;
    chars.push(hex_digit(n % 16))?;
    Ok(())
}

/// Puts a character of a text within its quotes.
fn push_escaped(chars: &mut Vec<char>, quote: char, c: char) -> Result<(), OutOfMemory>
    ensures { OnOk result (chars.new.items ≡ chars.old.items ++ words.escaped quote c) }
{
    if c == quote || c == '\\' {
        chars.push('\\')?;
        chars.push(c)?;
    } else if c == '\n' {
        push_ascii(chars, "\\n")?;
    } else if c == '\r' {
        push_ascii(chars, "\\r")?;
    } else if c == '\t' {
        push_ascii(chars, "\\t")?;
    } else if c < ' ' || c == '\u{7f}' {
        push_hex(chars, c as u8)?;
    } else {
        chars.push(c)?;
    }
    Ok(())
}

fn push_body(chars: &mut Vec<char>, quote: char, text: &[char]) -> Result<(), OutOfMemory>
    ensures { OnOk result (chars.new.items ≡ chars.old.items ++ words.escaped_text quote text.now) }
{
    for c in text {
        push_escaped(chars, quote, *c)?;
    }
    Ok(())
}

/// Puts a text within its quotes behind other characters.
pub(crate) fn push_quoted(chars: &mut Vec<char>, text: &[char]) -> Result<(), OutOfMemory>
    ensures { OnOk result (chars.new.items ≡ chars.old.items ++ words.quoted_text text.now) }
{
    let quote = quote_of(text);
    chars.push(quote)?;
    push_body(chars, quote, text)?;
    chars.push(quote)?;
    Ok(())
}
