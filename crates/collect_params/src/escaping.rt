// How ids are written.

ghost use Rattle.std.specs.Prelude.{◌≡◌, ◌++◌, ◌<◌, IfOk, OnOk};
ghost use Rattle.collect_params.specs.Values as values;

use py_values::end::push_ascii;
use seq::{OutOfMemory, PyText};
use std::alloc::Global;

fn hex_digit(n: u32) -> char
    requires { n < 16 }
    ensures { result ≡ values.hex_digit n }
{
    if n < 10 {
        (48 + n as u8) as char
    } else {
        (87 + n as u8) as char
    }
}

fn push_two(id: &mut Vec<char>, n: u32) -> Result<(), OutOfMemory>
    ensures { OnOk result (id.new.items ≡ id.old.items ++ values.hex_digits 2 n) }
{
    id.push(hex_digit(n / 16 % 16))?;
    id.push(hex_digit(n % 16))?;
    Ok(())
}

fn push_four(id: &mut Vec<char>, n: u32) -> Result<(), OutOfMemory>
    ensures { OnOk result (id.new.items ≡ id.old.items ++ values.hex_digits 4 n) }
{
    push_two(id, n / 256)?;
    push_two(id, n)
}

fn push_eight(id: &mut Vec<char>, n: u32) -> Result<(), OutOfMemory>
    ensures { OnOk result (id.new.items ≡ id.old.items ++ values.hex_digits 8 n) }
{
    push_four(id, n / 65536)?;
    push_four(id, n)?;
    Ok(())
}

/// Pushes a character by its number.
fn push_numbered(id: &mut Vec<char>, c: u32) -> Result<(), OutOfMemory>
    ensures { OnOk result (id.new.items ≡ id.old.items ++ values.numbered_escape c) }
{
    if c < 256 {
        push_ascii(id, "\\x")?;
        return push_two(id, c);
    }
    if c < 65536 {
        push_ascii(id, "\\u")?;
        return push_four(id, c);
    }
    push_ascii(id, "\\U")?;
    push_eight(id, c)
}

/// Pushes a character as an id has it.
#[tactic(auto, unfolding(crate::specs::Values::escaped_char))]
fn push_escaped(id: &mut Vec<char>, c: char) -> Result<(), OutOfMemory>
    ensures { OnOk result (id.new.items ≡ id.old.items ++ values.escaped_char c) }
{
    if c == '\n' {
        return push_ascii(id, "\\n");
    }
    if c == '\t' {
        return push_ascii(id, "\\t");
    }
    if c == '\r' {
        return push_ascii(id, "\\r");
    }
    if c == '\\' {
        return push_ascii(id, "\\\\");
    }
    let number = c as u32;
    if 32 <= number && number < 127 {
        id.push(c)?;
        return Ok(());
    }
    push_numbered(id, number)
}

/// A text as an id has it.
#[tactic(auto, unfolding(crate::specs::Values::escaped))]
pub fn escaped(alloc: Global, text: &[char]) -> Result<PyText, OutOfMemory>
    ensures { IfOk result (λ id. id ≡ values.escaped text.now) }
{
    let mut id = Vec::new(alloc);
    for c in text {
        push_escaped(&mut id, *c)?;
    }
    Ok(PyText::from_vec(id))
}
