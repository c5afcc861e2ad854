ghost use Rattle.std.specs.Prelude.{◌≡◌, ◌+◌, ◌*◌, ◌<◌, ◌≤◌, ◌^◌, if◌then◌else◌, Some, None, Ok, Err, length, SomeIff, IfOk};
ghost use Rattle.std.specs.List.{list_all, prefix_len};
ghost use Rattle.std.specs.Str.Parse.{digits_value};
ghost use Rattle.py_literals.specs.Literals.{simple_escape, is_scalar, is_hex, is_octal, numbered, hex_escape, octal_digits, lettered_escape, escape_at, item_at, IsItemLen};

use crate::chars::{digit_value, line_end_len};
use py_source::LexKind;

/// A part of a literal's body that stands for one character, or for none.
#[derive(Clone, Copy, PartialEq, Eq)]
pub struct Item {
    pub stands_for: Option<char>,
    /// How many characters spell it.
    pub len: usize,
}

fn simple_escape(ch: char) -> Option<char>
    ensures { result ≡ simple_escape ch }
{
    match ch {
        '\\' | '\'' | '"' => Some(ch),
        'a' => Some('\u{7}'),
        'b' => Some('\u{8}'),
        'f' => Some('\u{c}'),
        'n' => Some('\n'),
        'r' => Some('\r'),
        't' => Some('\t'),
        'v' => Some('\u{b}'),
        _ => None,
    }
}

fn with_digit(value: u32, base: u32, digit: u32) -> Option<u32>
    ensures { SomeIff result (value * base + digit < 2 ^ 32) (value * base + digit) }
{
    value.checked_mul(base)?.checked_add(digit)
}

fn numbered_char(base: u32, digits: &[char]) -> Option<char>
    requires { 2 ≤ base }
    ensures { result ≡ (if is_scalar (digits_value base digits.now) then Some (digits_value base digits.now) else None) }
{
    let mut value = 0;
    for ch in digits {
        value = with_digit(value, base, digit_value(*ch))?;
    }
    char::from_u32(value)
}

fn numbered(base: u32, digits: &[char], len: usize) -> Result<Item, LexKind>
    requires base { 2 ≤ base }
    requires size { IsItemLen len }
    ensures value { result ≡ numbered base digits.now len }
    ensures size { IfOk result (λ item. IsItemLen item.len) }
{
    match numbered_char(base, digits) {
        Some(ch) => Ok(Item {
            stands_for: Some(ch),
            len,
        }),
        None => Err(LexKind::Escape),
    }
}

fn has_hex_alone(digits: &[char]) -> bool
    ensures { result ≡ list_all is_hex digits.now }
{
    digits.iter().all(|ch| ch.is_digit(16))
}

fn hex_escape(count: usize, behind: &[char]) -> Result<Item, LexKind>
    requires { count < 9 }
    ensures value { result ≡ hex_escape count behind.now }
    ensures size { IfOk result (λ item. IsItemLen item.len) }
{
    if behind.len() < count || !has_hex_alone(&behind[..count]) {
        return Err(LexKind::Escape);
    }
    numbered(16, &behind[..count], count + 2)
}

fn octal_len(behind: &[char]) -> usize
    ensures value { result ≡ prefix_len is_octal behind.now }
    ensures within { result ≤ length behind.now }
{
    behind.iter().take_while(|ch| ch.is_digit(8)).count()
}

fn octal_digits(behind: &[char]) -> &[char]
    ensures value { result.now ≡ octal_digits behind.now }
    ensures few { length result.now ≤ 3 }
{
    &behind[..octal_len(behind).min(3)]
}

fn lettered_escape(letter: char, behind: &[char]) -> Result<Item, LexKind>
    ensures value { result ≡ lettered_escape letter behind.now }
    ensures size { IfOk result (λ item. IsItemLen item.len) }
{
    match letter {
        'x' => hex_escape(2, behind),
        'u' => hex_escape(4, behind),
        'U' => hex_escape(8, behind),
        'N' => Err(LexKind::Unsupported),
        _ => Ok(Item {
            stands_for: Some('\\'),
            len: 1,
        }),
    }
}

// The escape whose backslash stands before the text.
#[tactic(auto, unfolding(crate::specs::Literals::escape_at))]
fn escape(behind: &[char]) -> Result<Item, LexKind>
    ensures value { result ≡ escape_at behind.now }
    ensures size { IfOk result (λ item. IsItemLen item.len) }
{
    let line_end = line_end_len(behind);
    if line_end > 0 {
        return Ok(Item {
            stands_for: None,
            len: 1 + line_end,
        });
    }
    let [letter, rest @ ..] = behind else {
        return Ok(Item {
            stands_for: Some('\\'),
            len: 1,
        });
    };
    if letter.is_digit(8) {
        let digits = octal_digits(behind);
        return numbered(8, digits, 1 + digits.len());
    }
    match simple_escape(*letter) {
        Some(ch) => Ok(Item {
            stands_for: Some(ch),
            len: 2,
        }),
        None => lettered_escape(*letter, rest),
    }
}

/// What stands at the head of a body.
#[tactic(auto, unfolding(crate::specs::Literals::item_at))]
pub fn read_item(is_raw: bool, body: &[char]) -> Result<Item, LexKind>
    ensures value { result ≡ item_at is_raw body.now }
    ensures size { IfOk result (λ item. IsItemLen item.len) }
{
    let line_end = line_end_len(body);
    if line_end > 0 {
        return Ok(Item {
            stands_for: Some('\n'),
            len: line_end,
        });
    }
    match body {
        ['\\', behind @ ..] if !is_raw => escape(behind),
        [ch, ..] => Ok(Item {
            stands_for: Some(*ch),
            len: 1,
        }),
        [] => Ok(Item {
            stands_for: None,
            len: 1,
        }),
    }
}
