ghost use Rattle.std.specs.Prelude.{◌≡◌, ◌+◌, ◌*◌, ◌<◌, ◌≤◌, ◌^◌, ◌&&◌, Bool, if◌then◌else◌, length, nat_lt, SomeIff, Some, None, MatchOption, IfSome, IfOk};
ghost use Rattle.std.specs.Char.{is_digit};
ghost use Rattle.std.specs.List.{list_all};
ghost use Rattle.py_literals.specs.Chars.{begins_with};
ghost use Rattle.py_literals.specs.Numbers.{number_at, is_run, is_digit_of, value_in, behind_digits, behind_sign, is_no_integer, integer_value, is_zero_or_underscore, decimal_value, based_value, base_of, in_range};

use crate::chars::{digit_value, is_name_part, word_len};
use py_source::LexKind;

/// A whole number at the head of a text.
#[derive(Clone, Copy, Debug, PartialEq, Eq)]
pub struct Number {
    pub value: i128,
    /// How many characters spell it.
    pub len: usize,
}

fn begins_with_digit(text: &[char], base: u32) -> bool
    requires low { 2 ≤ base }
    requires high { base ≤ 36 }
    ensures { result ≡ begins_with (is_digit_of base) text.now }
{
    match text {
        [first, ..] => first.is_digit(base),
        [] => false,
    }
}

// Whether digits stand there with single underscores before or between them.
fn is_run(digits: &[char], base: u32) -> bool
    requires low { 2 ≤ base }
    requires high { base ≤ 36 }
    ensures { result ≡ is_run base digits.now }
{
    let mut rest = digits;
    while let [first, behind @ ..] = rest {
        if !(first.is_digit(base) || *first == '_' && begins_with_digit(behind, base)) {
            return false;
        }
        rest = behind;
    }
    true
}

fn behind_digits(text: &[char]) -> &[char]
    ensures { result.now ≡ behind_digits text.now }
{
    let mut rest = text;
    while let [first, behind @ ..] = rest {
        if !(first.is_digit(10) || *first == '_' && begins_with_digit(behind, 10)) {
            return rest;
        }
        rest = behind;
    }
    rest
}

fn behind_sign(text: &[char]) -> &[char]
    ensures { result.now ≡ behind_sign text.now }
{
    match text {
        ['+' | '-', behind @ ..] => behind,
        _ => text,
    }
}

// Whether a point, an exponent or a `j` makes digits before it something else than a whole number.
fn is_no_integer(behind: &[char]) -> bool
    ensures { result ≡ is_no_integer behind.now }
{
    match behind {
        ['.', ..] => true,
        ['e' | 'E', rest @ ..] => begins_with_digit(behind_sign(rest), 10),
        ['j' | 'J', next, ..] => !is_name_part(*next),
        ['j' | 'J'] => true,
        _ => false,
    }
}

fn base_of(behind_zero: &[char]) -> u32
    ensures value { result ≡ base_of behind_zero.now }
    ensures low { 2 ≤ result }
    ensures high { result ≤ 36 }
{
    match behind_zero {
        ['x' | 'X', ..] => 16,
        ['o' | 'O', ..] => 8,
        ['b' | 'B', ..] => 2,
        _ => 10,
    }
}

// One more digit, as long as the number stays in range.
fn with_digit(value: u128, base: u32, digit: u32) -> Option<u128>
    ensures { SomeIff result (value * base + digit < 2 ^ 127) (value * base + digit) }
{
    let next = value
        .checked_mul(u128::from(base))?
        .checked_add(u128::from(digit))?;
    if next < 1 << 127 { Some(next) } else { None }
}

// The number that digits write, where it is in range; underscores do not count.
fn value_in(base: u32, digits: &[char]) -> Option<i128>
    requires { 2 ≤ base }
    ensures { result ≡ in_range (value_in base digits.now) }
{
    let mut value: u128 = 0;
    for ch in digits {
        if *ch == '_' {
            continue;
        }
        value = with_digit(value, base, digit_value(*ch))?;
    }
    i128::try_from(value).ok()
}

fn decimal_digits(word: &[char]) -> Option<(u32, &[char])>
    ensures some { IfSome result (λ _. 1 ≤ length word.now) }
    ensures low { IfSome result (λ form. 2 ≤ form.0) }
    ensures found { MatchOption result (decimal_value word.now ≡ None) (λ form. decimal_value word.now ≡ Some (value_in form.0 form.1.now)) }
{
    let [first, behind @ ..] = word else {
        return None;
    };
    let is_form = first.is_digit(10) && is_run(behind, 10);
    if is_form && (*first != '0' || has_zeros_alone(behind)) {
        Some((10, word))
    } else {
        None
    }
}

fn has_zeros_alone(digits: &[char]) -> bool
    ensures { result ≡ list_all is_zero_or_underscore digits.now }
{
    digits.iter().all(|ch| matches!(*ch, '0' | '_'))
}

fn based_digits(base: u32, behind_zero: &[char]) -> Option<(u32, &[char])>
    requires low { 2 ≤ base }
    requires high { base ≤ 36 }
    ensures kept { IfSome result (λ form. 2 ≤ form.0) }
    ensures found { MatchOption result (based_value base behind_zero.now ≡ None) (λ form. based_value base behind_zero.now ≡ Some (value_in form.0 form.1.now)) }
{
    match behind_zero {
        [_, digits @ ..] if !digits.is_empty() && is_run(digits, base) => Some((base, digits)),
        _ => None,
    }
}

// The base and the digits of a word that is a whole number.
#[tactic(auto, unfolding(crate::specs::Numbers::integer_value))]
fn integer_digits(word: &[char]) -> Option<(u32, &[char])>
    ensures some { IfSome result (λ _. 1 ≤ length word.now) }
    ensures low { IfSome result (λ form. 2 ≤ form.0) }
    ensures found { MatchOption result (integer_value word.now ≡ None) (λ form. integer_value word.now ≡ Some (value_in form.0 form.1.now)) }
{
    match word {
        ['0', behind @ ..] if base_of(behind) != 10 => based_digits(base_of(behind), behind),
        _ => decimal_digits(word),
    }
}

/// The number at the head of a text that begins with a digit. A name right behind it is a wrong form
/// (Language Reference, integer literals).
#[tactic(auto, unfolding(crate::specs::Numbers::number_at))]
pub fn read_number(text: &[char]) -> Result<Number, LexKind>
    ensures value { result ≡ number_at text.now }
    ensures size { IfOk result (λ number. 1 ≤ number.len) }
{
    if is_no_integer(behind_digits(text)) {
        return Err(LexKind::Unsupported);
    }
    let len = word_len(text);
    let Some((base, digits)) = integer_digits(&text[..len]) else {
        return Err(LexKind::NumberForm);
    };
    match value_in(base, digits) {
        Some(value) => Ok(Number { value, len }),
        None => Err(LexKind::NumberRange),
    }
}
