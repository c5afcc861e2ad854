// Parts of texts.

ghost use Rattle.std.specs.Prelude.{◌≡◌, ◌≤◌, ◌*◌, ◌++◌, ◌∷◌, [], ℕ, List, IfOk, OnOk, drop, length};
ghost use Rattle.py_operands.specs.Search as search;

use memchr::memmem;
use py_values::OutOfMemory;
use std::alloc::Global;

/// Puts the bytes of a character behind others.
fn push_encoded(bytes: &mut Vec<u8>, c: char) -> Result<(), OutOfMemory>
    ensures { OnOk result (bytes.new.items ≡ bytes.old.items ++ search.encoded (c ∷ [])) }
{
    let code = c as u32;
    bytes.push((128 + code / 16384) as u8)?;
    bytes.push((code / 128 % 128) as u8)?;
    bytes.push((code % 128) as u8)?;
    Ok(())
}

/// A text as the bytes in which parts are looked for, three for a character.
pub fn encoded(alloc: Global, text: &[char]) -> Result<Vec<u8>, OutOfMemory>
    ensures value { IfOk result (λ v. v.items ≡ search.encoded text.now) }
    ensures length { IfOk result (λ v. length v.items ≡ 3 * length text.now) }
{
    let mut bytes = Vec::new(alloc);
    for c in text {
        push_encoded(&mut bytes, *c)?;
    }
    Ok(bytes)
}

/// The place from which on a part stands first in a text, both as their bytes, in time near linear.
fn first_encoded(text: &[u8], part: &[u8]) -> Option<usize>
    ensures { (t p : List ℕ) → text.now ≡ search.encoded t → part.now ≡ search.encoded p → result ≡ search.first_place p 0 t }
{
    match memmem::find(text, part) {
        Some(at) => Some(at / 3),
        None => None,
    }
}

/// The same behind so many characters of the text, counted from there.
pub fn first_behind(text: &[u8], part: &[u8], from: usize) -> Option<usize>
    requires within { 3 * from ≤ length text.now }
    ensures { (t p : List ℕ) → text.now ≡ search.encoded t → part.now ≡ search.encoded p → result ≡ search.first_place p 0 (drop from t) }
{
    first_encoded(&text[3 * from..], part)
}

/// The place from which on a part stands first in a text, in time near linear.
pub fn first_place(
    alloc: Global,
    part: &[char],
    text: &[char],
) -> Result<Option<usize>, OutOfMemory>
    ensures { IfOk result (λ at. at ≡ search.first_place part.now 0 text.now) }
{
    let text = encoded(alloc, text)?;
    let part = encoded(alloc, part)?;
    Ok(first_encoded(&text, &part))
}
