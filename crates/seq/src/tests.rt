use crate::{ByteText, CharText, OutOfMemory, Seq};
use std::alloc::Global;

/// Whether a copy and a clone of a list are equal to it, and one with another value isn't.
fn are_copies_equal(alloc: Global, list: &Seq<u32>) -> Result<bool, OutOfMemory> {
    let copy = list.copied(alloc)?;
    let clone = list.clone()?;
    let is_equal = copy == *list && clone == copy;
    let mut values = clone.into_vec();
    values.push(4)?;
    Ok(is_equal && Seq::from_vec(values) != copy)
}

/// Whether a list has what was pushed.
fn has_values(alloc: Global) -> Result<bool, OutOfMemory> {
    let mut list = Seq::new(alloc);
    let was_empty = list.is_empty();
    list.push(3u32)?;
    list.push(1)?;
    let is_pushed = was_empty && list.items() == &[3, 1][..] && list.len() == 2;
    Ok(is_pushed && are_copies_equal(alloc, &list)?)
}

#[test]
fn a_list_keeps_its_values(rt: HostRuntime) {
    assert!(rt; matches!(has_values(rt.alloc()), Ok(true)));
}

/// Whether a text of characters has them, and is equal to one that is made of the same text.
fn has_characters(alloc: Global) -> Result<bool, OutOfMemory> {
    let text = CharText::from_chars(alloc, &['a', 'é', '\n'])?;
    let same = CharText::from_str(alloc, "aé\n")?;
    Ok(text.chars() == &['a', 'é', '\n'][..] && same == text)
}

/// Whether a text of bytes, and a clone of it, have them.
fn has_bytes(alloc: Global) -> Result<bool, OutOfMemory> {
    let bytes = ByteText::from_str(alloc, "é!")?;
    let copy = bytes.clone()?;
    Ok(bytes.text().len() == 3 && ByteText::from_string(copy.into_string()).text() == "é!")
}

/// Whether a text of bytes and the want of memory are shown.
fn is_shown(alloc: Global) -> Result<bool, OutOfMemory> {
    let bytes = ByteText::from_str(alloc, "é!")?;
    let shown = format!(in alloc; "{bytes} {}", OutOfMemory)?;
    Ok(shown.as_str() == "é! out of memory")
}

#[test]
fn a_text_keeps_its_characters(rt: HostRuntime) {
    assert!(rt; matches!(has_characters(rt.alloc()), Ok(true)));
    assert!(rt; matches!(has_bytes(rt.alloc()), Ok(true)));
    assert!(rt; matches!(is_shown(rt.alloc()), Ok(true)));
}
