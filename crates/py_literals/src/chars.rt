ghost use Rattle.std.specs.Prelude.{◌≡◌, ◌≤◌, ◌||◌, ◌==◌, drop, length};
ghost use Rattle.std.specs.Char.{digit_value};
ghost use Rattle.std.specs.List.{prefix_len};
ghost use Rattle.unicode_ident.specs.Ident.{is_xid_start, is_xid_continue};
ghost use Rattle.py_literals.specs.Chars.{line_end};

/// Whether a name may begin with the character (Language Reference, identifiers).
pub fn is_name_start(ch: char) -> bool
    ensures { result ≡ (is_xid_start ch || (ch == 95)) }
{
    unicode_ident::is_xid_start(ch) | (ch == '_')
}

/// Whether a name may go on with the character (Language Reference, identifiers).
pub fn is_name_part(ch: char) -> bool
    ensures { result ≡ is_xid_continue ch }
{
    unicode_ident::is_xid_continue(ch)
}

/// How many characters the text begins with that may stand in a name.
pub fn word_len(text: &[char]) -> usize
    ensures value { result ≡ prefix_len is_xid_continue text.now }
    ensures within { result ≤ length text.now }
{
    text.iter().take_while(|ch| is_name_part(**ch)).count()
}

/// How many characters the line end has that the text begins with: `\n` or `\r\n`, else none.
pub fn line_end_len(text: &[char]) -> usize
    ensures value { result ≡ line_end text.now }
    ensures within { result ≤ length text.now }
{
    match text {
        ['\n', ..] => 1,
        ['\r', '\n', ..] => 2,
        _ => 0,
    }
}

/// The value of a digit or a letter, and 36 for any other character.
pub fn digit_value(ch: char) -> u32
    ensures { result ≡ digit_value ch }
{
    ch.to_digit(36).unwrap_or(36)
}

/// The text without its first characters, of which it may have fewer.
pub fn behind(text: &[char], count: usize) -> &[char]
    ensures { result.now ≡ drop count text.now }
{
    if count < text.len() {
        &text[count..]
    } else {
        &[]
    }
}
