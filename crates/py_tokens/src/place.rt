ghost use Rattle.std.specs.Prelude.{◌≡◌, ◌≤◌, drop, take, length};
ghost use Rattle.py_tokens.specs.Places.{next_pos, next_place, place_behind, comment_len, gap_len};

use py_literals::line_end_len;
use py_source::Pos;

/// A place in a text.
#[derive(Clone, Copy, PartialEq, Eq)]
pub struct Place {
    pub pos: Pos,
    /// How many bytes stand before it.
    pub offset: usize,
}

fn next_pos(pos: Pos, ch: char) -> Pos
    ensures { result ≡ next_pos pos ch }
{
    if ch == '\n' {
        return Pos {
            line: pos.line.saturating_add(1),
            column: 1,
        };
    }
    Pos {
        line: pos.line,
        column: pos.column.saturating_add(1),
    }
}

/// The place right behind a character. A count that reaches the end of its type stands still there.
#[tactic(auto, unfolding(crate::specs::Places::next_place))]
pub fn next_place(place: Place, ch: char) -> Place
    ensures { result ≡ next_place place ch }
{
    Place {
        pos: next_pos(place.pos, ch),
        offset: place.offset.saturating_add(ch.len_utf8()),
    }
}

/// The place behind so many characters of a text, or behind all that it has.
pub fn place_behind(place: Place, text: &[char], count: usize) -> Place
    ensures { result ≡ place_behind place (take count text.now) }
{
    let mut here = place;
    for ch in &text[..count.min(text.len())] {
        here = next_place(here, *ch);
    }
    here
}

/// How many characters the text begins with that stand before a line end.
fn comment_len(text: &[char]) -> usize
    ensures value { result ≡ comment_len text.now }
    ensures within { result ≤ length text.now }
{
    let mut rest = text;
    let mut len = 0;
    while let [_, others @ ..] = rest {
        if line_end_len(rest) > 0 {
            return len;
        }
        len += 1;
        rest = others;
    }
    len
}

/// How many characters the blank, the joint of two lines or the comment has that the text begins with, else none.
pub fn gap_len(text: &[char]) -> usize
    ensures value { result ≡ gap_len text.now }
    ensures within { result ≤ length text.now }
{
    match text {
        [' ' | '\t', ..] => 1,
        ['#', rest @ ..] => 1 + comment_len(rest),
        ['\\', rest @ ..] => match line_end_len(rest) {
            0 => 0,
            line_end => 1 + line_end,
        },
        _ => 0,
    }
}
