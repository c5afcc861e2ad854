// Characters and places that a pattern's items match.

ghost use Rattle.std.specs.Prelude.{◌≡◌, false, drop};
ghost use Rattle.match_pattern.specs.Matching.{stands_for};
ghost use Rattle.match_pattern.specs.Searching.{atom_begins, kept, goes_on, passed};

use crate::pattern::{Atom, Item, Times};

/// Whether an atom stands for a character.
fn stands_for(atom: Atom, c: char) -> bool
    ensures { result ≡ stands_for atom c }
{
    match atom {
        Atom::AnyCharacter => c != '\n',
        Atom::Character(wanted) => c == wanted,
    }
}

/// Whether an atom stands for the character at a place; there is none behind the last.
fn stands_at(atom: Atom, text: &[char], at: usize) -> bool
    ensures { result ≡ atom_begins atom (drop at text.now) }
{
    match text.get(at) {
        Some(c) => stands_for(atom, *c),
        None => false,
    }
}

/// Whether what is matched up to an item may also end here behind it, where it ended here before it, and where the item has
/// come here.
fn kept(times: Times, here: bool, inside: bool) -> bool
    ensures { result ≡ kept times here inside }
{
    match times {
        Times::Once => inside,
        Times::ZeroOrMore => here || inside,
        Times::OneOrMore => inside,
    }
}

/// Whether the item may match the next character.
fn goes_on(times: Times, here: bool, inside: bool) -> bool
    ensures { result ≡ goes_on times here inside }
{
    match times {
        Times::Once => here,
        Times::ZeroOrMore => here || inside,
        Times::OneOrMore => here || inside,
    }
}

/// Moves the marks from the places at which an item may begin to those at which it may end.
pub fn pass(item: Item, text: &[char], marks: &mut [bool])
    ensures { marks.new ≡ passed item false marks.old text.now }
{
    let mut inside = false;
    for at in 0..marks.len() {
        let here = marks[at];
        marks[at] = kept(item.times, here, inside);
        inside = goes_on(item.times, here, inside) && stands_at(item.atom, text, at);
    }
}
