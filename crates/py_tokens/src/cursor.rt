ghost use Rattle.std.specs.Prelude.{◌≡◌, drop, take};
ghost use Rattle.py_tokens.specs.Layout.{start_of, without_mark};
ghost use Rattle.py_tokens.specs.Places.{place_behind};

use crate::place::{Place, place_behind};
use py_literals::behind;
use py_source::Pos;

/// What is left of a text, and where it begins.
#[derive(Drop)]
pub struct Cursor<'a> {
    pub rest: &'a [char],
    pub place: Place,
}

impl<'a> Cursor<'a> {
    /// The start of a text. A byte order mark there is no part of the first line.
    pub fn new(text: &'a [char]) -> Self
        ensures rest { result.rest.now ≡ without_mark text.now }
        ensures place { result.place ≡ start_of text.now }
    {
        let pos = Pos { line: 1, column: 1 };
        match text {
            ['\u{feff}', rest @ ..] => Cursor {
                rest,
                place: Place { pos, offset: 3 },
            },
            _ => Cursor {
                rest: text,
                place: Place { pos, offset: 0 },
            },
        }
    }

    /// Goes on behind so many characters.
    pub fn pass(&mut self, count: usize)
        ensures rest { self.new.rest.now ≡ drop count self.old.rest.now }
        ensures place { self.new.place ≡ place_behind self.old.place (take count self.old.rest.now) }
    {
        self.place = place_behind(self.place, self.rest, count);
        self.rest = behind(self.rest, count);
    }
}
