ghost use Rattle.std.specs.Prelude.{◌≡◌, IfOk, chars};
ghost use Rattle.py_tokens.specs.Layout.{layout, IsLayout, EndsText};

use crate::cursor::Cursor;
use crate::line::{close, read_line};
use crate::token::{LexFault, Token};
use seq::CharText;
use std::alloc::Global;

/// The tokens of a text, or its first fault (Language Reference, lexical analysis).
#[tactic(auto, unfolding(crate::specs::Layout::layout))]
pub fn tokens(alloc: Global, text: &str) -> Result<Vec<Token>, LexFault>
    ensures value { IsLayout (layout (chars text.now)) result }
    ensures ended { IfOk result (λ tokens. EndsText tokens.items) }
{
    let source = CharText::from_str(alloc, text)?;
    let mut cursor = Cursor::new(source.chars());
    let mut columns = Vec::new(alloc);
    columns.push(0)?;
    let mut tokens = Vec::new(alloc);
    while !cursor.rest.is_empty() {
        read_line(alloc, &mut cursor, &mut columns, &mut tokens)?;
    }
    close(cursor.place, &columns, &mut tokens)?;
    Ok(tokens)
}
