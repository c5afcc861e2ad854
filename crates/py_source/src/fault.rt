ghost use Rattle.std.specs.Prelude.{◌≡◌};
ghost use Rattle.py_source.specs.Faults.{syntax_text, source_text, source_line};

use crate::pos::Pos;

/// A kind of fault that the tokens of a source can have.
#[derive(Clone, Copy, Debug, PartialEq, Eq)]
pub enum LexKind {
    Unsupported,
    Nesting,
    Tab,
    Dedent,
    Character,
    Unterminated,
    Unclosed,
    Mismatch,
    Escape,
    NumberForm,
    NumberRange,
    NotNfkc,
}

/// A kind of fault that a source can have, beside not being UTF-8.
#[derive(Clone, Copy, Debug, PartialEq, Eq)]
pub enum SyntaxKind {
    Unexpected,
    Unsupported,
    Context,
    Nesting,
    Tab,
    Dedent,
    Character,
    Unterminated,
    Unclosed,
    Mismatch,
    Escape,
    NumberForm,
    NumberRange,
    NotNfkc,
}

/// Why a source has no module.
#[derive(Clone, Copy, Debug, PartialEq, Eq)]
pub enum SourceFault {
    /// The place of the fault, and its kind.
    Syntax(Pos, SyntaxKind),
    /// The line, from 1, of the first byte that is not UTF-8.
    NotUtf8(u32),
}

/// The kind of the whole source's fault, of the same name.
impl From<LexKind> for SyntaxKind {
    ghost use Rattle.std.specs.Prelude.{◌≡◌};
    ghost use Rattle.py_source.specs.Faults.{syntax_kind_of};

    ghost from_gives = { λ lexical kind. kind ≡ syntax_kind_of lexical };

    fn from(lexical: LexKind) -> SyntaxKind {
        match lexical {
            LexKind::Unsupported => SyntaxKind::Unsupported,
            LexKind::Nesting => SyntaxKind::Nesting,
            LexKind::Tab => SyntaxKind::Tab,
            LexKind::Dedent => SyntaxKind::Dedent,
            LexKind::Character => SyntaxKind::Character,
            LexKind::Unterminated => SyntaxKind::Unterminated,
            LexKind::Unclosed => SyntaxKind::Unclosed,
            LexKind::Mismatch => SyntaxKind::Mismatch,
            LexKind::Escape => SyntaxKind::Escape,
            LexKind::NumberForm => SyntaxKind::NumberForm,
            LexKind::NumberRange => SyntaxKind::NumberRange,
            LexKind::NotNfkc => SyntaxKind::NotNfkc,
        }
    }
}

impl SyntaxKind {
    /// The message of the `SyntaxError` that the report shows.
    pub fn text(self) -> &'static str
        ensures { result.now ≡ syntax_text self }
    {
        match self {
            SyntaxKind::Unexpected => "invalid syntax",
            SyntaxKind::Unsupported => "unsupported syntax",
            SyntaxKind::Context => "statement not allowed here",
            SyntaxKind::Nesting => "nesting too deep",
            SyntaxKind::Tab => "tab in indentation",
            SyntaxKind::Dedent => "unindent matches no open block",
            SyntaxKind::Character => "invalid character",
            SyntaxKind::Unterminated => "text literal not closed",
            SyntaxKind::Unclosed => "bracket not closed",
            SyntaxKind::Mismatch => "unmatched closing bracket",
            SyntaxKind::Escape => "invalid escape",
            SyntaxKind::NumberForm => "invalid number",
            SyntaxKind::NumberRange => "number out of range",
            SyntaxKind::NotNfkc => "name is not in normal form",
        }
    }
}

impl SourceFault {
    /// The message of the `SyntaxError` that the report shows.
    pub fn text(self) -> &'static str
        ensures { result.now ≡ source_text self }
    {
        match self {
            SourceFault::Syntax(_, kind) => kind.text(),
            SourceFault::NotUtf8(_) => "source is not UTF-8",
        }
    }

    /// The line of the fault, from 1.
    pub fn line(self) -> u32
        ensures { result ≡ source_line self }
    {
        match self {
            SourceFault::Syntax(at, _) => at.line,
            SourceFault::NotUtf8(line) => line,
        }
    }
}
