ghost use Rattle.std.specs.Prelude.{◌≡◌, ◌≤◌, map, bytes_eq, option_map, IfSome};
ghost use Rattle.py_tokens.specs.Words.{begins, op_entry, first_entry, operator_at, word_entry, keyword_of, sized};

use crate::op::Op;

// An operator that another one begins with stands behind it.
const OPERATORS: [(&str, Op); 47] = [
    ("**=", Op::DoubleStarEqual),
    ("//=", Op::DoubleSlashEqual),
    (">>=", Op::RightShiftEqual),
    ("<<=", Op::LeftShiftEqual),
    ("...", Op::Ellipsis),
    ("**", Op::DoubleStar),
    ("//", Op::DoubleSlash),
    (">>", Op::RightShift),
    ("<<", Op::LeftShift),
    (">=", Op::GreaterEqual),
    ("<=", Op::LessEqual),
    ("==", Op::EqualEqual),
    ("!=", Op::NotEqual),
    ("->", Op::Arrow),
    ("+=", Op::PlusEqual),
    ("-=", Op::MinusEqual),
    ("*=", Op::StarEqual),
    ("/=", Op::SlashEqual),
    ("%=", Op::PercentEqual),
    ("&=", Op::AmpersandEqual),
    ("|=", Op::BarEqual),
    ("^=", Op::CaretEqual),
    (":=", Op::ColonEqual),
    ("@=", Op::AtEqual),
    ("+", Op::Plus),
    ("-", Op::Minus),
    ("*", Op::Star),
    ("/", Op::Slash),
    ("%", Op::Percent),
    ("&", Op::Ampersand),
    ("|", Op::Bar),
    ("^", Op::Caret),
    ("~", Op::Tilde),
    ("<", Op::Less),
    (">", Op::Greater),
    ("(", Op::LeftParen),
    (")", Op::RightParen),
    ("[", Op::LeftBracket),
    ("]", Op::RightBracket),
    ("{", Op::LeftBrace),
    ("}", Op::RightBrace),
    (",", Op::Comma),
    (":", Op::Colon),
    (".", Op::Dot),
    (";", Op::Semicolon),
    ("=", Op::Equal),
    ("@", Op::At),
];

const KEYWORDS: [(&str, Op); 35] = [
    ("False", Op::False),
    ("None", Op::None),
    ("True", Op::True),
    ("and", Op::And),
    ("as", Op::As),
    ("assert", Op::Assert),
    ("async", Op::Async),
    ("await", Op::Await),
    ("break", Op::Break),
    ("class", Op::Class),
    ("continue", Op::Continue),
    ("def", Op::Def),
    ("del", Op::Del),
    ("elif", Op::Elif),
    ("else", Op::Else),
    ("except", Op::Except),
    ("finally", Op::Finally),
    ("for", Op::For),
    ("from", Op::From),
    ("global", Op::Global),
    ("if", Op::If),
    ("import", Op::Import),
    ("in", Op::In),
    ("is", Op::Is),
    ("lambda", Op::Lambda),
    ("nonlocal", Op::Nonlocal),
    ("not", Op::Not),
    ("or", Op::Or),
    ("pass", Op::Pass),
    ("raise", Op::Raise),
    ("return", Op::Return),
    ("try", Op::Try),
    ("while", Op::While),
    ("with", Op::With),
    ("yield", Op::Yield),
];

fn begins(word: &str, text: &[char]) -> bool
    ensures { result ≡ begins word.now text.now }
{
    let bytes = word.as_bytes();
    let mut rest = text;
    for byte in bytes {
        let [first, behind @ ..] = rest else {
            return false;
        };
        if *first != char::from(*byte) {
            return false;
        }
        rest = behind;
    }
    true
}

// The length and the operator of the first entry whose word the text begins with.
fn first_entry(table: &[(&str, Op)], text: &[char]) -> Option<(usize, Op)>
    ensures { result ≡ option_map sized (first_entry (map op_entry table.now) text.now) }
{
    for entry in table {
        if begins(entry.0, text) {
            return Some((entry.0.len(), entry.1));
        }
    }
    None
}

/// The longest operator that the text begins with, and its length.
#[tactic(auto, unfolding(crate::specs::Words::operator_at, crate::specs::Words::operators))]
pub fn operator_at(text: &[char]) -> Option<(usize, Op)>
    ensures value { result ≡ option_map sized (operator_at text.now) }
    ensures size { IfSome result (λ entry. 1 ≤ entry.0) }
{
    first_entry(&OPERATORS, text)
}

fn is_word(word: &str, chars: &[char]) -> bool
    ensures { result ≡ bytes_eq chars.now word.now }
{
    chars.len() == word.len() && begins(word, chars)
}

fn word_entry(table: &[(&str, Op)], chars: &[char]) -> Option<Op>
    ensures { result ≡ word_entry (map op_entry table.now) chars.now }
{
    for entry in table {
        if is_word(entry.0, chars) {
            return Some(entry.1);
        }
    }
    None
}

/// The keyword that a name is.
#[tactic(auto, unfolding(crate::specs::Words::keyword_of, crate::specs::Words::keywords))]
pub fn keyword_of(name: &[char]) -> Option<Op>
    ensures { result ≡ keyword_of name.now }
{
    word_entry(&KEYWORDS, name)
}
