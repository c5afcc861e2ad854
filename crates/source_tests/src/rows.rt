//! Expected values are CPython's.

use crate::literals::{class_told, literal_told, number_told};
use crate::tokens::{blocks_told, kinds, open_told, told as tokens_told};
use py_literals::read_number;
use py_source::SrcText;
use std::alloc::{AllocError, Global};

/// What a row reads.
#[derive(Clone, Copy)]
enum Act {
    /// Whether a name may begin with a character, and whether it may go on with it.
    Class,
    /// A number's value and length, or its fault.
    Number,
    /// A literal's text, or its fault with its place.
    Plain,
    Raw,
    /// A text's tokens, each with its place, or its fault with its place.
    Tokens,
    /// The tokens of the text so many times in a row.
    Open(u32),
    /// The tokens of a hundred blocks, each in the one before it, and the text in the last.
    Blocks,
    /// What each token of a text stands for.
    Kinds,
}

/// What is read of the characters of a text.
fn chars_told(alloc: Global, act: Act, chars: &[char]) -> Result<String, AllocError> {
    match act {
        Act::Number => number_told(alloc, read_number(chars)),
        Act::Raw => literal_told(alloc, true, chars),
        _ => literal_told(alloc, false, chars),
    }
}

fn told(alloc: Global, act: Act, text: &str) -> Result<String, AllocError> {
    match act {
        Act::Class => class_told(alloc, text),
        Act::Tokens => tokens_told(alloc, text),
        Act::Open(times) => open_told(alloc, text, times),
        Act::Blocks => blocks_told(alloc, text),
        Act::Kinds => kinds(alloc, text),
        Act::Number | Act::Plain | Act::Raw => match SrcText::from_str(alloc, text) {
            Ok(chars) => chars_told(alloc, act, chars.chars()),
            Err(_) => Err(AllocError),
        },
    }
}

const FILE: &str = "\
# a file
import pytest

@pytest.fixture(scope=\"module\")
def numbers():
    xs = [1,
          2]
    if xs:
        return xs

    return []


def test_é(numbers):
    assert numbers[0] ** 2 == 0x_ff, \\
        \"text\"
";

/// The tokens are CPython's, but that an Indent stands right before the token behind it. A mark at the start is no part of the text. A
/// hundred may be open.
const ROWS: [(Act, &str, &str); 88] = [
    (Act::Class, "_", "true true"),
    (Act::Class, "é", "true true"),
    (Act::Class, "名", "true true"),
    (Act::Class, "7", "false true"),
    (Act::Class, "\u{301}", "false true"),
    (Act::Class, "$", "false false"),
    (Act::Class, "\u{a0}", "false false"),
    (Act::Number, "0", "0 1"),
    (Act::Number, "00", "0 2"),
    (Act::Number, "0_0)", "0 3"),
    (Act::Number, "1_000 ", "1000 5"),
    (Act::Number, "0x1F", "31 4"),
    (Act::Number, "0XfF", "255 4"),
    (Act::Number, "0x_f_f", "255 6"),
    (Act::Number, "0o17", "15 4"),
    (Act::Number, "0O_17", "15 5"),
    (Act::Number, "0b101", "5 5"),
    (Act::Number, "0B1_0", "2 5"),
    (Act::Number, "0x1.", "1 3"),
    (
        Act::Number,
        "170141183460469231731687303715884105727",
        "170141183460469231731687303715884105727 39",
    ),
    (Act::Number, "01", "NumberForm"),
    (Act::Number, "1_", "NumberForm"),
    (Act::Number, "1__0", "NumberForm"),
    (Act::Number, "0x", "NumberForm"),
    (Act::Number, "0b2", "NumberForm"),
    (Act::Number, "1if", "NumberForm"),
    (Act::Number, "1jx", "NumberForm"),
    (Act::Number, "1e+", "NumberForm"),
    (Act::Number, "1.5", "Unsupported"),
    (Act::Number, "01.", "Unsupported"),
    (Act::Number, "1e-5", "Unsupported"),
    (Act::Number, "0j", "Unsupported"),
    (
        Act::Number,
        "170141183460469231731687303715884105728",
        "NumberRange",
    ),
    (
        Act::Number,
        "0xffffffffffffffffffffffffffffffffff",
        "NumberRange",
    ),
    (Act::Plain, "'a' b", "a"),
    (Act::Plain, "\"it\\'s\"", "it's"),
    (
        Act::Plain,
        "'\\\\\\a\\b\\f\\n\\r\\t\\v'",
        "\\\u{7}\u{8}\u{c}\n\r\t\u{b}",
    ),
    (Act::Plain, "'\\101\\7\\0008\\777'", "A\u{7}\u{0}8\u{1ff}"),
    (Act::Plain, "'\\x41\\u00e9\\U0001F600'", "A\u{e9}\u{1f600}"),
    (Act::Plain, "'\\q\\ '", "\\q\\ "),
    (Act::Plain, "'a\\\nb'", "ab"),
    (Act::Plain, "'a\\\r\nb'", "ab"),
    (Act::Plain, "'''a\r\nb'''", "a\nb"),
    (Act::Plain, "''", ""),
    (Act::Plain, "\"\"\"\"\"\"", ""),
    (Act::Plain, "'''it's \"x\" '' '''", "it's \"x\" '' "),
    (Act::Raw, "'\\n\\''", "\\n\\'"),
    (Act::Raw, "\"\"\"a\\\nb\"\"\"", "a\\\nb"),
    (Act::Plain, "'ab", "Unterminated at 0"),
    (Act::Plain, "'a\\xg\nb'", "Unterminated at 0"),
    (Act::Plain, "'ab\\", "Unterminated at 0"),
    (Act::Plain, "'''ab''", "Unterminated at 0"),
    (Act::Plain, "'ab\\x4'", "Escape at 3"),
    (Act::Plain, "'''\\ud800'''", "Escape at 3"),
    (Act::Plain, "'\\U00110000'", "Escape at 1"),
    (Act::Plain, "'a\\N{DIGIT ONE}\\x'", "Unsupported at 2"),
    (
        Act::Tokens,
        FILE,
        "\
import@2:1 pytest@2:8 NEWLINE@2:14 \
@@4:1 pytest@4:2 .@4:8 fixture@4:9 (@4:16 scope@4:17 =@4:22 \"module\"@4:23 )@4:31 NEWLINE@4:32 \
def@5:1 numbers@5:5 (@5:12 )@5:13 :@5:14 NEWLINE@5:15 \
INDENT@6:5 xs@6:5 =@6:8 [@6:10 1@6:11 ,@6:12 2@7:11 ]@7:12 NEWLINE@7:13 \
if@8:5 xs@8:8 :@8:10 NEWLINE@8:11 INDENT@9:9 return@9:9 xs@9:16 NEWLINE@9:18 \
DEDENT@11:5 return@11:5 [@11:12 ]@11:13 NEWLINE@11:14 \
DEDENT@14:1 def@14:1 test_é@14:5 (@14:11 numbers@14:12 )@14:19 :@14:20 NEWLINE@14:21 \
INDENT@15:5 assert@15:5 numbers@15:12 [@15:19 0@15:20 ]@15:21 **@15:23 2@15:26 ==@15:28 0x_ff@15:31 ,@15:36 \
\"text\"@16:9 NEWLINE@16:15 DEDENT@17:1 END@17:1 ",
    ),
    (Act::Tokens, "", "END@1:1 "),
    (Act::Tokens, "  # c", "END@1:6 "),
    (Act::Tokens, "\u{feff}x", "x@1:1 NEWLINE@1:2 END@1:2 "),
    (
        Act::Tokens,
        "x;\r\n\r\ny",
        "x@1:1 ;@1:2 NEWLINE@1:3 y@3:1 NEWLINE@3:2 END@3:2 ",
    ),
    (
        Act::Tokens,
        "if x:\n y",
        "if@1:1 x@1:4 :@1:5 NEWLINE@1:6 INDENT@2:2 y@2:2 NEWLINE@2:3 DEDENT@2:3 END@2:3 ",
    ),
    (
        Act::Tokens,
        "a***b**=c",
        "a@1:1 **@1:2 *@1:4 b@1:5 **=@1:6 c@1:9 NEWLINE@1:10 END@1:10 ",
    ),
    (
        Act::Tokens,
        "....:==!==",
        "...@1:1 .@1:4 :=@1:5 =@1:7 !=@1:8 =@1:10 NEWLINE@1:11 END@1:11 ",
    ),
    (
        Act::Tokens,
        "<<=>>>=->@@=",
        "<<=@1:1 >>@1:4 >=@1:6 ->@1:8 @@1:10 @=@1:11 NEWLINE@1:13 END@1:13 ",
    ),
    (
        Act::Tokens,
        "nota not x'y'r'z'",
        "nota@1:1 not@1:6 x@1:10 'y'@1:11 r'z'@1:14 NEWLINE@1:18 END@1:18 ",
    ),
    (Act::Tokens, "if x:\n \ty", "Tab@2:2"),
    (Act::Tokens, "if x:\n    y\n  z", "Dedent@3:3"),
    (Act::Tokens, "x = $", "Character@1:5"),
    (Act::Tokens, "x\\ \n", "Character@1:2"),
    (Act::Tokens, "x\ry", "Character@1:2"),
    (Act::Tokens, "x = 'a\nb'", "Unterminated@1:5"),
    (Act::Tokens, "f([1,\n 2)", "Mismatch@2:3"),
    (Act::Tokens, "x)", "Mismatch@1:2"),
    (Act::Tokens, "f(\n[1", "Unclosed@2:1"),
    (Act::Tokens, "x = '\\xz'", "Escape@1:6"),
    (Act::Tokens, "x = 012", "NumberForm@1:5"),
    (
        Act::Tokens,
        "170141183460469231731687303715884105728",
        "NumberRange@1:1",
    ),
    (Act::Tokens, "\u{fb01} = 1", "NotNfkc@1:1"),
    (Act::Tokens, "x = rb'y", "Unsupported@1:5"),
    (Act::Tokens, "x = .5", "Unsupported@1:5"),
    // the first in the order of the text
    (Act::Tokens, "x = $\n\ty", "Character@1:5"),
    (Act::Tokens, "(\n$", "Character@2:1"),
    (Act::Tokens, "if x:\n  y\n $", "Dedent@3:2"),
    (Act::Kinds, "None -1 'é' _n\n", "None Minus 1 'é _n   "),
    (Act::Open(100), "(", "Unclosed@1:100"),
    (Act::Open(101), "(", "Nesting@1:101"),
    (Act::Blocks, "x", "Nesting@101:101"),
];

/// The text of the first row that doesn't hold, with what is told of it.
fn wrong(alloc: Global) -> Result<String, AllocError> {
    for (act, text, wanted) in &ROWS {
        let told = told(alloc, *act, text)?;
        if told.as_str() != *wanted {
            return format!(in alloc; "{text}: {told}");
        }
    }
    Ok(String::new(alloc))
}

#[test]
fn literals_and_tokens_are_read(rt: HostRuntime) {
    match wrong(rt.alloc()) {
        Ok(told) => assert_eq!(rt; told.as_str(), ""),
        Err(_) => assert!(rt; false, "no memory"),
    }
}
