//! Expected values are pytest's: its documentation ("Working with custom markers", "How to invoke pytest") and its own
//! tests of expressions.

use mark_expr::{ExprFault, How, PyName, matches, read_expr};
use std::alloc::{AllocError, Global};

/// Expressions, a name or mark of a test of the file `test_server.py`, and whether they are true of it.
const VALUES: [(&str, &str, How, bool); 38] = [
    ("true", "true", How::Whole, true),
    ("false", "true", How::Whole, false),
    ("not true", "true", How::Whole, false),
    ("not false", "true", How::Whole, true),
    ("not not true", "true", How::Whole, true),
    ("true and true and not true", "true", How::Whole, false),
    ("false or false or true", "true", How::Whole, true),
    ("true and true or false", "true", How::Whole, true),
    ("false and false or true", "true", How::Whole, true),
    ("true or true and false", "true", How::Whole, true),
    ("not true or true", "true", How::Whole, true),
    ("not (true or true)", "true", How::Whole, false),
    ("true and (false or not false)", "true", How::Whole, true),
    ("  true  ", "true", How::Whole, true),
    (
        "     ( ((\t  (((true)))))  \t   \t)",
        "true",
        How::Whole,
        true,
    ),
    (
        "(     true     and   (((false))))",
        "true",
        How::Whole,
        false,
    ),
    ("not not not not not true", "true", How::Whole, false),
    ("1234and", "true", How::Whole, false),
    ("True", "true", How::Whole, false),
    ("http", "test_send_http", How::Part, true),
    ("http", "test_something_quick", How::Part, false),
    ("not send_http", "test_send_http", How::Part, false),
    ("not send_http", "test_another", How::Part, true),
    ("http or quick", "test_something_quick", How::Part, true),
    ("http or quick", "test_another", How::Part, false),
    ("SERVER and QUICK", "test_something_quick", How::Part, true),
    ("test_server.py", "test_another", How::Part, true),
    ("t[1-2]", "test[1-2]", How::Part, true),
    ("test_quick_", "test_quick", How::Part, false),
    ("not (slow or B) and c", "test_c", How::Part, true),
    ("not (slow or B) and c", "test_Slow_c", How::Part, false),
    ("not (slow or B) and c", "test_bc", How::Part, false),
    ("not (slow or B) and c", "test_d", How::Part, false),
    ("webtest", "webtest", How::Whole, true),
    ("not webtest", "webtest", How::Whole, false),
    ("interface or event", "webtest", How::Whole, false),
    ("web", "webtest", How::Whole, false),
    ("WEBTEST", "webtest", How::Whole, false),
];

/// Whether the expression is true of a test of the file `test_server.py` with the name or mark.
fn is_true(alloc: Global, text: &str, other: &str, how: How) -> Result<bool, ExprFault> {
    let names = [
        PyName::from_str(alloc, "test_server.py")?,
        PyName::from_str(alloc, other)?,
    ];
    let expr = read_expr(alloc, text)?;
    Ok(matches(&expr, &names, how))
}

/// The first row that doesn't hold.
fn wrong_value(alloc: Global) -> Option<(&'static str, &'static str)> {
    for (text, other, how, expected) in &VALUES {
        if is_true(alloc, text, other, *how) != Ok(*expected) {
            return Some((*text, *other));
        }
    }
    None
}

#[test]
fn expressions_have_values(rt: HostRuntime) {
    assert_eq!(rt; wrong_value(rt.alloc()), None);
}

/// What stands before a text so many times, the text, what stands behind it as often, how often, and why it is refused.
const FAULTS: [(&str, &str, &str, u32, Option<ExprFault>); 28] = [
    ("", "", "", 0, Some(ExprFault::Bad(1))),
    ("", " \t", "", 0, Some(ExprFault::Bad(3))),
    ("", "(", "", 0, Some(ExprFault::Bad(2))),
    ("", " (", "", 0, Some(ExprFault::Bad(3))),
    ("", ")", "", 0, Some(ExprFault::Bad(1))),
    ("", ") ", "", 0, Some(ExprFault::Bad(1))),
    ("", "not", "", 0, Some(ExprFault::Bad(4))),
    ("", "not not", "", 0, Some(ExprFault::Bad(8))),
    ("", "(not)", "", 0, Some(ExprFault::Bad(5))),
    ("", "and", "", 0, Some(ExprFault::Bad(1))),
    ("", "ident and", "", 0, Some(ExprFault::Bad(10))),
    ("", "ident and or", "", 0, Some(ExprFault::Bad(11))),
    ("", "ident ident", "", 0, Some(ExprFault::Bad(7))),
    ("", "a)", "", 0, Some(ExprFault::Bad(2))),
    ("", "(a", "", 0, Some(ExprFault::Bad(3))),
    ("", "a\nb", "", 0, Some(ExprFault::Bad(2))),
    ("", "^", "", 0, Some(ExprFault::Bad(1))),
    ("", "a or b*", "", 0, Some(ExprFault::Bad(7))),
    ("", "é and", "", 0, Some(ExprFault::Bad(1))),
    ("", "a & é", "", 0, Some(ExprFault::Bad(3))),
    ("(", "a or b", ")", 100, None),
    ("(", "a or b", ")", 101, Some(ExprFault::Nesting)),
    ("(", "a a", ")", 100, Some(ExprFault::Bad(103))),
    ("(", "$", ")", 101, Some(ExprFault::Nesting)),
    ("(", "a", "", 101, Some(ExprFault::Nesting)),
    ("not ", "a", "", 100, None),
    ("not ", "a", "", 101, Some(ExprFault::Nesting)),
    ("(a) or ", "a", "", 5000, None),
];

fn push_times(out: &mut String, piece: &str, times: u32) -> Result<(), AllocError> {
    for _ in 0..times {
        out.push_str(piece)?;
    }
    Ok(())
}

/// Why the text is refused that has this many times `open` before it, and `close` behind it.
fn fault_in(
    alloc: Global,
    open: &str,
    text: &str,
    close: &str,
    times: u32,
) -> Result<Option<ExprFault>, AllocError> {
    let mut all = String::new(alloc);
    push_times(&mut all, open, times)?;
    all.push_str(text)?;
    push_times(&mut all, close, times)?;
    Ok(read_expr(alloc, all.as_str()).err())
}

/// The first row that doesn't hold.
fn wrong_fault(alloc: Global) -> Option<(&'static str, &'static str)> {
    for (open, text, close, times, expected) in &FAULTS {
        if fault_in(alloc, open, text, close, *times) != Ok(*expected) {
            return Some((*open, *text));
        }
    }
    None
}

#[test]
fn faults_have_columns_and_a_hundred_are_open_at_most(rt: HostRuntime) {
    assert_eq!(rt; wrong_fault(rt.alloc()), None);
}
