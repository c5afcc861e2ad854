use crate::{LexKind, Pos, SourceFault, SyntaxKind};

fn is_told(fault: SourceFault, text: &str, line: u32) -> bool {
    fault.text() == text && fault.line() == line
}

/// The first fault that has another message, or another line.
fn wrong_fault() -> Option<SourceFault> {
    let at = Pos { line: 3, column: 7 };
    for (kind, text) in [
        (SyntaxKind::Unexpected, "invalid syntax"),
        (SyntaxKind::Context, "statement not allowed here"),
        (SyntaxKind::from(LexKind::Tab), "tab in indentation"),
        (
            SyntaxKind::from(LexKind::Dedent),
            "unindent matches no open block",
        ),
        (SyntaxKind::from(LexKind::Escape), "invalid escape"),
        (
            SyntaxKind::from(LexKind::NotNfkc),
            "name is not in normal form",
        ),
    ] {
        let fault = SourceFault::Syntax(at, kind);
        if !is_told(fault, text, 3) {
            return Some(fault);
        }
    }
    let bytes = SourceFault::NotUtf8(2);
    if is_told(bytes, "source is not UTF-8", 2) {
        return None;
    }
    Some(bytes)
}

#[test]
fn each_fault_has_its_message(rt: HostRuntime) {
    assert_eq!(rt; wrong_fault(), None);
}
