use super::*;
use std::alloc::Global;

/// Whether a line, titles and counts are written.
fn are_lines_written(out: &mut String) -> bool {
    push_line(out, "a line").is_ok()
        && push_title(out, '=', "1 passed").is_ok()
        && push_title(out, '_', "test_x").is_ok()
        && push_title(out, '-', "Captured stdout call").is_ok()
        && push_title(out, '!', "odd").is_ok()
        && push_counted(out, 0, "item").is_ok()
        && push_line(out, ".").is_ok()
        && push_counted(out, 1, "error").is_ok()
        && push_line(out, ".").is_ok()
        && push_counted(out, 2, "worker").is_ok()
        && push_line(out, ".").is_ok()
}

/// Whether lists of no text, of one and of two are written.
fn are_lists_written(out: &mut String, alloc: Global) -> bool {
    let mut pair = [String::new(alloc), String::new(alloc)];
    pair[0].push_str("a").is_ok()
        && pair[1].push_str("b").is_ok()
        && push_joined(out, ", ", &[]).is_ok()
        && push_joined(out, ", ", &pair[..1]).is_ok()
        && push_joined(out, ", ", &pair[..]).is_ok()
}

/// All that is written, or nothing where a call is refused memory.
fn written(alloc: Global) -> String {
    let mut out = String::new(alloc);
    if !are_lines_written(&mut out) || !are_lists_written(&mut out, alloc) {
        out.clear();
    }
    out
}

#[test]
fn writes_lines_titles_counts_and_lists(rt: HostRuntime) {
    let wanted = "a line\n\
        =================================== 1 passed ===================================\n\
        ____________________________________ test_x ____________________________________\n\
        ----------------------------- Captured stdout call -----------------------------\n\
        !!!!!!!!!!!!!!!!!!!!!!!!!!!!!!!!!!!!! odd !!!!!!!!!!!!!!!!!!!!!!!!!!!!!!!!!!!!!!\n\
        0 items.\n1 error.\n2 workers.\naa, b";
    assert_eq!(rt; written(rt.alloc()).as_str(), wanted);
}

/// Fill characters and texts of titles, and how many characters and bytes the whole line has without its end. The last four texts have
/// 75, 76, 77 and 90 characters.
const WIDTHS: [(char, &str, usize, usize); 7] = [
    ('=', "é", 80, 81),
    ('=', "", 80, 80),
    ('=', "ab", 80, 80),
    (
        '_',
        "nnnnnnnnnnnnnnnnnnnnnnnnnnnnnnnnnnnnnnnnnnnnnnnnnnnnnnnnnnnnnnnnnnnnnnnnnnn",
        80,
        80,
    ),
    (
        '_',
        "nnnnnnnnnnnnnnnnnnnnnnnnnnnnnnnnnnnnnnnnnnnnnnnnnnnnnnnnnnnnnnnnnnnnnnnnnnnn",
        80,
        80,
    ),
    (
        '_',
        "nnnnnnnnnnnnnnnnnnnnnnnnnnnnnnnnnnnnnnnnnnnnnnnnnnnnnnnnnnnnnnnnnnnnnnnnnnnnn",
        81,
        81,
    ),
    (
        '_',
        "nnnnnnnnnnnnnnnnnnnnnnnnnnnnnnnnnnnnnnnnnnnnnnnnnnnnnnnnnnnnnnnnnnnnnnnnnnnnnnnnnnnnnnnnnn",
        94,
        94,
    ),
];

/// Whether the title of a text has so many characters and bytes without its end.
fn has_width(alloc: Global, fill: char, text: &str, chars: usize, bytes: usize) -> bool {
    let mut out = String::new(alloc);
    fill < '\u{80}'
        && push_title(&mut out, fill, text).is_ok()
        && out.as_str().chars().count() == chars.saturating_add(1)
        && out.len() == bytes.saturating_add(1)
}

/// The first text whose title has another width.
fn wrong_width(alloc: Global) -> Option<&'static str> {
    for (fill, text, chars, bytes) in &WIDTHS {
        if !has_width(alloc, *fill, text, *chars, *bytes) {
            return Some(*text);
        }
    }
    None
}

#[test]
fn counts_characters_in_titles(rt: HostRuntime) {
    assert_eq!(rt; wrong_width(rt.alloc()), None);
}
