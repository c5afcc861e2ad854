use cli_words::{Options, read_words};
use report_text::{
    CollectReport, Frame, Frames, ItemReport, Lines, OutOfMemory, PhaseEnd, Place, PyText, Text,
    Told, Tolds, conftest_fault, head, progress, sections, summary,
};
use std::alloc::Global;

type Answer<T> = Result<T, OutOfMemory>;

fn text(alloc: Global, text: &str) -> Answer<Text> {
    Text::from_str(alloc, text)
}

fn py_text(alloc: Global, text: &str) -> Answer<PyText> {
    PyText::from_str(alloc, text)
}

/// A frame from its file, line, name and source, with `~` between them; the source `-` isn't shown.
fn frame(alloc: Global, told: &str) -> Answer<Frame> {
    let mut parts = told.split('~');
    let file = text(alloc, parts.next().unwrap_or(""))?;
    let line = parts.next().unwrap_or("").parse::<u32>().unwrap_or(0);
    let name = text(alloc, parts.next().unwrap_or(""))?;
    let source = match parts.next().unwrap_or("-") {
        "-" => None,
        source => Some(text(alloc, source)?),
    };
    Ok(Frame {
        file,
        line,
        name,
        source,
    })
}

fn frames(alloc: Global, told: &str) -> Answer<Frames> {
    let mut frames = Vec::new(alloc);
    for place in told.split('^') {
        if !place.is_empty() {
            frames.push(frame(alloc, place)?)?;
        }
    }
    Ok(Frames::from_vec(frames))
}

/// An exception from its frames, with `^` between them, and behind `=>` its text.
fn exception(alloc: Global, told: &str) -> Answer<Told> {
    let (places, message) = told.split_once("=>").unwrap_or(("", told));
    let text = py_text(alloc, message)?;
    Ok(Told {
        frames: frames(alloc, places)?,
        text,
    })
}

/// The exceptions that are told, with `|` between them.
fn raised(alloc: Global, told: &str) -> Answer<PhaseEnd> {
    let mut all = Vec::new(alloc);
    for one in told.split('|') {
        all.push(exception(alloc, one)?)?;
    }
    Ok(PhaseEnd::Raised(Tolds::from_vec(all)))
}

fn strict(alloc: Global, reason: &str) -> Answer<PhaseEnd> {
    let reason = py_text(alloc, reason)?;
    Ok(PhaseEnd::StrictXpassed(frame(alloc, "test_a.py~4~test_s~-")?, reason))
}

fn end(alloc: Global, code: char, told: &str) -> Answer<PhaseEnd> {
    match code {
        '.' => Ok(PhaseEnd::Passed),
        's' => Ok(PhaseEnd::Skipped),
        'x' => Ok(PhaseEnd::Xfailed),
        'X' => Ok(PhaseEnd::Xpassed),
        'S' => strict(alloc, told),
        'R' => raised(alloc, told),
        _ => Ok(PhaseEnd::NotRun),
    }
}

/// The three ends of an item, one letter each; what is told of each that raised; what was captured.
#[derive(Clone, Copy)]
struct Shape {
    node_id: &'static str,
    ends: &'static str,
    told: &'static str,
    captured: [&'static str; 3],
}

fn no_text(alloc: Global) -> Text {
    Text::from_string(String::new(alloc))
}

fn blank_report(alloc: Global) -> ItemReport {
    ItemReport {
        node_id: no_text(alloc),
        title: no_text(alloc),
        file: no_text(alloc),
        setup: PhaseEnd::NotRun,
        call: PhaseEnd::NotRun,
        teardown: PhaseEnd::NotRun,
        shown_lines: Lines::from_vec(Vec::new(alloc)),
        captured: (no_text(alloc), no_text(alloc), no_text(alloc)),
    }
}

fn set_names(alloc: Global, report: &mut ItemReport, node_id: &str) -> Answer<()> {
    let (file, title) = node_id.split_once("::").unwrap_or((node_id, ""));
    report.node_id = text(alloc, node_id)?;
    report.title = text(alloc, title)?;
    report.file = text(alloc, file)?;
    Ok(())
}

fn set_shown_lines(alloc: Global, report: &mut ItemReport, node_id: &str) -> Answer<()> {
    let shown = format!(in alloc; "        {node_id} (fixtures used: f) .")?;
    let mut lines = Vec::new(alloc);
    lines.push(text(alloc, "        SETUP    F f")?)?;
    lines.push(text(alloc, shown.as_str())?)?;
    report.shown_lines = Lines::from_vec(lines);
    Ok(())
}

fn set_ends(alloc: Global, report: &mut ItemReport, ends: &str, told: &str) -> Answer<()> {
    let mut codes = ends.chars();
    report.setup = end(alloc, codes.next().unwrap_or('-'), told)?;
    report.call = end(alloc, codes.next().unwrap_or('-'), told)?;
    report.teardown = end(alloc, codes.next().unwrap_or('-'), told)?;
    Ok(())
}

fn set_captured(alloc: Global, report: &mut ItemReport, captured: [&str; 3]) -> Answer<()> {
    let [setup, call, teardown] = captured;
    report.captured.0 = text(alloc, setup)?;
    report.captured.1 = text(alloc, call)?;
    report.captured.2 = text(alloc, teardown)?;
    Ok(())
}

fn add_report(alloc: Global, reports: &mut Vec<ItemReport>, shape: &Shape) -> Answer<()> {
    add_item(alloc, reports, shape.node_id, shape.ends, shape.told)?;
    if let Some(report) = reports.last_mut() {
        set_captured(alloc, report, shape.captured)?;
    }
    Ok(())
}

fn add_item(
    alloc: Global,
    reports: &mut Vec<ItemReport>,
    node_id: &str,
    ends: &str,
    told: &str,
) -> Answer<()> {
    reports.push(blank_report(alloc))?;
    if let Some(report) = reports.last_mut() {
        set_names(alloc, report, node_id)?;
        set_ends(alloc, report, ends, told)?;
        set_shown_lines(alloc, report, node_id)?;
    }
    Ok(())
}

fn options(alloc: Global, line: &str) -> Answer<Options> {
    let mut words = Vec::new(alloc);
    for word in line.split(' ') {
        words.push(String::from_str(alloc, word)?)?;
    }
    read_words(alloc, &words).map_err(|_| OutOfMemory)
}

/// Items from their node ids and ends, with `|` between them.
fn items(alloc: Global, line: &str) -> Answer<Vec<ItemReport>> {
    let mut all = Vec::new(alloc);
    for item in line.split('|') {
        if let Some((node_id, ends)) = item.split_once(' ') {
            add_item(
                alloc,
                &mut all,
                node_id,
                ends,
                "test_a.py~2~test_r~-=>ValueError: no",
            )?;
        }
    }
    Ok(all)
}

/// Places from their groups and workers.
fn places(alloc: Global, numbers: &[(u32, u32)]) -> Answer<Vec<Place>> {
    let mut all = Vec::new(alloc);
    for (group, worker) in numbers {
        all.push(Place {
            group: *group,
            worker: *worker,
        })?;
    }
    Ok(all)
}

fn progress_at(alloc: Global, words: &str, line: &str, numbers: &[(u32, u32)]) -> Answer<Vec<u8>> {
    let reports = items(alloc, line)?;
    let places = places(alloc, numbers)?;
    let options = options(alloc, words)?;
    progress(alloc, &options, &reports, &places)
}

fn sections_at(
    alloc: Global,
    words: &str,
    errors: &[CollectReport],
    reports: &[ItemReport],
) -> Answer<Vec<u8>> {
    let options = options(alloc, words)?;
    sections(alloc, &options, errors, reports)
}

fn summary_at(
    alloc: Global,
    words: &str,
    errors: &[CollectReport],
    reports: &[ItemReport],
    numbers: (u8, u8),
    stopped: bool,
) -> Answer<Vec<u8>> {
    let options = options(alloc, words)?;
    summary(
        alloc,
        &options,
        errors,
        reports,
        u32::from(numbers.0),
        u32::from(numbers.1),
        stopped,
    )
}

const START: &str =
    "============================= test session starts ==============================\n";

const HEADS: [(u8, u8, u32, u32, &str); 9] = [
    (0, 0, 0, 0, "collected 0 items\n\n"),
    (1, 0, 0, 0, "collected 1 item\n\n"),
    (2, 0, 0, 0, "collected 2 items\n\n"),
    (1, 0, 3, 0, "collected 1 item / 3 errors\n\n"),
    (0, 0, 1, 0, "collected 0 items / 1 error\n\n"),
    (
        2,
        1,
        0,
        0,
        "collected 3 items / 1 deselected / 2 selected\n\n",
    ),
    (
        1,
        2,
        2,
        0,
        "collected 3 items / 2 errors / 2 deselected / 1 selected\n\n",
    ),
    (4, 0, 0, 2, "collected 4 items\n2 workers [4 items]\n\n"),
    (1, 0, 0, 1, "collected 1 item\n1 worker [1 item]\n\n"),
];

/// The first row that doesn't hold.
fn wrong_head(alloc: Global) -> Answer<Option<&'static str>> {
    let options = options(alloc, "-v")?;
    for (selected, deselected, errors, workers, wanted) in &HEADS {
        let (selected, deselected) = (u32::from(*selected), u32::from(*deselected));
        let bytes = head(alloc, &options, selected, deselected, *errors, *workers)?;
        let text = format!(in alloc; "{START}{wanted}")?;
        if bytes.as_slice() != text.as_bytes() {
            return Ok(Some(*wanted));
        }
    }
    Ok(None)
}

#[test]
fn writes_heads(rt: HostRuntime) {
    assert_eq!(rt; wrong_head(rt.alloc()), Ok(None));
}

const MORE: &str =
    "a.py::1 ...|a.py::2 s--|a.py::3 .x.|b.py::1 ...|b.py::2 .X.|u/c.py::1 .R.|u/c.py::2 R-.|a.py::4 ..R|a.py::5 .S.";

const PROGRESS: [(&str, &str, &[(u32, u32)], &str); 14] = [
    ("-x", "", &[], ""),
    ("a.py", "a.py::1 ...", &[], "a.py .\n\n"),
    (
        "-x",
        MORE,
        &[],
        "a.py .sx\nb.py .X\nu/c.py FE\na.py .EF\n\n",
    ),
    (
        "-n2",
        "a.py::1 ...|b.py::1 ...|c.py::1 .R.",
        &[(0, 0), (1, 1), (2, 0)],
        "a.py . [gw0]\nb.py . [gw1]\nc.py F [gw0]\n\n",
    ),
    (
        "-n2",
        "a.py::1 ...|a.py::2 ...",
        &[(0, 1), (0, 1)],
        "a.py .. [gw1]\n\n",
    ),
    (
        "-n2",
        "a.py::1 ...|a.py::2 ...",
        &[(0, 0), (1, 0)],
        "a.py . [gw0]\na.py . [gw0]\n\n",
    ),
    (
        "-v",
        "a.py::1 ..R|a.py::2 .R.|a.py::3 .s.",
        &[],
        "a.py::1 PASSED\na.py::1 ERROR\na.py::2 FAILED\na.py::3 SKIPPED\n\n",
    ),
    (
        "-v",
        "a.py::1 .x.|a.py::2 .X.",
        &[(0, 0), (0, 0)],
        "a.py::1 XFAIL [gw0]\na.py::2 XPASS [gw0]\n\n",
    ),
    (
        "--setup-show",
        "a.py::1 ...",
        &[],
        "        SETUP    F f\n        a.py::1 (fixtures used: f) .\n\n",
    ),
    (
        "--setup-show -v",
        "a.py::1 ...",
        &[(3, 2)],
        "        SETUP    F f [gw2]\n        a.py::1 (fixtures used: f) . [gw2]\n\n",
    ),
    (
        "--co",
        "a.py::1 ---|a.py::2 ---",
        &[],
        "a.py::1\na.py::2\n\n",
    ),
    ("--co -v --setup-show", "a.py::1 ---", &[], "a.py::1\n\n"),
    ("--co", "", &[], ""),
    ("--generated=1,2 --co", "a.py::1 ---", &[], ""),
];

/// The first row that doesn't hold.
fn wrong_progress(alloc: Global) -> Answer<Option<(&'static str, &'static str)>> {
    for (words, line, numbers, wanted) in &PROGRESS {
        let bytes = progress_at(alloc, words, line, numbers)?;
        if bytes.as_slice() != wanted.as_bytes() {
            return Ok(Some((*words, *line)));
        }
    }
    Ok(None)
}

#[test]
fn writes_progress(rt: HostRuntime) {
    assert_eq!(rt; wrong_progress(rt.alloc()), Ok(None));
}

const FRAMES: &str =
    "test_a.py~4~test_h~    check(4)^helper.py~2~check~\t assert x == 5 \t=>AssertionError";

const EXPLAINED: &str = "test_a.py~5~test_x~    assert f() == 5=>assert 4 == 5\n +  where 4 = f()";

const TWO: &str =
    "test_a.py~11~b~    raise KeyError(\"b\")=>KeyError: 'b'|test_a.py~6~a~    raise ValueError(\"a\")=>ValueError: a";

/// Words, a report, what is shown of it in full, and the lines of the summary.
const BLOCKS: [(&str, Shape, &str, &str); 9] = [
    (
        "-x",
        Shape {
            node_id: "test_a.py::test_h",
            ends: ".R.",
            told: FRAMES,
            captured: ["", "", ""],
        },
        "=================================== FAILURES ===================================\n\
        ____________________________________ test_h ____________________________________\n\
        test_a.py:4: in test_h\n    check(4)\nhelper.py:2: in check\n    assert x == 5\nE   AssertionError\n",
        "FAILED test_a.py::test_h - AssertionError\n",
    ),
    (
        "-x",
        Shape {
            node_id: "test_a.py::test_x",
            ends: ".R.",
            told: EXPLAINED,
            captured: ["up", "2\n", "down\n"],
        },
        "=================================== FAILURES ===================================\n\
        ____________________________________ test_x ____________________________________\n\
        test_a.py:5: in test_x\n    assert f() == 5\nE   assert 4 == 5\nE    +  where 4 = f()\n\
        ---------------------------- Captured stdout setup -----------------------------\nup\n\
        ----------------------------- Captured stdout call -----------------------------\n2\n",
        "FAILED test_a.py::test_x - assert 4 == 5\n",
    ),
    (
        "-x",
        Shape {
            node_id: "test_a.py::test_t",
            ends: "..R",
            told: TWO,
            captured: ["", "", "one\ntwo"],
        },
        "==================================== ERRORS ====================================\n\
        _________________________ ERROR at teardown of test_t __________________________\n\
        test_a.py:11: in b\n    raise KeyError(\"b\")\nE   KeyError: 'b'\n\
        test_a.py:6: in a\n    raise ValueError(\"a\")\nE   ValueError: a\n\
        --------------------------- Captured stdout teardown ---------------------------\none\ntwo\n",
        "ERROR test_a.py::test_t - KeyError: 'b'\n",
    ),
    (
        "-x",
        Shape {
            node_id: "test_a.py::test_t",
            ends: "R-.",
            told: "no é",
            captured: ["up a\n", "lost", "lost"],
        },
        "==================================== ERRORS ====================================\n\
        ___________________________ ERROR at setup of test_t ___________________________\n\
        E   no é\n\
        ---------------------------- Captured stdout setup -----------------------------\nup a\n",
        "ERROR test_a.py::test_t - no é\n",
    ),
    (
        "-x",
        Shape {
            node_id: "test_a.py::test_s",
            ends: ".S.",
            told: "fixed\nnow",
            captured: ["", "", ""],
        },
        "=================================== FAILURES ===================================\n\
        ____________________________________ test_s ____________________________________\n\
        [XPASS(strict)] fixed\nnow\n",
        "FAILED test_a.py::test_s - [XPASS(strict)] fixed\n",
    ),
    (
        "--tb=line",
        Shape {
            node_id: "test_a.py::test_s",
            ends: ".S.",
            told: "",
            captured: ["", "lost", ""],
        },
        "=================================== FAILURES ===================================\n\
        test_a.py:4: [XPASS(strict)]\n",
        "FAILED test_a.py::test_s - [XPASS(strict)]\n",
    ),
    (
        "--tb=line",
        Shape {
            node_id: "test_a.py::test_x",
            ends: "R-R",
            told: "lone\nmore",
            captured: ["lost", "", ""],
        },
        "==================================== ERRORS ====================================\nlone\nlone\n",
        "ERROR test_a.py::test_x - lone\nERROR test_a.py::test_x - lone\n",
    ),
    (
        "--tb=line",
        Shape {
            node_id: "test_a.py::test_h",
            ends: ".R.",
            told: FRAMES,
            captured: ["", "", ""],
        },
        "=================================== FAILURES ===================================\nhelper.py:2: AssertionError\n",
        "FAILED test_a.py::test_h - AssertionError\n",
    ),
    (
        "--tb=no",
        Shape {
            node_id: "test_a.py::test_x",
            ends: ".RR",
            told: "lone",
            captured: ["lost", "", ""],
        },
        "",
        "FAILED test_a.py::test_x - lone\nERROR test_a.py::test_x - lone\n",
    ),
];

const SHORT: &str =
    "=========================== short test summary info ============================\n";

/// Whether the block and the lines of the summary of a report are as wanted.
fn are_told(
    alloc: Global,
    words: &str,
    reports: &[ItemReport],
    block: &str,
    lines: &str,
) -> Answer<(bool, bool)> {
    let bytes = sections_at(alloc, words, &[], reports)?;
    let has_block = bytes.as_slice() == block.as_bytes();
    let bytes = summary_at(alloc, words, &[], reports, (1, 0), false)?;
    let lines = format!(in alloc; "{SHORT}{lines}")?;
    Ok((has_block, bytes.starts_with(lines.as_bytes())))
}

/// The first report that isn't told as wanted, and whether its block is.
fn wrong_report(alloc: Global) -> Answer<Option<(&'static str, bool)>> {
    for (words, shape, block, lines) in &BLOCKS {
        let mut reports = Vec::new(alloc);
        add_report(alloc, &mut reports, shape)?;
        let (has_block, has_lines) = are_told(alloc, words, &reports, block, lines)?;
        if !has_block || !has_lines {
            return Ok(Some((shape.node_id, has_block)));
        }
    }
    Ok(None)
}

#[test]
fn writes_blocks_and_summary_lines(rt: HostRuntime) {
    assert_eq!(rt; wrong_report(rt.alloc()), Ok(None));
}

fn add_error(
    alloc: Global,
    errors: &mut Vec<CollectReport>,
    file: &str,
    told: &str,
    captured: &str,
) -> Answer<()> {
    errors.push(CollectReport {
        file: no_text(alloc),
        told: Told {
            frames: Frames::from_vec(Vec::new(alloc)),
            text: PyText::new(alloc),
        },
        captured: no_text(alloc),
    })?;
    if let Some(error) = errors.last_mut() {
        error.file = text(alloc, file)?;
        error.told = exception(alloc, told)?;
        error.captured = text(alloc, captured)?;
    }
    Ok(())
}

fn two_errors(alloc: Global) -> Answer<Vec<CollectReport>> {
    let mut errors = Vec::new(alloc);
    add_error(
        alloc,
        &mut errors,
        "a.py",
        "a.py~1~<module>~def f() pass=>SyntaxError: invalid syntax",
        "",
    )?;
    add_error(
        alloc,
        &mut errors,
        "b.py",
        "b.py~2~<module>~-=>SyntaxError: source is not UTF-8",
        "seen",
    )?;
    Ok(errors)
}

const COLLECTED: &str =
    "==================================== ERRORS ====================================\n\
    ____________________________ ERROR collecting a.py _____________________________\n\
    a.py:1: in <module>\n    def f() pass\nE   SyntaxError: invalid syntax\n\
    ____________________________ ERROR collecting b.py _____________________________\n\
    b.py:2: in <module>\nE   SyntaxError: source is not UTF-8\n\
    ------------------------------- Captured stdout --------------------------------\nseen\n";

const SHORT_COLLECTED: &str =
    "==================================== ERRORS ====================================\n\
    a.py:1: SyntaxError: invalid syntax\nb.py:2: SyntaxError: source is not UTF-8\n";

const INTERRUPTED: &str =
    "=========================== short test summary info ============================\n\
    ERROR a.py - SyntaxError: invalid syntax\nERROR b.py - SyntaxError: source is not UTF-8\n\
    !!!!!!!!!!!!!!!!!!! Interrupted: 2 errors during collection !!!!!!!!!!!!!!!!!!!!\n\
    =================================== 2 errors ===================================\n";

const CONFTEST: &str = "ImportError while loading conftest 'conftest.py'.\n\
    conftest.py:1: in <module>\n    1 // 0\nE   ZeroDivisionError: division by zero\n";

fn conftest(alloc: Global) -> Answer<Vec<u8>> {
    let told = exception(
        alloc,
        "conftest.py~1~<module>~1 // 0=>ZeroDivisionError: division by zero",
    )?;
    conftest_fault(alloc, "conftest.py", &told)
}

/// Which part of what errors make isn't as wanted, or an empty text.
fn wrong_part(alloc: Global, errors: &[CollectReport]) -> Answer<&'static str> {
    if sections_at(alloc, "-v", errors, &[])?.as_slice() != COLLECTED.as_bytes() {
        return Ok("sections");
    }
    if sections_at(alloc, "--tb=line", errors, &[])?.as_slice() != SHORT_COLLECTED.as_bytes() {
        return Ok("lines");
    }
    let bytes = summary_at(alloc, "-x", errors, &[], (0, 0), false)?;
    if bytes.as_slice() != INTERRUPTED.as_bytes() {
        return Ok("summary");
    }
    let bytes = summary_at(alloc, "--co", errors, &[], (1, 2), false)?;
    if !bytes.ends_with(b" 1/3 tests collected (2 deselected), 2 errors =================\n") {
        return Ok("counts");
    }
    Ok("")
}

/// Which part of what two errors make isn't as wanted, or that the text of a `conftest.py` isn't, or an empty text.
fn wrong_text(alloc: Global) -> Answer<&'static str> {
    let errors = two_errors(alloc)?;
    if conftest(alloc)?.as_slice() != CONFTEST.as_bytes() {
        return Ok("conftest");
    }
    wrong_part(alloc, &errors)
}

#[test]
fn writes_collection_errors(rt: HostRuntime) {
    assert_eq!(rt; wrong_text(rt.alloc()), Ok(""));
}

/// Words, items, the selected, the deselected, whether the run stopped, and the last lines.
const COUNTS: [(&str, &str, u8, u8, bool, &str); 12] = [
    (
        "-v",
        "",
        0,
        0,
        false,
        "================================ no tests ran =================================\n",
    ),
    (
        "-v",
        "",
        0,
        2,
        false,
        "================================= 2 deselected =================================\n",
    ),
    (
        "-v",
        "a.py::1 ...",
        1,
        0,
        false,
        "=================================== 1 passed ===================================\n",
    ),
    (
        "-v",
        MORE,
        9,
        1,
        false,
        "= 2 failed, 3 passed, 1 skipped, 1 deselected, 1 xfailed, 1 xpassed, 2 errors ==\n",
    ),
    (
        "-v",
        "a.py::1 R-R",
        1,
        0,
        false,
        "=================================== 2 errors ===================================\n",
    ),
    (
        "-v",
        "a.py::1 R-.",
        1,
        0,
        false,
        "=================================== 1 error ====================================\n",
    ),
    (
        "-x",
        "a.py::1 .R.",
        1,
        0,
        true,
        "!!!!!!!!!!!!!!!!!!!!!!!!!! stopping after 1 failures !!!!!!!!!!!!!!!!!!!!!!!!!!!\n=================================== 1 failed ===================================\n",
    ),
    (
        "--co",
        "a.py::1 ---",
        1,
        0,
        false,
        "=============================== 1 test collected ===============================\n",
    ),
    (
        "--co",
        "a.py::1 ---|a.py::2 ---",
        2,
        0,
        false,
        "============================== 2 tests collected ===============================\n",
    ),
    (
        "--co",
        "a.py::1 ---",
        1,
        2,
        false,
        "====================== 1/3 tests collected (2 deselected) ======================\n",
    ),
    (
        "--co",
        "",
        0,
        0,
        false,
        "============================== no tests collected ==============================\n",
    ),
    (
        "--co",
        "",
        0,
        3,
        false,
        "====================== no tests collected (3 deselected) =======================\n",
    ),
];

/// The first row that doesn't hold.
fn wrong_count(alloc: Global) -> Answer<Option<(&'static str, &'static str)>> {
    for (words, line, selected, deselected, stopped, wanted) in &COUNTS {
        let reports = items(alloc, line)?;
        let numbers = (*selected, *deselected);
        let bytes = summary_at(alloc, words, &[], &reports, numbers, *stopped)?;
        if !bytes.ends_with(wanted.as_bytes()) {
            return Ok(Some((*words, *line)));
        }
    }
    Ok(None)
}

#[test]
fn writes_counts(rt: HostRuntime) {
    assert_eq!(rt; wrong_count(rt.alloc()), Ok(None));
}
