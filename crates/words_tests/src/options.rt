use cli_words::{Dist, Options, Tb, Word, Words};
use std::alloc::{AllocError, Global};
use std::fmt::Write;

fn push_words(out: &mut String, name: &str, words: &Words) -> Result<(), AllocError> {
    for word in words.items() {
        write!(out, " {name}:{word}")?;
    }
    Ok(())
}

fn push_word(out: &mut String, name: &str, word: &Word) -> Result<(), AllocError> {
    if word.text().is_empty() {
        return Ok(());
    }
    write!(out, " {name}:{word}")
}

fn push_count(out: &mut String, name: &str, count: u64, usual: u64) -> Result<(), AllocError> {
    if count == usual {
        return Ok(());
    }
    write!(out, " {name}:{count}")
}

fn push_generated(out: &mut String, options: &Options) -> Result<(), AllocError> {
    match options.generated {
        Some((seed, files)) => write!(out, " generated:{seed},{files}"),
        None => Ok(()),
    }
}

fn switch_text(is_on: bool, text: &'static str) -> &'static str {
    if is_on { text } else { "" }
}

fn tb_text(tb: Tb) -> &'static str {
    match tb {
        Tb::Short => "",
        Tb::Line => " tb:line",
        Tb::No => " tb:no",
    }
}

fn dist_text(dist: Dist) -> &'static str {
    match dist {
        Dist::LoadFile => "",
        Dist::No => " dist:no",
    }
}

fn push_switches(out: &mut String, options: &Options) -> Result<(), AllocError> {
    out.push_str(switch_text(options.collect_only, " collect_only"))?;
    out.push_str(switch_text(options.setup_show, " setup_show"))?;
    out.push_str(switch_text(options.verbose, " verbose"))?;
    push_count(out, "step_limit", options.step_limit, 1_000_000)?;
    push_generated(out, options)
}

/// The options that differ from those of an empty command line.
pub fn shown(alloc: Global, options: &Options) -> Result<String, AllocError> {
    let mut out = String::new(alloc);
    push_words(&mut out, "path", &options.paths)?;
    push_word(&mut out, "keyword", &options.keyword)?;
    push_word(&mut out, "marks", &options.marks)?;
    push_count(&mut out, "maxfail", u64::from(options.maxfail), 0)?;
    out.push_str(tb_text(options.tb))?;
    push_count(&mut out, "workers", u64::from(options.workers), 0)?;
    out.push_str(dist_text(options.dist))?;
    push_words(&mut out, "ignore", &options.ignore)?;
    push_switches(&mut out, options)?;
    Ok(out)
}

/// Words, with `|` between them, and what they ask for or the text of their fault.
pub const PATHS_AND_SWITCHES: [(&str, &str); 30] = [
    ("", " path:"),
    ("test_a.py", " path:test_a.py"),
    ("test_a.py::test_x|dir", " path:test_a.py::test_x path:dir"),
    ("-", " path:-"),
    ("-v|-|a", " path:- path:a verbose"),
    ("--|-x", " path:-x"),
    ("--", ""),
    ("a|--|-v|--", " path:a path:-v path:--"),
    ("a|-v|b|-k|x|c", " path:a path:b path:c keyword:x verbose"),
    ("-v", " verbose"),
    ("--verbose", " verbose"),
    ("-vv", " verbose"),
    ("-x", " maxfail:1"),
    ("--exitfirst", " maxfail:1"),
    ("-vx", " maxfail:1 verbose"),
    ("-xv", " maxfail:1 verbose"),
    ("--collect-only", " collect_only"),
    ("--co", " collect_only"),
    ("--setup-show", " setup_show"),
    ("--co=1", "argument --co: takes no value"),
    ("--verbose=", "argument --verbose: takes no value"),
    ("-q", "unrecognized arguments: -q"),
    ("-xq", "unrecognized arguments: -xq"),
    ("-x=1", "unrecognized arguments: -x=1"),
    ("-vé", "unrecognized arguments: -vé"),
    ("-x-", "unrecognized arguments: -x-"),
    ("--foo", "unrecognized arguments: --foo"),
    ("--foo=1", "unrecognized arguments: --foo=1"),
    ("--maxf=1", "unrecognized arguments: --maxf=1"),
    ("---", "unrecognized arguments: ---"),
];

/// Words with a text or a number, and what the options are then.
pub const TEXTS_AND_NUMBERS: [(&str, &str); 36] = [
    ("-k|a and not b", " keyword:a and not b"),
    ("-ka", " keyword:a"),
    ("-k=a", " keyword:a"),
    ("-k==a", " keyword:=a"),
    ("-k=", ""),
    ("-k|", ""),
    ("-k", "argument -k: expected one argument"),
    ("-k|-v", "argument -k: expected one argument"),
    ("-k|-", "argument -k: expected one argument"),
    ("-xk", "argument -k: expected one argument"),
    ("-m|slow", " marks:slow"),
    ("-mslow|-m|é", " marks:é"),
    ("-xk|a", " keyword:a maxfail:1"),
    ("-xkv", " keyword:v maxfail:1"),
    ("-k|a|-kb", " keyword:b"),
    ("--maxfail|2", " maxfail:2"),
    ("--maxfail=2", " maxfail:2"),
    ("--maxfail=0", ""),
    ("--maxfail=65536", " maxfail:65536"),
    (
        "--maxfail=65537",
        "argument --maxfail: invalid value: '65537'",
    ),
    ("--maxfail=x", "argument --maxfail: invalid value: 'x'"),
    ("--maxfail=", "argument --maxfail: invalid value: ''"),
    ("--maxfail=+2", "argument --maxfail: invalid value: '+2'"),
    ("--maxfail|1=2", "argument --maxfail: invalid value: '1=2'"),
    ("--maxfail=000000002", " maxfail:2"),
    (
        "--maxfail=0000000002",
        "argument --maxfail: invalid value: '0000000002'",
    ),
    ("--maxfail", "argument --maxfail: expected one argument"),
    ("--maxfail|-x", "argument --maxfail: expected one argument"),
    ("-x|--maxfail=3", " maxfail:3"),
    ("--maxfail=3|-x", " maxfail:1"),
    ("--step-limit=1", " step_limit:1"),
    (
        "--step-limit=0",
        "argument --step-limit: invalid value: '0'",
    ),
    ("--step-limit|100000000", " step_limit:100000000"),
    (
        "--step-limit=100000001",
        "argument --step-limit: invalid value: '100000001'",
    ),
    ("--ignore=a|--ignore|b", " ignore:a ignore:b"),
    ("--ignore=", " ignore:"),
];

/// Words on workers and on the form of the report, and what the options are then.
pub const WORKERS_AND_FORMS: [(&str, &str); 45] = [
    ("-n2", " workers:2"),
    ("-n|2", " workers:2"),
    ("-n=2", " workers:2"),
    ("-n|02", " workers:2"),
    ("-n8", " workers:8"),
    ("-n9", "argument -n: invalid value: '9'"),
    ("-n=", "argument -n: invalid value: ''"),
    ("-nauto", "argument -n: invalid value: 'auto'"),
    ("-vn|3", " workers:3 verbose"),
    ("--numprocesses=4", " workers:4"),
    (
        "--numprocesses|x",
        "argument --numprocesses: invalid value: 'x'",
    ),
    ("-n2|-x", "-n cannot be used with -x or --maxfail"),
    ("--maxfail=3|-n2", "-n cannot be used with -x or --maxfail"),
    ("-n2|-x|--maxfail=0", " workers:2"),
    ("-n2|-x|--dist=no", " maxfail:1 workers:2 dist:no"),
    (
        "-n2|-x|--dist=no|--dist=loadfile",
        "-n cannot be used with -x or --maxfail",
    ),
    ("-n2|-x|--co", " maxfail:1 workers:2 collect_only"),
    ("-n2|-x|-n0", " maxfail:1"),
    ("-n2|-x|--foo", "unrecognized arguments: --foo"),
    ("--dist|no", " dist:no"),
    ("--dist=load", "argument --dist: invalid value: 'load'"),
    ("--tb=short", ""),
    ("--tb=line", " tb:line"),
    ("--tb=no|-v", " tb:no verbose"),
    ("--tb=line|--tb=short", ""),
    ("--tb=long", "argument --tb: invalid value: 'long'"),
    ("--tb|-", "argument --tb: expected one argument"),
    ("--generated=1,4", " generated:1,4"),
    ("--generated|65535,4000", " generated:65535,4000"),
    ("--generated=01,03", " generated:1,3"),
    (
        "--generated=65536,1",
        "argument --generated: invalid value: '65536,1'",
    ),
    (
        "--generated=1,0",
        "argument --generated: invalid value: '1,0'",
    ),
    (
        "--generated=1,4001",
        "argument --generated: invalid value: '1,4001'",
    ),
    ("--generated=1", "argument --generated: invalid value: '1'"),
    (
        "--generated=1,2,3",
        "argument --generated: invalid value: '1,2,3'",
    ),
    ("--=x", "unrecognized arguments: --=x"),
    ("-q|--tb=x", "unrecognized arguments: -q"),
    ("--tb=x|-q", "argument --tb: invalid value: 'x'"),
    ("-k|--foo", "argument -k: expected one argument"),
    ("--help", ""),
    ("--version|a", " path:a"),
    ("--help=x", "argument --help: takes no value"),
    ("--version=", "argument --version: takes no value"),
    ("-h", "unrecognized arguments: -h"),
    ("-V", "unrecognized arguments: -V"),
];

/// Words, with `|` between them, and whether they ask for workers.
pub const WORKERS: [(&str, &str); 1] = [("a|-n2", "true")];

fn are_words_kept(alloc: Global) -> Result<bool, AllocError> {
    let word = Word::from_string(String::from_str(alloc, "é")?);
    let is_text_kept = word.text() == "é";
    let words = Words::from_vec(vec![in alloc; word]?);
    Ok(is_text_kept && words.items().len() == 1)
}

#[test]
fn words_are_kept(rt: HostRuntime) {
    assert!(rt; matches!(are_words_kept(rt.alloc()), Ok(true)));
}
