use edge_io::{
    DirTree, Files, Gate, LoadFault, MemSink, MemTree, OpenGate, SinkFail, StdSink, SureSink,
    SureTree, Tree, load_files, put_all,
};
use std::alloc::{AllocError, Global};
use std::fmt::Write;
use std::{fs, io};

fn files(alloc: Global, files: &[(&str, &[u8])]) -> Result<Vec<(String, Vec<u8>)>, AllocError> {
    let mut made = Vec::new(alloc);
    for (path, bytes) in files {
        made.push((
            String::from_str(alloc, path)?,
            Vec::from_slice(alloc, bytes)?,
        ))?;
    }
    Ok(made)
}

fn paths(alloc: Global, loaded: &Files) -> Result<String, AllocError> {
    let mut text = String::new(alloc);
    for (path, _) in loaded.items() {
        text.push_str(path.as_str())?;
        text.push(' ')?;
    }
    Ok(text)
}

const KEPT: [(&str, &[u8]); 21] = [
    ("test_b.py", b"b"),
    ("test_a.py", b"a"),
    ("a/test_c.py", b"c"),
    ("a.b/test_d.py", b"d"),
    ("a/.hidden.py", b"h"),
    ("README", b""),
    ("x.pyc", b""),
    ("test_b.py", b"second"),
    (".git/a.py", b""),
    ("a/.tox/b.py", b""),
    ("my.egg/a.py", b""),
    ("_darcs/a.py", b""),
    ("build/a.py", b""),
    ("CVS/a.py", b""),
    ("dist/a.py", b""),
    ("node_modules/x/a.py", b""),
    ("venv/a.py", b""),
    ("a/__pycache__/a.py", b""),
    ("{arch}/a.py", b""),
    ("builds/a.py", b""),
    ("build.py", b""),
];

/// The paths that are kept of a tree, and the bytes of the file that it has twice.
fn kept(alloc: Global, loaded: &Files) -> Result<String, AllocError> {
    let mut told = paths(alloc, loaded)?;
    match loaded.bytes_at("test_b.py") {
        Some(bytes) => write!(told, "{:?}", bytes.as_slice())?,
        None => told.push_str("lost")?,
    }
    if loaded.bytes_at("README").is_some() {
        told.push_str(" README")?;
    }
    Ok(told)
}

const KEPT_PATHS: &str =
    "a.b/test_d.py a/.hidden.py a/test_c.py build.py builds/a.py test_a.py test_b.py [98]";

/// What is kept of the files.
fn kept_of(alloc: Global) -> Result<String, AllocError> {
    let mut tree = SureTree::new(alloc, files(alloc, &KEPT)?);
    match load_files(alloc, &mut tree) {
        Ok(loaded) => kept(alloc, &loaded),
        Err(_) => String::from_str(alloc, "not loaded"),
    }
}

fn sized(alloc: Global, path: &str, size: usize) -> Result<(String, Vec<u8>), AllocError> {
    Ok((String::from_str(alloc, path)?, vec![in alloc; b'#'; size]?))
}

fn many(alloc: Global, count: u32, size: usize) -> Result<Vec<(String, Vec<u8>)>, AllocError> {
    let mut made = Vec::new(alloc);
    for number in 0..count {
        let path = format!(in alloc; "test_{number}.py")?;
        made.push(sized(alloc, path.as_str(), size)?)?;
    }
    Ok(made)
}

fn outcome(alloc: Global, files: Vec<(String, Vec<u8>)>) -> Result<String, AllocError> {
    let mut tree = SureTree::new(alloc, files);
    match load_files(alloc, &mut tree) {
        Ok(loaded) => format!(in alloc; "{} files", loaded.items().len()),
        Err(LoadFault::Tree) => String::from_str(alloc, "fault"),
        Err(LoadFault::TooManyFiles) => String::from_str(alloc, "too many"),
        Err(LoadFault::TooLarge(path)) => format!(in alloc; "too large: {path}"),
        Err(LoadFault::TreeTooLarge) => String::from_str(alloc, "tree too large"),
        Err(LoadFault::OutOfMemory) => Err(AllocError),
    }
}

const MIB: usize = 1_048_576;

/// How many files of which size a tree has, what else it has, and what comes of it. In the order of the paths, a file's own size comes
/// before the sum.
const LIMITS: [(u32, usize, &[(&str, usize)], &str); 8] = [
    (4096, 0, &[], "4096 files"),
    (4097, 0, &[], "too many"),
    (8, MIB, &[], "8 files"),
    (9, MIB, &[], "tree too large"),
    (2, MIB + 1, &[], "too large: test_0.py"),
    (4097, 3000, &[], "too many"),
    (8, MIB, &[("test_9.py", MIB + 1)], "too large: test_9.py"),
    (
        8,
        MIB,
        &[("test_8.py", 1), ("test_9.py", MIB + 1)],
        "tree too large",
    ),
];

/// What comes of a tree of so many files of a size, and some more.
fn outcome_of(
    alloc: Global,
    count: u32,
    size: usize,
    more: &[(&str, usize)],
) -> Result<String, AllocError> {
    let mut files = many(alloc, count, size)?;
    for (path, size) in more {
        files.push(sized(alloc, path, *size)?)?;
    }
    outcome(alloc, files)
}

/// What is told of the first row that doesn't hold.
fn wrong_limit(alloc: Global) -> Result<String, AllocError> {
    for (count, size, more, wanted) in &LIMITS {
        let told = outcome_of(alloc, *count, *size, more)?;
        if told.as_str() != *wanted {
            return format!(in alloc; "{wanted}: {told}");
        }
    }
    Ok(String::new(alloc))
}

/// What is told of the files that are kept, or of a tree at a limit, where it isn't as wanted.
fn wrong_tree(alloc: Global) -> Result<String, AllocError> {
    let told = kept_of(alloc)?;
    if told.as_str() == KEPT_PATHS {
        return wrong_limit(alloc);
    }
    format!(in alloc; "kept: {told}")
}

#[test]
fn keeps_python_files_in_order_and_refuses_a_tree_at_its_limits(rt: HostRuntime) {
    match wrong_tree(rt.alloc()) {
        Ok(told) => assert_eq!(rt; told.as_str(), ""),
        Err(_) => assert!(rt; false, "no memory"),
    }
}

/// Whether a tree of two files, whose call with this number fails, isn't loaded.
fn tree_fails(alloc: Global, failing: u64) -> Result<bool, AllocError> {
    let tree = files(alloc, &[("test_a.py", b"a"), ("test_b.py", b"b")])?;
    let mut tree = MemTree::new(SureTree::new(alloc, tree), vec![in alloc; failing]?);
    Ok(matches!(&load_files(alloc, &mut tree), Err(LoadFault::Tree)))
}

#[test]
fn fails_where_the_tree_fails(rt: HostRuntime) {
    for failing in [1u64, 2, 3] {
        assert!(rt; matches!(tree_fails(rt.alloc(), failing), Ok(true)));
    }
}

/// Whether a sink takes ten bytes at two calls each, and fails at the third.
fn sink_fails(alloc: Global) -> Result<bool, AllocError> {
    let mut sink = MemSink::new(alloc, 10, vec![in alloc; 3u64]?);
    let put = put_all(&mut sink, b"0123456789abcdefghijklmnopq");
    Ok(
        put == Err(SinkFail::Failed)
            && sink.bytes() == b"0123456789abcdefghij".as_slice()
            && sink.calls() == 3,
    )
}

#[test]
fn fails_where_the_sink_fails(rt: HostRuntime) {
    assert!(rt; matches!(sink_fails(rt.alloc()), Ok(true)));
}

#[test]
fn a_sink_has_what_was_put(rt: HostRuntime) {
    let mut sink = SureSink::new(rt.alloc());
    assert!(rt;
        put_all(&mut sink, b"abc").is_ok()
            && put_all(&mut sink, b"").is_ok()
            && sink.bytes() == b"abc".as_slice()
    );
}

const FOLDER: &str = "edge_io_folder";

fn make_folder(rt: &HostRuntime) -> bool {
    fs::create_dir_all(rt, "edge_io_folder/sub").is_ok()
        && fs::write(rt, "edge_io_folder/test_a.py", b"assert 1".as_slice()).is_ok()
        && fs::write(rt, "edge_io_folder/sub/b.txt", b"".as_slice()).is_ok()
}

fn remove_folder(rt: &HostRuntime) -> bool {
    fs::remove_file(rt, "edge_io_folder/test_a.py").is_ok()
        && fs::remove_file(rt, "edge_io_folder/sub/b.txt").is_ok()
        && fs::remove_dir(rt, "edge_io_folder/sub").is_ok()
        && fs::remove_dir(rt, FOLDER).is_ok()
}

fn folder_tree(rt: &HostRuntime) -> Result<DirTree<HostRuntime>, AllocError> {
    Ok(DirTree::new(rt.clone()?, String::from_str(rt.alloc(), FOLDER)?))
}

/// Whether the folder's two files are listed.
fn is_listed(tree: &mut DirTree<HostRuntime>) -> bool {
    match tree.list() {
        Ok(mut paths) => {
            paths.sort().is_ok()
                && matches!(paths.as_slice(), [a, b] if a.as_str() == "sub/b.txt" && b.as_str() == "test_a.py")
        }
        Err(_) => false,
    }
}

/// Whether the front of a file of the folder is read.
fn is_front_read(tree: &mut DirTree<HostRuntime>) -> bool {
    match tree.read("test_a.py", 6) {
        Ok(front) => front.as_slice() == b"assert".as_slice(),
        Err(_) => false,
    }
}

/// Whether what the folder has is listed and read, and nothing else.
fn is_folder_read(rt: &HostRuntime) -> Result<bool, AllocError> {
    let mut tree = folder_tree(rt)?;
    Ok(is_listed(&mut tree) && is_front_read(&mut tree) && tree.read("nothing.py", 6).is_err())
}

/// Whether the folder isn't listed.
fn is_folder_gone(rt: &HostRuntime) -> Result<bool, AllocError> {
    Ok(folder_tree(rt)?.list().is_err())
}

#[test]
fn reads_a_folder(rt: HostRuntime) {
    assert!(rt; make_folder(&rt));
    assert!(rt; matches!(is_folder_read(&rt), Ok(true)));
    assert!(rt; remove_folder(&rt));
    assert!(rt; matches!(is_folder_gone(&rt), Ok(true)));
}

#[test]
fn writes_to_the_standard_output(rt: HostRuntime) {
    let mut sink = StdSink::new(io::writer(&rt));
    assert!(rt; put_all(&mut sink, b"written\n").is_ok());
    OpenGate.enter(0, 0);
}
