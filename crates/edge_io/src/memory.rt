ghost use Rattle.std.specs.Prelude.{◌≡◌, ◌<◌, ◌≤◌, ◌==◌, ◌↔◌, List, ℕ, [], None, Some, length, map, max, min, string_bytes, take, IfOk, IfSome, IsErrOf, IsSome, IsTrue, MatchOption, OnErr};
ghost use Rattle.std.specs.List.{list_any};
ghost use Rattle.edge_io.specs.Causes.{HasCause, Rose};
ghost use Rattle.edge_io.specs.Fakes.{next_fails, no_calls, with_next};
ghost use Rattle.edge_io.specs.Files.{files_of, file_at, paths_of, ListsPaths};
ghost use Rattle.edge_io.specs.Told.{Appends};

use crate::order::in_order;
use crate::sink::{Sink, SinkFail};
use crate::tree::{Tree, TreeFail};
use seq::Seq;
use std::alloc::{AllocError, Global};
use std::marker::Model;

/// A tree in memory that never fails, seen as its files.
///
/// Of several files with one path it holds the first.
#[derive(Drop)]
pub struct SureTree {
    alloc: Global,
    files: Vec<(String, Vec<u8>)>,
}

impl Model for SureTree {
    ghost use Rattle.std.specs.Prelude.{List, ℕ};
    ghost use Rattle.edge_io.specs.Files.{files_of};

    ghost Value = { List (List ℕ × List ℕ) };

    ghost view = { λ tree. files_of tree.files.items };
}

impl SureTree {
    /// Holds these files, of several with one path the first. No call fails but for want of memory.
    pub fn new(alloc: Global, files: Vec<(String, Vec<u8>)>) -> Self
        ensures { result ≡ files_of files.items }
    {
        SureTree { alloc, files }
    }
}

fn paths_in(alloc: Global, files: &[(String, Vec<u8>)]) -> Result<Vec<String>, AllocError>
    ensures { IfOk result (λ paths. map string_bytes paths.items ≡ paths_of (files_of files.now)) }
{
    let mut paths = Vec::new(alloc);
    for file in files {
        paths.push(file.0.clone()?)?;
    }
    Ok(paths)
}

/// The bytes of the first file with a path.
pub fn bytes_in<'a>(files: &'a [(String, Vec<u8>)], path: &str) -> Option<&'a Vec<u8>>
    ensures { MatchOption result (file_at path.now (files_of files.now) ≡ None) (λ v. file_at path.now (files_of files.now) ≡ Some v.now.items) }
{
    for file in files {
        if path == file.0.as_str() {
            return Some(&file.1);
        }
    }
    None
}

impl Tree for SureTree {
    ghost files = { λ tree. Some tree };

    ghost faults = { λ _. 0 };

    fn list(&mut self) -> Result<Vec<String>, TreeFail>
        ensures same { self.new ≡ self.old }
        ensures paths { IfOk result (λ paths. ListsPaths self.old (map string_bytes paths.items)) }
        ensures cause { HasCause TreeFail.Failed 0 0 result }
        ensures sure { ¬ (IsErrOf result TreeFail.Failed) }
    {
        let paths = paths_in(self.alloc, &self.files)?;
        Ok(in_order(paths)?)
    }

    fn read(&mut self, path: &str, most: usize) -> Result<Vec<u8>, TreeFail>
        requires { IsSome (file_at path.now self.old) }
        ensures same { self.new ≡ self.old }
        ensures bytes { IfOk result (λ bytes. IfSome (file_at path.now self.old) (λ whole. bytes.items ≡ take most whole)) }
        ensures cause { HasCause TreeFail.Failed 0 0 result }
        ensures sure { ¬ (IsErrOf result TreeFail.Failed) }
    {
        match bytes_in(&self.files, path) {
            Some(bytes) => Ok(Vec::from_slice(self.alloc, &bytes[..most.min(bytes.len())])?),
            None => unreachable!(),
        }
    }
}

/// The calls of a fake: the numbers of those that fail, from 1, how many were made, and how many of them failed.
#[derive(Drop)]
pub struct Calls {
    pub failing: Seq<u64>,
    pub made: u64,
    pub faults: u64,
}

impl Calls {
    fn new(failing: Vec<u64>) -> Self
        ensures { result ≡ no_calls failing.items }
    {
        Calls {
            failing: Seq::from_vec(failing),
            made: 0,
            faults: 0,
        }
    }

    /// Counts one more call, and says whether it fails.
    fn next_fails(&mut self) -> bool
        ensures fails { result ≡ next_fails self.old }
        ensures counted { self.new ≡ with_next self.old }
        ensures later { self.old.faults ≤ self.new.faults }
        ensures failed { IsTrue result → Rose self.old.faults self.new.faults }
    {
        self.made = self.made.saturating_add(1);
        if !has_number(self.failing.items(), self.made) {
            return false;
        }
        self.faults = self.faults.saturating_add(1);
        true
    }
}

fn has_number(numbers: &[u64], wanted: u64) -> bool
    ensures { result ≡ list_any (λ number. number == wanted) numbers.now }
{
    numbers.iter().any(|number| *number == wanted)
}

/// A tree in memory, with a list of the calls that fail; seen as its files and its calls.
#[derive(Drop)]
pub struct MemTree {
    tree: SureTree,
    calls: Calls,
}

impl Model for MemTree {
    ghost use Rattle.std.specs.Prelude.{List, ℕ};
    ghost use Rattle.edge_io.specs.declared.memory.Calls.{Calls};

    ghost Value = { List (List ℕ × List ℕ) × Calls };

    ghost view = { λ tree. (tree.tree, tree.calls) };
}

impl MemTree {
    /// A tree whose calls with the numbers `failing`, from 1, fail: the first call is mostly `list`.
    pub fn new(tree: SureTree, failing: Vec<u64>) -> Self
        ensures { result ≡ (tree, no_calls failing.items) }
    {
        MemTree {
            tree,
            calls: Calls::new(failing),
        }
    }
}

impl Tree for MemTree {
    ghost files = { λ tree. Some tree.0 };

    ghost faults = { λ tree. tree.1.faults };

    fn list(&mut self) -> Result<Vec<String>, TreeFail>
        ensures same { Some self.new.0 ≡ Some self.old.0 }
        ensures paths { IfOk result (λ paths. ListsPaths self.old.0 (map string_bytes paths.items)) }
        ensures cause { HasCause TreeFail.Failed self.old.1.faults self.new.1.faults result }
        ensures fails { IsErrOf result TreeFail.Failed ↔ IsTrue (next_fails self.old.1) }
        ensures counted { self.new.1 ≡ with_next self.old.1 }
    {
        if self.calls.next_fails() {
            return Err(TreeFail::Failed);
        }
        self.tree.list()
    }

    fn read(&mut self, path: &str, most: usize) -> Result<Vec<u8>, TreeFail>
        requires { IsSome (file_at path.now self.old.0) }
        ensures same { Some self.new.0 ≡ Some self.old.0 }
        ensures bytes { IfOk result (λ bytes. IfSome (file_at path.now self.old.0) (λ whole. bytes.items ≡ take most whole)) }
        ensures cause { HasCause TreeFail.Failed self.old.1.faults self.new.1.faults result }
        ensures fails { IsErrOf result TreeFail.Failed ↔ IsTrue (next_fails self.old.1) }
        ensures counted { self.new.1 ≡ with_next self.old.1 }
    {
        if self.calls.next_fails() {
            return Err(TreeFail::Failed);
        }
        self.tree.read(path, most)
    }
}

/// A sink in memory that never fails, seen as the bytes written.
#[derive(Drop)]
pub struct SureSink {
    bytes: Vec<u8>,
}

impl Model for SureSink {
    ghost use Rattle.std.specs.Prelude.{List, ℕ};

    ghost Value = { List ℕ };

    ghost view = { λ sink. sink.bytes.items };
}

impl SureSink {
    /// Holds no bytes yet. No call fails but for want of memory.
    pub fn new(alloc: Global) -> Self
        ensures { result ≡ [] }
    {
        SureSink {
            bytes: Vec::new(alloc),
        }
    }

    /// The bytes written.
    pub fn bytes(&self) -> &[u8]
        ensures { result.now ≡ self.now }
    {
        &self.bytes
    }
}

impl Sink for SureSink {
    ghost told = { λ sink. Some sink };

    ghost faults = { λ _. 0 };

    fn put(&mut self, bytes: &[u8]) -> Result<usize, SinkFail>
        requires { 0 < length bytes.now }
        ensures some { IfOk result (λ n. 0 < n) }
        ensures most { IfOk result (λ n. n ≤ length bytes.now) }
        ensures ok { IfOk result (λ n. Appends (Some self.old) (Some self.new) (take n bytes.now)) }
        ensures err { OnErr result (Some self.new ≡ Some self.old) }
        ensures cause { HasCause SinkFail.Failed 0 0 result }
        ensures sure { ¬ (IsErrOf result SinkFail.Failed) }
        ensures all { IfOk result (λ n. n ≡ length bytes.now) }
    {
        match self.bytes.extend_from_slice(bytes) {
            Ok(()) => Ok(bytes.len()),
            Err(AllocError) => Err(SinkFail::OutOfMemory),
        }
    }
}

/// A sink in memory, with a greatest number of bytes a call and a list of the calls that fail; seen as the bytes written,
/// that number and its calls.
#[derive(Drop)]
pub struct MemSink {
    sink: SureSink,
    most: usize,
    calls: Calls,
}

impl Model for MemSink {
    ghost use Rattle.std.specs.Prelude.{List, ℕ};
    ghost use Rattle.edge_io.specs.declared.memory.Calls.{Calls};

    ghost Value = { List ℕ × ℕ × Calls };

    ghost view = { λ sink. (sink.sink, sink.most, sink.calls) };
}

impl MemSink {
    /// A sink that takes at most `most` bytes a call, but at least one, and whose calls with the
    /// numbers `failing`, from 1, fail.
    pub fn new(alloc: Global, most: usize, failing: Vec<u64>) -> Self
        ensures { result ≡ ([], most, no_calls failing.items) }
    {
        MemSink {
            sink: SureSink::new(alloc),
            most,
            calls: Calls::new(failing),
        }
    }

    /// The bytes written.
    pub fn bytes(&self) -> &[u8]
        ensures { result.now ≡ self.now.0 }
    {
        self.sink.bytes()
    }

    /// How many calls were made.
    pub fn calls(&self) -> u64
        ensures { result ≡ self.now.2.made }
    {
        self.calls.made
    }
}

impl Sink for MemSink {
    ghost told = { λ sink. Some sink.0 };

    ghost faults = { λ sink. sink.2.faults };

    fn put(&mut self, bytes: &[u8]) -> Result<usize, SinkFail>
        requires { 0 < length bytes.now }
        ensures some { IfOk result (λ n. 0 < n) }
        ensures most { IfOk result (λ n. n ≤ length bytes.now) }
        ensures ok { IfOk result (λ n. Appends (Some self.old.0) (Some self.new.0) (take n bytes.now)) }
        ensures err { OnErr result (Some self.new.0 ≡ Some self.old.0) }
        ensures cause { HasCause SinkFail.Failed self.old.2.faults self.new.2.faults result }
        ensures fails { IsErrOf result SinkFail.Failed ↔ IsTrue (next_fails self.old.2) }
        ensures taken { IfOk result (λ n. n ≡ min (max self.old.1 1) (length bytes.now)) }
        ensures counted { self.new.2 ≡ with_next self.old.2 }
        ensures same { self.new.1 ≡ self.old.1 }
    {
        if self.calls.next_fails() {
            return Err(SinkFail::Failed);
        }
        let count = self.most.max(1).min(bytes.len());
        self.sink.put(&bytes[..count])
    }
}
