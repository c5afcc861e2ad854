ghost use Rattle.std.specs.Prelude.{◌≡◌, ◌≤◌, None};
ghost use Rattle.edge_io.specs.Causes.{Rose};

use crate::tree::{Tree, TreeFail};
use std::alloc::{AllocError, Global};
use std::io::{ErrorKind, Read};
use std::marker::Model;
use std::rt::Files;
use std::{fs, io};

/// So many names, of files and folders, may stand below a folder in all.
pub const NAMES_MOST: u32 = 1_000_000;

/// What is left to be looked at of a folder, and what was found.
#[derive(Drop)]
struct Walk {
    alloc: Global,
    folders: Vec<String>,
    paths: Vec<String>,
    names: u32,
}

/// The files below a folder. It tells its faults alone, and is seen as their count.
///
/// Links are not followed, and names that are not UTF-8 are left out. More than 1,000,000 names in
/// all are a fault.
#[derive(Drop)]
pub struct DirTree<R: Files + AllocGlobal + Clone + Drop> {
    rt: R,
    root: String,
    faults: u64,
}

fn join(alloc: Global, folder: &str, name: &str) -> Result<String, AllocError> {
    if folder.is_empty() {
        return String::from_str(alloc, name);
    }
    format!(in alloc; "{folder}/{name}")
}

impl Walk {
    fn meet<R: Files + AllocGlobal + Clone + Drop>(
        &mut self,
        folder: &str,
        entry: io::Result<fs::DirEntry<R>>,
    ) -> io::Result<()> {
        if self.names >= NAMES_MOST {
            return Err(io::Error::from(ErrorKind::FileTooLarge));
        }
        self.names += 1;
        let entry = match entry {
            Ok(entry) => entry,
            Err(e) if e.kind() == ErrorKind::InvalidFilename => return Ok(()),
            Err(e) => return Err(e),
        };
        let path = join(self.alloc, folder, entry.file_name())?;
        let kind = entry.file_type()?;
        if kind.is_dir() {
            self.folders.push(path)?;
        } else if kind.is_file() {
            self.paths.push(path)?;
        }
        Ok(())
    }

    fn enter<R: Files + AllocGlobal + Clone + Drop>(
        &mut self,
        rt: &R,
        root: &str,
        folder: &str,
    ) -> io::Result<()> {
        let place = join(self.alloc, root, folder)?;
        for entry in fs::read_dir(rt, place.as_str())? {
            self.meet(folder, entry)?;
        }
        Ok(())
    }

    fn all<R: Files + AllocGlobal + Clone + Drop>(&mut self, rt: &R, root: &str) -> io::Result<()> {
        for _ in 0..=NAMES_MOST {
            let Some(folder) = self.folders.pop() else {
                return Ok(());
            };
            self.enter(rt, root, folder.as_str())?;
        }
        Ok(())
    }
}

impl<R: Files + AllocGlobal + Clone + Drop> Model for DirTree<R> {
    ghost use Rattle.std.specs.Prelude.{ℕ};

    ghost Value = { ℕ };

    ghost view = { λ tree. tree.faults };
}

impl<R: Files + AllocGlobal + Clone + Drop> DirTree<R> {
    /// The files below the folder `root`, as `.` for the current one.
    pub fn new(rt: R, root: String) -> Self
        ensures { result ≡ 0 }
    {
        DirTree {
            rt,
            root,
            faults: 0,
        }
    }

    fn fail(&mut self, e: io::Error) -> TreeFail
        ensures later { self.old ≤ self.new }
        ensures failed { result ≡ TreeFail.Failed → Rose self.old self.new }
    {
        if e.kind() == ErrorKind::OutOfMemory {
            return TreeFail::OutOfMemory;
        }
        self.faults = self.faults.saturating_add(1);
        TreeFail::Failed
    }

    fn paths(&self) -> io::Result<Vec<String>> {
        let alloc = self.rt.alloc();
        let mut walk = Walk {
            alloc,
            folders: vec![in alloc; String::new(alloc)]?,
            paths: Vec::new(alloc),
            names: 0,
        };
        walk.all(&self.rt, self.root.as_str())?;
        let Walk { paths, .. } = walk;
        Ok(paths)
    }

    fn front(&self, path: &str, most: usize) -> io::Result<Vec<u8>> {
        let place = join(self.rt.alloc(), self.root.as_str(), path)?;
        let mut file = fs::open(&self.rt, place.as_str())?.take(most as u64);
        let mut bytes = Vec::new(self.rt.alloc());
        file.read_to_end(&mut bytes)?;
        Ok(bytes)
    }
}

impl<R: Files + AllocGlobal + Clone + Drop> Tree for DirTree<R> {
    ghost files = { λ _. None };

    ghost faults = { λ tree. tree };

    fn list(&mut self) -> Result<Vec<String>, TreeFail> {
        match self.paths() {
            Ok(paths) => Ok(paths),
            Err(e) => Err(self.fail(e)),
        }
    }

    fn read(&mut self, path: &str, most: usize) -> Result<Vec<u8>, TreeFail> {
        match self.front(path, most) {
            Ok(bytes) => Ok(bytes),
            Err(e) => Err(self.fail(e)),
        }
    }
}
