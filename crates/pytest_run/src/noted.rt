use edge_io::{DirTree, NAMES_MOST, Tree, TreeFail};
use std::alloc::{AllocError, Global};
use std::rt::Files;
use std::{fs, io};

/// The files below the current folder, with the path at which a call of it failed.
#[derive(Drop)]
pub struct NotedTree<R: Files + AllocGlobal + Clone + Drop> {
    rt: R,
    tree: DirTree<R>,
    failed: Option<String>,
}

impl<R: Files + AllocGlobal + Clone + Drop> NotedTree<R> {
    /// The files below the current folder, of which no call has failed.
    pub fn new(rt: R) -> Result<Self, AllocError> {
        let tree = DirTree::new(rt.clone()?, String::from_str(rt.alloc(), ".")?);
        Ok(NotedTree {
            rt,
            tree,
            failed: None,
        })
    }

    /// The path of the folder that could not be listed, or of the file that could not be read, where it could be found and kept.
    pub fn into_failed(self) -> Option<String> {
        let NotedTree { failed, .. } = self;
        failed
    }
}

/// The path of a name in a folder.
fn join(alloc: Global, folder: &str, name: &str) -> Result<String, AllocError> {
    if folder == "." {
        return String::from_str(alloc, name);
    }
    format!(in alloc; "{folder}/{name}")
}

/// Keeps an entry of a folder that is a folder itself.
fn push_folder<R: Files + AllocGlobal + Clone + Drop>(
    alloc: Global,
    folders: &mut Vec<String>,
    folder: &str,
    entry: io::Result<fs::DirEntry<R>>,
) -> io::Result<()> {
    let entry = match entry {
        Ok(entry) => entry,
        Err(e) if e.kind() == io::ErrorKind::InvalidFilename => return Ok(()),
        Err(e) => return Err(e),
    };
    if entry.file_type()?.is_dir() {
        folders.push(join(alloc, folder, entry.file_name())?)?;
    }
    Ok(())
}

/// Keeps the folders of a folder.
fn push_folders<R: Files + AllocGlobal + Clone + Drop>(
    rt: &R,
    folders: &mut Vec<String>,
    folder: &str,
) -> io::Result<()> {
    for entry in fs::read_dir(rt, folder)? {
        push_folder(rt.alloc(), folders, folder, entry)?;
    }
    Ok(())
}

/// The path of a folder that cannot be listed, at or below the current one, or None where there is none among so many.
fn unlisted<R: Files + AllocGlobal + Clone + Drop>(rt: &R) -> Result<Option<String>, AllocError> {
    let mut folders = vec![in rt.alloc(); String::from_str(rt.alloc(), ".")?]?;
    for _ in 0..=NAMES_MOST {
        let Some(folder) = folders.pop() else {
            return Ok(None);
        };
        if push_folders(rt, &mut folders, folder.as_str()).is_err() {
            return Ok(Some(folder));
        }
    }
    Ok(None)
}

impl<R: Files + AllocGlobal + Clone + Drop> Tree for NotedTree<R> {
    ghost use Rattle.std.specs.Prelude.{None};

    ghost files = { λ _. None };

    ghost faults = { λ noted. noted.tree };

    fn list(&mut self) -> Result<Vec<String>, TreeFail> {
        let paths = self.tree.list();
        if matches!(&paths, Err(TreeFail::Failed)) {
            self.failed = unlisted(&self.rt).unwrap_or(None);
        }
        paths
    }

    fn read(&mut self, path: &str, most: usize) -> Result<Vec<u8>, TreeFail> {
        let bytes = self.tree.read(path, most);
        if matches!(&bytes, Err(TreeFail::Failed)) {
            self.failed = String::from_str(self.rt.alloc(), path).ok();
        }
        bytes
    }
}
