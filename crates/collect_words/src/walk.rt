ghost use Rattle.std.specs.Prelude.{◌≡◌, ◌+◌, ◌<◌, List, ℕ, OnOk, length, map, string_bytes, IfOk, All};
ghost use Rattle.collect_words.specs.Paths.{parts};
ghost use Rattle.collect_words.specs.Walks.{IsWalk, path_at, place_of};
ghost use Rattle.collect_words.specs.Keys.{key_paths, IsKeyed, Key};
ghost use Rattle.collect_words.specs.Index.{IsIndex, IsIndexFrom};

use crate::paths::parts;
use indexmap::IndexMap;
use seq::{ByteText, OutOfMemory, Seq};
use std::alloc::Global;
use std::marker::Model;

/// The paths of a tree's files, in the order in which collection walks through them. Contracts see it as the list.
pub struct Walk {
    paths: Seq<ByteText>,
    index: IndexMap<Vec<u8>, usize>,
}

impl Drop for Walk {
    fn drop(self) {
        let Walk { paths: _, index: _ } = self;
    }
}

impl Model for Walk {
    ghost use Rattle.std.specs.Prelude.{List, ℕ};
    ghost use Rattle.collect_words.specs.Index.{IsIndex};

    ghost Value = { List (List ℕ) };

    ghost view = { λ walk. walk.paths };

    ghost invariant = { λ walk. IsIndex walk.paths walk.index.entries };
}

/// Each path behind its parts, by which it is sorted.
fn keyed(alloc: Global, paths: &[ByteText]) -> Result<Vec<(Vec<Vec<u8>>, String)>, OutOfMemory>
    ensures same { IfOk result (λ keys. key_paths keys.items ≡ paths.now) }
    ensures keyed { IfOk result (λ keys. All IsKeyed keys.items) }
{
    let mut keys = Vec::new(alloc);
    for path in paths {
        let names = parts(alloc, path.text().as_bytes())?;
        keys.push((names, String::from_str(alloc, path.text())?))?;
    }
    Ok(keys)
}

fn paths_in(alloc: Global, keys: &[(Vec<Vec<u8>>, String)]) -> Result<Vec<String>, OutOfMemory>
    ensures { IfOk result (λ paths. map string_bytes paths.items ≡ key_paths keys.now) }
{
    let mut paths = Vec::new(alloc);
    for key in keys {
        paths.push(String::from_str(alloc, key.1.as_str())?)?;
    }
    Ok(paths)
}

/// The paths in the order of the walk, each once.
fn in_order(alloc: Global, paths: &[ByteText]) -> Result<Vec<String>, OutOfMemory>
    ensures { IfOk result (λ walk. IsWalk paths.now (map string_bytes walk.items)) }
{
    let mut keys = keyed(alloc, paths)?;
    keys.sort()?;
    let mut sorted = paths_in(alloc, &keys)?;
    sorted.dedup();
    Ok(sorted)
}

fn texts_of(alloc: Global, paths: &[String]) -> Result<Seq<ByteText>, OutOfMemory>
    ensures { IfOk result (λ texts. texts ≡ map string_bytes paths.now) }
{
    let mut texts = Seq::new(alloc);
    for path in paths {
        texts.push(ByteText::from_str(alloc, path.as_str())?)?;
    }
    Ok(texts)
}

/// Puts the path at a place into an index, over one of its paths behind it.
fn put(
    index: &mut IndexMap<Vec<u8>, usize>,
    alloc: Global,
    paths: &[ByteText],
    place: usize,
) -> Result<(), OutOfMemory>
    requires here { place < length paths.now }
    requires behind { IsIndexFrom (place + 1) paths.now index.old.entries }
    ensures { OnOk result (IsIndexFrom place paths.now index.new.entries) }
{
    let path = Vec::from_slice(alloc, paths[place].text().as_bytes())?;
    index.insert(path, place)?;
    Ok(())
}

/// The first place of each path.
fn index_of(alloc: Global, paths: &[ByteText]) -> Result<IndexMap<Vec<u8>, usize>, OutOfMemory>
    ensures { IfOk result (λ index. IsIndex paths.now index.entries) }
{
    let mut index = IndexMap::new(alloc);
    let mut place = paths.len();
    'fill: while place > 0 {
        place -= 1;
        put(&mut index, alloc, paths, place)?;
    }
    Ok(index)
}

impl Walk {
    /// The paths in the order of the walk.
    pub fn new(alloc: Global, paths: &[ByteText]) -> Result<Walk, OutOfMemory>
        ensures { IfOk result (λ walk. IsWalk paths.now walk) }
    {
        let sorted = in_order(alloc, paths)?;
        let paths = texts_of(alloc, &sorted)?;
        let index = index_of(alloc, paths.items())?;
        Ok(Walk { paths, index })
    }

    /// The paths, lent.
    pub fn paths(&self) -> &[ByteText]
        ensures { result.now ≡ self.now }
    {
        self.paths.items()
    }

    /// The path at a place, or an empty one behind the last.
    pub fn path_at(&self, place: usize) -> &[u8]
        ensures { result.now ≡ path_at self.now place }
    {
        let paths = self.paths.items();
        if place < paths.len() {
            paths[place].text().as_bytes()
        } else {
            &[]
        }
    }

    /// The place of the file with a path.
    pub fn place_of(&self, path: &[u8]) -> Option<usize>
        ensures { result ≡ place_of self.now path.now }
    {
        self.index.get(path).copied()
    }
}

/// A law: the paths of a tree have one walk.
pub fn one_walk()
    ensures { (paths walk other : List (List ℕ)) → IsWalk paths walk → IsWalk paths other → walk ≡ other }
{}
