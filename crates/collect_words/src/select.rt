ghost use Rattle.std.specs.Prelude.{◌≡◌, ◌∷◌, [], None, Some, Ok, bytes_eq, OnOk, IfOk, IfErr, MatchOption};
ghost use Rattle.std.specs.List.{filter, flat_map, list_any};
ghost use Rattle.collect_words.specs.Paths.{is_below};
ghost use Rattle.collect_words.specs.Walks.{path_at};
ghost use Rattle.collect_words.specs.Words.{RefusesWords};
ghost use Rattle.collect_words.specs.Files.{each_once};
ghost use Rattle.collect_words.specs.Nodes.{first_missing, has_node, is_found, is_named, items_named, items_of, item_numbers, reached, selected};

use crate::fault::WordFault;
use crate::named::{NamedWord, WordTarget};
use crate::naming::is_named;
use crate::nodes::{FileNodes, ItemNames};
use crate::paths::is_below;
use crate::taken::NumberSet;
use crate::walk::Walk;
use crate::words::not_found;
use seq::{ByteText, OutOfMemory, Seq};
use std::alloc::Global;

/// The items of the file at a place.
fn items_of(files: &[FileNodes], place: usize) -> &[ItemNames]
    ensures { result.now ≡ items_of files.now place }
{
    match files.get(place) {
        Some(file) => file.items.items(),
        None => &[],
    }
}

fn take_all(taken: &mut NumberSet, items: &[ItemNames]) -> Result<(), OutOfMemory>
    ensures { OnOk result (taken.new ≡ each_once taken.old (item_numbers items.now)) }
{
    for item in items {
        taken.take(item.number)?;
    }
    Ok(())
}

/// Takes an item, if a part names it.
fn take_item(taken: &mut NumberSet, item: &ItemNames, part: &[u8]) -> Result<(), OutOfMemory>
    ensures { OnOk result (taken.new ≡ each_once taken.old (item_numbers (filter (is_named part.now) (item.now ∷ [])))) }
{
    if !is_named(part, item) {
        return Ok(());
    }
    taken.take(item.number)
}

fn take_named(taken: &mut NumberSet, items: &[ItemNames], part: &[u8]) -> Result<(), OutOfMemory>
    ensures { OnOk result (taken.new ≡ each_once taken.old (item_numbers (filter (is_named part.now) items.now))) }
{
    for item in items {
        take_item(taken, item, part)?;
    }
    Ok(())
}

/// Takes the items of a file, if it is below a folder.
fn take_file(
    taken: &mut NumberSet,
    walk: &Walk,
    files: &[FileNodes],
    folder: &[u8],
    place: usize,
) -> Result<(), OutOfMemory>
    ensures { OnOk result (taken.new ≡ each_once taken.old (item_numbers (flat_map (items_of files.now) (filter (λ place. is_below folder.now (path_at walk.now place)) (place ∷ []))))) }
{
    if !is_below(folder, walk.path_at(place)) {
        return Ok(());
    }
    take_all(taken, items_of(files, place))
}

fn take_below(
    taken: &mut NumberSet,
    walk: &Walk,
    tests: &[usize],
    files: &[FileNodes],
    folder: &[u8],
) -> Result<(), OutOfMemory>
    ensures { OnOk result (taken.new ≡ each_once taken.old (item_numbers (flat_map (items_of files.now) (filter (λ place. is_below folder.now (path_at walk.now place)) tests.now)))) }
{
    for place in tests {
        take_file(taken, walk, files, folder, *place)?;
    }
    Ok(())
}

/// Takes the items that are reached by what a word names.
fn take_items(
    taken: &mut NumberSet,
    walk: &Walk,
    tests: &[usize],
    files: &[FileNodes],
    named: &WordTarget,
) -> Result<(), OutOfMemory>
    ensures { OnOk result (taken.new ≡ each_once taken.old (item_numbers (items_named walk.now tests.now files.now named.now))) }
{
    match named {
        WordTarget::Folder(path) => take_below(taken, walk, tests, files, path.items()),
        WordTarget::File(place) => take_all(taken, items_of(files, *place)),
        WordTarget::Node(place, part) => take_named(taken, items_of(files, *place), part.items()),
    }
}

#[tactic(auto, unfolding(crate::specs::Nodes::reached))]
fn reached(
    alloc: Global,
    walk: &Walk,
    tests: &[usize],
    files: &[FileNodes],
    words: &[NamedWord],
) -> Result<Seq<usize>, OutOfMemory>
    ensures { IfOk result (λ numbers. numbers ≡ reached walk.now tests.now files.now words.now) }
{
    let mut taken = NumberSet::new(alloc);
    for word in words {
        take_items(&mut taken, walk, tests, files, &word.named)?;
    }
    Ok(taken.into_seq())
}

fn has_class(classes: &[ByteText], part: &[u8]) -> bool
    ensures { result ≡ list_any (λ class. bytes_eq class part.now) classes.now }
{
    for class in classes {
        if class.text().as_bytes() == part {
            return true;
        }
    }
    false
}

fn has_item(items: &[ItemNames], part: &[u8]) -> bool
    ensures { result ≡ list_any (is_named part.now) items.now }
{
    for item in items {
        if is_named(part, item) {
            return true;
        }
    }
    false
}

fn has_node(part: &[u8], file: &FileNodes) -> bool
    ensures { result ≡ has_node part.now file.now }
{
    file.failed || has_item(file.items.items(), part) || has_class(file.classes.items(), part)
}

fn is_found(files: &[FileNodes], named: &WordTarget) -> bool
    ensures { result ≡ is_found files.now named.now }
{
    match named {
        WordTarget::Folder(_) => true,
        WordTarget::File(_) => true,
        WordTarget::Node(place, part) => match files.get(*place) {
            Some(file) => has_node(part.items(), file),
            None => false,
        },
    }
}

/// The first word whose part behind `::` names nothing of its file.
#[tactic(auto, unfolding(crate::specs::Nodes::first_missing))]
fn first_missing<'a>(files: &[FileNodes], words: &'a [NamedWord]) -> Option<&'a NamedWord>
    ensures { MatchOption result (first_missing files.now words.now ≡ None) (λ word. first_missing files.now words.now ≡ Some word.now) }
{
    for word in words {
        if !is_found(files, &word.named) {
            return Some(word);
        }
    }
    None
}

/// What the words select, by number, in order of words: at most `most` items, and each word names something.
///
/// `tests` are the files that the walk comes to, and `files` what was collected of the file at each place of the walk.
#[tactic(auto, unfolding(crate::specs::Nodes::selected))]
pub fn selected(
    alloc: Global,
    most: usize,
    walk: &Walk,
    tests: &[usize],
    files: &[FileNodes],
    words: &[NamedWord],
) -> Result<Seq<usize>, WordFault>
    ensures ok { IfOk result (λ numbers. selected most walk.now tests.now files.now words.now ≡ Ok numbers) }
    ensures refused { IfErr result (λ e. RefusesWords (selected most walk.now tests.now files.now words.now) e) }
{
    let numbers = reached(alloc, walk, tests, files, words)?;
    if numbers.len() > most {
        return Err(WordFault::TooManyItems);
    }
    match first_missing(files, words) {
        Some(word) => Err(not_found(alloc, &word.word)),
        None => Ok(numbers),
    }
}
