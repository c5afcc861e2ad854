ghost use Rattle.std.specs.Prelude.{◌≡◌, ◌++◌, ◌∷◌, [], OnOk, IfOk};
ghost use Rattle.std.specs.List.{filter};
ghost use Rattle.collect_words.specs.Paths.{is_below};
ghost use Rattle.collect_words.specs.Walks.{path_at};
ghost use Rattle.collect_words.specs.Files.{each_once, files_named, named_file, named_files, test_files};

use crate::named::{NamedWord, WordTarget};
use crate::paths::is_below;
use crate::taken::NumberSet;
use crate::walk::Walk;
use seq::{OutOfMemory, Seq};
use std::alloc::Global;

/// Takes a file, if it is below a folder.
fn take_if_below(
    taken: &mut NumberSet,
    walk: &Walk,
    folder: &[u8],
    place: usize,
) -> Result<(), OutOfMemory>
    ensures { OnOk result (taken.new ≡ each_once taken.old (filter (λ place. is_below folder.now (path_at walk.now place)) (place ∷ []))) }
{
    if !is_below(folder, walk.path_at(place)) {
        return Ok(());
    }
    taken.take(place)
}

/// Takes those of the files that are below a folder.
fn take_below(
    taken: &mut NumberSet,
    walk: &Walk,
    tests: &[usize],
    folder: &[u8],
) -> Result<(), OutOfMemory>
    ensures { OnOk result (taken.new ≡ each_once taken.old (filter (λ place. is_below folder.now (path_at walk.now place)) tests.now)) }
{
    for place in tests {
        take_if_below(taken, walk, folder, *place)?;
    }
    Ok(())
}

/// Takes the files that are reached by what a word names.
fn take_files(
    taken: &mut NumberSet,
    walk: &Walk,
    tests: &[usize],
    named: &WordTarget,
) -> Result<(), OutOfMemory>
    ensures { OnOk result (taken.new ≡ each_once taken.old (files_named walk.now tests.now named.now)) }
{
    match named {
        WordTarget::Folder(path) => take_below(taken, walk, tests, path.items()),
        WordTarget::File(place) => taken.take(*place),
        WordTarget::Node(place, _) => taken.take(*place),
    }
}

/// The test files of the words, by their places, in the order in which they are loaded; `tests` are those that the walk comes to.
#[tactic(auto, unfolding(crate::specs::Files::test_files))]
pub fn test_files(
    alloc: Global,
    walk: &Walk,
    tests: &[usize],
    words: &[NamedWord],
) -> Result<Seq<usize>, OutOfMemory>
    ensures { IfOk result (λ places. places ≡ test_files walk.now tests.now words.now) }
{
    let mut taken = NumberSet::new(alloc);
    for word in words {
        take_files(&mut taken, walk, tests, &word.named)?;
    }
    Ok(taken.into_seq())
}

fn named_file(named: &WordTarget) -> Option<usize>
    ensures { result ≡ named_file named.now }
{
    match named {
        WordTarget::Folder(_) => None,
        WordTarget::File(place) => Some(*place),
        WordTarget::Node(place, _) => Some(*place),
    }
}

fn push_file(places: &mut Seq<usize>, word: &NamedWord) -> Result<(), OutOfMemory>
    ensures { OnOk result (places.new ≡ places.old ++ named_files (word.now ∷ [])) }
{
    let Some(place) = named_file(&word.named) else {
        return Ok(());
    };
    places.push(place)?;
    Ok(())
}

/// The places of the files that have words of their own: test files whatever their names.
pub fn named_files(alloc: Global, words: &[NamedWord]) -> Result<Seq<usize>, OutOfMemory>
    ensures { IfOk result (λ places. places ≡ named_files words.now) }
{
    let mut places = Seq::new(alloc);
    for word in words {
        push_file(&mut places, word)?;
    }
    Ok(places)
}
