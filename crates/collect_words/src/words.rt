ghost use Rattle.std.specs.Prelude.{◌≡◌, ◌⊎◌, None, Some, Ok, IfOk, IfErr};
ghost use Rattle.std.specs.List.{list_any};
ghost use Rattle.std.specs.Option.{option_copied};
ghost use Rattle.collect_words.specs.Paths.{is_below};
ghost use Rattle.collect_words.specs.Words.{RefusesWords, all_named, first_unnamed, is_folder, leads_out, named_by, named_words, or_not_found, part_named};

use crate::cut::cut;
use crate::fault::WordFault;
use crate::named::{NamedWord, WordTarget};
use crate::paths::{is_below, leads_up, plain_path};
use crate::walk::Walk;
use seq::{ByteText, OutOfMemory, Seq};
use std::alloc::Global;

/// Whether a path leads out of the tree.
#[tactic(auto, unfolding(crate::specs::Words::leads_out))]
fn leads_out(alloc: Global, given: &[u8]) -> Result<bool, OutOfMemory>
    ensures { IfOk result (λ out. out ≡ leads_out given.now) }
{
    if given.starts_with(b"/") {
        return Ok(true);
    }
    leads_up(alloc, plain_path(given))
}

fn has_below(walk: &Walk, path: &[u8]) -> bool
    ensures { result ≡ list_any (is_below path.now) walk.now }
{
    let files = walk.paths();
    for file in files {
        if is_below(path, file.text().as_bytes()) {
            return true;
        }
    }
    false
}

#[tactic(auto, unfolding(crate::specs::Words::is_folder))]
fn is_folder(walk: &Walk, path: &[u8]) -> bool
    ensures { result ≡ is_folder walk.now path.now }
{
    path.len() == 0 || has_below(walk, path)
}

/// What a path without `::` names.
fn plain_named(alloc: Global, walk: &Walk, path: &[u8]) -> Result<Option<WordTarget>, OutOfMemory>
    ensures { IfOk result (λ named. named ≡ part_named walk.now path.now None) }
{
    if let Some(place) = walk.place_of(path) {
        return Ok(Some(WordTarget::File(place)));
    }
    if is_folder(walk, path) {
        return Ok(Some(WordTarget::Folder(Seq::from_slice(alloc, path)?)));
    }
    Ok(None)
}

/// What a part behind `::` names.
fn node_named(
    alloc: Global,
    walk: &Walk,
    path: &[u8],
    part: &[u8],
) -> Result<Option<WordTarget>, OutOfMemory>
    ensures { IfOk result (λ named. named ≡ part_named walk.now path.now (Some part.now)) }
{
    let Some(place) = walk.place_of(path) else {
        return Ok(None);
    };
    Ok(Some(WordTarget::Node(place, Seq::from_slice(alloc, part)?)))
}

/// What a path and the part behind `::` name.
fn part_named(
    alloc: Global,
    walk: &Walk,
    path: &[u8],
    part: Option<&[u8]>,
) -> Result<Option<WordTarget>, OutOfMemory>
    ensures { IfOk result (λ named. named ≡ part_named walk.now path.now (option_copied part.entry)) }
{
    match part {
        Some(part) => node_named(alloc, walk, path, part),
        None => plain_named(alloc, walk, path),
    }
}

/// What a word names of a tree, or nothing.
#[tactic(auto, unfolding(crate::specs::Words::named_by))]
fn named_by(alloc: Global, walk: &Walk, word: &[u8]) -> Result<Option<WordTarget>, OutOfMemory>
    ensures { IfOk result (λ named. named ≡ named_by walk.now word.now) }
{
    let (given, part) = cut(word);
    if leads_out(alloc, given)? {
        return Ok(None);
    }
    part_named(alloc, walk, plain_path(given), part)
}

/// A copy of a word with what it names.
fn named_word(alloc: Global, word: &ByteText, named: WordTarget) -> Result<NamedWord, OutOfMemory>
    ensures { IfOk result (λ one. one ≡ record { word = word.now; named = named }) }
{
    Ok(NamedWord {
        word: ByteText::from_str(alloc, word.text())?,
        named,
    })
}

/// The refusal of a word that names nothing.
pub fn not_found(alloc: Global, word: &ByteText) -> WordFault
    ensures { (result ≡ WordFault.NotFound word.now) ⊎ (result ≡ WordFault.OutOfMemory) }
{
    match ByteText::from_str(alloc, word.text()) {
        Ok(word) => WordFault::NotFound(word),
        Err(_) => WordFault::OutOfMemory,
    }
}

/// Each word with what it names, up to the first that names nothing.
fn all_named(alloc: Global, walk: &Walk, words: &[ByteText]) -> Result<Seq<NamedWord>, WordFault>
    ensures ok { IfOk result (λ names. or_not_found (first_unnamed walk.now words.now) (all_named walk.now words.now) ≡ Ok names) }
    ensures refused { IfErr result (λ e. RefusesWords (or_not_found (first_unnamed walk.now words.now) (all_named walk.now words.now)) e) }
{
    let mut names = Seq::new(alloc);
    for word in words {
        let Some(named) = named_by(alloc, walk, word.text().as_bytes())? else {
            return Err(not_found(alloc, word));
        };
        names.push(named_word(alloc, word, named)?)?;
    }
    Ok(names)
}

/// The words with what they name, where each names something; no word is the root.
#[tactic(auto, unfolding(crate::specs::Words::named_words))]
pub fn named_words(
    alloc: Global,
    walk: &Walk,
    words: &[ByteText],
) -> Result<Seq<NamedWord>, WordFault>
    ensures ok { IfOk result (λ names. named_words walk.now words.now ≡ Ok names) }
    ensures refused { IfErr result (λ e. RefusesWords (named_words walk.now words.now) e) }
{
    if words.len() > 0 {
        return all_named(alloc, walk, words);
    }
    let root = [ByteText::from_string(String::new(alloc))];
    all_named(alloc, walk, &root)
}
