ghost use Rattle.std.specs.Prelude.{◌≡◌, ◌++◌, ◌∷◌, [], IfOk, OnOk};
ghost use Rattle.std.specs.List.{filter};
ghost use Rattle.collect_words.specs.Walks.{path_at};
ghost use Rattle.collect_words.specs.Files.{is_ignored, is_ignored_by, is_walked, walked};

use crate::paths::{is_below, is_test_file, plain_path};
use crate::walk::Walk;
use seq::{ByteText, OutOfMemory, Seq};
use std::alloc::Global;

fn is_ignored_by(path: &[u8], ignored: &[u8]) -> bool
    ensures { result ≡ is_ignored_by path.now ignored.now }
{
    ignored == path || is_below(ignored, path)
}

#[tactic(auto, unfolding(crate::specs::Files::is_ignored))]
fn is_ignored(ignore: &[ByteText], path: &[u8]) -> bool
    ensures { result ≡ is_ignored ignore.now path.now }
{
    for given in ignore {
        if is_ignored_by(path, plain_path(given.text().as_bytes())) {
            return true;
        }
    }
    false
}

fn is_walked(ignore: &[ByteText], path: &[u8]) -> bool
    ensures { result ≡ is_walked ignore.now path.now }
{
    is_test_file(path) && !is_ignored(ignore, path)
}

fn push_walked(
    places: &mut Seq<usize>,
    walk: &Walk,
    ignore: &[ByteText],
    place: usize,
) -> Result<(), OutOfMemory>
    ensures { OnOk result (places.new ≡ places.old ++ filter (λ place. is_walked ignore.now (path_at walk.now place)) (place ∷ [])) }
{
    if !is_walked(ignore, walk.path_at(place)) {
        return Ok(());
    }
    places.push(place)?;
    Ok(())
}

/// The test files that the walk comes to, by their places: those that `--ignore` doesn't leave out.
#[tactic(auto, unfolding(crate::specs::Files::walked))]
pub fn walked(alloc: Global, walk: &Walk, ignore: &[ByteText]) -> Result<Seq<usize>, OutOfMemory>
    ensures { IfOk result (λ places. places ≡ walked walk.now ignore.now) }
{
    let mut places = Seq::new(alloc);
    for place in 0..walk.paths().len() {
        push_walked(&mut places, walk, ignore, place)?;
    }
    Ok(places)
}
