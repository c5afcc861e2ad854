// The tree.

ghost use Rattle.std.specs.Prelude.{◌≡◌, ◌≤◌, ◌++◌, [], ◌∷◌, None, IfOk, OnOk};
ghost use Rattle.edge_io.specs.Files.{InOrder, IsKept, files_of, paths_of, tree_limit};
ghost use Rattle.generated_tree.specs.Generated.{generated_conftest, generated_files, generated_tests};

use crate::text::{conftest_text, test_path, test_text};
use edge_io::Files;
use seq::OutOfMemory;
use std::alloc::Global;

/// The files of a seed: a conftest, and so many files of tests. The bounds of both are those of the word that asks for them.
///
/// # Errors
///
/// Want of memory.
pub fn generated_tree(alloc: Global, seed: u32, count: u32) -> Result<Files, OutOfMemory>
    requires { (seed ≤ 65535) × (1 ≤ count) × (count ≤ 4000) }
    ensures files { IfOk result (λ files. files ≡ generated_files seed count) }
    ensures order { IfOk result (λ files. InOrder (paths_of files)) }
    ensures kept { IfOk result (λ files. IsKept files files) }
    ensures fits { IfOk result (λ files. tree_limit files ≡ None) }
{
    let mut pairs = Vec::new(alloc);
    push_conftest(alloc, &mut pairs)?;
    push_tests(alloc, &mut pairs, seed, count)?;
    Ok(Files::from_vec(pairs))
}

/// Pushes the conftest.
fn push_conftest(alloc: Global, pairs: &mut Vec<(String, Vec<u8>)>) -> Result<(), OutOfMemory>
    requires { files_of pairs.old.items ≡ [] }
    ensures { OnOk result (files_of pairs.new.items ≡ generated_conftest ∷ []) }
{
    let path = String::from_str(alloc, "conftest.py")?;
    let text = String::from_str(alloc, conftest_text())?;
    pairs.push((path, text.into_bytes()))?;
    Ok(())
}

/// Pushes so many files of tests.
#[tactic(auto, using(crate::proofs::Made::one_more))]
fn push_tests(
    alloc: Global,
    pairs: &mut Vec<(String, Vec<u8>)>,
    seed: u32,
    count: u32,
) -> Result<(), OutOfMemory>
    requires { (seed ≤ 65535) × (count ≤ 4000) }
    ensures { OnOk result (files_of pairs.new.items ≡ files_of pairs.old.items ++ generated_tests seed 0 count) }
{
    let mut number = seed;
    for k in 0..count {
        let path = test_path(alloc, k)?;
        let text = test_text(alloc, k, 1 + number % 5)?;
        pairs.push((path, text.into_bytes()))?;
        number = (13 * number + 7) % 65536;
    }
    Ok(())
}
