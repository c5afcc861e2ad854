ghost use Rattle.std.specs.Prelude.{◌≤◌};

use super::*;
use edge_io::Files;
use std::alloc::Global;

/// Whether a file has this text.
fn has_text(files: &Files, path: &str, text: &str) -> bool {
    match files.bytes_at(path) {
        Some(bytes) => bytes.as_slice() == text.as_bytes(),
        None => false,
    }
}

/// A sum over paths and texts, in order.
fn sum(files: &Files) -> u64 {
    let mut sum = 0u64;
    for (path, text) in files.items() {
        for byte in path.as_bytes() {
            sum = sum.wrapping_mul(31).wrapping_add(*byte as u64);
        }
        for byte in text.as_slice() {
            sum = sum.wrapping_mul(31).wrapping_add(*byte as u64);
        }
    }
    sum
}

/// Whether the tree of a seed has so many files of tests, and this sum.
fn sums_to(alloc: Global, seed: u32, count: u32, wanted: u64) -> bool
    requires { (seed ≤ 65535) × (1 ≤ count) × (count ≤ 4000) }
{
    match generated_tree(alloc, seed, count) {
        Ok(files) => files.items().len() == count as usize + 1 && sum(&files) == wanted,
        Err(_) => false,
    }
}

const CONFTEST: &str = "import pytest


@pytest.fixture(scope=\"session\")
def base():
    yield 7
";

const THIRD: &str = "import pytest


@pytest.fixture
def num(base):
    yield base + 2


@pytest.mark.parametrize(\"x\", [0, 1, 2])
def test_sum(num, x):
    assert num + x == 7 + 2 + x


def test_mod(num):
    assert num % 3 == (7 + 2) % 3
";

/// The first and the last text of the tree of seed 1 and three files.
fn are_texts(alloc: Global) -> bool {
    match generated_tree(alloc, 1, 3) {
        Ok(files) => {
            has_text(&files, "conftest.py", CONFTEST) && has_text(&files, "test_g0002.py", THIRD)
        }
        Err(_) => false,
    }
}

/// The texts as they are read, and sums that a plain model of the tree gives.
#[test]
fn trees_are_those_of_their_seeds(rt: HostRuntime) {
    let alloc = rt.alloc();
    assert!(rt; are_texts(alloc));
    assert!(rt; sums_to(alloc, 0, 1, 5177236910719989076));
    assert!(rt; sums_to(alloc, 1, 10, 6134945480094843823));
    assert!(rt; sums_to(alloc, 12345, 777, 11660846799697217650));
    assert!(rt; sums_to(alloc, 65535, 4000, 7983010451450587111));
}
