ghost use Rattle.std.specs.Prelude.{◌≡◌, ℕ, List, Option, take, map, string_bytes, IfOk, IfSome, IsSome};
ghost use Rattle.std.specs.Option.{ForSome};
ghost use Rattle.edge_io.specs.Causes.{HasCause};
ghost use Rattle.edge_io.specs.Files.{file_at, ListsPaths};

use std::alloc::{AllocError, AllocFailed};

/// Why a tree gave no answer.
#[derive(Clone, Copy, Debug, PartialEq, Eq)]
pub enum TreeFail {
    /// The tree failed, and its count of faults rose.
    Failed,
    OutOfMemory,
}

impl From<AllocError> for TreeFail {
    ghost use Rattle.std.specs.Prelude.{◌≡◌};
    ghost use Rattle.edge_io.specs.declared.tree.TreeFail.TheVariants.{OutOfMemory};

    ghost from_gives = { λ _ e. e ≡ OutOfMemory };

    fn from(_e: AllocError) -> TreeFail {
        TreeFail::OutOfMemory
    }
}

impl<T: Drop> From<AllocFailed<T>> for TreeFail {
    ghost use Rattle.std.specs.Prelude.{◌≡◌};
    ghost use Rattle.edge_io.specs.declared.tree.TreeFail.TheVariants.{OutOfMemory};

    ghost from_gives = { λ _ e. e ≡ OutOfMemory };

    fn from(_e: AllocFailed<T>) -> TreeFail {
        TreeFail::OutOfMemory
    }
}

/// Files that are read.
///
/// No call changes them.
pub trait Tree {
    /// The files, where the tree tells them, read as a map from paths to bytes.
    ghost files: { Self → Option (List (List ℕ × List ℕ)) };

    /// How often the tree has failed, at most 2^64 - 1. The count never falls, and one that stands at
    /// its end counts as risen.
    ghost faults: { Self → ℕ };

    /// The path of each file, once, relative to the root, its parts joined by `/`.
    fn list(&mut self) -> Result<Vec<String>, TreeFail>
        ensures same { files self.new ≡ files self.old }
        ensures paths { IfOk result (λ paths. IfSome (files self.old) (λ fs. ListsPaths fs (map string_bytes paths.items))) }
        ensures cause { HasCause TreeFail.Failed (faults self.old) (faults self.new) result };

    /// The first `most` bytes of a file, or all where it is shorter.
    fn read(&mut self, path: &str, most: usize) -> Result<Vec<u8>, TreeFail>
        requires { ForSome (files self.old) (λ fs. IsSome (file_at path.now fs)) }
        ensures same { files self.new ≡ files self.old }
        ensures bytes { IfOk result (λ bytes. IfSome (files self.old) (λ fs. IfSome (file_at path.now fs) (λ whole. bytes.items ≡ take most whole))) }
        ensures cause { HasCause TreeFail.Failed (faults self.old) (faults self.new) result };
}
