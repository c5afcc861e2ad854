use crate::test_file::TestFile;

/// A test file with its node, and the node of its first class; its other classes follow.
#[derive(Clone, Copy, PartialEq, Eq)]
pub struct PlacedFile {
    pub file: TestFile,
    pub node: u32,
    pub first: u32,
}
