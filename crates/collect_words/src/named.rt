use seq::{ByteText, Seq};

/// What a word names of a tree.
pub enum WordTarget {
    /// The folder with this path, which is empty for the root.
    Folder(Seq<u8>),
    /// The file at this place of the walk.
    File(usize),
    /// What stands behind `::`, of the file at this place of the walk.
    Node(usize, Seq<u8>),
}

impl Drop for WordTarget {
    fn drop(self) {
        match self {
            WordTarget::Folder(_) => {}
            WordTarget::File(_) => {}
            WordTarget::Node(_, _) => {}
        }
    }
}

/// A word with what it names.
pub struct NamedWord {
    pub word: ByteText,
    pub named: WordTarget,
}

impl Drop for NamedWord {
    fn drop(self) {
        let NamedWord { word: _, named: _ } = self;
    }
}
