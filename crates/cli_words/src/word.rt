use seq::{ByteText, Seq};

/// A word of the command line or a part of one, seen as its bytes.
pub type Word = ByteText;

/// Words in order, seen as the list of their bytes.
pub type Words = Seq<Word>;
