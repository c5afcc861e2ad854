ghost use Rattle.std.specs.Prelude.{◌≡◌};

use collect_words::WordFault;
use report_parts::{OutOfMemory, Text, Told};

/// Why nothing is collected.
#[derive(Drop)]
pub enum CollectFault {
    /// The word names nothing of the tree, or nothing of its file.
    NotFound(Text),
    /// The words reach more items than a session may have.
    TooManyItems,
    /// The load of the conftest with this path has failed, and this is told of it.
    Conftest(Text, Told),
    OutOfMemory,
}

impl From<OutOfMemory> for CollectFault {
    ghost use Rattle.std.specs.Prelude.{◌≡◌};
    ghost use Rattle.collect_tree.specs.declared.fault.CollectFault.TheVariants as fault;

    ghost from_gives = { λ _ e. e ≡ fault.OutOfMemory };

    fn from(_e: OutOfMemory) -> CollectFault {
        CollectFault::OutOfMemory
    }
}

/// The refusal of words.
pub fn word_fault(fault: WordFault) -> CollectFault
    ensures { result ≡ collect_fault fault }
{
    match fault {
        WordFault::NotFound(word) => CollectFault::NotFound(word),
        WordFault::TooManyItems => CollectFault::TooManyItems,
        WordFault::OutOfMemory => CollectFault::OutOfMemory,
    }
}

ghost use Rattle.collect_tree.specs.Told.{collect_fault};
