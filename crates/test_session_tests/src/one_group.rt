// A feed of one group.

ghost use Rattle.test_session_tests.specs.OneGroup.{given_by, is_over};
ghost use Rattle.share_files.specs.Fed.{Alone};

use share_files::Feed;

/// The number of one group, given once.
#[derive(Drop)]
pub enum OneGroup {
    /// It is still to be given.
    Waiting,
    /// It was given.
    Given,
    /// It was given, and there is no other.
    Ended,
}

impl Feed for OneGroup {
    ghost origin = { λ group. Alone };

    ghost given = { given_by };

    ghost ended = { is_over };

    ghost limit = { λ group. 1 };

    fn next(&mut self) -> Option<u32> {
        match self {
            OneGroup::Waiting => {
                *self = OneGroup::Given;
                Some(0)
            }
            OneGroup::Given => {
                *self = OneGroup::Ended;
                None
            }
            OneGroup::Ended => None,
        }
    }
}
