ghost use Rattle.std.specs.Prelude.{◌≡◌, ℕ, true, List, [], IsSome, None, OnOk};
ghost use Rattle.share_files.specs.Fed.{origin};

use crate::feed::DrawFeed;
use edge_io::Gate;
use seq::OutOfMemory;

/// Works on the groups that a feed gives it, and keeps what it makes of them.
pub trait Worker {
    /// The number of groups. No call changes it.
    ghost groups: { Self → ℕ };

    /// The worker before, the numbers that it was given, and the worker behind them.
    ghost works: { Self → List ℕ → Self → Type 0 };

    /// Works on the groups of a feed until it answers `None`. After a refusal the worker is spent.
    fn work<G: Gate>(&mut self, feed: &mut DrawFeed<'_, G>) -> Result<(), OutOfMemory>
        requires fresh { (feed.old.given ≡ []) × (feed.old.last ≡ None) }
        requires limit { feed.old.limit ≡ groups self.old }
        ensures feed { (origin feed.new ≡ origin feed.old) × (feed.new.limit ≡ feed.old.limit) }
        ensures groups { groups self.new ≡ groups self.old }
        ensures done { OnOk result (IsSome feed.new.last × works self.old feed.new.given self.new) };
}
