use seq::Seq;

/// A list of numbers.
pub type Numbers = Seq<u64>;
