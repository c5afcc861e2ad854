//! Workers in threads that share groups by their numbers: each group is taken exactly once, by a rule over one shared word.
//!
//! # What it is for
//!
//! Worker k takes group k first; every further number is drawn by one `fetch_add` of 1. Workers run by recursive `join`, and wait
//! for nothing else.
//!
//! # What is proved
//!
//! - `run_shares`: what it gives is a share (`share`: `Share`): one list for each worker; each number below the number of groups
//!   stands in exactly one list, once, and no other number stands in any; the list of worker k begins with k; each list rises. For
//!   each worker its own relation of `work` holds between the worker before, its list and the worker after (`works`: `AllWork`).
//!   Conditions: the draws were made for as many workers as there are, and for the number of groups that each of them tells.
//! - `DrawFeed::next`: the worker's own number first (`first`); a number given is below the number of groups and was not given
//!   before, and is appended to what was given (`some`); `None` comes exactly with a kept number that is not below the number of
//!   groups (`none`); from then on the answer is `None` and nothing changes (`ended`). `taken` is the list of the numbers given.
//! - The traits: `Feed` says where its numbers come from, what it gave, whether it has ended and a limit, and that what it can
//!   still give falls with each number (`same`, `some`, `none`, `falls`). `Worker::work` answers Ok only where its feed has ended
//!   and the worker's relation holds with what was given (`done`).
//! - The shared state is one word of `atomic_table`, under a rule (`SharingInvariant`), which each step is proved to keep. `rule_law` says
//!   what the rule means, and `deal_law` what a list of draws deals out.
//!
//! # What tests alone show
//!
//! That two workers run at the same time, and that groups are drawn and not dealt (gates that hold a worker until another has come
//! with a group); that where one worker wants memory the whole answers so; that the calls succeed with ample memory
//! (`share_tests`).
//!
//! # What neither shows
//!
//! Who draws what, fairness, speed; that no load that changes nothing is made beside the steps above (a reader sees that the code
//! has none).
#![tactic(auto)]

mod draws;
mod feed;
mod laws;
mod rule;
mod run;
mod worker;

pub use draws::Draws;
pub use feed::{DrawFeed, Feed};
pub use laws::{deal_law, rule_law};
pub use run::run_shares;
pub use worker::Worker;
