//! What `parametrize` and the `params` of fixtures give, and the ids of it.
//!
//! # What it is for
//!
//! Collection asks here once all files are loaded. [`parametrizations`] reads the `parametrize` marks of a test and [`fixture_params`] the
//! parameters of a fixture as sets of values for `param_rows`; [`set_ids`] and [`param_ids`] give each set its id.
//!
//! # What is proved
//!
//! - [`parametrizations`]: of each `parametrize` mark, in order, its names, and its sets: of each row its values, the id that `ids` or
//!   `param` give it, and the marks of `param` (`parametrizations`).
//! - [`fixture_params`]: the sets of a fixture's parameters, where it has any (`fixture_params`).
//! - [`set_ids`], [`param_ids`]: the ids, those of values where none is given, escaped, and with equal ones told apart
//!   (`set_ids`, `param_ids`). [`value_id`]: the id that a value has by itself (`value_id`). [`dashed`]: ids side by side, with `-` between
//!   (`dashed`).
//!
//! # What tests alone show
//!
//! That the calls succeed with ample memory (`acceptance`).
//!
//! # What neither shows
//!
//! That the definitions are pytest's: a reader compares them. Time: that of `unique_ids` of `param_rows`, and all else once.
//!
//! The definitions, in the order in which to read them: `specs/Given.antt` (what is given), `specs/Values.antt` (ids).
#![tactic(auto)]

mod escaping;
mod given;
mod ids;
mod names;
mod parametrize;
mod sets;

pub use given::Parametrization;
pub use ids::{dashed, param_ids, set_ids, value_id};
pub use parametrize::parametrizations;
pub use sets::fixture_params;
