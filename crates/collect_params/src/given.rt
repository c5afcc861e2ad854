// What a `parametrize` gives.

use param_rows::ParamSets;
use py_values::value::Value;
use seq::{PyText, Seq};

/// What a `parametrize` mark gives (pytest's reference, `pytest.mark.parametrize`).
#[derive(Drop)]
pub struct Parametrization {
    pub names: Seq<PyText>,
    pub sets: ParamSets<Value>,
}
