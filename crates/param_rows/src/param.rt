use crate::id::PyId;
use seq::Seq;

/// A list of numbers: of names, of values or of marks.
pub type ParamNumbers = Seq<u32>;

/// A list of pairs of numbers.
pub type Pairs = Seq<(u32, u32)>;

/// One set of values of a `parametrize` mark (pytest's reference, `pytest.param`). Values and marks are of any one type, or numbers.
#[derive(Drop)]
pub struct ParamSet<V = u32> {
    /// Its values, one for each name of the mark.
    pub values: Seq<V>,
    /// None where it isn't made yet.
    pub id: Option<PyId>,
    pub marks: Seq<V>,
}

/// A list of sets.
pub type ParamSets<V = u32> = Seq<ParamSet<V>>;

/// A `parametrize` mark (pytest's reference, `pytest.mark.parametrize`).
#[derive(Drop)]
pub struct ParamMark<V = u32> {
    pub names: ParamNumbers,
    pub sets: ParamSets<V>,
}

/// One row of a test.
#[derive(Drop)]
pub struct ParamRow<V = u32> {
    /// Names that marks bind, with their values.
    pub bound: Seq<(u32, V)>,
    /// Fixtures, with the number of the parameter from 0.
    pub fixture_params: Pairs,
    /// The ids side by side. None where a test has no parameters, or ids aren't all made yet.
    pub id: Option<PyId>,
    pub marks: Seq<V>,
}
