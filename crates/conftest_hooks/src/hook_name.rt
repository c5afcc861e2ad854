/// A hook that a conftest may have (pytest's reference, "Hooks").
#[derive(Clone, Copy, Debug, PartialEq, Eq)]
pub enum HookName {
    /// `pytest_runtest_setup`
    SetUp,
    /// `pytest_runtest_call`
    Call,
    /// `pytest_runtest_teardown`
    Teardown,
    /// `pytest_make_parametrize_id`
    MakeId,
}
