ghost use Rattle.std.specs.Prelude.{◌≡◌, ◌<◌};
ghost use Rattle.session_types.specs.Scopes.{rank, scope_count};

/// How long an instance of a fixture lives, from broad to narrow (pytest's fixture guide, "Scope: sharing fixtures across classes,
/// modules, packages or session").
#[derive(Clone, Copy, PartialEq, Eq)]
pub enum Scope {
    Session,
    Module,
    Class,
    Function,
}

/// How many scopes there are.
pub const SCOPE_COUNT: usize = 4;

impl Scope {
    /// Its place from broad to narrow, from 0.
    pub fn rank(self) -> usize
        ensures rank { result ≡ rank self }
        ensures below { result < scope_count }
    {
        match self {
            Scope::Session => 0,
            Scope::Module => 1,
            Scope::Class => 2,
            Scope::Function => 3,
        }
    }
}
