/// What a set-up gave, or what it raised.
#[derive(Drop)]
pub enum SetUpEnd<V, E> {
    Value(V),
    Failure(E),
}

/// How a body ended. An exhausted one has raised.
pub enum BodyEnd<V, E, R> {
    Returned(V),
    /// It stands at its `yield`, with this value; what remains of it must be resumed or given up.
    Yielded(V, R),
    Raised(E),
}

/// What is kept of an instance beside its place among the others.
pub struct CachedResult<V, E, R> {
    pub kept: SetUpEnd<V, E>,
    /// What remains of its function behind the `yield`, where it stands at one.
    pub rest: Option<R>,
    pub request: Option<V>,
}
