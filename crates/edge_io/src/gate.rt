/// Where workers may meet: a worker enters before it is given a group.
pub trait Gate {
    fn enter(&self, worker: u32, group: u32);
}

/// The real gate, which does nothing.
#[derive(Clone, Copy, PartialEq, Eq)]
pub struct OpenGate;

impl Gate for OpenGate {
    fn enter(&self, _worker: u32, _group: u32) {}
}
