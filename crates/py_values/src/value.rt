// Values.

/// Where an object lies in its heap.
#[derive(Clone, Copy, Debug, PartialEq, Eq, Hash)]
pub struct ObjId {
    pub at: usize,
}

/// A value: `None`, a boolean, a whole number of 128 bits, or an object of a heap.
#[derive(Clone, Copy, Debug, PartialEq, Eq)]
pub enum Value {
    None,
    Bool(bool),
    Int(i128),
    Ref(ObjId),
}
