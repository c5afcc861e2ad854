use seq::CharText;

/// An id of a parameter set.
pub type PyId = CharText;
