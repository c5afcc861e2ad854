// The limits of values.

/// So many levels of a value are shown, compared and taken into a key.
pub const MOST_LEVELS: usize = 100;

/// The greatest length of a sequence: elements of a list, a tuple or a dict, characters of a text.
pub const MOST_ELEMENTS: usize = 65_536;
