// The first word of a value's words.
pub const INTEGER: usize = 1;

pub const ELEMENT: usize = 2;

pub const SET: usize = 3;

pub const TUPLE: usize = 4;
