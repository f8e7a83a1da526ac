// The class of a dictionary's entry.
pub const NAME: usize = 1;

pub const SCHEMA: usize = 2;
