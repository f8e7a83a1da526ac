// The class of a block. Waiting: the block has the set that an identifier of a Decl runs through, and the name is not in scope yet.
pub const WAITING: usize = 0;

// The name's value is in the state, or in the work area.
pub const IN_STATE: usize = 1;

pub const IN_WORK: usize = 2;

// An abbreviation with parameters, which has no value.
pub const GENERIC: usize = 3;
