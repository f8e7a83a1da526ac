// The first word of a type's words.
pub const INTEGERS: usize = 1;

pub const GIVEN: usize = 2;

pub const POWER: usize = 3;

pub const PRODUCT: usize = 4;

pub const BINDING: usize = 5;

pub const PARAMETER: usize = 6;
