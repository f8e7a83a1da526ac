// An identifier is name times STROKES plus stroke: 0 none, 1 ', 2 ?, 3 !. A schema name is a bare name.
pub const STROKES: usize = 4;

pub const LARGEST_STROKE: usize = STROKES - 1;

// Names count from 1.
pub const LARGEST_NAME: usize = 16383;
