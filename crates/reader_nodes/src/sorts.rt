// The sorts of operands: of plain words first, then of nodes.
pub const NONE: usize = 0;

pub const IDENTIFIERS: usize = 1;

pub const SCHEMA_NAMES: usize = 2;

pub const STROKES: usize = 3;

pub const NUMBERS: usize = 4;

pub const COUNTS: usize = 5;

pub const LAST_PLAIN: usize = COUNTS;

pub const EXPRESSIONS: usize = 6;

pub const SCHEMA_EXPRESSIONS: usize = 7;

pub const PREDICATES: usize = 8;

pub const TEXTS: usize = 9;

pub const LINES: usize = 10;

pub const PARAGRAPHS: usize = 11;

pub const INCLUDES: usize = 12;
