// The limits of document 01. A document: nodes and words.
pub const NODES: usize = 1024;

pub const DOCUMENT_WORDS: usize = 16384;

// Nodes from the Document down to any node, both counted.
pub const DEPTH: usize = 12;

// Texts nested.
pub const TEXTS: usize = 4;

// Identifiers in the Decl lines of one Text.
pub const DECLARED: usize = 6;

// Nodes below a Decl, Include, Abbreviation or relation.
pub const BELOW: usize = 24;

// Identifiers in Given, Axiom Decl and Abbreviation together.
pub const GLOBALS: usize = 64;

// Parameters, or actuals.
pub const PARAMETERS: usize = 4;

// Rename pairs of an Include.
pub const RENAMES: usize = 6;

// The fewest and the most parts of a tuple or product.
pub const FEWEST_PARTS: usize = 2;

pub const PARTS: usize = 6;

// The largest Number.
pub const NUMBER: usize = 2147483647;

// The size of a declared type or of a component's type, and the identifiers of a signature.
pub const SIZE: usize = 32;

pub const SIGNATURE: usize = 16;

// Words of a value, and elements of a given.
pub const VALUE: usize = 64;

pub const ELEMENTS: usize = 20;

// The fewest words of a check's work area, and of a run's.
pub const CHECK_WORK_WORDS: usize = 16384;

pub const RUN_WORK_WORDS: usize = 16384;

// The words of a program's dictionary area.
pub const DICTIONARY_AREA_WORDS: usize = 16384;
