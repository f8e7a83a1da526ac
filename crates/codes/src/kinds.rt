// The kinds of nodes.
pub const DOCUMENT: usize = 1;

// Paragraphs.
pub const GIVEN: usize = 2;

pub const AXIOM: usize = 3;

pub const SCHEMA: usize = 4;

pub const ABBREVIATION: usize = 5;

pub const CONSTRAINT: usize = 6;

// Texts and their lines; with Conjunction the schema expressions.
pub const TEXT: usize = 10;

pub const DECL: usize = 11;

pub const INCLUDE: usize = 12;

pub const CONJUNCTION: usize = 15;

// Predicates.
pub const TRUE: usize = 20;

pub const EQUAL: usize = 21;

pub const MEMBER: usize = 22;

pub const AT_MOST: usize = 23;

pub const NOT: usize = 24;

pub const AND: usize = 25;

pub const OR: usize = 26;

pub const IMPLIES: usize = 27;

pub const FORALL: usize = 28;

pub const EXISTS: usize = 29;

// Expressions.
pub const REF: usize = 30;

pub const NUMBER: usize = 31;

// The set ℤ.
pub const INTEGERS: usize = 32;

pub const SET: usize = 33;

pub const TUPLE: usize = 34;

pub const PRODUCT: usize = 35;

pub const POWER: usize = 36;

pub const APPLY: usize = 37;

pub const SELECT: usize = 38;

pub const THETA: usize = 39;

pub const SCHEMA_SET: usize = 40;

pub const PLUS: usize = 41;

pub const MINUS: usize = 42;

pub const TIMES: usize = 43;

pub const DIV: usize = 44;

pub const MOD: usize = 45;

pub const COMPREHENSION: usize = 46;
