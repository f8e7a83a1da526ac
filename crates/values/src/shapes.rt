// What the words of values and types begin with, as the definitions of specs/ tell it apart and the crate `values_forms` computes it.

// What begins somewhere: a value without parts, with its words, or a set or a tuple, with its count.
// No Option: nothing asks with `?` whether it is broken, and each case would be written Some of a case.
#[derive(Clone, Copy)]
pub enum Shape {
    Broken,
    Leaf(usize),
    Set(usize),
    Tuple(usize),
}

// A former of types without types, with its words; or the words before its types, those before each of them, and how many types follow.
#[derive(Clone, Copy)]
pub enum Former {
    Plain(usize),
    Group { start: usize, skip: usize, n: usize },
}

// What is to be asked of a value against a type: nothing more, or its n members or parts against the types from a place of the
// type's words on, each against its own or all against one.
// No Option: a failed test, and one that passes with nothing left, are two answers beside the third.
#[derive(Clone, Copy)]
pub enum Test {
    Fails,
    Passes,
    Each { own: bool, start: usize, n: usize },
}
