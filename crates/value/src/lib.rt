// What a value is: what it is called, its rows and columns, and what is answered of it.

#![tactic(auto)]

// What a value is called, each with the number that other languages know it by.
#[derive(Clone, Copy, PartialEq, Eq, Debug)]
pub enum Kind {
    Single = 0,
    List = 1,
    Vector = 2,
    TimedVector = 3,
    Nested = 4,
    Text = 5,
    Texts = 6,
    Identifier = 7,
    DateTime = 8,
    Quaternions = 9,
    Structures = 10,
    Unknown = 11,
}

// Rows, and columns in the first of them: each row has as many, but for those of several texts (`Texts`).
#[derive(Clone, Copy, PartialEq, Eq, Debug)]
pub struct Shape {
    pub kind: Kind,
    pub rows: usize,
    pub columns: usize,
}

// Rows of elements that are all of one letter.
#[derive(Clone, Copy, PartialEq, Eq, Debug)]
pub struct Grid {
    pub kind: Kind,
    pub rows: usize,
    pub columns: usize,
    pub letter: u8,
}

// What is to be read of an item, by the letter of its type.
#[derive(Clone, Copy, PartialEq, Eq, Debug)]
pub enum Plan {
    // rows of elements of one letter
    Even(Grid),
    Texts,
    Date,
    Structures,
}
