// The kinds of an answer that is told to a caller in another language: the number that each answer begins with.
// Numbers and no enum: the C interface.

#![tactic(auto)]

// Refused, with a number and a place.
pub const REFUSED: u32 = 0;
// There, with its values.
pub const IS: u32 = 1;
// There is none.
pub const NOTHING: u32 = 2;
// Not known before more is lent.
pub const MORE: u32 = 3;
