// The library for other languages, third part: the values of items, what the rows of a group lead to, axes.
// Each public call under C's calling convention: a slice is a pointer and then a length, and an answer a record of numbers (crates `answers`, `value_answers` and `orientation_answers`).

#![tactic(auto)]

pub mod axes_face;
pub mod group_face;
pub mod value_face;
