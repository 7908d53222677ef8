// The library for other languages, first part: keys and headers, numbers, texts.
// Each public call under C's calling convention: a slice is a pointer and then a length, and an answer a record of numbers (crates `answers` and `value_answers`).

#![tactic(auto)]

pub mod item_face;
pub mod number_face;
pub mod print_face;
pub mod text_face;
