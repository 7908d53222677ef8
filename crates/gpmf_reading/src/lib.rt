// The library for other languages, second part: readings and their rows, packets, listings and takes; all that reaches the walk.
// Each public call under C's calling convention: a slice is a pointer and then a length, and an answer a record of numbers (crates `answers` and `reading_answers`).

#![tactic(auto)]

pub mod listing_face;
pub mod packet_face;
pub mod reading_face;
