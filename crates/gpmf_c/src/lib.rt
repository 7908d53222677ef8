// The library for other languages, as C links it: each function that `gpmf_basics`, `gpmf_reading` and `gpmf_values`
// export, with the same clauses, and as its body the call of it. A static library exports what stands in it, and no crate
// can use one. `tools/c-faces` writes the files beside this one.

#![tactic(auto)]

pub mod axes_face;
pub mod group_face;
pub mod item_face;
pub mod listing_face;
pub mod number_face;
pub mod packet_face;
pub mod print_face;
pub mod reading_face;
pub mod text_face;
pub mod value_face;
