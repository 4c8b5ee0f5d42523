// Compile's three column lists: lower, upper, start. Each is written section by section: va, vm, pg, qg, epigraphs.
#![tactic(auto)]

mod column_lists;
mod sections;

pub use column_lists::{write_column_lower, write_column_start, write_column_upper};
