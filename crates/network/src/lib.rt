// The network file: its words and numbers, where they stand, and refusals 1 to 3.
#![tactic(auto)]

mod form;
mod formed;
mod layout;
mod limits;
mod records;
mod sizes;
mod tables;
mod walk;
mod word;
mod words;

pub use base::Refusal;
pub use form::Form;
pub use formed::{form_of, tables_of, words_form};
pub use layout::{
    BRANCH_NUMBERS, BUS_NUMBERS, Cursor, GENERATOR_NUMBERS, Layout, MOST_BRANCHES, MOST_BUSES,
    MOST_GENERATORS, MOST_POINTS, MOST_REFERENCES, POINT_NUMBERS, layout_of,
};
pub use records::{Branch, Bus, Generator};
pub use sizes::{Sizes, sizes_of};
pub use tables::Tables;
pub use walk::Generators;
pub use word::{
    Kind, UnknownKind, branch_angled, branch_from, branch_limited, branch_to, bus_bounded,
    generator_bounded, generator_bus, generator_points, header_costs, load_right, reference_bus,
};
