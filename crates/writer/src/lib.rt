// The model file in the making: its words by kind and load, and the writer that goes through words and constants at once.
#![tactic(auto)]

pub mod word;
mod writer;

pub use word::{WordKind, model_word};
pub use writer::ModelWriter;
