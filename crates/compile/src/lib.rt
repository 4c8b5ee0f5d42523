// compile_ac_opf_model: from the network file to the model file.
#![tactic(auto)]

mod boundary;
mod decide;
mod model;

pub use boundary::{
    fervoulk_columns, fervoulk_compile, fervoulk_constants, fervoulk_objective_constant,
    fervoulk_rows, fervoulk_shared, fervoulk_words,
};
pub use decide::sized;
pub use model::compile;

// The results' lengths, the number of shared parts, and the objective constant. By default those of no file.
#[derive(Clone, Copy, Debug, Default, PartialEq)]
pub struct Compiled {
    pub words: usize,
    pub constants: usize,
    pub columns: usize,
    pub rows: usize,
    pub shared: usize,
    pub objective: f64,
}
