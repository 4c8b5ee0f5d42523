// The program `depot` but for reading and writing: from the bytes of standard input to the text for standard output.
#![tactic(auto)]

mod answer;
mod input;
mod text;

pub use answer::depot;
