// Refusal 11, whose word is factor, by the model's leaves and in time linear in the network; the first refusal of a network.
#![tactic(auto)]

mod clear;
mod factor;
mod first;

pub use clear::Clear;
pub use first::judge;
