// The model file's shared parts, written: vm squared of each bus, then angle, voltage products and flows of each branch.
#![tactic(auto)]

mod parts;

pub use parts::shared_parts;
