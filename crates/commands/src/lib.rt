// The commands of the tool, and how they are called.
#![tactic(auto)]

pub mod command;
pub mod usage;
