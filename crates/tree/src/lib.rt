// The reading of a filter as an indented tree, a line for each attribute.
#![tactic(auto)]

pub mod action;
pub mod filter_option;
pub mod selector;
pub mod whole;
