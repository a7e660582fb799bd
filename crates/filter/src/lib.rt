// Whole filters: reading and writing out with a book.
#![tactic(auto)]

mod accepted;
mod action_options;
mod actions;
mod attributes;
mod emission;
mod form;
mod options;
mod part;
pub mod reading;
pub mod sameness;
mod tally;
pub mod writing;
