// The specification of the filter catalogue: what bytes, books, readings, written forms, pages and cards mean, and the laws between them.
#![tactic(auto)]

pub mod fault;
pub mod laws;
pub mod words;
