// The books, which judge action options.
#![tactic(auto)]

pub mod book;
#[cfg(test)]
mod pile;
pub mod plain;
pub mod shipped;
